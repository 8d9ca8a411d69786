// The model of a section.
ghost use Rattle.std.specs.Prelude.{◌≡◌, ◌≤◌, ◌<◌, ◌+◌, ◌^◌, ◌++◌, [], length, map, take, List, ℕ, IfOk, OnOk, All};
ghost use Rattle.std.specs.List.{filter_map, cons_option};
ghost use Rattle.blif_lines.specs.Reading.{IsWithin};
ghost use Rattle.blif_format.specs.Grammar.{before, begins_with as begins, is_dotted, words_of as words_said};
ghost use Rattle.blif_reader.specs.Lines.{spots_at, words_at};
ghost use Rattle.blif_flatten.specs.Sections.{cover_from, cover_on, covers_from, is_on_from, is_on_row as on_row, latch_in, names_place, plain_module, row_from, second_word, title_place, token_count};
ghost use Rattle.blif_flatten.specs.Inner.Tokens.{IsLineWithin, IsSectionWithin, lines_at, section_at, with_links, words_behind, words_in};

use crate::modules::{Link, Module};
use crate::sections::Section;
use blif_lines::Token;
use blif_reader::{cover_of, is_text, latch_of, push_names, row_of, word_of};
use rm_base::{NoMemory, Place};
use rm_model::{Cover, Latch, Listed, Model, Name, Row};
use std::alloc::Global;

/// Whether a line begins with a word.
pub fn begins_with(text: &[u8], line: &[Token], word: &str) -> bool
    requires { All (IsWithin text.now) line.now }
    ensures { result ≡ begins word.now (words_at text.now line.now) }
{
    match line.first() {
        Some(first) => is_text(word_of(text, first), word),
        None => false,
    }
}

fn push_words(
    alloc: Global,
    names: &mut Listed<Name>,
    text: &[u8],
    line: &[Token],
    command: &str,
) -> Result<(), NoMemory>
    requires { IsLineWithin text.now line.now }
    ensures { OnOk result (names.new ≡ names.old ++ words_behind command.now (words_at text.now line.now)) }
{
    if !begins_with(text, line, command) {
        return Ok(());
    }
    match line.split_first() {
        Some((_, rest)) => push_names(alloc, names, text, rest),
        None => Ok(()),
    }
}

// The words behind all lines of a command.
fn words_of(
    alloc: Global,
    text: &[u8],
    body: &[Listed<Token>],
    command: &str,
) -> Result<Listed<Name>, NoMemory>
    requires { All (IsLineWithin text.now) body.now }
    ensures { IfOk result (λ names. names ≡ words_said command.now (words_in text.now body.now)) }
{
    let mut names = Listed::new(alloc);
    for line in body {
        push_words(alloc, &mut names, text, line.items(), command)?;
    }
    Ok(names)
}

fn push_latch(
    alloc: Global,
    latches: &mut Listed<Latch>,
    text: &[u8],
    line: &[Token],
) -> Result<(), NoMemory>
    requires { IsLineWithin text.now line.now }
    ensures { OnOk result (latches.new ≡ latches.old ++ cons_option (latch_in (words_at text.now line.now)) []) }
{
    if !begins_with(text, line, ".latch") {
        return Ok(());
    }
    match line.split_first() {
        Some((_, rest)) => {
            if rest.len() < 2 {
                return Ok(());
            }
            latches.push(latch_of(alloc, text, rest)?)?;
            Ok(())
        }
        None => Ok(()),
    }
}

fn latches_of(alloc: Global, text: &[u8], body: &[Listed<Token>]) -> Result<Listed<Latch>, NoMemory>
    requires { All (IsLineWithin text.now) body.now }
    ensures { IfOk result (λ latches. latches ≡ filter_map latch_in (words_in text.now body.now)) }
{
    let mut latches = Listed::new(alloc);
    for line in body {
        push_latch(alloc, &mut latches, text, line.items())?;
    }
    Ok(latches)
}

fn is_dotted_line(text: &[u8], line: &[Token]) -> bool
    requires { IsLineWithin text.now line.now }
    ensures { result ≡ is_dotted (words_at text.now line.now) }
{
    match line.first() {
        Some(first) => match word_of(text, first).first() {
            Some(b) => *b == 46,
            None => false,
        },
        None => false,
    }
}

// How many lines stand before the first that begins with a dot.
fn row_count(text: &[u8], lines: &[Listed<Token>]) -> usize
    requires { All (IsLineWithin text.now) lines.now }
    ensures within { result ≤ length lines.now }
    ensures rows { take result (words_in text.now lines.now) ≡ before is_dotted (words_in text.now lines.now) }
{
    for (i, line) in lines.iter().enumerate() {
        if is_dotted_line(text, line.items()) {
            return i;
        }
    }
    lines.len()
}

fn row_at(alloc: Global, text: &[u8], line: &[Token]) -> Result<Row, NoMemory>
    requires { IsLineWithin text.now line.now }
    ensures { IfOk result (λ row. row ≡ row_from (words_at text.now line.now)) }
{
    if line.len() < 2 {
        return Ok(Listed::new(alloc));
    }
    row_of(alloc, word_of(text, &line[0]))
}

fn rows_of(alloc: Global, text: &[u8], lines: &[Listed<Token>]) -> Result<Listed<Row>, NoMemory>
    requires { All (IsLineWithin text.now) lines.now }
    ensures { IfOk result (λ rows. rows ≡ map row_from (words_in text.now lines.now)) }
{
    let mut rows = Vec::new(alloc);
    for line in lines {
        rows.push(row_at(alloc, text, line.items())?)?;
    }
    Ok(Listed::from_vec(rows))
}

fn is_on_row(text: &[u8], line: &[Token]) -> bool
    requires { IsLineWithin text.now line.now }
    ensures { result ≡ on_row (words_at text.now line.now) }
{
    if line.len() > 1 {
        return is_text(word_of(text, &line[1]), "1");
    }
    match line.first() {
        Some(ending) => is_text(word_of(text, ending), "1"),
        None => false,
    }
}

// The first row's ending counts.
fn is_on(text: &[u8], rows: &[Listed<Token>]) -> bool
    requires { All (IsLineWithin text.now) rows.now }
    ensures { result ≡ is_on_from (words_in text.now rows.now) }
{
    match rows.first() {
        Some(row) => is_on_row(text, row.items()),
        None => true,
    }
}

// The cover with its words and its rows.
fn cover_with(
    alloc: Global,
    text: &[u8],
    words: &[Token],
    rows: &[Listed<Token>],
) -> Result<Cover, NoMemory>
    requires words { All (IsWithin text.now) words.now }
    requires some { 0 < length words.now }
    requires rows { All (IsLineWithin text.now) rows.now }
    ensures { IfOk result (λ cover. cover ≡ cover_from (words_at text.now words.now, words_in text.now rows.now)) }
{
    let mut cover = cover_of(alloc, text, words)?;
    cover.on = is_on(text, rows);
    cover.rows = rows_of(alloc, text, rows)?;
    Ok(cover)
}

// Adds the cover of a line, if it is a `.names`, with the rows behind it.
fn push_cover(
    alloc: Global,
    covers: &mut Listed<Cover>,
    text: &[u8],
    line: &[Token],
    behind: &[Listed<Token>],
) -> Result<(), NoMemory>
    requires line { IsLineWithin text.now line.now }
    requires behind { All (IsLineWithin text.now) behind.now }
    ensures { OnOk result (covers.new ≡ covers.old ++ cons_option (cover_on (words_at text.now line.now) (words_in text.now behind.now)) []) }
{
    if !begins_with(text, line, ".names") {
        return Ok(());
    }
    match line.split_first() {
        Some((_, words)) => {
            if words.is_empty() {
                return Ok(());
            }
            let rows = &behind[..row_count(text, behind)];
            covers.push(cover_with(alloc, text, words, rows)?)?;
            Ok(())
        }
        None => Ok(()),
    }
}

fn covers_of(alloc: Global, text: &[u8], body: &[Listed<Token>]) -> Result<Listed<Cover>, NoMemory>
    requires { All (IsLineWithin text.now) body.now }
    ensures { IfOk result (λ covers. covers ≡ covers_from (words_in text.now body.now)) }
{
    let mut covers = Listed::new(alloc);
    for (i, line) in body.iter().enumerate() {
        push_cover(alloc, &mut covers, text, line.items(), &body[i + 1..])?;
    }
    Ok(covers)
}

fn push_place(places: &mut Listed<Place>, text: &[u8], line: &[Token]) -> Result<(), NoMemory>
    requires { IsLineWithin text.now line.now }
    ensures { OnOk result (places.new ≡ places.old ++ cons_option (names_place (spots_at text.now line.now)) []) }
{
    if line.len() < 2 {
        return Ok(());
    }
    if !begins_with(text, line, ".names") {
        return Ok(());
    }
    places.push(line[0].place)
}

fn places_of(alloc: Global, text: &[u8], body: &[Listed<Token>]) -> Result<Listed<Place>, NoMemory>
    requires { All (IsLineWithin text.now) body.now }
    ensures { IfOk result (λ places. places ≡ filter_map names_place (lines_at text.now body.now)) }
{
    let mut places = Listed::new(alloc);
    for line in body {
        push_place(&mut places, text, line.items())?;
    }
    Ok(places)
}

fn count_tokens(title: &[Token], body: &[Listed<Token>]) -> u64
    requires { (text : List ℕ) → length title.now + token_count (lines_at text body.now) ≤ 2 ^ 32 }
    ensures { (text : List ℕ) → result ≡ length title.now + token_count (lines_at text body.now) }
{
    let mut count = title.len() as u64;
    for line in body {
        count += line.len() as u64;
    }
    count
}

fn name_of(alloc: Global, text: &[u8], title: &[Token]) -> Result<Name, NoMemory>
    requires { IsLineWithin text.now title.now }
    ensures { IfOk result (λ name. name ≡ second_word (words_at text.now title.now)) }
{
    if title.len() < 2 {
        return Ok(Listed::new(alloc));
    }
    Ok(Listed::from_vec(Vec::from_slice(alloc, word_of(text, &title[1]))?))
}

fn place_of(title: &[Token]) -> Place
    ensures { (text : List ℕ) → result ≡ title_place (spots_at text title.now) }
{
    match title.first() {
        Some(first) => first.place,
        None => Place { line: 1, column: 1 },
    }
}

fn model_of(alloc: Global, text: &[u8], section: &Section) -> Result<Model, NoMemory>
    requires { IsSectionWithin text.now section.now }
    ensures { IfOk result (λ m. m ≡ (plain_module (section_at text.now section.now)).model) }
{
    let body = section.body.items();
    let name = name_of(alloc, text, section.title.items())?;
    let inputs = words_of(alloc, text, body, ".inputs")?;
    let clocks = words_of(alloc, text, body, ".clock")?;
    let outputs = words_of(alloc, text, body, ".outputs")?;
    let latches = latches_of(alloc, text, body)?;
    let covers = covers_of(alloc, text, body)?;
    Ok(Model {
        name,
        inputs,
        clocks,
        outputs,
        latches,
        covers,
    })
}

/// The model of a section with its calls.
pub fn module_of(
    alloc: Global,
    text: &[u8],
    section: &Section,
    links: Listed<Link>,
) -> Result<Module, NoMemory>
    requires within { IsSectionWithin text.now section.now }
    ensures { IfOk result (λ m. m ≡ with_links (plain_module (section_at text.now section.now)) links) }
{
    let model = model_of(alloc, text, section)?;
    let places = places_of(alloc, text, section.body.items())?;
    Ok(Module {
        place: place_of(section.title.items()),
        model,
        places,
        tokens: count_tokens(section.title.items(), section.body.items()),
        links,
    })
}
