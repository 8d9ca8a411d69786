// The model that the lines so far say.
ghost use Rattle.std.specs.Prelude.{◌≡◌, ◌≢◌, ◌≤◌, ◌<◌, ◌+◌, ◌-◌, ◌^◌, ◌++◌, ◌∷◌, [], length, map, true, List, ℕ, OnOk, OnErr, IfOk, IfSome, All, None, Some, codes};
ghost use Rattle.rm_model.specs.Words.{is_word, kind_word, literal_byte};
ghost use Rattle.rm_base.specs.Words.{Word};
ghost use Rattle.rm_model.specs.Value.{is_among};
ghost use Rattle.blif_lines.specs.Reading.{spot_of, IsWithin};
ghost use Rattle.blif_format.specs.Text.{Line, control_word, timing_words, init_words, latch_words, cover_words, row_words};
ghost use Rattle.blif_format.specs.FirstFault.{Said, nothing_said, words_fault, OpenCover as SaidCover, latch_types, init_values, is_literal as literal_bytes};
ghost use Rattle.blif_reader.specs.Inner.Drafts.{IsDraft, HasLine, FitsCover, all_covers, model_in, Changes, IsKnown, RowsAre, CurrentIs, HasRow, AddsRow, last_token, inputs_in};
ghost use Rattle.blif_reader.specs.Words.{IsFitLatch, control_from, init_from, kind_from, latch_from, literal_from, timing_from};
ghost use Rattle.blif_reader.specs.Lines.{words_at, spots_at, line_at, IsLatchLine, are_literals, init_part, timing_part};

use crate::words::{command_of, is_text, least_words, word_of};
use blif_format::Command;
use blif_lines::Token;
use rm_base::NoMemory;
use rm_model::{Cover, Latch, LatchKind, Listed, Literal, Model, Name, Row, Timing};
use std::alloc::Global;

fn name_at(alloc: Global, text: &[u8], token: &Token) -> Result<Name, NoMemory>
    requires { IsWithin text.now token.now }
    ensures { IfOk result (λ name. name ≡ (spot_of text.now token.now).word) }
{
    Ok(Listed::from_vec(Vec::from_slice(alloc, word_of(text, token))?))
}

/// Adds the words as names.
pub fn push_names(
    alloc: Global,
    names: &mut Listed<Name>,
    text: &[u8],
    words: &[Token],
) -> Result<(), NoMemory>
    requires { All (IsWithin text.now) words.now }
    ensures { OnOk result (names.new ≡ names.old ++ words_at text.now words.now) }
{
    for token in words {
        names.push(name_at(alloc, text, token)?)?;
    }
    Ok(())
}

fn kind_of(word: &[u8]) -> LatchKind
    ensures read { result ≡ kind_from word.now }
    ensures word { is_among latch_types word.now ≡ true → kind_word result ≡ word.now }
{
    if is_text(word, "fe") {
        return LatchKind::Fe;
    }
    if is_text(word, "re") {
        return LatchKind::Re;
    }
    if is_text(word, "ah") {
        return LatchKind::Ah;
    }
    if is_text(word, "al") {
        return LatchKind::Al;
    }
    LatchKind::As
}

fn control_of(alloc: Global, text: &[u8], token: &Token) -> Result<Option<Name>, NoMemory>
    requires { IsWithin text.now token.now }
    ensures read { IfOk result (λ name. name ≡ control_from (spot_of text.now token.now).word) }
    ensures word { IfOk result (λ name. control_word name ≡ (spot_of text.now token.now).word) }
    ensures name { IfOk result (λ name. IfSome name (λ x. x ≢ codes "NIL")) }
{
    if is_text(word_of(text, token), "NIL") {
        return Ok(None);
    }
    let name = name_at(alloc, text, token)?;
    Ok(Some(name))
}

fn timing_of(alloc: Global, text: &[u8], kind: &Token, control: &Token) -> Result<Timing, NoMemory>
    requires kind { IsWithin text.now kind.now }
    requires control { IsWithin text.now control.now }
    ensures read { IfOk result (λ t. t ≡ timing_from (spot_of text.now kind.now).word (spot_of text.now control.now).word) }
    ensures words { is_among latch_types (spot_of text.now kind.now).word ≡ true → IfOk result (λ t. timing_words (Some t) ≡ (spot_of text.now kind.now).word ∷ (spot_of text.now control.now).word ∷ []) }
    ensures name { IfOk result (λ t. IfSome t.control (λ x. x ≢ codes "NIL")) }
{
    let control = control_of(alloc, text, control)?;
    Ok(Timing {
        kind: kind_of(word_of(text, kind)),
        control,
    })
}

fn init_of(word: &[u8]) -> u8
    ensures read { result ≡ init_from word.now }
    ensures least { result ≤ 3 }
    ensures words { is_among init_values word.now ≡ true → init_words (Some result) ≡ word.now ∷ [] }
{
    if is_text(word, "0") {
        return 0;
    }
    if is_text(word, "1") {
        return 1;
    }
    if is_text(word, "2") {
        return 2;
    }
    3
}

fn latch_init(text: &[u8], words: &[Token]) -> Option<u8>
    requires { All (IsWithin text.now) words.now }
    ensures read { 2 ≤ length words.now → result ≡ (latch_from (words_at text.now words.now)).init }
    ensures least { IfSome result (λ n. n ≤ 3) }
    ensures words { IsLatchLine (words_at text.now words.now) → init_words result ≡ init_part (words_at text.now words.now) }
{
    if words.len() == 3 {
        return Some(init_of(word_of(text, &words[2])));
    }
    if words.len() > 4 {
        return Some(init_of(word_of(text, &words[4])));
    }
    None
}

fn latch_timing(alloc: Global, text: &[u8], words: &[Token]) -> Result<Option<Timing>, NoMemory>
    requires { All (IsWithin text.now) words.now }
    ensures read { 2 ≤ length words.now → IfOk result (λ t. t ≡ (latch_from (words_at text.now words.now)).timing) }
    ensures name { IfOk result (λ t. IfSome t (λ u. IfSome u.control (λ x. x ≢ codes "NIL"))) }
    ensures words { IsLatchLine (words_at text.now words.now) → IfOk result (λ t. timing_words t ≡ timing_part (words_at text.now words.now)) }
{
    if words.len() > 3 {
        match timing_of(alloc, text, &words[2], &words[3]) {
            Ok(timing) => return Ok(Some(timing)),
            Err(fault) => return Err(fault),
        }
    }
    Ok(None)
}

/// The latch of the words behind `.latch`.
pub fn latch_of(alloc: Global, text: &[u8], words: &[Token]) -> Result<Latch, NoMemory>
    requires within { All (IsWithin text.now) words.now }
    requires two { 2 ≤ length words.now }
    ensures read { IfOk result (λ l. l ≡ latch_from (words_at text.now words.now)) }
    ensures fit { IfOk result IsFitLatch }
    ensures words { IsLatchLine (words_at text.now words.now) → IfOk result (λ l. latch_words l ≡ words_at text.now words.now) }
{
    let input = name_at(alloc, text, &words[0])?;
    let output = name_at(alloc, text, &words[1])?;
    let timing = latch_timing(alloc, text, words)?;
    let init = latch_init(text, words);
    Ok(Latch {
        input,
        output,
        timing,
        init,
    })
}

/// A cover without rows so far; the last name is its output.
pub fn cover_of(alloc: Global, text: &[u8], words: &[Token]) -> Result<Cover, NoMemory>
    requires within { All (IsWithin text.now) words.now }
    requires some { 0 < length words.now }
    ensures names { IfOk result (λ c. c.inputs ++ c.output ∷ [] ≡ words_at text.now words.now) }
    ensures rows { IfOk result (λ c. c.rows ≡ []) }
    ensures on { IfOk result (λ c. c.on ≡ true) }
{
    let last = words.len() - 1;
    let mut inputs = Listed::from_vec(Vec::with_capacity(alloc, last)?);
    push_names(alloc, &mut inputs, text, &words[..last])?;
    let output = name_at(alloc, text, &words[last])?;
    let rows = Vec::with_capacity(alloc, 1)?;
    Ok(Cover {
        inputs,
        output,
        on: true,
        rows: Listed::from_vec(rows),
    })
}

fn literal_of(b: u8) -> Literal
    ensures read { result ≡ literal_from b }
    ensures byte { literal_bytes b ≡ true → literal_byte result ≡ b }
{
    if b == 48 {
        return Literal::Zero;
    }
    if b == 49 {
        return Literal::One;
    }
    Literal::Any
}

/// The literals of the input part of a row.
pub fn row_of(alloc: Global, word: &[u8]) -> Result<Row, NoMemory>
    ensures read { IfOk result (λ row. row ≡ map literal_from word.now) }
    ensures bytes { are_literals word.now ≡ true → IfOk result (λ row. map literal_byte row ≡ word.now) }
{
    let mut row = Vec::with_capacity(alloc, word.len())?;
    for b in word {
        row.push(literal_of(*b))?;
    }
    Ok(Listed::from_vec(row))
}

/// The model that the lines so far say, but for the end of the last cover.
#[derive(Drop)]
pub struct Draft {
    pub name: Name,
    pub inputs: Listed<Name>,
    pub clocks: Listed<Name>,
    pub outputs: Listed<Name>,
    pub latches: Listed<Latch>,
    pub covers: Listed<Cover>,
    /// The last cover, while rows of it may follow.
    pub current: Option<Cover>,
}

// The last cover takes no more rows.
fn close(draft: &mut Draft) -> Result<(), NoMemory>
    ensures { OnOk result (draft.new ≡ record draft.old { covers = all_covers draft.old; current = None }) }
{
    match draft.current.take() {
        Some(cover) => {
            draft.covers.push(cover)?;
            Ok(())
        }
        None => Ok(()),
    }
}

fn add_known(
    alloc: Global,
    draft: &mut Draft,
    text: &[u8],
    command: Command,
    words: &[Token],
) -> Result<(), NoMemory>
    requires within { All (IsWithin text.now) words.now }
    requires closed { draft.old.current ≡ None }
    ensures { IsKnown command (words_at text.now words.now) → OnOk result (Changes command (words_at text.now words.now) draft.old draft.new) }
{
    if words.len() < least_words(command) {
        return Ok(());
    }
    match command {
        Command::Model => {
            draft.name = name_at(alloc, text, &words[0])?;
            Ok(())
        }
        Command::Inputs => push_names(alloc, &mut draft.inputs, text, words),
        Command::Outputs => push_names(alloc, &mut draft.outputs, text, words),
        Command::Clock => push_names(alloc, &mut draft.clocks, text, words),
        Command::Names => {
            draft.current = Some(cover_of(alloc, text, words)?);
            Ok(())
        }
        Command::Latch => {
            draft.latches.push(latch_of(alloc, text, words)?)?;
            Ok(())
        }
        Command::End => Ok(()),
    }
}

/// Adds a command, behind which no row belongs to the cover before it.
pub fn add_command(
    alloc: Global,
    draft: &mut Draft,
    text: &[u8],
    command: Command,
    words: &[Token],
) -> Result<(), NoMemory>
    requires within { All (IsWithin text.now) words.now }
    ensures { IsKnown command (words_at text.now words.now) → OnOk result (Changes command (words_at text.now words.now) draft.old draft.new) }
{
    close(draft)?;
    add_known(alloc, draft, text, command, words)
}

// The ending of a row that has no fault.
fn last_of(text: &[u8], first: &Token, rest: &[Token]) -> bool
    requires first { IsWithin text.now first.now }
    requires rest { All (IsWithin text.now) rest.now }
    ensures { result ≡ is_word (codes "1") (spot_of text.now (last_token first.now rest.now)).word }
{
    match rest.first() {
        Some(last) => is_text(word_of(text, last), "1"),
        None => is_text(word_of(text, first), "1"),
    }
}

// The input part of a row, which is empty where the row is its ending alone.
fn inputs_of<'a>(text: &'a [u8], first: &Token, rest: &[Token]) -> &'a [u8]
    requires { IsWithin text.now first.now }
    ensures { result.now ≡ inputs_in (spot_of text.now first.now).word rest.now }
{
    if rest.is_empty() {
        return &text[..0];
    }
    word_of(text, first)
}

fn with_row(
    alloc: Global,
    cover: Cover,
    text: &[u8],
    first: &Token,
    rest: &[Token],
) -> Result<Cover, NoMemory>
    requires first { IsWithin text.now first.now }
    requires rest { All (IsWithin text.now) rest.now }
    ensures { (o : SaidCover) → RowsAre o cover → FitsCover text.now first.now rest.now o → IfOk result (λ c. HasRow (spot_of text.now first.now) (spots_at text.now rest.now) o cover c) }
{
    let on = last_of(text, first, rest);
    let row = row_of(alloc, inputs_of(text, first, rest))?;
    let mut cover = cover;
    cover.rows.push(row)?;
    cover.on = on;
    Ok(cover)
}

/// Adds a row to the last cover.
pub fn add_row(
    alloc: Global,
    draft: &mut Draft,
    text: &[u8],
    first: &Token,
    rest: &[Token],
) -> Result<(), NoMemory>
    requires first { IsWithin text.now first.now }
    requires rest { All (IsWithin text.now) rest.now }
    ensures { (o : SaidCover) → CurrentIs (Some o) draft.old.current → FitsCover text.now first.now rest.now o → OnOk result (AddsRow (spot_of text.now first.now) (spots_at text.now rest.now) o draft.old draft.new) }
{
    match draft.current.take() {
        None => Ok(()),
        Some(cover) => {
            let cover = with_row(alloc, cover, text, first, rest)?;
            draft.current = Some(cover);
            Ok(())
        }
    }
}

/// Adds a line that has no fault.
pub fn add_line(
    alloc: Global,
    draft: &mut Draft,
    text: &[u8],
    first: &Token,
    rest: &[Token],
) -> Result<(), NoMemory>
    requires first { IsWithin text.now first.now }
    requires rest { All (IsWithin text.now) rest.now }
    ensures { (said : Said) (lines : List Line) → IsDraft said lines draft.old → words_fault said (line_at text.now first.now rest.now) ≡ None → OnOk result (HasLine said lines text.now first.now rest.now draft.new) }
{
    match command_of(word_of(text, first)) {
        Some(command) => add_command(alloc, draft, text, command, rest),
        None => add_row(alloc, draft, text, first, rest),
    }
}

pub fn new_draft(alloc: Global) -> Draft
    ensures { IsDraft nothing_said [] result }
{
    Draft {
        name: Listed::new(alloc),
        inputs: Listed::new(alloc),
        clocks: Listed::new(alloc),
        outputs: Listed::new(alloc),
        latches: Listed::new(alloc),
        covers: Listed::new(alloc),
        current: None,
    }
}

/// The model of the draft, whose last cover takes no more rows.
pub fn model_of(draft: Draft) -> Result<Model, NoMemory>
    ensures { IfOk result (λ m. m ≡ model_in draft) }
{
    let mut draft = draft;
    close(&mut draft)?;
    let Draft {
        name,
        inputs,
        clocks,
        outputs,
        latches,
        covers,
        current: _,
    } = draft;
    Ok(Model {
        name,
        inputs,
        clocks,
        outputs,
        latches,
        covers,
    })
}
