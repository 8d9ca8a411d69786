// What calls need to know of the models: their formals.
ghost use Rattle.std.specs.Prelude.{◌≡◌, ◌≤◌, ◌++◌, ◌∷◌, ◌||◌, [], map, length, List, OnOk, IfOk, All};
ghost use Rattle.rm_base.specs.Words.{Word};
ghost use Rattle.rm_model.specs.Value.{is_among};
ghost use Rattle.rm_model.specs.Words.{is_word};
ghost use Rattle.blif_lines.specs.Reading.{IsWithin};
ghost use Rattle.blif_format.specs.Grammar.{words_of};
ghost use Rattle.blif_reader.specs.Lines.{words_at};
ghost use Rattle.blif_flatten.specs.Sections.{plain_module};
ghost use Rattle.blif_flatten.specs.CallFaults.{plain_modules};
ghost use Rattle.blif_flatten.specs.Inner.Interfaces.{AreFormals, AreInterfaces, IsInterface};
ghost use Rattle.blif_flatten.specs.Inner.Tokens.{AreWithin, IsLineWithin, IsSectionWithin, section_at, sections_at, words_behind, words_in};

use crate::models::begins_with;
use crate::sections::Section;
use blif_lines::Token;
use blif_reader::word_of;
use rm_base::NoMemory;
use rm_model::{Listed, NameKeys, NameTable};
use std::alloc::Global;

/// Names that are looked up, each once, and their list.
#[derive(Drop)]
pub struct Formals<'a> {
    pub table: NameTable<'a>,
    pub names: Vec<&'a [u8]>,
}

fn include<'a>(formals: &mut Formals<'a>, name: &'a [u8]) -> Result<(), NoMemory>
    ensures { (had : List Word) → AreFormals formals.old had → OnOk result (AreFormals formals.new (had ++ name.now ∷ [])) }
{
    if formals.table.has(name) {
        return Ok(());
    }
    formals.table.push(name)?;
    formals.names.push(name)?;
    Ok(())
}

fn include_words<'a>(
    formals: &mut Formals<'a>,
    text: &'a [u8],
    words: &[Token],
) -> Result<(), NoMemory>
    requires { All (IsWithin text.now) words.now }
    ensures { (had : List Word) → AreFormals formals.old had → OnOk result (AreFormals formals.new (had ++ words_at text.now words.now)) }
{
    for word in words {
        include(formals, word_of(text, word))?;
    }
    Ok(())
}

fn include_line<'a>(
    formals: &mut Formals<'a>,
    text: &'a [u8],
    line: &[Token],
    command: &str,
) -> Result<(), NoMemory>
    requires { IsLineWithin text.now line.now }
    ensures { (had : List Word) → AreFormals formals.old had → OnOk result (AreFormals formals.new (had ++ words_behind command.now (words_at text.now line.now))) }
{
    if !begins_with(text, line, command) {
        return Ok(());
    }
    match line.split_first() {
        Some((_, rest)) => include_words(formals, text, rest),
        None => Ok(()),
    }
}

fn include_lines<'a>(
    formals: &mut Formals<'a>,
    text: &'a [u8],
    body: &[Listed<Token>],
    command: &str,
) -> Result<(), NoMemory>
    requires { All (IsLineWithin text.now) body.now }
    ensures { (had : List Word) → AreFormals formals.old had → OnOk result (AreFormals formals.new (had ++ words_of command.now (words_in text.now body.now))) }
{
    for line in body {
        include_line(formals, text, line.items(), command)?;
    }
    Ok(())
}

fn no_formals<'a>(alloc: Global, keys: NameKeys) -> Formals<'a>
    ensures { AreFormals result [] }
{
    Formals {
        table: NameTable::new(alloc, keys),
        names: Vec::new(alloc),
    }
}

/// The formals of a model: its inputs and clocks, and its outputs.
#[derive(Drop)]
pub struct Interface<'a> {
    pub inward: Formals<'a>,
    pub outputs: Formals<'a>,
}

fn interface_of<'a>(
    alloc: Global,
    keys: NameKeys,
    text: &'a [u8],
    section: &Section,
) -> Result<Interface<'a>, NoMemory>
    requires { IsSectionWithin text.now section.now }
    ensures { IfOk result (λ i. IsInterface i (plain_module (section_at text.now section.now)).model) }
{
    let body = section.body.items();
    let mut inward = no_formals(alloc, keys);
    let mut outputs = no_formals(alloc, keys);
    include_lines(&mut inward, text, body, ".inputs")?;
    include_lines(&mut inward, text, body, ".clock")?;
    include_lines(&mut outputs, text, body, ".outputs")?;
    Ok(Interface { inward, outputs })
}

/// The formals of the model of each section.
pub fn interfaces_of<'a>(
    alloc: Global,
    keys: NameKeys,
    text: &'a [u8],
    sections: &[Section],
) -> Result<Vec<Interface<'a>>, NoMemory>
    requires { AreWithin text.now sections.now }
    ensures { IfOk result (λ all. AreInterfaces all.items (plain_modules (sections_at text.now sections.now))) }
{
    let mut interfaces = Vec::new(alloc);
    for section in sections {
        interfaces.push(interface_of(alloc, keys, text, section)?)?;
    }
    Ok(interfaces)
}
