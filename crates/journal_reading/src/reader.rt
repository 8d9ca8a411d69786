// Reading a journal of either version as its bytes come.
ghost use Rattle.std.specs.Prelude.{◌≡◌, ◌≤◌, ◌++◌, IfErr, IfOk, OnErr, OnOk, false, length, true};
ghost use Rattle.journal_text.specs.declared.reader.Awaited.TheVariants as awaited;
ghost use Rattle.journal_binary.specs.Binary.{magic};
ghost use Rattle.journal_reading.specs.Streams.{BytesGive, FinishGives, GivesNone, LinesGive, NextGives, awaited_of, empty_reader, header, pushed};
ghost use Rattle.journal_reading.specs.Inner.Readers.{AreBytes, AreLines, IsForm, bytes_at, lines_at, parts as parts_from, pending_of};

use crate::faults::{JournalFault, Version};
use journal_binary::BinaryReader;
use journal_text::{Entry, JournalReader as LineReader};
use rm_base::NoMemory;
use std::alloc::Global;
use std::marker::Model;

// How many bytes tell version 2.
const FIRST: usize = 8;

// Too few bytes to tell the version, all of them those of version 2; or the text is of one version.
#[derive(Drop)]
pub(crate) enum Form {
    Undecided { bytes: Vec<u8> },
    Lines { reader: LineReader },
    Bytes { reader: BinaryReader },
}

/// Gives the entries of a journal of either version, whose text is pushed piece by piece.
#[derive(Drop)]
pub struct JournalReader {
    form: Form,
    alloc: Global,
}

impl Model for JournalReader {
    ghost use Rattle.journal_reading.specs.Streams.{Pending};

    ghost Value = { Pending };

    ghost use Rattle.journal_reading.specs.Inner.Readers.{IsForm, pending_of};

    ghost view = { λ r. pending_of r.form };

    ghost invariant = { λ r. IsForm r.form };
}

// Whether a byte is another than that of version 2 at its place.
fn parts(bytes: &[u8]) -> bool
    ensures { result ≡ parts_from magic bytes.now }
{
    let first = b"rambo 2\n";
    let common = if bytes.len() < FIRST {
        bytes.len()
    } else {
        FIRST
    };
    for place in 0..common {
        if bytes[place] != first[place] {
            return true;
        }
    }
    false
}

fn lines_form(alloc: Global, bytes: &[u8]) -> Result<Form, NoMemory>
    requires { parts_from magic bytes.now ≡ true }
    ensures form { IfOk result IsForm }
    ensures holds { IfOk result (λ f. pending_of f ≡ header bytes.now) }
{
    let mut reader = LineReader::new(alloc);
    reader.push(bytes)?;
    Ok(Form::Lines { reader })
}

fn bytes_form(alloc: Global, bytes: &[u8]) -> Result<Form, NoMemory>
    requires parts { parts_from magic bytes.now ≡ false }
    requires some { 8 ≤ length bytes.now }
    ensures form { IfOk result IsForm }
    ensures holds { IfOk result (λ f. pending_of f ≡ header bytes.now) }
{
    let mut reader = BinaryReader::new(alloc);
    reader.push(&bytes[FIRST..])?;
    Ok(Form::Bytes { reader })
}

// The form of a reader to which these bytes were pushed.
fn form_of(alloc: Global, bytes: Vec<u8>) -> Result<Form, NoMemory>
    ensures form { IfOk result IsForm }
    ensures holds { IfOk result (λ f. pending_of f ≡ header bytes.items) }
{
    if parts(bytes.as_slice()) {
        return lines_form(alloc, bytes.as_slice());
    }
    if bytes.len() < FIRST {
        return Ok(Form::Undecided { bytes });
    }
    bytes_form(alloc, bytes.as_slice())
}

// Both texts, one behind the other.
fn joined(alloc: Global, bytes: &[u8], piece: &[u8]) -> Result<Vec<u8>, NoMemory>
    ensures { IfOk result (λ text. text.items ≡ bytes.now ++ piece.now) }
{
    let mut text = Vec::from_slice(alloc, bytes)?;
    text.extend_from_slice(piece)?;
    Ok(text)
}

fn next_of_lines(reader: &mut LineReader) -> Result<Option<Entry>, JournalFault>
    ensures gives { LinesGive (lines_at reader.old.awaited reader.old) reader.old (lines_at reader.new.awaited reader.new) result }
    ensures kept { AreLines reader.old.awaited reader.old → AreLines reader.new.awaited reader.new }
{
    Ok(reader.next()?)
}

fn next_of_bytes(reader: &mut BinaryReader) -> Result<Option<Entry>, JournalFault>
    ensures gives { BytesGive (bytes_at reader.old.awaited reader.old) reader.old (bytes_at reader.new.awaited reader.new) result }
    ensures kept { AreBytes reader.old.awaited reader.old → AreBytes reader.new.awaited reader.new }
{
    Ok(reader.next()?)
}

impl JournalReader {
    /// Before the first byte. It takes no memory.
    pub fn new(alloc: Global) -> JournalReader
        ensures { result ≡ empty_reader }
    {
        JournalReader {
            form: Form::Undecided {
                bytes: Vec::new(alloc),
            },
            alloc,
        }
    }

    /// Appends bytes, or leaves all as before.
    pub fn push(&mut self, piece: &[u8]) -> Result<(), NoMemory>
        ensures ok { OnOk result (self.new ≡ pushed self.old piece.now) }
        ensures err { OnErr result (self.new ≡ self.old) }
    {
        match &mut self.form {
            Form::Undecided { bytes } => {
                let text = joined(self.alloc, bytes.as_slice(), piece)?;
                self.form = form_of(self.alloc, text)?;
                Ok(())
            }
            Form::Lines { reader } => reader.push(piece),
            Form::Bytes { reader } => reader.push(piece),
        }
    }

    /// Gives the next entry, or None where no entry is whole and no byte is wrong. A fault of the text is answered again by
    /// each later call; want of memory leaves all as it was.
    pub fn next(&mut self) -> Result<Option<Entry>, JournalFault>
        ensures { NextGives self.old self.new result }
    {
        match &mut self.form {
            Form::Undecided { .. } => Ok(None),
            Form::Lines { reader } => next_of_lines(reader),
            Form::Bytes { reader } => next_of_bytes(reader),
        }
    }

    /// Whether the end was given, once all bytes are pushed and all entries given.
    pub fn finish(&self) -> Result<(), JournalFault>
        requires { GivesNone self.now }
        ensures ok { OnOk result (awaited_of self.now ≡ awaited.Nothing) }
        ensures err { IfErr result (λ f. FinishGives self.now f) }
    {
        match &self.form {
            Form::Undecided { .. } => Err(JournalFault::Truncated {
                version: Version::One,
                number: 1,
            }),
            Form::Lines { reader } => Ok(reader.finish()?),
            Form::Bytes { reader } => Ok(reader.finish()?),
        }
    }
}
