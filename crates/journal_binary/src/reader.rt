// Reading version 2 as its bytes come.
ghost use Rattle.std.specs.Prelude.{◌≡◌, ◌≢◌, ◌++◌, ◌≤◌, IfErr, OnErr, OnOk, drop, length};
ghost use Rattle.journal_binary.specs.Streams.{FinishGives, NextGives, empty_body, turn, waits};
ghost use Rattle.journal_text.specs.declared.reader.Awaited.TheVariants as awaited;

use crate::faults::BinaryFault;
use crate::fronts::{Lack, Stop, read_head, rest_from, taken};
use crate::parts::{Part, read_on, take_whole};
use journal_text::{Awaited, Entry};
use rm_base::NoMemory;
use std::alloc::Global;
use std::marker::Model;

/// Gives the entries of a journal of version 2, whose bytes are pushed piece by piece behind the eight that tell the
/// version. Each byte is kept once, and a record that comes in many pieces isn't read anew for each: only an item or an
/// opening that isn't whole is.
#[derive(Drop)]
pub struct BinaryReader {
    bytes: Vec<u8>,
    // What was given lies before this place.
    start: usize,
    // Between `start` and this place stands what `part` was made of.
    seen: usize,
    part: Part,
    awaited: Awaited,
    number: u64,
    // So many records are to come.
    left: u64,
    alloc: Global,
}

impl Model for BinaryReader {
    ghost use Rattle.std.specs.Prelude.{drop};
    ghost use Rattle.journal_binary.specs.Streams.{Waiting};

    ghost Value = { Waiting };

    ghost use Rattle.journal_binary.specs.Inner.Parts.{IsKept};

    ghost view = { λ r. record { awaited = r.awaited; number = r.number; left = r.left; held = drop r.start r.bytes.items } };

    ghost invariant = { λ r. IsKept r.bytes.items r.start r.seen r.part };
}

// Moves what is left to the front.
fn move_front(bytes: &mut Vec<u8>, start: usize)
    requires { start ≤ length bytes.old.items }
    ensures { bytes.new.items ≡ drop start bytes.old.items }
{
    let left = bytes.len() - start;
    bytes.copy_within(start.., 0);
    bytes.truncate(left);
}

impl BinaryReader {
    /// Behind the eight bytes that tell the version. It takes no memory.
    pub fn new(alloc: Global) -> BinaryReader
        ensures { result ≡ empty_body }
    {
        BinaryReader {
            bytes: Vec::new(alloc),
            start: 0,
            seen: 0,
            part: Part::Between,
            awaited: Awaited::Header,
            number: 0,
            left: 0,
            alloc,
        }
    }

    // Makes room at the end, where at least as much was given as is left.
    fn make_room(&mut self)
        ensures { self.new ≡ self.old }
    {
        if self.start < self.bytes.len() - self.start {
            return;
        }
        move_front(&mut self.bytes, self.start);
        self.seen -= self.start;
        self.start = 0;
    }

    /// Appends bytes, or leaves all as before.
    pub fn push(&mut self, piece: &[u8]) -> Result<(), NoMemory>
        ensures ok { OnOk result (self.new ≡ record self.old { held = self.old.held ++ piece.now }) }
        ensures err { OnErr result (self.new ≡ self.old) }
    {
        self.make_room();
        self.bytes.extend_from_slice(piece)?;
        Ok(())
    }

    // Gives the header.
    fn read_header(&mut self) -> Result<Option<Entry>, BinaryFault>
        requires { self.old.awaited ≡ awaited.Header }
        ensures { NextGives self.old self.new result }
    {
        let held = rest_from(&self.bytes, self.start);
        let ((budget, count), rest) = match read_head(held) {
            Ok(head) => head,
            Err(Lack::Early) => return Ok(None),
            Err(Lack::Wrong) => return Err(BinaryFault::BadHeader),
        };
        self.start += taken(held, rest);
        self.seen = self.start;
        self.part = Part::Between;
        self.awaited = Awaited::Record;
        self.number = self.number.saturating_add(1);
        self.left = count;
        Ok(Some(Entry::Header { budget }))
    }

    // Gives the next record.
    fn read_record(&mut self) -> Result<Option<Entry>, BinaryFault>
        requires awaited { self.old.awaited ≡ awaited.Record }
        requires some { self.old.left ≢ 0 }
        ensures { NextGives self.old self.new result }
    {
        match read_on(self.alloc, &self.bytes, &mut self.seen, &mut self.part) {
            Ok(()) => {}
            Err(Stop::Early) => return Ok(None),
            Err(Stop::Wrong) => {
                return Err(BinaryFault::BadRecord {
                    number: self.number,
                });
            }
            Err(Stop::NoMemory) => return Err(BinaryFault::NoMemory),
        }
        self.start = self.seen;
        self.number = self.number.saturating_add(1);
        self.left -= 1;
        Ok(Some(Entry::Record(take_whole(&mut self.part))))
    }

    // Gives the end.
    fn read_end(&mut self) -> Result<Option<Entry>, BinaryFault>
        requires awaited { self.old.awaited ≡ awaited.Record }
        requires none { self.old.left ≡ 0 }
        ensures { NextGives self.old self.new result }
    {
        self.awaited = Awaited::Nothing;
        Ok(Some(Entry::End))
    }

    // What comes behind the end.
    fn read_rest(&self) -> Result<Option<Entry>, BinaryFault>
        requires { self.now.awaited ≡ awaited.Nothing }
        ensures { NextGives self.now self.now result }
    {
        if self.start == self.bytes.len() {
            return Ok(None);
        }
        Err(BinaryFault::AfterEnd {
            number: self.number,
        })
    }

    /// Gives the next entry, or None where its bytes aren't whole and none of them is wrong. A fault is answered again by
    /// each later call; want of memory leaves all as it was.
    pub fn next(&mut self) -> Result<Option<Entry>, BinaryFault>
        ensures { NextGives self.old self.new result }
    {
        match self.awaited {
            Awaited::Header => self.read_header(),
            Awaited::Record => {
                if self.left == 0 {
                    self.read_end()
                } else {
                    self.read_record()
                }
            }
            Awaited::Nothing => self.read_rest(),
        }
    }

    /// Whether the end was given, once all bytes are pushed and all entries given.
    pub fn finish(&self) -> Result<(), BinaryFault>
        requires { turn self.now ≡ waits }
        ensures ok { OnOk result (self.now.awaited ≡ awaited.Nothing) }
        ensures err { IfErr result (λ f. FinishGives self.now f) }
    {
        match self.awaited {
            Awaited::Nothing => Ok(()),
            Awaited::Header | Awaited::Record => Err(BinaryFault::Truncated {
                number: self.number,
            }),
        }
    }
}
