// A line of a text that comes in pieces.
use crate::journals::JOURNAL_OF_BYTES;
use rm_base::NoMemory;
use std::alloc::Global;

const MOST_OF_A_LINE: usize = 4_096;

/// Finds the line of a number, from 1, and keeps its first 4,096 bytes. A journal of version 2 has no lines: of it the first eight
/// bytes are kept, which no line is, as they end in a line feed.
#[derive(Drop)]
pub struct LineFinder {
    /// How many line ends are still to come before the line.
    left: u64,
    is_done: bool,
    /// The first bytes of the text, up to eight.
    begin: Vec<u8>,
    line: Vec<u8>,
}

impl LineFinder {
    pub fn new(alloc: Global, number: u64) -> LineFinder {
        LineFinder {
            left: number.saturating_sub(1),
            is_done: false,
            begin: Vec::new(alloc),
            line: Vec::new(alloc),
        }
    }

    // Whether the text is no text, but a journal of bytes.
    fn is_of_bytes(&self) -> bool {
        self.begin.as_slice() == JOURNAL_OF_BYTES
    }

    // Takes one of the first bytes.
    fn take_begin(&mut self, byte: u8) -> Result<(), NoMemory> {
        if self.begin.len() < JOURNAL_OF_BYTES.len() {
            self.begin.push(byte)?;
            if self.is_of_bytes() {
                self.is_done = true;
            }
        }
        Ok(())
    }

    /// Whether the line is whole, or as long as it is kept.
    pub fn is_done(&self) -> bool {
        self.is_done
    }

    fn take_byte(&mut self, byte: u8) -> Result<(), NoMemory> {
        if self.left > 0 {
            if byte == b'\n' {
                self.left -= 1;
            }
        } else if byte == b'\n' || self.line.len() >= MOST_OF_A_LINE {
            self.is_done = true;
        } else {
            self.line.push(byte)?;
        }
        Ok(())
    }

    /// Takes the next piece of the text.
    pub fn take(&mut self, piece: &[u8]) -> Result<(), NoMemory> {
        for &byte in piece {
            if self.is_done {
                break;
            }
            self.take_begin(byte)?;
            self.take_byte(byte)?;
        }
        Ok(())
    }

    /// What was found of the line.
    pub fn into_line(self) -> Vec<u8> {
        if self.is_of_bytes() {
            self.begin
        } else {
            self.line
        }
    }
}
