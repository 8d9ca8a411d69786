//! Files of a store, read piece by piece to their end.
#![tactic(auto)]

ghost use Rattle.std.specs.Prelude.{◌≡◌, ◌<◌, ◌≤◌, ◌+◌, ℕ, List, Err, IfErr, IfOk, IfSome, IsSome, OnOk, Option, Some, length};
ghost use Rattle.std.specs.Option.{option_map};
ghost use Rattle.rm_base.specs.Causes.{Rose};
ghost use Rattle.rm_base.specs.Files.{file_of};
ghost use Rattle.rm_base.specs.Shelves.{GivesPiece};
ghost use Rattle.file_pieces.specs.Pieces.{ComesNext, IsFurther, IsReadSoFar, StopsBy};
ghost use Rattle.file_pieces.specs.declared.PieceProblem.TheVariants as problem;

use rm_base::{NoMemory, OutsideFault, Shelf};
use std::error::Error;
use std::fmt;
use std::marker::Model;

const PIECE: usize = 65_536;

const MOST_BYTES: u64 = 4_611_686_018_427_387_904;

/// Why there is no piece.
#[derive(Clone, Copy, Debug, PartialEq, Eq)]
pub enum PieceProblem {
    /// A call of the store has failed.
    Failed,
    /// The file isn't there.
    Missing,
    /// The file has more than 2^62 bytes.
    TooLong,
    NoMemory,
}

impl fmt::Display for PieceProblem {
    fn fmt<W: fmt::Write>(&self, f: &mut fmt::Formatter<W>) -> fmt::Result {
        match self {
            PieceProblem::Failed => f.write_str("a file couldn't be read"),
            PieceProblem::Missing => f.write_str("there is no such file"),
            PieceProblem::TooLong => f.write_str("the file is too long"),
            PieceProblem::NoMemory => f.write_str("out of memory"),
        }
    }
}

impl Error for PieceProblem {}

impl From<OutsideFault> for PieceProblem {
    ghost use Rattle.file_pieces.specs.Problems.{of_outside};

    ghost from_gives = { λ e p. p ≡ of_outside e };

    fn from(fault: OutsideFault) -> Self {
        match fault {
            OutsideFault::Failed => PieceProblem::Failed,
            OutsideFault::NoMemory => PieceProblem::NoMemory,
        }
    }
}

impl From<NoMemory> for PieceProblem {
    ghost from_gives = { λ _ p. p ≡ problem.NoMemory };

    fn from(_: NoMemory) -> Self {
        PieceProblem::NoMemory
    }
}

/// How far a file is read: so many bytes, in pieces of 65,536, up to 2^62.
#[derive(Drop)]
pub struct FilePieces {
    from: u64,
}

impl Model for FilePieces {
    ghost use Rattle.std.specs.Prelude.{◌≤◌, ℕ};

    ghost Value = { ℕ };

    ghost view = { λ p. p.from };

    ghost invariant = { λ p. p.from ≤ 4611686018427387904 };
}

// How many bytes are read at a place: never beyond the limit, but for one byte that shows more.
fn piece_size(from: u64) -> usize
    requires { from ≤ 4611686018427387904 }
    ensures some { 0 < result }
    ensures most { result ≤ 65536 }
    ensures within { from < 4611686018427387904 → from + result ≤ 4611686018427387904 }
{
    let left = MOST_BYTES - from;
    if left == 0 {
        return 1;
    }
    if left < PIECE as u64 {
        return left as usize;
    }
    PIECE
}

// The piece of the file from a place on, empty where nothing is left.
fn piece_of<S: Shelf>(
    shelf: &mut S,
    name: &str,
    from: u64,
    most: usize,
) -> Result<Vec<u8>, PieceProblem>
    ensures gives { IfOk result (λ piece. GivesPiece (S.files shelf.old) name.now from most (Some piece.items)) }
    ensures missing { result ≡ Err problem.Missing → IfSome (S.files shelf.old) (λ told. file_of told name.now ≡ None) }
    ensures told { result ≡ Err problem.Missing → IsSome (S.files shelf.old) }
    ensures long { result ≡ Err problem.TooLong → ⊥ }
    ensures fault { result ≡ Err problem.Failed → Rose (S.faults shelf.old) (S.faults shelf.new) }
    ensures later { S.faults shelf.old ≤ S.faults shelf.new }
    ensures files { S.files shelf.new ≡ S.files shelf.old }
{
    let Some(piece) = shelf.read(name, from, most)? else {
        return Err(PieceProblem::Missing);
    };
    Ok(piece)
}

impl FilePieces {
    /// Before the first byte.
    pub fn new() -> FilePieces
        ensures { result ≡ 0 }
    {
        FilePieces { from: 0 }
    }

    /// The next piece of the file, or None at its end.
    pub fn next<S: Shelf>(
        &mut self,
        shelf: &mut S,
        name: &str,
    ) -> Result<Option<Vec<u8>>, PieceProblem>
        ensures comes { (text : List ℕ) → IsReadSoFar (S.files shelf.old) name.now text self.old → IfOk result (λ found. ComesNext (S.files shelf.old) name.now text self.new (option_map (λ piece. piece.items) found)) }
        ensures stops { (text : List ℕ) → IsReadSoFar (S.files shelf.old) name.now text self.old → IfErr result (StopsBy (S.files shelf.old) name.now text) }
        ensures most { self.new ≤ 4611686018427387904 }
        ensures there { IfOk result (λ found. IfSome (S.files shelf.old) (λ told. IsSome (file_of told name.now))) }
        ensures goes { IfOk result (λ found. IsFurther self.old self.new (option_map (λ piece. piece.items) found)) }
        ensures missing { result ≡ Err problem.Missing → IsSome (S.files shelf.old) × IfSome (S.files shelf.old) (λ told. file_of told name.now ≡ None) }
        ensures fault { result ≡ Err problem.Failed → Rose (S.faults shelf.old) (S.faults shelf.new) }
        ensures later { S.faults shelf.old ≤ S.faults shelf.new }
        ensures files { S.files shelf.new ≡ S.files shelf.old }
    {
        let most = piece_size(self.from);
        let piece = piece_of(shelf, name, self.from, most)?;
        if piece.is_empty() {
            return Ok(None);
        }
        if self.from == MOST_BYTES {
            return Err(PieceProblem::TooLong);
        }
        self.from += piece.len() as u64;
        Ok(Some(piece))
    }
}
