// The verdicts of a journal, as they are read.
ghost use Rattle.std.specs.Prelude.{◌≡◌, ◌<◌, ◌++◌, ◌∷◌, [], IfOk, IfSome, IsTrue, None, OnOk, Some, length, map, slice_get};
ghost use Rattle.journal_audit.specs.Verdicts.{AreVerdictsAt, said_by, said_in, said_of_record};

use journal_text::Record;
use rm_base::{NoMemory, Vector};
use std::alloc::Global;
use std::collections::BTreeMap;
use std::marker::Model;

/// The verdicts of a journal, in order: of each the number of its vector, or None for a search that spent its budget. A
/// vector that comes again is most often kept once.
#[derive(Drop)]
pub struct Verdicts {
    alloc: Global,
    vectors: Vec<Vector>,
    numbers: Vec<Option<usize>>,
    places: BTreeMap<u64, usize>,
}

impl Model for Verdicts {
    ghost use Rattle.journal_audit.specs.Verdicts.{VerdictList};

    ghost Value = { VerdictList };

    ghost use Rattle.journal_audit.specs.Verdicts.{AreVerdictsAt};

    ghost view = { λ v. record { vectors = v.vectors.items; numbers = v.numbers.items } };

    ghost invariant = { λ v. AreVerdictsAt v.vectors.items v.numbers.items };
}

// Tells most vectors apart.
fn signature(vector: &[bool]) -> u64 {
    let mut sum = 0xcbf2_9ce4_8422_2325_u64;
    for value in vector {
        let bit = u64::from(*value);
        sum = (sum ^ (bit + 1)).wrapping_mul(0x0000_0100_0000_01b3);
    }
    sum
}

// A vector of the same values.
fn copy_vector(alloc: Global, vector: &Vector) -> Result<Vector, NoMemory>
    ensures { IfOk result (λ v. v ≡ vector.now) }
{
    Ok(Vector::of(Vec::from_slice(alloc, vector.values())?))
}

// Whether the kept vector of that number has these values.
fn is_kept_at(vectors: &[Vector], number: usize, vector: &[bool]) -> bool
    ensures { IsTrue result → slice_get vectors.now number ≡ Some vector.now }
{
    match vectors.get(number) {
        Some(kept) => kept.values() == vector,
        None => false,
    }
}

// A verdict more, with the vector of that number.
fn push_number(
    vectors: &[Vector],
    numbers: &mut Vec<Option<usize>>,
    number: usize,
) -> Result<(), NoMemory>
    requires within { number < length vectors.now }
    requires kept { AreVerdictsAt vectors.now numbers.old.items }
    ensures kept { AreVerdictsAt vectors.now numbers.new.items }
    ensures said { OnOk result (map (said_by vectors.now) numbers.new.items ≡ map (said_by vectors.now) numbers.old.items ++ slice_get vectors.now number ∷ []) }
{
    numbers.push(Some(number))?;
    Ok(())
}

// A verdict more without a vector.
fn push_none(vectors: &[Vector], numbers: &mut Vec<Option<usize>>) -> Result<(), NoMemory>
    requires kept { AreVerdictsAt vectors.now numbers.old.items }
    ensures kept { AreVerdictsAt vectors.now numbers.new.items }
    ensures said { OnOk result (map (said_by vectors.now) numbers.new.items ≡ map (said_by vectors.now) numbers.old.items ++ None ∷ []) }
{
    numbers.push(None)?;
    Ok(())
}

// A verdict more with a vector that isn't kept yet.
fn push_vector(
    vectors: &mut Vec<Vector>,
    numbers: &mut Vec<Option<usize>>,
    vector: Vector,
) -> Result<(), NoMemory>
    requires kept { AreVerdictsAt vectors.old.items numbers.old.items }
    ensures kept { AreVerdictsAt vectors.new.items numbers.new.items }
    ensures said { OnOk result (map (said_by vectors.new.items) numbers.new.items ≡ map (said_by vectors.old.items) numbers.old.items ++ Some vector ∷ []) }
{
    let number = vectors.len();
    numbers.push(Some(number))?;
    if let Err(_) = vectors.push(vector) {
        numbers.pop();
        return Err(NoMemory);
    }
    Ok(())
}

impl Verdicts {
    /// None yet.
    pub(crate) fn new(alloc: Global) -> Verdicts
        ensures { said_in result ≡ [] }
    {
        Verdicts {
            alloc,
            vectors: Vec::new(alloc),
            numbers: Vec::new(alloc),
            places: BTreeMap::new(alloc),
        }
    }

    // The number of a kept vector with these values, if it is found.
    fn number_of(&self, key: u64, vector: &[bool]) -> Option<usize>
        ensures kept { IfSome result (λ number. slice_get self.now.vectors number ≡ Some vector.now) }
        ensures within { IfSome result (λ number. number < length self.now.vectors) }
    {
        let number = self.places.get(&key).copied()?;
        if !is_kept_at(self.vectors.as_slice(), number, vector) {
            return None;
        }
        Some(number)
    }

    // One more verdict with that vector.
    fn push_hit(&mut self, vector: &Vector) -> Result<(), NoMemory>
        ensures { OnOk result (said_in self.new ≡ said_in self.old ++ Some vector.now ∷ []) }
    {
        let key = signature(vector.values());
        if let Some(number) = self.number_of(key, vector.values()) {
            return push_number(self.vectors.as_slice(), &mut self.numbers, number);
        }
        let kept = copy_vector(self.alloc, vector)?;
        self.places.insert(key, self.vectors.len())?;
        push_vector(&mut self.vectors, &mut self.numbers, kept)
    }

    /// Keeps the verdict of a record; a step has none.
    pub(crate) fn push(&mut self, given: &Record) -> Result<(), NoMemory>
        ensures { OnOk result (said_in self.new ≡ said_in self.old ++ said_of_record given.now) }
    {
        match given {
            Record::Step { .. } => Ok(()),
            Record::Hit { vector, .. } => self.push_hit(vector),
            Record::Spent { .. } => push_none(self.vectors.as_slice(), &mut self.numbers),
        }
    }

    /// The vectors of the hits, each with a number, from 0.
    pub fn vectors(&self) -> &[Vector]
        ensures vectors { result.now ≡ self.now.vectors }
        ensures kept { AreVerdictsAt self.now.vectors self.now.numbers }
    {
        self.vectors.as_slice()
    }

    /// For each verdict, in order, the number of its vector, or None.
    pub fn numbers(&self) -> &[Option<usize>]
        ensures { result.now ≡ self.now.numbers }
    {
        self.numbers.as_slice()
    }
}
