//! The gates that tidying has to look at.
ghost use Rattle.std.specs.Prelude.{◌≡◌, ◌≢◌, ◌+◌, ◌<◌, ◌≤◌, ℕ, true, false, length, set, IfOk, MatchOption};
ghost use Rattle.wire_edit.specs.Inner.Marked.{is_marked, marks_left, KeepsMarks, IsFirstMark};

use rm_base::NoMemory;
use std::alloc::Global;
use std::marker::Model;

// How many numbers a block has.
const BLOCK: usize = 256;

// Marks by number. A block without a mark here has no number with one.
#[derive(Drop)]
pub(crate) struct Worklist {
    marks: Vec<bool>,
    blocks: Vec<bool>,
    // Numbers that got a mark since `new` or the last call of `restart` or `clear_recent`, as far as there is room.
    recent: Vec<u32>,
}

impl Model for Worklist {
    ghost use Rattle.std.specs.Prelude.{List, Bool};

    ghost Value = { List Bool };

    ghost use Rattle.wire_edit.specs.Inner.Marked.{IsBlocked};

    ghost view = { λ a. a.marks.items };

    ghost invariant = { λ a. IsBlocked a.marks.items a.blocks.items };
}

// The first number with a mark from one number on, and before another.
fn first_mark(marks: &[bool], from: usize, end: usize) -> Option<usize>
    requires { end ≤ length marks.now }
    ensures { IsFirstMark marks.now from end result }
{
    for number in from..end {
        if marks[number] {
            return Some(number);
        }
    }
    None
}

// Adds a number to a list, up to so many.
fn note(list: &mut Vec<u32>, number: u32, most: usize) {
    if list.len() < most {
        let _pushed = list.push(number);
    }
}

// Takes the mark of a number away, if it has a place.
fn unmark(marks: &mut Vec<bool>, number: u32)
    ensures { marks.new.items ≡ set marks.old.items number false }
{
    let place = number as usize;
    if place < marks.len() {
        marks[place] = false;
    }
}

// Sets every mark.
fn set_all(marks: &mut Vec<bool>)
    ensures count { length marks.new.items ≡ length marks.old.items }
    ensures all { (k : ℕ) → k < length marks.new.items → is_marked marks.new.items k ≡ true }
{
    for place in 0..marks.len() {
        marks[place] = true;
    }
}

impl Worklist {
    // All numbers below the count, each with a mark or none.
    pub(crate) fn new(alloc: Global, count: u32, marked: bool) -> Result<Worklist, NoMemory>
        ensures { IfOk result (λ a. (length a ≡ count) × ((k : ℕ) → k < count → is_marked a k ≡ marked)) }
    {
        let marks = vec![in alloc; marked; count as usize]?;
        let blocks = vec![in alloc; marked; count as usize / BLOCK + 1]?;
        let mut recent = Vec::new(alloc);
        recent.reserve(count as usize)?;
        Ok(Worklist {
            marks,
            blocks,
            recent,
        })
    }

    // How many numbers have a place.
    pub(crate) fn count(&self) -> usize
        ensures { result ≡ length self.now }
    {
        self.marks.len()
    }

    // Sets a mark, if the number has a place.
    pub(crate) fn mark(&mut self, number: u32)
        ensures kept { KeepsMarks self.old self.new }
        ensures marked { number < length self.new → is_marked self.new number ≡ true }
    {
        let place = number as usize;
        if place >= self.marks.len() {
            return;
        }
        if self.marks[place] {
            return;
        }
        self.marks[place] = true;
        self.blocks[place / BLOCK] = true;
        note(&mut self.recent, number, self.marks.len());
    }

    // The least number with a mark. Marks are taken from blocks that turn out to have none.
    pub(crate) fn least(&mut self) -> Option<u32>
        ensures same { self.new ≡ self.old }
        ensures least { MatchOption result ((k : ℕ) → is_marked self.new k ≡ false) (λ x. (is_marked self.new x ≡ true) × ((k : ℕ) → k < x → is_marked self.new k ≡ false)) }
    {
        while let Some(block) = first_mark(&self.blocks, 0, self.blocks.len()) {
            let first = block * BLOCK;
            let end = (first + BLOCK).min(self.marks.len());
            if let Some(number) = first_mark(&self.marks, first, end) {
                return Some(number as u32);
            }
            self.blocks[block] = false;
        }
        None
    }

    // Forgets which marks are recent, and tells whether there is none.
    pub(crate) fn restart(&mut self) -> bool
        ensures same { self.new ≡ self.old }
        ensures none { result ≡ true → (k : ℕ) → is_marked self.new k ≡ false }
    {
        self.recent.clear();
        match self.least() {
            Some(_) => false,
            None => true,
        }
    }

    // Takes the recent marks away.
    pub(crate) fn clear_recent(&mut self)
        ensures count { length self.new ≡ length self.old }
    {
        while let Some(number) = self.recent.pop() {
            unmark(&mut self.marks, number);
        }
    }

    // Marks every number.
    pub(crate) fn mark_all(&mut self)
        ensures count { length self.new ≡ length self.old }
        ensures all { (k : ℕ) → k < length self.new → is_marked self.new k ≡ true }
    {
        set_all(&mut self.marks);
        set_all(&mut self.blocks);
    }

    // Takes a mark away.
    pub(crate) fn clear(&mut self, number: u32)
        requires { is_marked self.old number ≡ true }
        ensures count { length self.new ≡ length self.old }
        ensures fewer { marks_left self.new + 1 ≡ marks_left self.old }
        ensures others { (k : ℕ) → is_marked self.new k ≡ false → k ≢ number → is_marked self.old k ≡ false }
    {
        self.marks[number as usize] = false;
    }
}
