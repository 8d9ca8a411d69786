// A record of which a part was read, and reading on in it.
ghost use Rattle.std.specs.Prelude.{◌≡◌, ◌≢◌, ◌≤◌, IfErr, IfOk, List, OnErr, OnOk, drop, length, ℕ};
ghost use Rattle.journal_binary.specs.Fronts.{got, read_bit, read_item};
ghost use Rattle.journal_binary.specs.Inner.Answers.{Stopped, TakesOne};
ghost use Rattle.journal_binary.specs.Inner.Parts.{Continues, IsWhole, is_between, made, made_of, more_of, whole_of};
ghost use Rattle.journal_binary.specs.declared.parts.Part.TheVariants as stage;

use crate::fronts::{Stop, read_bit, rest_from, taken};
use crate::items::read_item;
use crate::openings::{Begun, Opened, read_opening};
use journal_text::Record;
use refutation::{Tree, TreeBuilder};
use rm_base::{Fault, Vector};
use std::alloc::Global;
use std::mem;

/// What was read of a record.
#[derive(Drop)]
pub(crate) enum Part {
    /// Nothing.
    Between,
    /// Its opening and some of its items; so many are to come.
    Items {
        what: Begun,
        tree: TreeBuilder,
        left: u64,
    },
    /// Its opening and some of its bits; so many are to come.
    Bits {
        fault: Fault,
        values: Vec<bool>,
        left: u64,
    },
}

// Adds the item at the front, and says how many bytes it takes.
fn add_item(bytes: &[u8], tree: &mut TreeBuilder) -> Result<usize, Stop>
    ensures ok { IfOk result (λ n. TakesOne read_item bytes.now tree.old tree.new n) }
    ensures err { OnErr result (tree.new ≡ tree.old) }
    ensures stop { IfErr result (λ s. Stopped s (read_item bytes.now)) }
{
    let (item, rest) = read_item(bytes)?;
    tree.push(item)?;
    Ok(taken(bytes, rest))
}

// Adds the bit at the front, and says how many bytes it takes.
fn add_bit(bytes: &[u8], values: &mut Vec<bool>) -> Result<usize, Stop>
    ensures ok { IfOk result (λ n. TakesOne read_bit bytes.now values.old.items values.new.items n) }
    ensures err { OnErr result (values.new.items ≡ values.old.items) }
    ensures stop { IfErr result (λ s. Stopped s (read_bit bytes.now)) }
{
    let (value, rest) = read_bit(bytes)?;
    values.push(value)?;
    Ok(taken(bytes, rest))
}

// Adds items until all are there.
fn fill_items(
    bytes: &[u8],
    seen: &mut usize,
    tree: &mut TreeBuilder,
    left: &mut u64,
) -> Result<(), Stop>
    requires { seen.old ≤ length bytes.now }
    ensures goes { Continues (more_of read_item tree.old left.old) (more_of read_item tree.new left.new) bytes.now seen.old seen.new }
    ensures ok { OnOk result (left.new ≡ 0) }
    ensures err { IfErr result (λ s. Stopped s (more_of read_item tree.new left.new (drop seen.new bytes.now))) }
{
    while *left > 0 {
        let count = match add_item(rest_from(bytes, *seen), tree) {
            Ok(count) => count,
            Err(stop) => return Err(stop),
        };
        *seen += count;
        *left -= 1;
    }
    Ok(())
}

// Adds bits until all are there.
fn fill_bits(
    bytes: &[u8],
    seen: &mut usize,
    values: &mut Vec<bool>,
    left: &mut u64,
) -> Result<(), Stop>
    requires { seen.old ≤ length bytes.now }
    ensures goes { Continues (more_of read_bit values.old.items left.old) (more_of read_bit values.new.items left.new) bytes.now seen.old seen.new }
    ensures ok { OnOk result (left.new ≡ 0) }
    ensures err { IfErr result (λ s. Stopped s (more_of read_bit values.new.items left.new (drop seen.new bytes.now))) }
{
    while *left > 0 {
        let count = match add_bit(rest_from(bytes, *seen), values) {
            Ok(count) => count,
            Err(stop) => return Err(stop),
        };
        *seen += count;
        *left -= 1;
    }
    Ok(())
}

// Adds what is to come of an opened record.
fn fill(bytes: &[u8], seen: &mut usize, part: &mut Part) -> Result<(), Stop>
    requires within { seen.old ≤ length bytes.now }
    requires opened { part.old ≢ stage.Between }
    ensures goes { Continues (made part.old) (made part.new) bytes.now seen.old seen.new }
    ensures ok { OnOk result (IsWhole part.new) }
    ensures err { IfErr result (λ s. Stopped s (made part.new (drop seen.new bytes.now))) }
{
    match part {
        Part::Between => unreachable!(),
        Part::Items { tree, left, .. } => fill_items(bytes, seen, tree, left),
        Part::Bits { values, left, .. } => fill_bits(bytes, seen, values, left),
    }
}

// An opened record without an item or a bit. It takes no memory.
fn begin(alloc: Global, opened: Opened) -> Part
    ensures some { result ≢ stage.Between }
    ensures made { (bytes : List ℕ) → made result bytes ≡ made_of opened bytes }
{
    match opened {
        Opened::Items { what, left } => Part::Items {
            what,
            tree: TreeBuilder::new(alloc),
            left,
        },
        Opened::Bits { fault, left } => Part::Bits {
            fault,
            values: Vec::new(alloc),
            left,
        },
    }
}

// Reads the opening of a record.
fn open_part(alloc: Global, bytes: &[u8], seen: &mut usize, part: &mut Part) -> Result<(), Stop>
    requires within { seen.old ≤ length bytes.now }
    requires between { part.old ≡ stage.Between }
    ensures goes { Continues (made part.old) (made part.new) bytes.now seen.old seen.new }
    ensures ok { OnOk result (part.new ≢ stage.Between) }
    ensures err { IfErr result (λ s. Stopped s (made part.new (drop seen.new bytes.now))) }
{
    let left = rest_from(bytes, *seen);
    let (opened, rest) = match read_opening(left) {
        Ok(read) => read,
        Err(lack) => return Err(Stop::from(lack)),
    };
    *seen += taken(left, rest);
    *part = begin(alloc, opened);
    Ok(())
}

fn is_between(part: &Part) -> bool
    ensures { result ≡ is_between part.now }
{
    match part {
        Part::Between => true,
        Part::Items { .. } | Part::Bits { .. } => false,
    }
}

/// Reads on until the record is whole.
pub(crate) fn read_on(
    alloc: Global,
    bytes: &[u8],
    seen: &mut usize,
    part: &mut Part,
) -> Result<(), Stop>
    requires { seen.old ≤ length bytes.now }
    ensures goes { Continues (made part.old) (made part.new) bytes.now seen.old seen.new }
    ensures ok { OnOk result (IsWhole part.new) }
    ensures err { IfErr result (λ s. Stopped s (made part.new (drop seen.new bytes.now))) }
{
    if is_between(part) {
        open_part(alloc, bytes, seen, part)?;
    }
    fill(bytes, seen, part)
}

// The record of the items.
fn whole_of(what: Begun, tree: Tree) -> Record
    ensures { result ≡ whole_of what tree }
{
    match what {
        Begun::Step(step) => Record::Step { step, tree },
        Begun::Spent(fault) => Record::Spent { fault, tree },
    }
}

/// Takes the record that is whole.
pub(crate) fn take_whole(part: &mut Part) -> Record
    requires { IsWhole part.old }
    ensures record { (bytes : List ℕ) → made part.old bytes ≡ got result bytes }
    ensures after { part.new ≡ stage.Between }
{
    match mem::replace(part, Part::Between) {
        Part::Between => unreachable!(),
        Part::Items { what, tree, .. } => whole_of(what, tree.finish()),
        Part::Bits { fault, values, .. } => Record::Hit {
            fault,
            vector: Vector::of(values),
        },
    }
}
