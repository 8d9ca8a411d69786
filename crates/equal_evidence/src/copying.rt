// Copies of records, to write them.
ghost use Rattle.std.specs.Prelude.{◌≡◌, IfOk};

use journal_text::Record;
use refutation::{Item, Tree, TreeBuilder};
use rm_base::{NoMemory, Vector};
use std::alloc::Global;

// A tree of these items.
fn tree_of(alloc: Global, items: &[Item]) -> Result<Tree, NoMemory>
    ensures { IfOk result (λ tree. tree ≡ items.now) }
{
    let mut tree = TreeBuilder::new(alloc);
    for item in items {
        tree.push(*item)?;
    }
    Ok(tree.finish())
}

// A tree of the same items.
fn copy_tree(alloc: Global, tree: &Tree) -> Result<Tree, NoMemory>
    ensures { IfOk result (λ copy. copy ≡ tree.now) }
{
    tree_of(alloc, tree.items())
}

// A vector of the same values.
fn copy_vector(alloc: Global, vector: &Vector) -> Result<Vector, NoMemory>
    ensures { IfOk result (λ copy. copy ≡ vector.now) }
{
    let values = Vec::from_slice(alloc, vector.values())?;
    Ok(Vector::of(values))
}

/// The same record.
pub(crate) fn copy_record(alloc: Global, given: &Record) -> Result<Record, NoMemory>
    ensures { IfOk result (λ copy. copy ≡ given.now) }
{
    match given {
        Record::Step { step, tree } => Ok(Record::Step {
            step: *step,
            tree: copy_tree(alloc, tree)?,
        }),
        Record::Hit { fault, vector } => Ok(Record::Hit {
            fault: *fault,
            vector: copy_vector(alloc, vector)?,
        }),
        Record::Spent { fault, tree } => Ok(Record::Spent {
            fault: *fault,
            tree: copy_tree(alloc, tree)?,
        }),
    }
}
