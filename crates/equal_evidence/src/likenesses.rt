// Reading the second line of evidence.
ghost use Rattle.std.specs.Prelude.{◌≡◌, ◌≢◌, ◌++◌, Bool, List, IfErr, IfOk, IfSome, None, codes};
ghost use Rattle.equal_evidence.specs.Evidence.{IsWritten};
ghost use Rattle.equal_evidence.specs.Inner.Lines.{fixed, hit, no_fault, spelled, spent};
ghost use Rattle.equal_evidence.specs.declared.evidence.Evidence.TheVariants.{Plain};
ghost use Rattle.equal_miter.specs.declared.likeness.Likeness.{Likeness as LikenessValue};
ghost use Rattle.journal_text.specs.declared.faults.JournalFault.TheVariants as fault;
ghost use Rattle.refutation.specs.declared.items.Item.{Item};

use crate::lines::read_line;
use equal_miter::Likeness;
use journal_text::{JournalFault, Record, lines_read};
use refutation::Tree;
use rm_base::{Fault, NodeId, Vector};
use std::alloc::Global;
use wire_edit::Step;

// The tree of a fix of no pin.
fn fixed_tree(given: Record) -> Option<Tree>
    ensures some { IfSome result (λ tree. given ≡ fixed tree) }
    ensures none { result ≡ None → (items : List Item) → given ≢ fixed items }
{
    match given {
        Record::Step { step, tree } => {
            let wanted = Step::Fix {
                gate: NodeId(0),
                position: 0,
                value: false,
            };
            if step == wanted { Some(tree) } else { None }
        },
        Record::Hit {
            fault: _,
            vector: _,
        } => None,
        Record::Spent { fault: _, tree: _ } => None,
    }
}

// The fault of no pin.
fn no_fault() -> Fault
    ensures { result ≡ no_fault }
{
    Fault {
        gate: NodeId(0),
        position: 0,
        value: false,
    }
}

// The tree of a spent search for a test of no fault.
fn spent_tree(given: Record) -> Option<Tree>
    ensures some { IfSome result (λ tree. given ≡ spent tree) }
    ensures none { result ≡ None → (items : List Item) → given ≢ spent items }
{
    match given {
        Record::Spent { fault, tree } => {
            if fault == no_fault() {
                Some(tree)
            } else {
                None
            }
        },
        Record::Hit {
            fault: _,
            vector: _,
        } => None,
        Record::Step { step: _, tree: _ } => None,
    }
}

// The vector of a hit of no fault.
fn hit_vector(given: Record) -> Option<Vector>
    ensures some { IfSome result (λ vector. given ≡ hit vector) }
    ensures none { result ≡ None → (bits : List Bool) → given ≢ hit bits }
{
    match given {
        Record::Hit { fault, vector } => {
            if fault == no_fault() {
                Some(vector)
            } else {
                None
            }
        },
        Record::Spent { fault: _, tree: _ } => None,
        Record::Step { step: _, tree: _ } => None,
    }
}

// What `same` and these items say.
fn read_same(alloc: Global, items: &[u8]) -> Result<Likeness, JournalFault>
    ensures written { IfOk result (λ l. IsWritten (Plain l)) }
    ensures read { IfOk result (λ l. codes "same" ++ items.now ≡ spelled l) }
    ensures refused { IfErr result (λ f. f ≢ fault.NoMemory → (l : LikenessValue) → IsWritten (Plain l) → codes "same" ++ items.now ≢ spelled l) }
{
    lines_read();
    let given = read_line(alloc, b"fix 0 0 0", items)?;
    match fixed_tree(given) {
        Some(tree) => Ok(Likeness::Same(tree)),
        None => Err(JournalFault::BadRecord { line: 2 }),
    }
}

// What `spent` and these items say.
fn read_spent(alloc: Global, items: &[u8]) -> Result<Likeness, JournalFault>
    ensures written { IfOk result (λ l. IsWritten (Plain l)) }
    ensures read { IfOk result (λ l. codes "spent" ++ items.now ≡ spelled l) }
    ensures refused { IfErr result (λ f. f ≢ fault.NoMemory → (l : LikenessValue) → IsWritten (Plain l) → codes "spent" ++ items.now ≢ spelled l) }
{
    lines_read();
    let given = read_line(alloc, b"spent 0 0 0", items)?;
    match spent_tree(given) {
        Some(tree) => Ok(Likeness::Undecided(tree)),
        None => Err(JournalFault::BadRecord { line: 2 }),
    }
}

// What `differ` and these values say.
fn read_differ(alloc: Global, values: &[u8]) -> Result<Likeness, JournalFault>
    ensures written { IfOk result (λ l. IsWritten (Plain l)) }
    ensures read { IfOk result (λ l. codes "differ" ++ values.now ≡ spelled l) }
    ensures refused { IfErr result (λ f. f ≢ fault.NoMemory → (l : LikenessValue) → IsWritten (Plain l) → codes "differ" ++ values.now ≢ spelled l) }
{
    lines_read();
    if values.is_empty() {
        return Ok(Likeness::Differ(Vector::of(Vec::new(alloc))));
    }
    let given = read_line(alloc, b"hit 0 0 0", values)?;
    match hit_vector(given) {
        Some(vector) => Ok(Likeness::Differ(vector)),
        None => Err(JournalFault::BadRecord { line: 2 }),
    }
}

/// What a line says of the models.
pub(crate) fn read_likeness(alloc: Global, line: &[u8]) -> Result<Likeness, JournalFault>
    ensures written { IfOk result (λ l. IsWritten (Plain l)) }
    ensures read { IfOk result (λ l. line.now ≡ spelled l) }
    ensures refused { IfErr result (λ f. f ≢ fault.NoMemory → (l : LikenessValue) → IsWritten (Plain l) → line.now ≢ spelled l) }
{
    if let Some(items) = line.strip_prefix(b"same".as_slice()) {
        return read_same(alloc, items);
    }
    if let Some(items) = line.strip_prefix(b"spent".as_slice()) {
        return read_spent(alloc, items);
    }
    if let Some(values) = line.strip_prefix(b"differ".as_slice()) {
        return read_differ(alloc, values);
    }
    Err(JournalFault::BadRecord { line: 2 })
}
