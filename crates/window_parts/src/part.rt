//! What stands for a window.
ghost use Rattle.std.specs.Prelude.{◌≡◌, ◌≤◌, Err, IfErr, IfOk, IfSome, None, Ok, false};
ghost use Rattle.rm_base.specs.Causes.{Rose};
ghost use Rattle.sewing.specs.Laws.{IsReplacement};
ghost use Rattle.window_cut.specs.Laws.{IsStandalone};
ghost use Rattle.window_parts.specs.Part.{IsLeft, IsPartOf, IsReplayed};
ghost use Rattle.window_parts.specs.Refusals.{IsRefusedPart};
ghost use Rattle.window_parts.specs.declared.refusal.PartRefusal.TheVariants as refusal;

use crate::copying::copy_model;
use crate::limits::within_run;
use crate::presence::has_no_byte;
use crate::refusal::PartRefusal;
use crate::replaying::replay_journal;
use rm_base::{NoMemory, Shelf};
use rm_model::{Model, NameKeys};
use sewing::windows_may_stay;
use std::alloc::Global;

/// What stands for a window when its model is sewn again.
#[derive(Drop)]
pub struct Part {
    pub model: Model,
    /// Whether it comes of the window's journal; otherwise it is the window itself.
    pub replayed: bool,
}

// The window itself.
fn stay(alloc: Global, window: &Model) -> Result<Part, NoMemory>
    ensures same { IfOk result (λ part. part.model ≡ window.now) }
    ensures stays { IfOk result (λ part. part.replayed ≡ false) }
{
    Ok(Part {
        model: copy_model(alloc, window)?,
        replayed: false,
    })
}

// The model to which the accepted steps of the window's journal lead, or None where the window stays.
fn replay_window<S: Shelf>(
    alloc: Global,
    keys: NameKeys,
    shelf: &mut S,
    window: &Model,
    journal: &str,
) -> Result<Option<Model>, PartRefusal>
    requires standalone { IsStandalone window.now }
    ensures replayed { IfOk result (λ found. IfSome found (λ part. IfSome (S.files shelf.old) (IsReplayed window.now journal.now part))) }
    ensures replacement { IfOk result (λ found. IfSome found (λ part. IsReplacement window.now part)) }
    ensures left { result ≡ Ok None → IfSome (S.files shelf.old) (IsLeft window.now journal.now) }
    ensures refused { IfErr result (λ e. IfSome (S.files shelf.old) (IsRefusedPart window.now journal.now e)) }
    ensures fault { result ≡ Err refusal.Fault → Rose (S.faults shelf.old) (S.faults shelf.new) }
    ensures later { S.faults shelf.old ≤ S.faults shelf.new }
    ensures files { S.files shelf.new ≡ S.files shelf.old }
{
    let Some(ranked) = within_run(alloc, keys, window)? else {
        return Ok(None);
    };
    replay_journal(alloc, keys, shelf, &ranked, journal)
}

// What stands for a window whose journal may have a step.
fn part_by<S: Shelf>(
    alloc: Global,
    keys: NameKeys,
    shelf: &mut S,
    window: &Model,
    journal: &str,
) -> Result<Part, PartRefusal>
    requires { IsStandalone window.now }
    ensures part { IfOk result (λ p. IfSome (S.files shelf.old) (IsPartOf window.now journal.now p.model p.replayed)) }
    ensures replacement { IfOk result (λ p. IsReplacement window.now p.model) }
    ensures refused { IfErr result (λ e. IfSome (S.files shelf.old) (IsRefusedPart window.now journal.now e)) }
    ensures fault { result ≡ Err refusal.Fault → Rose (S.faults shelf.old) (S.faults shelf.new) }
    ensures later { S.faults shelf.old ≤ S.faults shelf.new }
    ensures files { S.files shelf.new ≡ S.files shelf.old }
{
    windows_may_stay();
    let found = replay_window(alloc, keys, shelf, window, journal)?;
    match found {
        Some(model) => Ok(Part {
            model,
            replayed: true,
        }),
        None => {
            let part = stay(alloc, window)?;
            Ok(part)
        }
    }
}

/// What stands for a window: the model to which the accepted steps of its journal lead, up to where it has the fewest wires,
/// and tidied; or a copy of the window, where that journal isn't there or has no byte, or where no run could take the window, for it has
/// more than 1,024 inputs, 4,096 outputs or 65,536 wires. A journal that ends in a fault or in a record that isn't accepted
/// is an error, `Journal`. The journal is read in pieces, and its steps are made twice, as `rebuild` does.
pub fn part_of<S: Shelf>(
    alloc: Global,
    keys: NameKeys,
    shelf: &mut S,
    window: &Model,
    journal: &str,
) -> Result<Part, PartRefusal>
    requires { IsStandalone window.now }
    ensures part { IfOk result (λ p. IfSome (S.files shelf.old) (IsPartOf window.now journal.now p.model p.replayed)) }
    ensures replacement { IfOk result (λ p. IsReplacement window.now p.model) }
    ensures refused { IfErr result (λ e. IfSome (S.files shelf.old) (IsRefusedPart window.now journal.now e)) }
    ensures fault { result ≡ Err refusal.Fault → Rose (S.faults shelf.old) (S.faults shelf.new) }
    ensures later { S.faults shelf.old ≤ S.faults shelf.new }
    ensures files { S.files shelf.new ≡ S.files shelf.old }
{
    windows_may_stay();
    if has_no_byte(shelf, journal)? {
        return Ok(stay(alloc, window)?);
    }
    part_by(alloc, keys, shelf, window, journal)
}
