// Whether there is a journal.
ghost use Rattle.std.specs.Prelude.{◌≡◌, ◌≤◌, Err, IfErr, IfSome, Ok, true};
ghost use Rattle.rm_base.specs.Causes.{Rose};
ghost use Rattle.rm_model.specs.declared.parts.Model.{Model};
ghost use Rattle.window_parts.specs.Part.{HasNoByte};
ghost use Rattle.window_parts.specs.Refusals.{IsRefusedPart};
ghost use Rattle.window_parts.specs.declared.refusal.PartRefusal.TheVariants as refusal;

use crate::refusal::PartRefusal;
use rm_base::{OutsideFault, Shelf};

/// Whether the file isn't there, or has no byte.
pub(crate) fn has_no_byte<S: Shelf>(shelf: &mut S, name: &str) -> Result<bool, PartRefusal>
    ensures none { result ≡ Ok true → IfSome (S.files shelf.old) (HasNoByte name.now) }
    ensures refused { IfErr result (λ e. (w : Model) → IfSome (S.files shelf.old) (IsRefusedPart w name.now e)) }
    ensures fault { result ≡ Err refusal.Fault → Rose (S.faults shelf.old) (S.faults shelf.new) }
    ensures later { S.faults shelf.old ≤ S.faults shelf.new }
    ensures files { S.files shelf.new ≡ S.files shelf.old }
{
    match shelf.read(name, 0, 1) {
        Ok(Some(bytes)) => Ok(bytes.as_slice().is_empty()),
        Ok(None) => Ok(true),
        Err(OutsideFault::Failed) => Err(PartRefusal::Fault),
        Err(OutsideFault::NoMemory) => Err(PartRefusal::NoMemory),
    }
}
