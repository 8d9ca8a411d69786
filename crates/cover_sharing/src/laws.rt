// Laws of the definitions, each the contract of a function that does nothing.
ghost use Rattle.std.specs.Prelude.{◌≡◌};
ghost use Rattle.rm_model.specs.Value.{Equivalent, IsRanked};
ghost use Rattle.rm_model.specs.WellFormed.{IsWellFormed};
ghost use Rattle.rm_model.specs.declared.parts.Model.{Model};
ghost use Rattle.cover_sharing.specs.Rows.{left_covers, repeating};
ghost use Rattle.cover_sharing.specs.Shared.{shared};

use window_cut::windows_are_ordered;

/// Covers that are merged by hand.
pub fn worked_rows()
    ensures { (shared repeating).covers ≡ left_covers }
{}

/// A model whose equal covers are merged is well formed, and computes what it did.
pub fn shared_models_agree()
    ensures formed { (m : Model) → IsWellFormed m → IsRanked m → IsWellFormed (shared m) }
    ensures agree { (m : Model) → IsWellFormed m → IsRanked m → Equivalent m (shared m) }
{
    windows_are_ordered();
}
