//! Laws of the definitions.
ghost use Rattle.std.specs.Prelude.{◌≡◌};
ghost use Rattle.sewing.specs.Laws.{LeadsAreLeast, PartsFollow, WindowsCompose, WindowsComposeWith, WindowsMayStay, WiresAddUp};
ghost use Rattle.sewing.specs.Rows.{parts, sewn_parts, whole, windows};
ghost use Rattle.sewing.specs.Sewn.{sewn};
ghost use Rattle.sewing.specs.Windows.{IsWindowed};

use cover_decompose::needed_covers_are_taken;
use rm_model::{one_valuation, ranks_exist};

/// A model of three windows that is worked out by hand.
pub fn worked_rows()
    ensures windowed { IsWindowed whole windows }
    ensures sewn { (sewn whole parts).covers ≡ sewn_parts }
{}

/// The least lead is free.
pub fn leads_are_least()
    ensures { LeadsAreLeast }
{}

/// A model whose windows are replaced by models of the same function computes what it did.
pub fn windows_compose()
    ensures with_lead { WindowsComposeWith }
    ensures least { WindowsCompose }
{}

/// Parts for windows, one after the other.
pub fn parts_follow()
    ensures { PartsFollow }
{}

/// A window may stay as it is.
pub fn windows_may_stay()
    ensures { WindowsMayStay }
{
    one_valuation();
}

/// What is sewn has no more wires than the parts have by themselves.
pub fn wires_add_up()
    ensures { WiresAddUp }
{
    ranks_exist();
    needed_covers_are_taken();
}
