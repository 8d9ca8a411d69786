//! How many inputs each node has, and how many all have.
ghost use Rattle.std.specs.Prelude.{◌≡◌, ◌<◌, ◌≤◌, ◌+◌, ◌-◌, ℕ, length, set, OnOk};
ghost use Rattle.pin_pool.specs.Inner.Totals.{count_at};
ghost use Rattle.rm_base.specs.Numbers.{number_bound};

use rm_base::NoMemory;

// Counts one input more, of the node and of all.
pub(crate) fn count_in(counts: &mut Vec<u32>, linked: &mut u32, gate: u32)
    requires gate { gate < length counts.old.items }
    requires few { count_at counts.old.items gate < number_bound }
    requires all { linked.old < number_bound }
    ensures counts { counts.new.items ≡ set counts.old.items gate (count_at counts.old.items gate + 1) }
    ensures linked { linked.new ≡ linked.old + 1 }
{
    counts[gate as usize] += 1;
    *linked += 1;
}

// Counts one input less.
pub(crate) fn count_out(counts: &mut Vec<u32>, linked: &mut u32, gate: u32)
    requires gate { gate < length counts.old.items }
    requires some { 0 < count_at counts.old.items gate }
    requires all { 0 < linked.old }
    ensures counts { counts.new.items ≡ set counts.old.items gate (count_at counts.old.items gate - 1) }
    ensures linked { linked.new + 1 ≡ linked.old }
{
    counts[gate as usize] -= 1;
    *linked -= 1;
}

// Makes room for the counts of so many nodes, of which the new ones have no input.
pub(crate) fn widen(counts: &mut Vec<u32>, nodes: usize) -> Result<(), NoMemory>
    ensures same { (n : ℕ) → count_at counts.new.items n ≡ count_at counts.old.items n }
    ensures more { length counts.old.items ≤ length counts.new.items }
    ensures room { OnOk result (nodes ≤ length counts.new.items) }
{
    if nodes <= counts.len() {
        return Ok(());
    }
    let Ok(()) = counts.resize(nodes, 0) else {
        return Err(NoMemory);
    };
    Ok(())
}
