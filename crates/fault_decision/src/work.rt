// What a search writes, and how much it may still do.
ghost use Rattle.std.specs.Prelude.{◌≡◌, ◌<◌, false};

use refutation::Item;
use std::alloc::Global;
use ternary_sim::Sim;

/// The items that were written, how many splits are left, whether of the gates that are to be justified the greatest comes
/// first, and what reads forward.
#[derive(Drop)]
pub(crate) struct Work {
    pub(crate) alloc: Global,
    pub(crate) items: Vec<Item>,
    pub(crate) left: u32,
    pub(crate) greatest: bool,
    pub(crate) sim: Sim,
}

// A tree of more items costs more to check and to keep than the answer is worth.
const MOST_ITEMS: usize = 1_000_000;

// While gates are still to be justified, vectors are tried at each of so many splits.
const SPLITS_A_TRY: u32 = 8;

impl Work {
    /// Whether no more may be done.
    pub(crate) fn is_spent(&self) -> bool
        ensures { result ≡ false → 0 < self.now.left }
    {
        if self.left == 0 {
            return true;
        }
        self.items.len() >= MOST_ITEMS
    }

    /// Whether vectors are to be tried while gates are still to be justified.
    pub(crate) fn tries_vectors(&self) -> bool {
        self.left % SPLITS_A_TRY == 0
    }
}
