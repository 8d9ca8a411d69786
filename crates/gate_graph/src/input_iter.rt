//! The drivers of a gate, in order.
ghost use Rattle.std.specs.Prelude.{◌≡◌, ℕ, List};
ghost use Rattle.std.specs.Iterator.{YieldsFirstBy, item_count};

use pin_pool::{PinIter, Pool};
use rm_base::NodeId;
use std::marker::Model;

/// The drivers of a gate, in order.
#[derive(Drop)]
pub struct Inputs<'a> {
    pub(crate) pins: PinIter<'a>,
    pub(crate) pool: &'a Pool,
}

impl<'a> Model for Inputs<'a> {
    ghost use Rattle.std.specs.Prelude.{List, ℕ};

    ghost Value = { List ℕ };

    ghost use Rattle.std.specs.Prelude.{◌≡◌, true, map};
    ghost use Rattle.pin_pool.specs.Ring.{has};
    ghost use Rattle.pin_pool.specs.Rings.{IsLinked};
    ghost use Rattle.pin_pool.specs.Rings.{rings_of, AreRings};
    ghost use Rattle.gate_graph.specs.Circuit.{home};

    ghost view = { λ it. map (home it.pool.now.fanouts) it.pins };

    ghost invariant = { λ it. AreRings (rings_of it.pool.now) × ((p : ℕ) → has p it.pins ≡ true → IsLinked (rings_of it.pool.now) p) };
}

impl Iterator for Inputs<'_> {
    type Item = NodeId;

    ghost next_gives = { YieldsFirstBy (λ n. n.0) (λ it. it) };

    ghost remaining = { item_count (λ it. it) };

    fn next(&mut self) -> Option<NodeId> {
        let Some(pin) = self.pins.next() else {
            return None;
        };
        Some(NodeId(self.pool.driver_of(pin)))
    }
}
