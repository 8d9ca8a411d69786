//! The gates that read a node, in order.
ghost use Rattle.std.specs.Prelude.{◌≡◌, ℕ, List};
ghost use Rattle.std.specs.Iterator.{YieldsFirstBy, item_count};

use crate::pins::next_reading;
use pin_pool::{PinIter, Pool};
use rm_base::NodeId;
use std::marker::Model;

/// The gates that read a node, once for each pin. `Fanouts` gives the positions too, which it has to look for.
#[derive(Drop)]
pub struct Readers<'a> {
    pub(crate) pins: PinIter<'a>,
    pub(crate) pool: &'a Pool,
}

impl<'a> Model for Readers<'a> {
    ghost use Rattle.std.specs.Prelude.{List, ℕ};

    ghost Value = { List ℕ };

    ghost use Rattle.std.specs.Prelude.{◌≡◌, true, map};
    ghost use Rattle.pin_pool.specs.Ring.{has};
    ghost use Rattle.pin_pool.specs.Rings.{IsLinked};
    ghost use Rattle.pin_pool.specs.Pins.{list_of};
    ghost use Rattle.pin_pool.specs.Rings.{rings_of, AreRings};
    ghost use Rattle.gate_graph.specs.Circuit.{home, without_observed, observed_list};

    ghost view = { λ it. map (home it.pool.now.inputs) (without_observed (list_of it.pool.now.inputs observed_list) it.pins) };

    ghost invariant = { λ it. AreRings (rings_of it.pool.now) × ((p : ℕ) → has p it.pins ≡ true → IsLinked (rings_of it.pool.now) p) };
}

impl Iterator for Readers<'_> {
    type Item = NodeId;

    ghost next_gives = { YieldsFirstBy (λ n. n.0) (λ it. it) };

    ghost remaining = { item_count (λ it. it) };

    fn next(&mut self) -> Option<NodeId> {
        let Some(pin) = next_reading(&mut self.pins, self.pool) else {
            return None;
        };
        Some(NodeId(self.pool.gate_of(pin)))
    }
}
