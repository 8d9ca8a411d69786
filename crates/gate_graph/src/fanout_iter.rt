//! The readers of a node, in order.
ghost use Rattle.std.specs.Prelude.{◌≡◌, ℕ, List};
ghost use Rattle.std.specs.Iterator.{YieldsFirstBy, item_count};

use crate::pins::{next_reading, place_of};
use pin_pool::{PinIter, Pool};
use rm_base::NodeId;
use std::marker::Model;

/// The pins that read a node, each as its gate and its position.
#[derive(Drop)]
pub struct Fanouts<'a> {
    pub(crate) pins: PinIter<'a>,
    pub(crate) pool: &'a Pool,
}

impl<'a> Model for Fanouts<'a> {
    ghost use Rattle.std.specs.Prelude.{List, ℕ};

    ghost Value = { List (ℕ × ℕ) };

    ghost use Rattle.std.specs.Prelude.{◌≡◌, true, map};
    ghost use Rattle.pin_pool.specs.Ring.{has};
    ghost use Rattle.pin_pool.specs.Rings.{IsLinked};
    ghost use Rattle.pin_pool.specs.Pins.{list_of};
    ghost use Rattle.pin_pool.specs.Rings.{rings_of, AreRings};
    ghost use Rattle.gate_graph.specs.Circuit.{reader, without_observed, observed_list};

    ghost view = { λ it. map (reader it.pool.now) (without_observed (list_of it.pool.now.inputs observed_list) it.pins) };

    ghost invariant = { λ it. AreRings (rings_of it.pool.now) × ((p : ℕ) → has p it.pins ≡ true → IsLinked (rings_of it.pool.now) p) };
}

impl Iterator for Fanouts<'_> {
    type Item = (NodeId, u32);

    ghost next_gives = { YieldsFirstBy (λ p. (p.0.0, p.1)) (λ it. it) };

    ghost remaining = { item_count (λ it. it) };

    fn next(&mut self) -> Option<(NodeId, u32)> {
        let Some(pin) = next_reading(&mut self.pins, self.pool) else {
            return None;
        };
        let gate = self.pool.gate_of(pin);
        let position = place_of(self.pool, gate, pin);
        Some((NodeId(gate), position))
    }
}
