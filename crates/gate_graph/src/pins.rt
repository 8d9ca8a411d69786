//! Pins of a gate.
ghost use Rattle.std.specs.Prelude.{◌≡◌, ◌≢◌, ◌+◌, ◌<◌, ◌≤◌, ℕ, true, false, length, slice_get, Some, None, IfSome, [], ◌∷◌, drop};
ghost use Rattle.std.specs.Option.{option_map};
ghost use Rattle.pin_pool.specs.Rings.{rings_of, IsLinked};
ghost use Rattle.pin_pool.specs.Pins.{list_of};
ghost use Rattle.gate_graph.specs.Wirings.{kind_at};
ghost use Rattle.gate_graph.specs.Circuit.{gate_pins, place_in, without_observed, observed_list};
ghost use Rattle.gate_graph.specs.Inner.Circuit.{kinds_live, kinds_dead};
ghost use Rattle.pin_pool.specs.Ring.{has};
ghost use Rattle.gate_net.specs.declared.Kind.TheVariants.{Source};
ghost use Rattle.rm_base.specs.Numbers.{number_bound, first_source, one_number};

use crate::rings::tell_rings;
use gate_net::Kind;
use pin_pool::{PinIter, PinNo, Pool};
use rm_base::{FIRST_SOURCE, ONE};

/// The gate of the pool whose pins are the observed points: node 0 has none of its own.
pub(crate) const OBSERVED_LIST: u32 = 0;

// The kind that is kept for a number.
pub(crate) fn stored_kind(kinds: &[Option<Kind>], node: u32) -> Option<Kind>
    ensures { result ≡ kind_at kinds.now node }
{
    match kinds.get(node as usize) {
        Some(kind) => *kind,
        None => None,
    }
}

// The pin at a position.
pub(crate) fn nth_pin(pool: &Pool, gate: u32, position: u32) -> Option<PinNo>
    requires { gate < length pool.now.inputs }
    ensures { option_map (λ p. p.0) result ≡ slice_get (list_of pool.now.inputs gate) position }
{
    let mut pins = pool.inputs_from(gate, position);
    match pins.next() {
        Some(pin) => Some(pin),
        None => None,
    }
}

// The least number from `from` on of no live node.
pub(crate) fn least_free(kinds: &[Option<Kind>], from: u32) -> u32
    requires few { length kinds.now ≤ number_bound }
    requires live { kinds_live kinds.now from }
    ensures live { kinds_live kinds.now result }
    ensures free { result < length kinds.now → kind_at kinds.now result ≡ None }
{
    let mut at = from;
    while (at as usize) < kinds.len() {
        match kinds[at as usize] {
            None => return at,
            Some(_) => {}
        }
        at += 1;
    }
    at
}

// The pins of a gate, where those of the observed list are none.
pub(crate) fn pins_of_gate(pool: &Pool, gate: u32) -> PinIter<'_>
    requires one { one_number < length pool.now.inputs }
    requires gate { gate < length pool.now.inputs }
    requires none { list_of pool.now.inputs one_number ≡ [] }
    ensures pins { result ≡ gate_pins pool.now gate }
    ensures few { length result ≤ number_bound }
{
    if gate == OBSERVED_LIST {
        return pool.inputs(ONE.0);
    }
    pool.inputs(gate)
}

// The same from a position on.
pub(crate) fn pins_of_gate_from(pool: &Pool, gate: u32, position: u32) -> PinIter<'_>
    requires one { one_number < length pool.now.inputs }
    requires gate { gate < length pool.now.inputs }
    requires none { list_of pool.now.inputs one_number ≡ [] }
    ensures pins { result ≡ drop position (gate_pins pool.now gate) }
    ensures few { length result ≤ number_bound }
{
    if gate == OBSERVED_LIST {
        return pool.inputs(ONE.0);
    }
    pool.inputs_from(gate, position)
}

// One more than the last number of a live node, 0 if there is none, where no number from `from` on is live.
pub(crate) fn last_live(kinds: &[Option<Kind>], from: u32) -> u32
    requires { kinds_dead kinds.now from }
    ensures above { kinds_dead kinds.now result }
    ensures last { (m : ℕ) → m + 1 ≡ result → kind_at kinds.now m ≢ None }
{
    let mut bound = from;
    while bound > 0 {
        match stored_kind(kinds, bound - 1) {
            Some(_) => return bound,
            None => {}
        }
        bound -= 1;
    }
    0
}

// The place of a pin among those of its gate.
pub(crate) fn place_of(pool: &Pool, gate: u32, pin: PinNo) -> u32
    requires gate { gate < length pool.now.inputs }
    requires there { has pin.0 (list_of pool.now.inputs gate) ≡ true }
    ensures { result ≡ place_in (list_of pool.now.inputs gate) pin.0 }
{
    let mut at = 0u32;
    for other in pool.inputs(gate) {
        if other == pin {
            return at;
        }
        at += 1;
    }
    unreachable!()
}

// The next pin that is no observed place.
pub(crate) fn next_reading(pins: &mut PinIter<'_>, pool: &Pool) -> Option<PinNo>
    requires linked { (p : ℕ) → has p pins.old ≡ true → IsLinked (rings_of pool.now) p }
    ensures none { result ≡ None → without_observed (list_of pool.now.inputs observed_list) pins.old ≡ [] }
    ensures rest { result ≡ None → pins.new ≡ [] }
    ensures some { IfSome result (λ pin. without_observed (list_of pool.now.inputs observed_list) pins.old ≡ pin.0 ∷ without_observed (list_of pool.now.inputs observed_list) pins.new) }
    ensures linked { IfSome result (λ pin. IsLinked (rings_of pool.now) pin.0) }
    ensures reads { IfSome result (λ pin. has pin.0 (list_of pool.now.inputs observed_list) ≡ false) }
    ensures kept { (p : ℕ) → has p pins.new ≡ true → has p pins.old ≡ true }
{
    tell_rings(pool);
    while let Some(pin) = pins.next() {
        if pool.gate_of(pin) != 0 {
            return Some(pin);
        }
    }
    None
}

// Whether an observed place is among the readers of a node.
pub(crate) fn observes(pool: &Pool, node: u32) -> bool
    requires within { node < length pool.now.inputs }
    requires linked { (p : ℕ) → has p (list_of pool.now.fanouts node) ≡ true → IsLinked (rings_of pool.now) p }
    ensures found { result ≡ true → (p : ℕ) × ((has p (list_of pool.now.fanouts node) ≡ true) × (has p (list_of pool.now.inputs observed_list) ≡ true)) }
    ensures none { result ≡ false → (p : ℕ) → has p (list_of pool.now.fanouts node) ≡ true → has p (list_of pool.now.inputs observed_list) ≡ false }
{
    tell_rings(pool);
    for pin in pool.fanouts(node) {
        if pool.gate_of(pin) == 0 {
            return true;
        }
    }
    false
}

// Whether a node has a fanout.
pub(crate) fn has_fanout(pool: &Pool, node: u32) -> bool
    requires { node < length pool.now.inputs }
    ensures none { result ≡ false → list_of pool.now.fanouts node ≡ [] }
    ensures some { result ≡ true → (p : ℕ) × (has p (list_of pool.now.fanouts node) ≡ true) }
{
    let mut pins = pool.fanouts(node);
    match pins.next() {
        Some(_) => true,
        None => false,
    }
}

fn is_source(kind: Option<Kind>) -> bool
    ensures yes_is { result ≡ true → kind ≡ Some Source }
    ensures no_is { result ≡ false → kind ≢ Some Source }
{
    match kind {
        Some(Kind::Source) => true,
        _ => false,
    }
}

// Whether there are that many sources, as they stand in a row: the last of so many is one, and the next node isn't.
pub(crate) fn are_sources(kinds: &[Option<Kind>], sources: u32) -> bool
    ensures last { result ≡ true → (k : ℕ) → k + 1 ≡ sources → kind_at kinds.now (first_source + k) ≡ Some Source }
    ensures end { result ≡ true → kind_at kinds.now (first_source + sources) ≢ Some Source }
{
    let Some(end) = sources.checked_add(FIRST_SOURCE) else {
        return false;
    };
    if is_source(stored_kind(kinds, end)) {
        return false;
    }
    if sources == 0 {
        return true;
    }
    is_source(stored_kind(kinds, end - 1))
}

// How many nodes in a row are sources, from the first source's number on.
pub(crate) fn first_sources(kinds: &[Option<Kind>]) -> u32
    requires few { length kinds.now ≤ number_bound }
    ensures all { (k : ℕ) → k < result → kind_at kinds.now (first_source + k) ≡ Some Source }
    ensures end { kind_at kinds.now (first_source + result) ≢ Some Source }
    ensures few { result ≤ length kinds.now }
{
    let mut at = FIRST_SOURCE;
    while (at as usize) < kinds.len() {
        if !is_source(stored_kind(kinds, at)) {
            return at - FIRST_SOURCE;
        }
        at += 1;
    }
    at - FIRST_SOURCE
}

// How many pins a node has.
pub(crate) fn count_pins(pool: &Pool, gate: u32) -> u32
    requires { gate < length pool.now.inputs }
    ensures { result ≡ length (list_of pool.now.inputs gate) }
{
    pool.input_count(gate)
}

// How many pins a gate has, where those of number 0 are the observed places.
pub(crate) fn count_gate_pins(pool: &Pool, gate: u32) -> u32
    requires { gate < length pool.now.inputs }
    ensures { result ≡ length (gate_pins pool.now gate) }
{
    if gate == OBSERVED_LIST {
        return 0;
    }
    count_pins(pool, gate)
}
