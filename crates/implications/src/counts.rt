// What counts of a gate's pins leave to follow there.
ghost use Rattle.std.specs.Prelude.{◌≡◌, ◌+◌, ◌-◌, ◌<◌, List, Option, Bool, None, Some, false, length, not, slice_get, slice_set, true, ℕ};
ghost use Rattle.gate_net.specs.Forward.{is_known};
ghost use Rattle.refutation.specs.Facts.{Held};
ghost use Rattle.implications.specs.Inner.Counts.{IsCount, is_not_passing};
ghost use Rattle.rm_base.specs.Numbers.{one_if};
ghost use Rattle.implications.specs.Inner.Pulls.{IsEqualPull, IsPull};
ghost use Rattle.implications.specs.Inner.Tallies.{IsTally, counting};

use crate::tallies::Tally;
use refutation::pins::is_value;

/// How many pins are known to have a value, how many are known to have its opposite, and how many pins there are.
#[derive(Clone, Copy, Debug)]
pub struct Count {
    pub controlled: u64,
    pub passing: u64,
    pub pins: u64,
}

// Whether nothing follows at an And or an Or, for it or for a pin, that isn't known, by a count for its controlling
// value.
pub(crate) fn pulls_nothing(count: Count, c: bool, known: Option<bool>) -> bool
    ensures { result ≡ true → (os : List (Option Bool)) → IsCount count c os → IsPull c os known None }
{
    match known {
        None => count.controlled == 0 && count.passing < count.pins,
        Some(value) => {
            if value != c {
                return count.controlled == 0 && count.passing == count.pins;
            }
            count.controlled > 0 || count.pins.saturating_sub(count.passing) > 1
        }
    }
}

// Whether a gate isn't found to be equal nor a driver of it to differ, by a count for drivers that differ.
pub(crate) fn equal_pulls_nothing(count: Count, known: Option<bool>) -> bool
    ensures { result ≡ true → (os : List (Option Bool)) → IsCount count false os → IsEqualPull os known None }
{
    match known {
        None => count.passing < count.pins,
        Some(value) => {
            if value {
                return true;
            }
            count.controlled > 0 || count.pins.saturating_sub(count.passing) > 1
        }
    }
}

// The count for a value, from how many pins are known to have false, how many to have true, and how many there are.
pub(crate) fn count_for(c: bool, no: u32, yes: u32, pins: u32) -> Count
    ensures count { (os : List (Option Bool)) → no ≡ counting (is_known false) os → yes ≡ counting (is_known true) os → pins ≡ length os → IsCount result c os }
    ensures few { (result.controlled < 4294967296) × (result.passing < 4294967296) }
{
    if c {
        return Count {
            controlled: u64::from(yes),
            passing: u64::from(no),
            pins: u64::from(pins),
        };
    }
    Count {
        controlled: u64::from(no),
        passing: u64::from(yes),
        pins: u64::from(pins),
    }
}

// The count with one more where something is given, and one less where something is taken.
fn replace_one(count: u64, taken: bool, given: bool) -> u64
    requires { count < 4294967296 }
    ensures { result ≡ (count + one_if given) - one_if taken }
{
    let more = if given { count + 1 } else { count };
    if taken {
        return more.saturating_sub(1);
    }
    more
}

// The count with one pin stuck, of whose driver that is known.
pub(crate) fn with_stuck_pin(count: Count, c: bool, driven: Option<bool>, value: bool) -> Count
    requires { (count.controlled < 4294967296) × (count.passing < 4294967296) }
    ensures { (os : List (Option Bool)) (p : ℕ) → IsCount count c os → slice_get os p ≡ Some driven → IsCount result c (slice_set os p (Some value)) }
{
    let stuck = Some(value);
    let controlled = replace_one(count.controlled, is_value(driven, c), is_value(stuck, c));
    let passing = replace_one(count.passing, is_value(driven, !c), is_value(stuck, !c));
    Count {
        controlled,
        passing,
        pins: count.pins,
    }
}

// How many equal drivers of an And or an Or aren't held to have the opposite of its controlling value.
pub(crate) fn count_not_passing(tally: &Tally, c: bool) -> u32
    ensures { (held : Held) (position : ℕ) (ds : List ℕ) → IsTally held position ds tally.now → result ≡ counting (is_not_passing held (not c)) ds }
{
    let passing = if c { tally.passing_0 } else { tally.passing_1 };
    tally.equal.saturating_sub(passing)
}
