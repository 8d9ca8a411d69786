// A new pattern, with the faults that it is the first to detect.
ghost use Rattle.std.specs.Prelude.{◌≡◌, ◌+◌, ◌<◌, ℕ, Bool, List, Option, IsTrue, None, OnOk, Some, length, slice_get};
ghost use Rattle.gate_net.specs.Net.{Net, source_count};
ghost use Rattle.fault_sim.specs.Words.{lane as lane_of};
ghost use Rattle.rm_base.specs.declared.numbers.Fault.{Fault};
ghost use Rattle.test_patterns.specs.Inner.Drafts.{IsDraft, IsExtended};
ghost use Rattle.test_patterns.specs.declared.gathering.Caught.{Caught as CaughtValue};
ghost use Rattle.test_patterns.specs.Inner.Groups.{AreGathered, AreMarked, IsLaneOf};

use crate::gathering::Caught;
use crate::set::Draft;
use rm_base::NoMemory;

// Whether the fault of that number stands under no pattern.
fn is_unmarked(firsts: &[Option<usize>], at: usize) -> bool
    ensures yes { IsTrue result → slice_get firsts.now at ≡ Some None }
    ensures others { slice_get firsts.now at ≡ Some None → IsTrue result }
{
    let Some(None) = firsts.get(at) else {
        return false;
    };
    true
}

// Whether the lane of the word is set.
fn has_lane(word: u64, lane: u32) -> bool
    requires { lane < 64 }
    ensures { result ≡ lane_of lane word }
{
    (word >> lane) & 1 == 1
}

// Lets a fault stand under a pattern, where the lane detects it and it stands under none; `any` says whether others do.
fn mark_one(
    one: Caught,
    lane: u32,
    pattern: usize,
    firsts: &mut Vec<Option<usize>>,
    any: bool,
) -> bool
    requires { lane < 64 }
    ensures { (caught : List CaughtValue) (count : ℕ) (old : List (Option ℕ)) → slice_get caught count ≡ Some one → AreMarked caught count lane pattern old firsts.old.items any
        → AreMarked caught (count + 1) lane pattern old firsts.new.items result }
{
    if !has_lane(one.lanes, lane) {
        return any;
    }
    if !is_unmarked(firsts.as_slice(), one.at) {
        return any;
    }
    firsts[one.at] = Some(pattern);
    true
}

// Lets the faults that a lane detects, and that stand under no pattern, stand under this one: whether there are any.
fn mark(caught: &[Caught], lane: u32, pattern: usize, firsts: &mut Vec<Option<usize>>) -> bool
    requires { lane < 64 }
    ensures { AreMarked caught.now (length caught.now) lane pattern firsts.old.items firsts.new.items result }
{
    let mut any = false;
    for place in 0..caught.len() {
        any = mark_one(caught[place], lane, pattern, firsts, any);
    }
    any
}

/// Adds the vector of that number, which stands in the lane, where it detects a fault that no pattern before it does.
pub(crate) fn add_lane_pattern(
    set: &mut Draft,
    caught: &[Caught],
    lane: u32,
    number: usize,
) -> Result<(), NoMemory>
    requires { lane < 64 }
    ensures { (net : Net) (faults : List Fault) (vectors : List (List Bool)) (numbers : List (Option ℕ)) (words : List ℕ) (vector : List Bool)
        → IsDraft net faults vectors numbers set.old.patterns.items set.old.firsts.items
        → AreGathered net faults numbers set.old.firsts.items words caught.now → IsLaneOf words lane vector → length vector ≡ source_count net → slice_get vectors number ≡ Some vector
        → OnOk result (IsExtended net faults vectors numbers set.new.patterns.items set.old.firsts.items set.new.firsts.items vector) }
{
    let pattern = set.patterns.len();
    if mark(caught, lane, pattern, &mut set.firsts) {
        set.patterns.push(number)?;
    }
    Ok(())
}
