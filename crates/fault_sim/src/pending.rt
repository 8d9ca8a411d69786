// Pending places of an order, 64 to a word.
ghost use Rattle.std.specs.Prelude.{◌≡◌, ◌<◌, ◌≤◌, ◌^◌, ◌/◌, bit_and, bit_or, bit_xor, length};
ghost use Rattle.fault_sim.specs.Inner.Pending.{IsFirstBit, IsFirstPending, IsMarked, IsUnmarked};
ghost use Rattle.fault_sim.specs.Words.{all_ones};

// The word with one bit set.
fn with_bit(word: u64, bit: usize) -> u64
    requires { bit < 64 }
    ensures { result ≡ bit_or word (2 ^ bit) }
{
    word | 1u64 << bit
}

// The word with one bit cleared.
fn without_bit(word: u64, bit: usize) -> u64
    requires { bit < 64 }
    ensures { result ≡ bit_and word (bit_xor (2 ^ bit) all_ones) }
{
    word & ((1u64 << bit) ^ u64::MAX)
}

// Makes a place pending.
pub(crate) fn mark(pending: &mut Vec<u64>, place: usize)
    requires { place / 64 < length pending.old.items }
    ensures { IsMarked pending.old.items pending.new.items place }
{
    let word = place / 64;
    pending[word] = with_bit(pending[word], place % 64);
}

// Takes a place off.
pub(crate) fn unmark(pending: &mut Vec<u64>, place: usize)
    requires { place / 64 < length pending.old.items }
    ensures { IsUnmarked pending.old.items pending.new.items place }
{
    let word = place / 64;
    pending[word] = without_bit(pending[word], place % 64);
}

// The first bit that is set, from that one on.
pub(crate) fn first_bit(word: u64, from: usize) -> Option<usize>
    requires { from < 64 }
    ensures { IsFirstBit word from result }
{
    let rest = word >> from;
    if rest == 0 {
        return None;
    }
    Some(from + rest.trailing_zeros() as usize)
}

// The first pending place from that one on.
pub(crate) fn next_pending(pending: &[u64], from: usize) -> Option<usize>
    requires { length pending.now ≤ 2 ^ 58 }
    ensures { IsFirstPending pending.now from result }
{
    let mut bit = from % 64;
    for word in from / 64..pending.len() {
        if let Some(found) = first_bit(pending[word], bit) {
            return Some(64 * word + found);
        }
        bit = 0;
    }
    None
}
