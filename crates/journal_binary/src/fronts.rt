// Numbers, counts and values at the front of bytes.
ghost use Rattle.std.specs.Prelude.{◌≡◌, ◌≤◌, ◌&&◌, drop, length, nat_le};
ghost use Rattle.journal_binary.specs.Fronts.{read_bit, read_count, read_eight, read_fault, read_four, read_head};
ghost use Rattle.journal_binary.specs.Inner.Answers.{IsEndOf, front_of, stop_of};
ghost use Rattle.journal_binary.specs.declared.fronts.Stop.TheVariants as stop;

use rm_base::{Fault, NoMemory as WantOfMemory, NodeId};
use std::alloc::AllocFailed;

/// Why there is no part at the front.
#[derive(Clone, Copy)]
pub(crate) enum Lack {
    /// A byte is outside its range.
    Wrong,
    /// The bytes end before the part is whole.
    Early,
}

/// Why reading stopped.
#[derive(Clone, Copy)]
pub(crate) enum Stop {
    Wrong,
    Early,
    NoMemory,
}

impl From<Lack> for Stop {
    ghost from_gives = { λ l s. s ≡ stop_of l };

    fn from(lack: Lack) -> Self {
        match lack {
            Lack::Wrong => Stop::Wrong,
            Lack::Early => Stop::Early,
        }
    }
}

impl From<WantOfMemory> for Stop {
    ghost from_gives = { λ _ s. s ≡ stop.NoMemory };

    fn from(_: WantOfMemory) -> Self {
        Stop::NoMemory
    }
}

impl<T: Drop> From<AllocFailed<T>> for Stop {
    ghost from_gives = { λ _ s. s ≡ stop.NoMemory };

    fn from(_: AllocFailed<T>) -> Self {
        Stop::NoMemory
    }
}

/// The bytes from one place on.
pub(crate) fn rest_from(bytes: &[u8], from: usize) -> &[u8]
    requires { from ≤ length bytes.now }
    ensures { result.now ≡ drop from bytes.now }
{
    &bytes[from..]
}

/// How many bytes were read, where that is left.
pub(crate) fn taken(bytes: &[u8], rest: &[u8]) -> usize
    requires { IsEndOf rest.now bytes.now }
    ensures within { result ≤ length bytes.now }
    ensures left { drop result bytes.now ≡ rest.now }
{
    bytes.len() - rest.len()
}

/// A number of 4 bytes.
pub(crate) fn read_four(bytes: &[u8]) -> Result<(u32, &[u8]), Lack>
    ensures { front_of (λ x. (x.0, x.1.now)) result ≡ read_four bytes.now }
{
    let [a, b, c, d, rest @ ..] = bytes else {
        return Err(Lack::Early);
    };
    Ok((u32::from_le_bytes([*a, *b, *c, *d]), rest))
}

/// A count of 8 bytes.
pub(crate) fn read_eight(bytes: &[u8]) -> Result<(u64, &[u8]), Lack>
    ensures { front_of (λ x. (x.0, x.1.now)) result ≡ read_eight bytes.now }
{
    let [a, b, c, d, e, f, g, h, rest @ ..] = bytes else {
        return Err(Lack::Early);
    };
    let count = u64::from_le_bytes([*a, *b, *c, *d, *e, *f, *g, *h]);
    Ok((count, rest))
}

/// A count of at least 1.
pub(crate) fn read_count(bytes: &[u8]) -> Result<(u64, &[u8]), Lack>
    ensures { front_of (λ x. (x.0, x.1.now)) result ≡ read_count bytes.now }
{
    let (count, rest) = read_eight(bytes)?;
    if count == 0 {
        return Err(Lack::Wrong);
    }
    Ok((count, rest))
}

/// A byte that is 0 or 1.
pub(crate) fn read_bit(bytes: &[u8]) -> Result<(bool, &[u8]), Lack>
    ensures { front_of (λ x. (x.0, x.1.now)) result ≡ read_bit bytes.now }
{
    match bytes {
        [] => Err(Lack::Early),
        [0, rest @ ..] => Ok((false, rest)),
        [1, rest @ ..] => Ok((true, rest)),
        _ => Err(Lack::Wrong),
    }
}

/// A gate, a position and a value.
pub(crate) fn read_fault(bytes: &[u8]) -> Result<(Fault, &[u8]), Lack>
    ensures { front_of (λ x. (x.0, x.1.now)) result ≡ read_fault bytes.now }
{
    let (gate, rest) = read_four(bytes)?;
    let (position, rest) = read_four(rest)?;
    let (value, rest) = read_bit(rest)?;
    let fault = Fault {
        gate: NodeId(gate),
        position,
        value,
    };
    Ok((fault, rest))
}

// The budget is one that a journal may have.
fn in_range(budget: u32) -> bool
    ensures { result ≡ (nat_le 1 budget && nat_le budget 1048576) }
{
    budget >= 1 && budget <= 1_048_576
}

/// The budget, and how many records are to come.
#[tactic(auto, unfolding(crate::specs::Fronts::read_head))]
pub(crate) fn read_head(bytes: &[u8]) -> Result<((u32, u64), &[u8]), Lack>
    ensures { front_of (λ x. (x.0, x.1.now)) result ≡ read_head bytes.now }
{
    let (budget, rest) = read_four(bytes)?;
    if !in_range(budget) {
        return Err(Lack::Wrong);
    }
    let (count, rest) = read_eight(rest)?;
    Ok(((budget, count), rest))
}
