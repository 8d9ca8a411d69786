// Refusals of a word at its place.
ghost use Rattle.std.specs.Prelude.{◌≡◌, Some};
ghost use Rattle.blif_reader.specs.Meant.{refusal_of};

use blif_format::{FaultKind, Quantity, ReadRefusal};
use rm_base::Place;

/// Refuses with a fault.
pub fn fault(kind: FaultKind, place: Place) -> Result<(), ReadRefusal>
    ensures { refusal_of result ≡ Some (ReadRefusal.Fault kind place) }
{
    Err(ReadRefusal::Fault { kind, place })
}

/// Refuses with a limit that is exceeded.
pub fn limit(quantity: Quantity, count: usize, place: Place) -> Result<(), ReadRefusal>
    ensures { refusal_of result ≡ Some (ReadRefusal.Limit quantity count place) }
{
    Err(ReadRefusal::Limit {
        quantity,
        count: count as u64,
        place,
    })
}
