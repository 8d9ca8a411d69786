// Covers by their places.
ghost use Rattle.std.specs.Prelude.{◌≡◌, slice_get};
ghost use Rattle.std.specs.Option.{option_copied};

use rm_model::Cover;

/// The cover at a place.
pub fn cover_at(covers: &[Cover], place: usize) -> Option<&Cover>
    ensures { option_copied result ≡ slice_get covers.now place }
{
    covers.get(place)
}
