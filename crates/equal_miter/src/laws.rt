//! What holds of every miter.
ghost use Rattle.equal_miter.specs.Laws.{MitersTell};
ghost use Rattle.equal_miter.specs.ModelLaws.{ApartIsNotSame, MitersHaveSources, TestsTellApart, UndetectedMeansSame};

use cover_decompose::{plain_nets_are_formed, plain_nets_stand};
use gate_net::{faulty_values_exist, values_exist};
use rm_model::{one_valuation, ranks_exist};

/// An assignment detects the miter's fault exactly where the two nets differ under it, whatever nets with as many sources and observed places they are.
pub fn miters_tell()
    ensures { MitersTell }
{
    values_exist();
    faulty_values_exist();
}

/// What detects the miter's fault tells the models apart, and where nothing does they compute the same.
pub fn miters_tell_models()
    ensures same { UndetectedMeansSame }
    ensures apart { TestsTellApart }
    ensures not_both { ApartIsNotSame }
    ensures sources { MitersHaveSources }
{
    miters_tell();
    values_exist();
    plain_nets_stand();
    plain_nets_are_formed();
    ranks_exist();
    one_valuation();
}
