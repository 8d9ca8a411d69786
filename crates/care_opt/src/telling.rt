// What the extract of a gated net that was worked on says of the models.
ghost use Rattle.care_opt.specs.Inner.Telling.{CaresTell, GatedStand};

use cover_decompose::{decompositions_are_formed, decompositions_stand};
use gate_net::{faulty_values_exist, values_exist};
use graph_to_model::tidy_nets_have_models;
use journal_text::accepted_runs_keep;
use rm_model::ranks_exist;
use wire_edit::{order_tells, steps_keep, tidying_ends};

/// The extract of a gated net after steps of main gates is all that optimising under a care model promises.
pub(crate) fn cares_tell()
    ensures tell { CaresTell }
    ensures gated { GatedStand }
{
    decompositions_stand();
    decompositions_are_formed();
    values_exist();
    faulty_values_exist();
    ranks_exist();
    steps_keep();
    order_tells();
    tidying_ends();
    accepted_runs_keep();
    tidy_nets_have_models();
}
