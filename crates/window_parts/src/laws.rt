// What follows for the net to which accepted steps lead.
ghost use Rattle.window_parts.specs.Inner.Laws.{RebuiltNetsFit, RebuiltNetsReplace};

use gate_net::values_exist;
use graph_to_model::tidy_nets_have_models;

/// The net to which accepted steps lead has the sources and the observed points of the model.
pub(crate) fn rebuilt_nets_fit()
    ensures { RebuiltNetsFit }
{
    values_exist();
}

/// Its model computes what the model does.
pub(crate) fn rebuilt_nets_replace()
    ensures { RebuiltNetsReplace }
{
    values_exist();
    tidy_nets_have_models();
}
