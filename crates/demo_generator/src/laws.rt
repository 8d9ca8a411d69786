// What holds of the models of all seeds.
ghost use Rattle.demo_generator.specs.Ready.{AreReady};

use cover_decompose::wires_are_bounded;
use rm_model::ranks_exist;

/// The model of each seed has what a decomposition requires.
pub fn demo_models_are_ready()
    ensures { AreReady }
{
    ranks_exist();
    wires_are_bounded();
}
