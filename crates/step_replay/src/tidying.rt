// Tidying to the end, in room that is given anew.
ghost use Rattle.std.specs.Prelude.{◌≡◌, ◌<◌, OnOk};
ghost use Rattle.gate_graph.specs.Circuit.{net_of};
ghost use Rattle.wire_edit.specs.Tidying.{TidiesTo};

use crate::beginning::steps_for;
use rm_base::NoMemory;
use std::alloc::Global;
use wire_edit::{Room, Trial, tidying_ends};

// Keeps the steps so far for good, and gives room for more that make no pin and no node.
fn make_room_on(alloc: Global, trial: &mut Trial) -> Result<(), NoMemory>
    ensures net { net_of trial.new.graph ≡ net_of trial.old.graph }
    ensures room { OnOk result (0 < trial.new.room.steps) }
{
    trial.keep();
    trial.graph().well_formed();
    let room = Room {
        pins: 0,
        nodes: 0,
        steps: steps_for(trial.graph()),
    };
    trial.make_room(alloc, room)
}

/// Makes every step of the tidying order.
pub(crate) fn tidy(alloc: Global, trial: &mut Trial) -> Result<(), NoMemory>
    ensures { OnOk result (TidiesTo (net_of trial.old.graph) (net_of trial.new.graph)) }
{
    tidying_ends();
    loop {
        trial.graph().well_formed();
        match trial.tidy_one() {
            Ok(Some(_step)) => {}
            Ok(None) => return Ok(()),
            Err(_refusal) => make_room_on(alloc, trial)?,
        }
    }
}
