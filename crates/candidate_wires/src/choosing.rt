// The candidates at one gate.
ghost use Rattle.std.specs.Prelude.{OnOk};
ghost use Rattle.gate_net.specs.Net.{Net};
ghost use Rattle.gate_net.specs.Values.{IsJunction};
ghost use Rattle.refutation.specs.Facts.{Held};
ghost use Rattle.refutation.specs.Reaching.{MarksReached};
ghost use Rattle.candidate_wires.specs.Joining.{IsCandidateOf};
ghost use Rattle.candidate_wires.specs.Inner.Parts.{AddsChoices, IsKnown, MarksDrivers};

use crate::candidate::Candidate;
use crate::known::Known;
use crate::node_set::NodeSet;
use rm_base::{NoMemory, NodeId};

// The candidate of the gate and that node, where there is one.
fn choice_at(
    gate: NodeId,
    control: bool,
    reached: &NodeSet,
    driving: &NodeSet,
    source: Known,
) -> Option<Candidate>
    ensures { (net : Net) (held : Held) → IsJunction net gate.0 control → MarksReached net gate.0 reached.now → MarksDrivers net gate.0 driving.now → IsKnown net held source → IsCandidateOf net held gate.0 source.node.0 result }
{
    let node = source.node;
    if node.0 == gate.0 {
        return None;
    }
    if reached.has(node) {
        return None;
    }
    if driving.has(node) {
        return None;
    }
    if source.value == control {
        return Some(Candidate {
            node,
            fresh: false,
            gate,
        });
    }
    if !source.has_no_not {
        return None;
    }
    Some(Candidate {
        node,
        fresh: true,
        gate,
    })
}

// Adds the candidates at the gate with that controlling value, by the marks of what it reaches and of its drivers.
pub(crate) fn add_choices(
    gate: NodeId,
    control: bool,
    reached: &NodeSet,
    driving: &NodeSet,
    sources: &[Known],
    found: &mut Vec<Candidate>,
) -> Result<(), NoMemory>
    ensures { OnOk result (AddsChoices gate.0 control reached.now driving.now sources.now found.old.items found.new.items) }
{
    for source in sources {
        let chosen = choice_at(gate, control, reached, driving, *source);
        let Some(candidate) = chosen else {
            continue;
        };
        found.push(candidate)?;
    }
    Ok(())
}
