// The model of a graph's net.
ghost use Rattle.std.specs.Prelude.{◌≡◌, ℕ, Some, IfErr, IfOk, OnOk};
ghost use Rattle.rm_model.specs.Value.{observed_names, source_names};
ghost use Rattle.rm_model.specs.WellFormed.{IsWellFormed};
ghost use Rattle.gate_graph.specs.Circuit.{net_of};
ghost use Rattle.wire_edit.specs.Order.{IsTidy, next_step};
ghost use Rattle.graph_to_model.specs.Fits.{Fits};
ghost use Rattle.graph_to_model.specs.Laws.{AreFew};
ghost use Rattle.wire_edit.specs.Steps.{gate_of_step};
ghost use Rattle.graph_to_model.specs.NetModel.{model_of_net};
ghost use Rattle.graph_to_model.specs.Refusals.{IsRefused};

use crate::copies::all_covers;
use crate::naming::node_names;
use crate::places::observed_nodes;
use gate_graph::Graph;
use rm_base::{NoMemory, NodeId};
use rm_model::{
    Cover, Listed, Model, NameKeys, copy_latches, copy_name, copy_names, list_observed, sources,
};
use std::alloc::Global;
use std::error::Error;
use std::fmt;
use wire_edit::{Seen, Step, first_rule, first_rule_by};

/// Why a net has no model.
#[derive(Clone, Copy, Debug, PartialEq, Eq)]
pub enum ModelRefusal {
    /// A local rule applies at this gate, so the net is to be tidied first.
    NotTidy { node: NodeId },
    NoMemory,
}

impl fmt::Display for ModelRefusal {
    fn fmt<W: fmt::Write>(&self, f: &mut fmt::Formatter<W>) -> fmt::Result {
        match self {
            ModelRefusal::NotTidy { node } => write!(f, "a local rule applies at gate {}", node.0),
            ModelRefusal::NoMemory => f.write_str("out of memory"),
        }
    }
}

impl Error for ModelRefusal {}

impl From<NoMemory> for ModelRefusal {
    ghost use Rattle.std.specs.Prelude.{◌≡◌};
    ghost use Rattle.graph_to_model.specs.declared.net_model.ModelRefusal.TheVariants as refusal;

    ghost from_gives = { λ e p. p ≡ refusal.NoMemory };

    fn from(_error: NoMemory) -> Self {
        ModelRefusal::NoMemory
    }
}

// The next step of the tidying order. Without memory for marks it is looked for more slowly.
fn next_step(alloc: Global, graph: &Graph) -> Option<Step>
    ensures { result ≡ next_step (net_of graph.now) }
{
    match Seen::new(alloc, graph.node_bound()) {
        Ok(marks) => {
            let mut seen = marks;
            first_rule_by(graph, &mut seen)
        }
        Err(_) => first_rule(graph),
    }
}

fn covers_of(
    alloc: Global,
    keys: NameKeys,
    graph: &Graph,
    original: &Model,
) -> Result<Listed<Cover>, NoMemory>
    requires { Fits (net_of graph.now) original.now }
    ensures { IfOk result (λ covers. covers ≡ (model_of_net original.now (net_of graph.now)).covers) }
{
    graph.well_formed();
    let sources = sources(alloc, keys, original)?;
    let observed = list_observed(alloc, original)?;
    let nodes = observed_nodes(alloc, graph)?;
    let names = node_names(
        alloc,
        graph,
        original,
        sources.as_slice(),
        observed.as_slice(),
        nodes.as_slice(),
    )?;
    let covers = all_covers(
        alloc,
        keys,
        graph,
        sources.as_slice(),
        nodes.as_slice(),
        observed.as_slice(),
        names.as_slice(),
    )?;
    Ok(Listed::from_vec(covers))
}

/// The model of a net, with the names of the model that it was made of: its gates as covers by ascending number, and then
/// copies and constants for the observed names that are left. Where the net is tidy it stands for that model
/// (`tidy_nets_have_models`); nothing looks whether it is. It takes time linear in pins and names, but for the look-ups of
/// names and the tries for a free prefix.
pub fn model_of_tidy(
    alloc: Global,
    keys: NameKeys,
    graph: &Graph,
    original: &Model,
) -> Result<Model, NoMemory>
    requires formed { IsWellFormed original.now }
    requires fits { Fits (net_of graph.now) original.now }
    ensures model { IfOk result (λ m. m ≡ model_of_net original.now (net_of graph.now)) }
    ensures few { AreFew (net_of graph.now) original.now }
{
    graph.well_formed();
    let name = copy_name(alloc, &original.name)?;
    let inputs = copy_names(alloc, original.inputs.items())?;
    let clocks = copy_names(alloc, original.clocks.items())?;
    let outputs = copy_names(alloc, original.outputs.items())?;
    let latches = copy_latches(alloc, original.latches.items())?;
    let covers = covers_of(alloc, keys, graph, original)?;
    Ok(Model {
        name,
        inputs,
        clocks,
        outputs,
        latches,
        covers,
    })
}

/// The same of a net that may not be tidy, which is looked for first.
pub fn model_of(
    alloc: Global,
    keys: NameKeys,
    graph: &Graph,
    original: &Model,
) -> Result<Model, ModelRefusal>
    requires formed { IsWellFormed original.now }
    requires fits { Fits (net_of graph.now) original.now }
    ensures model { IfOk result (λ m. m ≡ model_of_net original.now (net_of graph.now)) }
    ensures tidy { OnOk result (IsTidy (net_of graph.now)) }
    ensures few { AreFew (net_of graph.now) original.now }
    ensures refused { IfErr result (λ refusal. IsRefused (net_of graph.now) refusal) }
{
    graph.well_formed();
    if let Some(step) = next_step(alloc, graph) {
        return Err(ModelRefusal::NotTidy { node: step.gate() });
    }
    let model = model_of_tidy(alloc, keys, graph, original)?;
    Ok(model)
}
