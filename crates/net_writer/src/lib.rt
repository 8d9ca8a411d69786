//! The text of the model that stands for a net.
#![tactic(auto)]

ghost use Rattle.std.specs.Prelude.{◌≡◌, IfOk, OnOk};
ghost use Rattle.rm_model.specs.WellFormed.{IsWellFormed};
ghost use Rattle.blif_format.specs.Text.{text_of as model_text};
ghost use Rattle.gate_graph.specs.Circuit.{net_of};
ghost use Rattle.graph_to_model.specs.Fits.{Fits};
ghost use Rattle.graph_to_model.specs.Laws.{AreFew};
ghost use Rattle.graph_to_model.specs.NetModel.{model_of_net};

use blif_writer::write_model;
use gate_graph::Graph;
use graph_to_model::model_of_tidy;
use rm_base::NoMemory;
use rm_model::{NameKeys, RankedModel};
use std::alloc::Global;

/// The text of the model that stands for a net.
pub fn net_text(
    alloc: Global,
    keys: NameKeys,
    graph: &Graph,
    model: &RankedModel,
) -> Result<Vec<u8>, NoMemory>
    requires formed { IsWellFormed model.now }
    requires fits { Fits (net_of graph.now) model.now }
    ensures text { IfOk result (λ text. text.items ≡ model_text (model_of_net model.now (net_of graph.now))) }
    ensures few { OnOk result (AreFew (net_of graph.now) model.now) }
{
    let made = model_of_tidy(alloc, keys, graph, model.model())?;
    let text = write_model(alloc, &made)?;
    Ok(text)
}
