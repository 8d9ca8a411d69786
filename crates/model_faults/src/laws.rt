//! Laws of faults.
ghost use Rattle.model_faults.specs.Laws.{NetsListOnce, TidyNetsHaveModelFaults, TidyNetsListAlike, VectorsGive};
ghost use Rattle.model_faults.specs.Valuations.{AllRunsDetect, FaultyValuationsExist, WiresAreOfGates};
ghost use Rattle.std.specs.Prelude.{◌≡◌, [], ◌∷◌, codes, false, true, Some};
ghost use Rattle.cover_decompose.specs.Decomposition.{net_of_model};
ghost use Rattle.cover_decompose.specs.Rows.{r5};
ghost use Rattle.graph_to_model.specs.Rows.{copies, r5_out};
ghost use Rattle.graph_to_model.specs.NetModel.{model_of_net};
ghost use Rattle.model_faults.specs.ModelFaults.{DetectsIn, gate_covers_of};
ghost use Rattle.gate_net.specs.Faults.{gates_of};
ghost use Rattle.model_faults.specs.Rows.{and_cover, and_model, or_is_gate, outputs, with_copies};

use wire_edit::order_tells;

/// Faults that are worked out by hand.
pub fn worked_rows()
    ensures copies { gate_covers_of copies ≡ [] }
    ensures gates { outputs (gate_covers_of with_copies) ≡ codes "z" ∷ [] }
    ensures wide { or_is_gate 65 ≡ Some true }
    ensures r5 { gate_covers_of (model_of_net r5 (net_of_model r5)) ≡ r5_out }
    ensures r5_gates { gates_of (net_of_model r5) ≡ 4 ∷ 5 ∷ 6 ∷ 7 ∷ [] }
    ensures detected { DetectsIn and_model (true ∷ true ∷ []) and_cover 0 false }
    ensures masked { DetectsIn and_model (true ∷ false ∷ []) and_cover 0 false → ⊥ }
{}

/// A model has one faulty valuation for each fault and vector, so a vector that detects the fault shows it in any valuations. Its
/// wires are the inputs of its gate covers.
pub fn faults_of_models()
    ensures exist { FaultyValuationsExist }
    ensures detect { AllRunsDetect }
    ensures wires { WiresAreOfGates }
{}

/// The k-th gate of a tidy net is the k-th gate cover of its model, with as many inputs as pins, and the same vectors
/// detect their faults; each fault stands once in the list of the net's faults, and the lists of both have the same order.
pub fn tidy_nets_have_model_faults()
    ensures faults { TidyNetsHaveModelFaults }
    ensures once { NetsListOnce }
    ensures vectors { VectorsGive }
    ensures alike { TidyNetsListAlike }
{
    order_tells();
}
