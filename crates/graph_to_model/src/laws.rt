//! Laws of the definitions.
ghost use Rattle.std.specs.Prelude.{◌≡◌, Some, true};
ghost use Rattle.graph_to_model.specs.Laws.{TidyNetsHaveModels, TidyNetsHaveSmallModels};
ghost use Rattle.cover_decompose.specs.Decomposition.{net_of_model};
ghost use Rattle.cover_decompose.specs.Rows.{agree, differ, r2, r5};
ghost use Rattle.graph_to_model.specs.NetModel.{model_of_net};
ghost use Rattle.graph_to_model.specs.Rows.{agree_out, copies, gate_of_next, gate_two, many_ones, one_zero, or_cover, r2_out, r5_out, rows_and_ending, taken_prefix, taken_prefix_out, zero_row};
ghost use Rattle.graph_to_model.specs.Wires.{wires};

use wire_edit::order_tells;

/// Models of nets that are worked out by hand.
pub fn worked_rows()
    ensures r2 { (model_of_net r2 (net_of_model r2)).covers ≡ r2_out }
    ensures r2_wires { wires (model_of_net r2 (net_of_model r2)) ≡ 4 }
    ensures r5 { (model_of_net r5 (net_of_model r5)).covers ≡ r5_out }
    ensures r5_wires { wires (model_of_net r5 (net_of_model r5)) ≡ 5 }
    ensures differ { model_of_net (differ true) (net_of_model (differ true)) ≡ differ true }
    ensures differ_wires { wires (differ true) ≡ 2 }
    ensures agree { (model_of_net (agree true) (net_of_model (agree true))).covers ≡ agree_out }
    ensures agree_again { net_of_model (model_of_net (agree true) (net_of_model (agree true))) ≡ net_of_model (agree true) }
    ensures copies { model_of_net copies (net_of_model copies) ≡ copies }
    ensures copies_wires { wires copies ≡ 0 }
    ensures not_tidy { gate_of_next (net_of_model zero_row) ≡ Some gate_two }
    ensures or_64 { rows_and_ending (or_cover 64) ≡ many_ones }
    ensures or_65 { rows_and_ending (or_cover 65) ≡ one_zero }
    ensures prefix { (model_of_net taken_prefix (net_of_model taken_prefix)).covers ≡ taken_prefix_out }
{}

/// A tidy net stands for its model, which has as many wires.
pub fn tidy_nets_have_models()
    ensures { TidyNetsHaveModels }
{
    order_tells();
}

/// The model of a tidy net has few covers, no wide ones beyond its wires, and short names.
pub fn tidy_nets_have_small_models()
    ensures { TidyNetsHaveSmallModels }
{
    order_tells();
}
