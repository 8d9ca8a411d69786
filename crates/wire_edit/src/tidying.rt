//! What a trial does to its graph.
ghost use Rattle.std.specs.Prelude.{◌≡◌, ◌≢◌, ◌≤◌, ◌+◌, [], Some, true, length};
ghost use Rattle.gate_graph.specs.Holds.{HoldsOn};
ghost use Rattle.gate_graph.specs.Circuit.{net_of};
ghost use Rattle.gate_graph.specs.Changes.{CanEdit, Edits, entries_for};
ghost use Rattle.gate_graph.specs.Undoing.{LeadOn};
ghost use Rattle.wire_edit.specs.Steps.{change_of};
ghost use Rattle.wire_edit.specs.Order.{next_step, rule_at};
ghost use Rattle.wire_edit.specs.Edited.{edit_of};
ghost use Rattle.wire_edit.specs.Inner.Edited.{TakesOut};
ghost use Rattle.wire_edit.specs.Inner.Known.{IsKept};
ghost use Rattle.wire_edit.specs.Inner.Marked.{KeepsMarks, IsQuiet, IsQuietBelow, MarksTouched};
ghost use Rattle.rm_base.specs.Numbers.{number_bound};

use crate::edits::edit_for;
use crate::kept::Kept;
use crate::rules::{rule_again, rule_at};
use crate::seen::Seen;
use crate::steps::Step;
use crate::touch::{mark_after, mark_before, number_for};
use crate::worklist::Worklist;
use gate_graph::{Edit, Graph, Undos};
use rm_base::NodeId;

// Makes a step's edit, and marks what it touches.
pub(crate) fn carry_out(graph: &mut Graph, undos: &mut Undos, worklist: &mut Worklist, step: Step)
    requires can { CanEdit graph.old (edit_of (change_of (net_of graph.old) step)) }
    requires entries { entries_for graph.old (edit_of (change_of (net_of graph.old) step)) ≤ undos.old.spare }
    ensures edits { Edits graph.old (edit_of (change_of (net_of graph.old) step)) graph.new }
    ensures undos { LeadOn graph.old graph.new undos.old.entries undos.new.entries }
    ensures left { undos.new.entries ≢ [] }
    ensures together { length undos.new.entries + undos.new.spare ≡ length undos.old.entries + undos.old.spare }
    ensures numbers { length graph.new.kinds ≡ length graph.old.kinds }
    ensures spent { undos.new.spare + entries_for graph.old (edit_of (change_of (net_of graph.old) step)) ≡ undos.old.spare }
    ensures epoch { graph.new.epoch ≡ graph.old.epoch }
    ensures held { HoldsOn graph.old graph.new undos.old.entries undos.new.entries }
    ensures few { length (net_of graph.new).nodes ≤ number_bound }
    ensures marks { KeepsMarks worklist.old worklist.new }
    ensures touched { MarksTouched (net_of graph.old) (change_of (net_of graph.old) step) worklist.new }
{
    graph.well_formed();
    let edit = edit_for(graph, step);
    let number = number_for(graph, &edit);
    mark_before(worklist, graph, &edit);
    graph.edit(&edit, undos);
    graph.well_formed();
    mark_after(worklist, graph, &edit, number);
}

// Whether the step takes a pin out of its gate.
pub(crate) fn removes(graph: &Graph, step: Step) -> bool
    ensures { result ≡ true → TakesOut (change_of (net_of graph.now) step) }
{
    match edit_for(graph, step) {
        Edit::Remove {
            gate: _,
            position: _,
        } => true,
        _ => false,
    }
}

// The rule that comes first at a number below which no rule applies.
fn rule_known(graph: &Graph, gate: NodeId, seen: &mut Seen, kept: &mut Kept) -> Option<Step>
    requires seen { length (net_of graph.now).nodes ≤ seen.old }
    requires marks { length (net_of graph.now).nodes ≤ length kept.old.marks.items }
    requires kept { IsKept (net_of graph.now) kept.old }
    requires quiet { IsQuietBelow (net_of graph.now) gate.0 }
    ensures rule { result ≡ rule_at (net_of graph.now) gate.0 }
    ensures seen { seen.new ≡ seen.old }
    ensures kept { IsKept (net_of graph.now) kept.new }
    ensures same { length kept.new.marks.items ≡ length kept.old.marks.items }
{
    if kept.gate == gate {
        return rule_again(graph, kept);
    }
    rule_at(graph, gate, seen)
}

// The next step of the tidying order. Marks are taken from gates without a rule.
pub(crate) fn next_rule(
    graph: &Graph,
    worklist: &mut Worklist,
    seen: &mut Seen,
    kept: &mut Kept,
) -> Option<Step>
    requires quiet { IsQuiet (net_of graph.now) worklist.old }
    requires seen { length (net_of graph.now).nodes ≤ seen.old }
    requires marks { length (net_of graph.now).nodes ≤ length kept.old.marks.items }
    requires kept { IsKept (net_of graph.now) kept.old }
    ensures next { result ≡ next_step (net_of graph.now) }
    ensures quiet { IsQuiet (net_of graph.now) worklist.new }
    ensures count { length worklist.new ≡ length worklist.old }
    ensures seen { seen.new ≡ seen.old }
    ensures kept { IsKept (net_of graph.now) kept.new }
    ensures same { length kept.new.marks.items ≡ length kept.old.marks.items }
{
    while let Some(number) = worklist.least() {
        if let Some(step) = rule_known(graph, NodeId(number), seen, kept) {
            return Some(step);
        }
        worklist.clear(number);
    }
    None
}
