// The trees that justify steps.
ghost use Rattle.std.specs.Prelude.{◌≡◌, IfSome};
ghost use Rattle.gate_graph.specs.Circuit.{net_of};
ghost use Rattle.gate_net.specs.Values.{HasPin};
ghost use Rattle.journal_check.specs.Inner.Replaying.{AddSays, FixSays, IsAddedPin, TreeSays, noncontrolling, why_of};

use crate::refusal::Why;
use gate_graph::{Graph, Question, pin_count};
use gate_net::Kind;
use refutation::{Form, Tree};
use refutation_check::{CheckRefusal, TreeChecker};
use rm_base::{Fault, NoMemory};
use wire_edit::Step;

/// Why a tree isn't accepted.
pub(crate) fn why_tree(refusal: CheckRefusal) -> Why
    ensures { result ≡ why_of refusal }
{
    match refusal {
        CheckRefusal::NoMemory => Why::NoMemory,
        CheckRefusal::BadLine { .. }
        | CheckRefusal::NotClash { .. }
        | CheckRefusal::NotQuiet { .. }
        | CheckRefusal::BadSplit { .. }
        | CheckRefusal::Shape { .. } => Why::Tree(refusal),
    }
}

// Whether a tree refutes a fault.
fn tree_says(checker: &mut TreeChecker, question: &Question<'_>, tree: &Tree) -> Result<(), Why>
    ensures { TreeSays (net_of question.now.graph.now) question.now.fault tree.now result }
{
    if let Err(NoMemory) = checker.reserve(question.graph.node_bound()) {
        return Err(Why::NoMemory);
    }
    match checker.check(question, tree, Form::Closed) {
        Ok(_shape) => Ok(()),
        Err(refusal) => Err(why_tree(refusal)),
    }
}

/// Whether the tree of a fix refutes its fault, where the pin exists.
pub(crate) fn fix_says(
    checker: &mut TreeChecker,
    graph: &Graph,
    step: Step,
    tree: &Tree,
) -> Result<(), Why>
    ensures { FixSays (net_of graph.now) step tree.now result }
{
    let Step::Fix {
        gate,
        position,
        value,
    } = step
    else {
        return Ok(());
    };
    let Some(_driver) = graph.driver(gate, position) else {
        return Ok(());
    };
    let fault = Fault {
        gate,
        position,
        value,
    };
    tree_says(checker, &Question { graph, fault }, tree)
}

// The value that doesn't control a kind.
fn noncontrolling(kind: Option<Kind>) -> Option<bool>
    ensures { result ≡ noncontrolling kind }
{
    kind?.noncontrolling_value()
}

/// The fault of the pin that a step adds: at the value that doesn't control its gate.
pub(crate) fn added_pin(graph: &Graph, step: Step) -> Option<Fault>
    ensures { IsAddedPin (net_of graph.now) step result }
{
    let Step::Add { gate, node: _ } = step else {
        return None;
    };
    let value = noncontrolling(graph.kind(gate))?;
    let position = pin_count(graph, gate);
    Some(Fault {
        gate,
        position,
        value,
    })
}

/// Whether the tree refutes the fault of an added pin.
pub(crate) fn add_says(
    checker: &mut TreeChecker,
    graph: &Graph,
    added: Option<Fault>,
    tree: &Tree,
) -> Result<(), Why>
    requires { IfSome added (λ f. HasPin (net_of graph.now) f) }
    ensures { AddSays (net_of graph.now) added tree.now result }
{
    match added {
        Some(fault) => tree_says(checker, &Question { graph, fault }, tree),
        None => Ok(()),
    }
}
