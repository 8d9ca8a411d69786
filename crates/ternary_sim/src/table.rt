// The marks of the nodes, and how many of the watched ones differ and how many may differ yet.
ghost use Rattle.std.specs.Prelude.{◌≡◌, ◌<◌, ◌+◌, ◌&&◌, ◌↔◌, IfOk, IsTrue, length, map, slice_set, true};
ghost use Rattle.gate_graph.specs.Circuit.{net_of};
ghost use Rattle.ternary_sim.specs.Marks.{mark_at};
ghost use Rattle.ternary_sim.specs.Inner.Settling.{plain_marks};
ghost use Rattle.ternary_sim.specs.ValueTables.{Watches};
ghost use Rattle.ternary_sim.specs.Inner.ValueTables.{AllEqual, SomeDiffers, is_different, is_open, one_if, watched_at, watched_count};

use crate::marks::NodeMarks;
use gate_graph::Graph;
use rm_base::{NoMemory, NodeId};
use std::alloc::Global;
use std::marker::Model;

/// The marks by node number. Of the watched numbers it counts, as marks are written, how many have known and different
/// values, and how many aren't marked equal.
#[derive(Drop)]
pub(crate) struct ValueTable {
    marks: Vec<NodeMarks>,
    watched: Vec<bool>,
    different: usize,
    unequal: usize,
}

impl Model for ValueTable {
    ghost use Rattle.ternary_sim.specs.ValueTables.{TableState};

    ghost Value = { TableState };

    ghost use Rattle.std.specs.Prelude.{◌≡◌};
    ghost use Rattle.ternary_sim.specs.Inner.ValueTables.{is_different, is_open, watched_count};

    ghost view = { λ s. record { marks = s.marks.items; watched = s.watched.items } };

    ghost invariant = { λ s. (s.different ≡ watched_count is_different s.watched.items s.marks.items) × (s.unequal ≡ watched_count is_open s.watched.items s.marks.items) };
}

// The marks of nodes without a fault, their good values given.
fn plain_of(alloc: Global, base: &[Option<bool>]) -> Result<Vec<NodeMarks>, NoMemory>
    ensures { IfOk result (λ v. v.items ≡ map plain_marks base.now) }
{
    let mut marks = Vec::new(alloc);
    for good in base {
        marks.push(NodeMarks {
            good: *good,
            faulty: *good,
            equal: true,
        })?;
    }
    Ok(marks)
}

// For each node number, whether it is observed.
fn observed_marks(alloc: Global, graph: &Graph) -> Result<Vec<bool>, NoMemory>
    ensures { IfOk result (λ v. Watches (net_of graph.now) v.items) }
{
    graph.well_formed();
    let mut watched = Vec::new(alloc);
    for number in 0..graph.node_bound() {
        watched.push(graph.is_observed(NodeId(number)))?;
    }
    Ok(watched)
}

// Whether the number is marked.
fn has_mark(marks: &[bool], node: NodeId) -> bool
    ensures { result ≡ watched_at marks.now node.0 }
{
    match marks.get(node.0 as usize) {
        Some(mark) => *mark,
        None => false,
    }
}

fn differs(marks: NodeMarks) -> bool
    ensures { result ≡ is_different marks }
{
    match (marks.good, marks.faulty) {
        (Some(b), Some(c)) => b != c,
        _ => false,
    }
}

fn is_both(one: bool, other: bool) -> bool
    ensures { result ≡ (one && other) }
{
    one && other
}

// A count when one of what it may count was so and is so.
fn recount(count: usize, was: bool, is: bool) -> usize
    requires some { was ≡ true → 0 < count }
    requires room { count < 18446744073709551615 }
    ensures { result + one_if was ≡ count + one_if is }
{
    match (was, is) {
        (true, true) => count,
        (true, false) => count - 1,
        (false, true) => count + 1,
        (false, false) => count,
    }
}

// The marks of a number; a number past the end is no node.
fn mark_of(marks: &[NodeMarks], node: NodeId) -> NodeMarks
    ensures { result ≡ mark_at marks.now node.0 }
{
    match marks.get(node.0 as usize) {
        Some(on) => *on,
        None => NodeMarks {
            good: None,
            faulty: None,
            equal: true,
        },
    }
}

// Gives a number other marks, and counts them.
fn write_marks(
    marks: &mut Vec<NodeMarks>,
    watched: &[bool],
    different: &mut usize,
    unequal: &mut usize,
    node: NodeId,
    read: NodeMarks,
)
    requires node { node.0 < length marks.old.items }
    requires different { different.old ≡ watched_count is_different watched.now marks.old.items }
    requires unequal { unequal.old ≡ watched_count is_open watched.now marks.old.items }
    ensures marks { marks.new.items ≡ slice_set marks.old.items node.0 read }
    ensures different { different.new ≡ watched_count is_different watched.now (slice_set marks.old.items node.0 read) }
    ensures unequal { unequal.new ≡ watched_count is_open watched.now (slice_set marks.old.items node.0 read) }
{
    let had = mark_of(marks.as_slice(), node);
    let seen = has_mark(watched, node);
    let different_now = recount(
        *different,
        is_both(seen, differs(had)),
        is_both(seen, differs(read)),
    );
    let unequal_now = recount(
        *unequal,
        is_both(seen, !had.equal),
        is_both(seen, !read.equal),
    );
    *different = different_now;
    *unequal = unequal_now;
    marks[node.0 as usize] = read;
}

impl ValueTable {
    /// The marks without a fault, their good values given; the observed nodes are watched.
    pub(crate) fn new(
        alloc: Global,
        graph: &Graph,
        base: &[Option<bool>],
    ) -> Result<ValueTable, NoMemory>
        ensures marks { IfOk result (λ s. s.marks ≡ map plain_marks base.now) }
        ensures watched { IfOk result (λ s. Watches (net_of graph.now) s.watched) }
    {
        let marks = plain_of(alloc, base)?;
        let watched = observed_marks(alloc, graph)?;
        Ok(ValueTable {
            marks,
            watched,
            different: 0,
            unequal: 0,
        })
    }

    /// The marks by node number.
    pub(crate) fn marks(&self) -> &[NodeMarks]
        ensures { result.now ≡ self.now.marks }
    {
        self.marks.as_slice()
    }

    /// The marks of a node.
    pub(crate) fn at(&self, node: NodeId) -> NodeMarks
        ensures { result ≡ mark_at self.now.marks node.0 }
    {
        mark_of(self.marks.as_slice(), node)
    }

    /// Gives a node other marks.
    pub(crate) fn write(&mut self, node: NodeId, marks: NodeMarks)
        requires { node.0 < length self.old.marks }
        ensures { self.new ≡ record self.old { marks = slice_set self.old.marks node.0 marks } }
    {
        write_marks(
            &mut self.marks,
            &self.watched,
            &mut self.different,
            &mut self.unequal,
            node,
            marks,
        );
    }

    /// Whether some watched node has known and different values.
    pub(crate) fn some_differs(&self) -> bool
        ensures { IsTrue result ↔ SomeDiffers self.now }
    {
        if self.different == 0 {
            return false;
        }
        true
    }

    /// Whether every watched node is marked equal.
    pub(crate) fn all_equal(&self) -> bool
        ensures { IsTrue result ↔ AllEqual self.now }
    {
        if self.unequal == 0 {
            return true;
        }
        false
    }
}
