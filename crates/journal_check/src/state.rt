// The graph of a replay, at work.
use crate::settling::Settling;
use gate_graph::Graph;
use wire_edit::Trial;

/// The graph between trials, in a trial, or frozen.
#[derive(Drop)]
pub(crate) enum ReplayState {
    Idle { graph: Graph },
    // The steps so far are kept for good, and there is room for so many more.
    Trying { trial: Trial, left: usize },
    Frozen { graph: Graph, settling: Settling },
}
