// How far a journal is judged.
use crate::tally::Tally;
use gate_graph::Graph;
use journal_check::Replay;

/// How far a journal is judged: before its header, among its records, or behind its end.
#[derive(Drop)]
pub(crate) enum Stage {
    Header,
    Records { replay: Replay, tally: Tally },
    // The journal is accepted, with this last net and such records.
    Ended { graph: Graph, tally: Tally },
}
