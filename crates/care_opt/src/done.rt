// What optimising under a care model answers.
use gate_graph::Graph;
use journal_text::Record;

/// What optimising under a care model leaves: the graph of what remains, a record for each of its pin faults, which has the
/// numbers of the net that was worked on, and the numbers of pins that were fixed and of other steps.
#[derive(Drop)]
pub struct CareDone {
    /// The graph of the net that remains, numbered anew without gaps.
    pub graph: Graph,
    /// For each pin fault, by gate, position and value, a vector that detects it or the search that spent its budget.
    pub records: Vec<Record>,
    pub fixes: u32,
    pub local: u64,
}
