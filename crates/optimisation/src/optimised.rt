// What a run over a model gives.
use gate_graph::Graph;
use rm_base::Made;

/// What a run's summary tells: the wires and gates of the decomposition and of the last net, the steps by kind, the tries of
/// all rounds and whether the last round tried every pair in vain, and how many faults have a vector or a spent search; and how
/// many units of work all of it was, which a limit of work bounds.
#[derive(Clone, Copy, Debug, PartialEq, Eq)]
pub struct Figures {
    pub wires_before: u32,
    pub gates_before: u32,
    pub wires: u32,
    pub gates: u32,
    pub made: Made,
    pub tries: u32,
    pub settled: bool,
    pub tested: u64,
    pub spent: u64,
    pub work: u64,
}

/// The last graph of a run, and its figures.
#[derive(Drop)]
pub struct Optimised {
    pub graph: Graph,
    pub figures: Figures,
}
