//! Texts of several rows.

/// An And of two sources.
pub const ONE_GATE: &str = ".model r1\n.inputs a b\n.outputs z\n.names a b z\n11 1\n.end\n";

/// Its journal.
pub const ONE_GATE_JOURNAL: &str =
    "rambo 1 256\nhit 4 0 0 11\nhit 4 0 1 01\nhit 4 1 0 11\nhit 4 1 1 10\nend\n";

/// What `opt` puts of it.
pub const ONE_GATE_SUMMARY: &str =
    "wires 2 2\ngates 1 1\nsteps 0 0 0\ntries 0 settled\nfaults 4 0\n";

/// The patterns of its vectors. Which faults each detects was worked out by hand; their order is the program's.
pub const ONE_GATE_PATTERNS: &str =
    "tests 1\nsources a b\nobserved z\npattern 0 11\npattern 1 10\npattern 2 01\nfault z 0 a 0 0\nfault z 0 a 1 2\nfault z 1 b 0 0\nfault z 1 b 1 1\npatterns 3\nfaults 4 0 100.00\nclasses 3 0 100.00\n";

/// x + x y.
pub const ABSORBED: &str = ".model r2\n.inputs x y\n.outputs z\n.names x y z\n1- 1\n11 1\n.end\n";

/// (a b + a c) d.
pub const FOUR_GATES: &str =
    ".model r3\n.inputs a b c d\n.outputs k\n.names a b c o\n11- 1\n1-1 1\n.names o d k\n11 1\n.end\n";

/// What is left of the four gates where a wire is added.
pub const WITH_A_WIRE: &str =
    ".model r3\n.inputs a b c d\n.outputs k\n.names b c n0_8\n1- 1\n-1 1\n.names n0_8 d a k\n111 1\n.end\n";

/// What is left of them where no wire is tried.
pub const WITHOUT: &str =
    ".model r3\n.inputs a b c d\n.outputs k\n.names a b n0_6\n11 1\n.names a c n0_7\n11 1\n.names n0_6 n0_7 n0_8\n1- 1\n-1 1\n.names n0_8 d k\n11 1\n.end\n";

/// A journal of the added wire, written by hand.
pub const WIRE_JOURNAL: &str =
    "rambo 1 256\nadd 9 2 a g6 g7 g8 s o8 i9,0 !8\nfix 6 0 1 a s h8 h9 o2 i9,2 !2\nconst 6 0\none 6\ndead 6\nfix 7 0 1 a h9 o2 i9,2 !2\nconst 7 0\none 7\ndead 7\nhit 8 0 0 1101\nhit 8 0 1 1001\nhit 8 1 0 1011\nhit 8 1 1 1001\nhit 9 0 0 1101\nhit 9 0 1 1001\nhit 9 1 0 1101\nhit 9 1 1 1100\nhit 9 2 0 1101\nhit 9 2 1 0101\nend\n";

/// The patterns of its vectors.
pub const WIRE_PATTERNS: &str =
    "tests 1\nsources a b c d\nobserved k\npattern 0 1011\npattern 1 1001\npattern 2 1101\npattern 3 0101\npattern 4 1100\nfault n0_8 0 b 0 2\nfault n0_8 0 b 1 1\nfault n0_8 1 c 0 0\nfault n0_8 1 c 1 1\nfault k 0 n0_8 0 0\nfault k 0 n0_8 1 1\nfault k 1 d 0 0\nfault k 1 d 1 4\nfault k 2 a 0 0\nfault k 2 a 1 3\npatterns 5\nfaults 10 0 100.00\nclasses 6 0 100.00\n";

/// A multiplexer with a redundant row.
pub const MULTIPLEXER: &str =
    "# Benchmark \"mux\" written on Mon Jan  1 00:00:00 2024\n.model mux\n.inputs s a b\n.outputs y\n.names s a b y\n01- 1\n1-1 1\n-11 1\n.end\n";

/// What is left of it.
pub const MULTIPLEXER_LEFT: &str =
    ".model mux\n.inputs s a b\n.outputs y\n.names s n0_5\n0 1\n.names n0_5 a n0_6\n11 1\n.names s b n0_7\n11 1\n.names n0_6 n0_7 y\n1- 1\n-1 1\n.end\n";

/// The constant 0.
pub const CONSTANT_ZERO: &str = ".model r6\n.inputs\n.outputs z\n.names z\n.end\n";

/// A constant whose only row ends in 0: one gate, which goes.
pub const ZERO_ROW: &str = ".model r6\n.outputs z\n.names z\n0\n.end\n";

/// The summary where there is no gate before and none after.
pub const NO_GATES_SUMMARY: &str =
    "wires 0 0\ngates 0 0\nsteps 0 0 0\ntries 0 settled\nfaults 0 0\n";

/// An Or with the sources and the output of the one gate.
pub const EITHER: &str = ".model r1\n.inputs a b\n.outputs z\n.names a b z\n1- 1\n-1 1\n.end\n";

/// An output that is a source, and a copy of it.
pub const SOURCES: &str = ".model r7\n.inputs a\n.outputs a z\n.names a z\n1 1\n.end\n";
