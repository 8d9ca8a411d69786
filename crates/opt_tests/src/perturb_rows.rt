// `opt --perturb`: wires are exchanged for others that cost no more, by the number of turns and of tries.
use super::leaving::leave_all;
use std::test::Fail;

// a and b without c, and a and c without b: no addition gains.
pub(crate) const ONE_OF: &str =
    ".model one_of\n.inputs a b c\n.outputs p q\n.names a b x\n11 1\n.names a c y\n11 1\n.names x y p\n10 1\n.names x y q\n01 1\n.end\n";

// Its decomposition, written.
const PLAIN: &str =
    ".model one_of\n.inputs a b c\n.outputs p q\n.names a b n0_5\n11 1\n.names a c n0_6\n11 1\n.names n0_6 n0_7\n0 1\n.names n0_5 n0_7 p\n11 1\n.names n0_5 n0_9\n0 1\n.names n0_9 n0_6 q\n11 1\n.end\n";

// The Not of c in place of that of y, and then c and a in place of y.
const ONE_TURN: &str =
    ".model one_of\n.inputs a b c\n.outputs p q\n.names a b n0_5\n11 1\n.names n0_5 n0_11 p\n11 1\n.names n0_5 n0_9\n0 1\n.names c n0_9 a q\n111 1\n.names c n0_11\n0 1\n.end\n";

// The Not of b in place of that of x, and a and b in place of x.
const TURNS: &str =
    ".model one_of\n.inputs a b c\n.outputs p q\n.names b n0_6\n0 1\n.names b n0_11 a p\n111 1\n.names c a n0_6 q\n111 1\n.names c n0_11\n0 1\n.end\n";

// The tries end within the first turn.
const SHORT_TURN: &str =
    ".model one_of\n.inputs a b c\n.outputs p q\n.names a b n0_5\n11 1\n.names a c n0_6\n11 1\n.names n0_5 n0_11 p\n11 1\n.names n0_5 n0_9\n0 1\n.names n0_6 n0_9 q\n11 1\n.names c n0_11\n0 1\n.end\n";

pub(crate) const EXCHANGED: &[(&str, &str, &str)] = &[
    (
        "opt in out journal",
        "wires 10 10\ngates 6 6\nsteps 0 0 0\ntries 16 settled\nfaults 20 0\n",
        PLAIN,
    ),
    (
        "opt in out journal --perturb 0",
        "wires 10 10\ngates 6 6\nsteps 0 0 0\ntries 16 settled\nfaults 20 0\n",
        PLAIN,
    ),
    (
        "opt in out journal --perturb 1",
        "wires 10 9\ngates 6 5\nsteps 4 4 12\ntries 47 settled\nfaults 18 0\n",
        ONE_TURN,
    ),
    (
        "opt in out journal --perturb 3",
        "wires 10 8\ngates 6 4\nsteps 8 8 24\ntries 104 settled\nfaults 16 0\n",
        TURNS,
    ),
    (
        "opt in out journal --perturb=64",
        "wires 10 8\ngates 6 4\nsteps 8 8 24\ntries 118 settled\nfaults 16 0\n",
        TURNS,
    ),
    (
        "opt in out journal --perturb 1 --tries 20",
        "wires 10 10\ngates 6 6\nsteps 0 0 0\ntries 20 settled\nfaults 20 0\n",
        PLAIN,
    ),
    (
        "opt in out journal --perturb 1 --tries 30",
        "wires 10 10\ngates 6 6\nsteps 3 3 9\ntries 30 spent\nfaults 20 0\n",
        SHORT_TURN,
    ),
];

#[test]
fn wires_are_exchanged_where_no_addition_gains(rt: HostRuntime) -> Result<(), Fail> {
    leave_all(&rt, rt.alloc(), ONE_OF, EXCHANGED)
}
