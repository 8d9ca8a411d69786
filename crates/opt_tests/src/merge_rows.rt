// `opt --merge`: equal gates, by the number of tries and by when they are merged.
use super::leaving::leave_all;
use std::test::Fail;

// The same parity twice: of the one gates, and of the other, nothing is redundant, and no gate of the one is a twin of another's.
// The first cover has three inputs, so that it isn't read as one gate.
const TWICE: &str =
    ".model twice\n.inputs a b\n.outputs x y\n.names a b a x\n10- 1\n01- 1\n.names a b o\n1- 1\n-1 1\n.names a b n\n11 1\n.names o n y\n10 1\n.end\n";

// Its decomposition, written.
const BOTH: &str =
    ".model twice\n.inputs a b\n.outputs x y\n.names b n0_4\n0 1\n.names a n0_4 n0_5\n11 1\n.names a n0_6\n0 1\n.names n0_6 b n0_7\n11 1\n.names n0_5 n0_7 x\n1- 1\n-1 1\n.names a b n0_9\n1- 1\n-1 1\n.names a b n0_10\n11 1\n.names n0_10 n0_11\n0 1\n.names n0_9 n0_11 y\n11 1\n.end\n";

// The later gate is merged into the earlier one.
const FIRST: &str =
    ".model twice\n.inputs a b\n.outputs x y\n.names b n0_4\n0 1\n.names a n0_4 n0_5\n11 1\n.names a n0_6\n0 1\n.names n0_6 b n0_7\n11 1\n.names n0_5 n0_7 x\n1- 1\n-1 1\n.names x y\n1 1\n.end\n";

// A wire from the later gate makes more of the earlier ones redundant.
const SECOND: &str =
    ".model twice\n.inputs a b\n.outputs x y\n.names a b n0_9\n1- 1\n-1 1\n.names a b n0_10\n11 1\n.names n0_10 n0_11\n0 1\n.names n0_9 n0_11 x\n11 1\n.names x y\n1 1\n.end\n";

const MERGED: &[(&str, &str, &str)] = &[
    (
        "opt in out journal --tries 0 --merge 0",
        "wires 15 15\ngates 9 9\nsteps 0 0 0\ntries 0 spent\nfaults 30 0\n",
        BOTH,
    ),
    (
        "opt in out journal --tries 0",
        "wires 15 8\ngates 9 5\nsteps 1 2 7\ntries 0 spent\nfaults 16 0\n",
        FIRST,
    ),
    (
        "opt in out journal --tries 3 --merge 0",
        "wires 15 15\ngates 9 9\nsteps 0 0 0\ntries 3 spent\nfaults 30 0\n",
        BOTH,
    ),
    (
        "opt in out journal --tries 3 --merge 1",
        "wires 15 8\ngates 9 5\nsteps 1 2 7\ntries 3 spent\nfaults 16 0\n",
        FIRST,
    ),
    (
        "opt in out journal --merge 0",
        "wires 15 7\ngates 9 4\nsteps 1 3 13\ntries 24 settled\nfaults 14 0\n",
        SECOND,
    ),
    (
        "opt in out journal",
        "wires 15 7\ngates 9 4\nsteps 1 3 13\ntries 24 settled\nfaults 14 0\n",
        SECOND,
    ),
    (
        "opt in out journal --merge 2",
        "wires 15 8\ngates 9 5\nsteps 1 2 7\ntries 20 settled\nfaults 16 0\n",
        FIRST,
    ),
];

#[test]
fn equal_gates_are_merged_when_the_words_say(rt: HostRuntime) -> Result<(), Fail> {
    leave_all(&rt, rt.alloc(), TWICE, MERGED)
}
