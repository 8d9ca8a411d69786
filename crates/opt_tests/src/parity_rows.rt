// Parity covers: each is one gate, an Xor, and a Not behind it where it gives the opposite.
use super::leaving::is_accepted;
use std::alloc::Global;
use std::test::Fail;
use std::thread::Threads;
use test_runs::{ends, hold, run_to_end, shelf};

// The input, what is put, the output and the journal.
const PARITIES: &[[&str; 4]] = &[
    // An Xor alone.
    [
        ".model x\n.inputs a b\n.outputs z\n.names a b z\n10 1\n01 1\n.end\n",
        "wires 2 2\ngates 1 1\nsteps 0 0 0\ntries 0 settled\nfaults 4 0\n",
        ".model x\n.inputs a b\n.outputs z\n.names a b z\n10 1\n01 1\n.end\n",
        "rambo 1 256\nhit 4 0 0 10\nhit 4 0 1 00\nhit 4 1 0 01\nhit 4 1 1 00\nend\n",
    ],
    // Beside the constant 1 it becomes a Not.
    [
        ".model xk\n.inputs a\n.outputs z\n.names k\n1\n.names a k z\n10 1\n01 1\n.end\n",
        "wires 2 1\ngates 1 1\nsteps 0 0 1\ntries 0 settled\nfaults 2 0\n",
        ".model xk\n.inputs a\n.outputs z\n.names a z\n0 1\n.end\n",
        "rambo 1 256\nconst 3 1\nhit 3 0 0 1\nhit 3 0 1 0\nend\n",
    ],
    // Beside the constant 0 it is the other input.
    [
        ".model xk\n.inputs a\n.outputs z\n.names k\n.names k a z\n01 1\n10 1\n.end\n",
        "wires 2 0\ngates 1 0\nsteps 0 0 2\ntries 0 settled\nfaults 0 0\n",
        ".model xk\n.inputs a\n.outputs z\n.names a z\n1 1\n.end\n",
        "rambo 1 256\nconst 3 0\ndead 3\nend\n",
    ],
    // Of one signal twice it is 0.
    [
        ".model same\n.inputs a\n.outputs z\n.names a p\n1 1\n.names a p z\n10 1\n01 1\n.end\n",
        "wires 2 0\ngates 1 0\nsteps 0 0 2\ntries 0 settled\nfaults 0 0\n",
        ".model same\n.inputs a\n.outputs z\n.names z\n.end\n",
        "rambo 1 256\nsame 3 1\ndead 3\nend\n",
    ],
    // A Not behind it, where equal values give 1.
    [
        ".model e\n.inputs a b\n.outputs z\n.names b a z\n00 1\n11 1\n.end\n",
        "wires 3 3\ngates 2 2\nsteps 0 0 0\ntries 0 settled\nfaults 6 0\n",
        ".model e\n.inputs a b\n.outputs z\n.names b a n0_4\n10 1\n01 1\n.names n0_4 z\n0 1\n.end\n",
        "rambo 1 256\nhit 4 0 0 01\nhit 4 0 1 00\nhit 4 1 0 10\nhit 4 1 1 00\nhit 5 0 0 01\nhit 5 0 1 00\nend\n",
    ],
    // None where they give 0.
    [
        ".model e\n.inputs a b\n.outputs z\n.names a b z\n11 0\n00 0\n.end\n",
        "wires 2 2\ngates 1 1\nsteps 0 0 0\ntries 0 settled\nfaults 4 0\n",
        ".model e\n.inputs a b\n.outputs z\n.names a b z\n10 1\n01 1\n.end\n",
        "rambo 1 256\nhit 4 0 0 10\nhit 4 0 1 00\nhit 4 1 0 01\nhit 4 1 1 00\nend\n",
    ],
    // And one where different values give 0.
    [
        ".model e\n.inputs a b\n.outputs z\n.names a b z\n01 0\n10 0\n.end\n",
        "wires 3 3\ngates 2 2\nsteps 0 0 0\ntries 0 settled\nfaults 6 0\n",
        ".model e\n.inputs a b\n.outputs z\n.names a b n0_4\n10 1\n01 1\n.names n0_4 z\n0 1\n.end\n",
        "rambo 1 256\nhit 4 0 0 10\nhit 4 0 1 00\nhit 4 1 0 01\nhit 4 1 1 00\nhit 5 0 0 10\nhit 5 0 1 00\nend\n",
    ],
    // A chain of two.
    [
        ".model three\n.inputs a b c\n.outputs z\n.names a b x\n10 1\n01 1\n.names x c z\n01 1\n10 1\n.end\n",
        "wires 4 4\ngates 2 2\nsteps 0 0 0\ntries 0 settled\nfaults 8 0\n",
        ".model three\n.inputs a b c\n.outputs z\n.names a b n0_5\n10 1\n01 1\n.names n0_5 c z\n10 1\n01 1\n.end\n",
        "rambo 1 256\nhit 5 0 0 100\nhit 5 0 1 000\nhit 5 1 0 010\nhit 5 1 1 000\nhit 6 0 0 100\nhit 6 0 1 000\nhit 6 1 0 001\nhit 6 1 1 000\nend\n",
    ],
];

// Whether a run puts and writes these, and `check` accepts them.
fn is_one_gate<R: Threads + Sync>(rt: &R, alloc: Global, row: &[&str; 4]) -> Result<bool, Fail> {
    let [input, put, output, journal] = *row;
    let mut kept = shelf(alloc, [input, "old", "old"], &[])?;
    let ran = ends(rt, alloc, "opt in out journal", &mut kept, 0, put)?;
    let written = hold(&kept, [input, output, journal]);
    let accepted = is_accepted(rt, alloc, &mut kept)?;
    Ok(ran && written && accepted)
}

#[test]
fn a_parity_cover_is_one_gate(rt: HostRuntime) -> Result<(), Fail> {
    for row in PARITIES {
        assert!(rt; is_one_gate(&rt, rt.alloc(), row)?, "{}", row[0]);
    }
    Ok(())
}

// What is no parity cover: one input twice, three inputs, a row too many, rows that aren't opposite, a row with `-`. Each with
// how the text that is put begins, which counts the wires of its decomposition.
const OTHERS: &[[&str; 2]] = &[
    [
        ".model n\n.inputs a\n.outputs z\n.names a a z\n10 1\n01 1\n.end\n",
        "wires 7 ",
    ],
    [
        ".model n\n.inputs a b\n.outputs z\n.names a b a z\n10- 1\n01- 1\n.end\n",
        "wires 8 ",
    ],
    [
        ".model n\n.inputs a b\n.outputs z\n.names a b z\n10 1\n01 1\n10 1\n.end\n",
        "wires 11 ",
    ],
    [
        ".model n\n.inputs a b\n.outputs z\n.names a b z\n10 1\n00 1\n.end\n",
        "wires 8 ",
    ],
    [
        ".model n\n.inputs a b\n.outputs z\n.names a b z\n10 1\n-1 1\n.end\n",
        "wires 5 ",
    ],
];

// Whether a run over the input puts a text that begins like this.
fn puts_first<R: Threads + Sync>(rt: &R, alloc: Global, row: &[&str; 2]) -> Result<bool, Fail> {
    let mut kept = shelf(alloc, [row[0], "old", "old"], &[])?;
    let (status, put) = run_to_end(rt, alloc, "opt in out journal", &mut kept)?;
    Ok(status == 0 && put.as_slice().starts_with(row[1].as_bytes()))
}

#[test]
fn other_covers_are_decomposed(rt: HostRuntime) -> Result<(), Fail> {
    for row in OTHERS {
        assert!(rt; puts_first(&rt, rt.alloc(), row)?, "{}", row[0]);
    }
    Ok(())
}
