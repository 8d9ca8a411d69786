// Hierarchies: texts with the answers of an independent reference, deep ones and large ones.
use crate::ways::ways;
use blif_flatten::{Flat, FlatRefusal, flatten};
use blif_format::Quantity;
use blif_writer::write_model;
use rm_model::NameKeys;
use std::alloc::Global;
use std::fmt::Write;
use std::test::Fail;

const FAULTS: &[(&str, &str)] = &[
    (
        ".model top\n.inputs a b\n.outputs z\n.subckt m1 a=a z=s00_\n.names s00_ b z\n11 1\n.model m1\n.inputs a\n.outputs z\n.subckt m2 a=a b=z z=z\n.end\n.model m2\n.inputs a b\n.outputs z y\n.names a b z\n1- 1\n-1 1\n.names a y\n1 1\n",
        "line 5, column 1: a cover on a cycle, or behind one",
    ),
    (
        ".model top\n.inputs a b\ns1_ z\n.names n\n1\n.names n z\n0 0\n.end\n",
        "line 3, column 1: a row without a cover",
    ),
    (
        ".model top\n.outputs z\n.subckt top y=a b=n\n.names z\n1\n.end\n",
        "line 3, column 13: no pin of the called model",
    ),
    (
        ".model top\n.inputs a\n.clock a\n.outputs z\n.subckt top z=n\n.names z\n1\n.end\n",
        "line 5, column 1: an input of the called model is left out",
    ),
    (
        ".model top\\\n.clock k\n.outputs z\n.latch n z re a\n.subckt top y=n a=b\n",
        "line 2, column 1: too many words",
    ),
    (
        ".model top\n.inputs a b\n.gate z\n.names a z\n0 0\n.subckt top y=z\n",
        "line 3, column 1: a command that isn't read",
    ),
    (
        ".model\n.outputs z\n.subckt top a=b\n.latch n z re a\n.end\n",
        "line 1, column 1: too few words",
    ),
    (
        ".model top\n.inputs a\n.clock a\n.outputs z\n.outputs z\n.subckt top k=n b=n a=b\n.latch n z\n",
        "line 5, column 10: an output that is listed twice",
    ),
    (
        ".model top\n.inputs a\n.outputs z\n.names z\n11 1\n1\n.names n\n1\n.end\n",
        "line 5, column 1: a character that may not stand in a row",
    ),
    (
        ".model top\n.clock a\n.outputs z y\n.foo n z\n0 0\n.names n y\n1 1\n.subckt top y=a b=b k=n\n.end\n",
        "line 4, column 1: no command",
    ),
    (
        ".model top\n.inputs a\n.outputs z\n.subckt top y=n k=z\n.latch a z re a\n.end\n.end\n",
        "line 7, column 1: a word after the end",
    ),
    (
        ".model top\n.outputs z\n.latch n z\n.subckt top z=a\n.end\n",
        "line 4, column 1: a model that calls itself",
    ),
    (
        ".model top\n.outputs z y\n.names n y q\n0 0\n.names n\n1\n.names n z\n0 1\n.end\n",
        "line 4, column 1: the row is longer or shorter than its cover has inputs",
    ),
    (
        "11 1\n.model top\n.outputs z\n.names n z\n0 0\n.subckt top a=b k=n y=a\n",
        "line 1, column 1: the text doesn't begin with .model",
    ),
    (
        ".model top\n.inputs a\n.outputs z\n.subckt top a=b y=b z=b\n.latch x= a z\n",
        "line 5, column 13: no type or init value of a latch",
    ),
    (
        ".model top\n.inputs a\n.names z\n.names n\n1\n.names n z\n1 1\n.end\n",
        "line 6, column 10: a name with two drivers",
    ),
    (
        ".model top\n.model top\n.outputs z\n.names n z\n- 1\n.subckt top y=a z=a\n",
        "line 2, column 8: a second model of that name",
    ),
    (
        ".model top\n.outputs z\n.names z\n1\n.subckt y=a b=z k=z\n.end\n",
        "line 5, column 9: no model of the text",
    ),
    (
        ".model top\n.inputs a b\n.outputs =y z\n.names a z\n1 1\n.names n\n1\n",
        "line 3, column 10: a name without a driver",
    ),
    (
        ".model top\n.outputs z\n.names n\n1\n.names n z\n- 1\n.end\\\n",
        "line 7, column 5: nothing follows the backslash that joins lines",
    ),
    (
        ".model top\n.inputs a b\n.outputs z\n.names a n\n1 1\n0 0\n.names n b z\n11 1\n.end\n.model inv\n.inputs i\n.outputs o\n.names i o\n0 1\n.end\n",
        "line 6, column 3: the rows of a cover end in 0 and in 1",
    ),
    (
        ".model top\n.inputs a b\n.outputs z\n.names a n \x01\n.names n b z\n11 1\n.end\n.model inv\n.inputs i\n.outputs o\n.names i o\n0 1\n.end\n",
        "line 4, column 12: a byte that may not stand there",
    ),
];

// A text, its instances, its covers and the text of its flat model.
const FLAT: &[(&str, u32, usize, &str)] = &[
    (
        ".model top\n.inputs a b\n.outputs z\n.subckt m1 a=a z=s00_\n.names s00_ b z\n11 1\n.end\n.model m1\n.inputs a\n.outputs z\n.subckt m2 a=a b=a z=z\n.model m2\n.inputs a b\n.outputs z y\n.names a b z\n1- 1\n-1 1\n.latch z y fe NIL\n",
        3,
        7,
        ".model top\n.inputs a b\n.outputs z\n.latch s0_2_z s0_2_y fe NIL\n.names s00_ b z\n11 1\n.names a s0_1_a\n1 1\n.names s0_1_a s0_2_a\n1 1\n.names s0_1_a s0_2_b\n1 1\n.names s0_2_a s0_2_b s0_2_z\n1- 1\n-1 1\n.names s0_2_z s0_1_z\n1 1\n.names s0_1_z s00_\n1 1\n.end\n",
    ),
    (
        ".model top\n.inputs a b\n.outputs z\n.subckt m1 a=a z=n\n.names n b z\n11 1\n.subckt m2 a=z b=z z=s0_x\n.end\n.model m1\n.inputs a\n.outputs z\n.names a z\n0 1\n.end\n.model m2\n.inputs a b\n.outputs z y\n.names a b z\n1- 1\n-1 1\n.names y\n",
        3,
        9,
        ".model top\n.inputs a b\n.outputs z\n.names n b z\n11 1\n.names a s1_1_a\n1 1\n.names s1_1_a s1_1_z\n0 1\n.names s1_1_z n\n1 1\n.names z s1_2_a\n1 1\n.names z s1_2_b\n1 1\n.names s1_2_a s1_2_b s1_2_z\n1- 1\n-1 1\n.names s1_2_y\n.names s1_2_z s0_x\n1 1\n.end\n",
    ),
    (
        ".model top\n.inputs a b\n.outputs z\n.subckt m1 a=a z=n\n.subckt m2 b=n a=b z=w y=v\n.names n b z\n11 1\n.end\n.model m1\n.inputs a\n.outputs z\n.names a z\n0 1\n.end\n.model m2\n.inputs a b\n.outputs z y\n.names a b z\n1- 1\n-1 1\n.names y\n",
        3,
        10,
        ".model top\n.inputs a b\n.outputs z\n.names n b z\n11 1\n.names a s0_1_a\n1 1\n.names s0_1_a s0_1_z\n0 1\n.names s0_1_z n\n1 1\n.names n s0_2_b\n1 1\n.names b s0_2_a\n1 1\n.names s0_2_a s0_2_b s0_2_z\n1- 1\n-1 1\n.names s0_2_y\n.names s0_2_z w\n1 1\n.names s0_2_y v\n1 1\n.end\n",
    ),
    (
        ".model top\n.inputs a b\n.outputs z\n.subckt m1 a=a z=s0_q\n.subckt m2 b=s0_q a=b z=w\n.names s0_q b z\n11 1\n.end\n.model m1\n.inputs a\n.outputs z\n.names a z\n0 1\n.model m2\n.inputs a b\n.outputs z y\n.names a b z\n1- 1\n-1 1\n.names y\n",
        3,
        9,
        ".model top\n.inputs a b\n.outputs z\n.names s0_q b z\n11 1\n.names a s1_1_a\n1 1\n.names s1_1_a s1_1_z\n0 1\n.names s1_1_z s0_q\n1 1\n.names s0_q s1_2_b\n1 1\n.names b s1_2_a\n1 1\n.names s1_2_a s1_2_b s1_2_z\n1- 1\n-1 1\n.names s1_2_y\n.names s1_2_z w\n1 1\n.end\n",
    ),
    (
        ".model top\n.inputs a b\n.outputs z\n.subckt m1 a=a z=s1_q\n.names s1_q b z\n11 1\n.end\n.model m1\n.inputs a\n.outputs z\n.latch a z re a 2\n.end\n.model m2\n.inputs a b\n.outputs z y\n.names a b z\n1- 1\n-1 1\n.names y\n",
        2,
        3,
        ".model top\n.inputs a b\n.outputs z\n.latch s0_1_a s0_1_z re s0_1_a 2\n.names s1_q b z\n11 1\n.names a s0_1_a\n1 1\n.names s0_1_z s1_q\n1 1\n.end\n",
    ),
    (
        ".model top\n.inputs a b\n.outputs z\n.subckt m1 a=a z=s00_\n.names s00_ b z\n11 1\n.end\n.model m1\n.inputs a\n.outputs z\n.latch a z re a 2\n.end\n.model m2\n.inputs a b\n.outputs z y\n.names a b z\n1- 1\n-1 1\n.names y\n",
        2,
        3,
        ".model top\n.inputs a b\n.outputs z\n.latch s0_1_a s0_1_z re s0_1_a 2\n.names s00_ b z\n11 1\n.names a s0_1_a\n1 1\n.names s0_1_z s00_\n1 1\n.end\n",
    ),
    (
        ".model top\n.clock k\n.outputs z\n.names n z\n- 1\n.names n\n1\n.end\n",
        1,
        2,
        ".model top\n.inputs\n.outputs z\n.clock k\n.names n z\n- 1\n.names n\n1\n.end\n",
    ),
    (
        ".model top\n.inputs a\n.clock a\n.outputs z y\n.names a z\n- 1\n.names y\n1\n.names n\n1\n.end\n",
        1,
        3,
        ".model top\n.inputs a\n.outputs z y\n.clock a\n.names a z\n- 1\n.names y\n1\n.names n\n1\n.end\n",
    ),
];

#[test]
fn the_first_fault_is_that_of_the_reference(rt: HostRuntime) -> Result<(), Fail> {
    let alloc = rt.alloc();
    for (text, wanted) in FAULTS {
        let Err(refusal) = flatten_text(alloc, NameKeys::Ordered, text.as_bytes(), MOST)? else {
            return Err(Fail::new("a text without a fault"));
        };
        let mut line = String::new(alloc);
        write!(line, "{refusal}")?;
        assert!(rt; line.as_str() == *wanted);
    }
    Ok(())
}

// The most tokens of all instances that `flat` takes.
const MOST: u32 = 4_194_304;

// A text that is no longer than texts may be, whose instances may have so many tokens.
fn flatten_text(
    alloc: Global,
    keys: NameKeys,
    text: &[u8],
    most: u32,
) -> Result<Result<Flat, FlatRefusal>, Fail> {
    if text.len() > 4_294_967_295 {
        return Err(Fail::new("a text that is too long"));
    }
    Ok(flatten(alloc, keys, text, most))
}

/// What `flatten` gives of a text, and the text of its model.
#[derive(Drop)]
struct FlatText {
    instances: u32,
    covers: usize,
    written: Vec<u8>,
}

fn flat_text(alloc: Global, keys: NameKeys, text: &[u8]) -> Result<FlatText, Fail> {
    if text.len() > 4_294_967_295 {
        return Err(Fail::new("a text that is too long"));
    }
    let flat = match flatten(alloc, keys, text, MOST) {
        Ok(flat) => flat,
        Err(refusal) => return Err(Fail::from(refusal)),
    };
    let written = write_model(alloc, &flat.model)?;
    Ok(FlatText {
        instances: flat.instances,
        covers: flat.model.covers.len(),
        written,
    })
}

#[test]
fn the_flat_model_is_that_of_the_reference(rt: HostRuntime) -> Result<(), Fail> {
    let alloc = rt.alloc();
    for keys in ways()? {
        for (text, instances, covers, wanted) in FLAT {
            let flat = flat_text(alloc, keys, text.as_bytes())?;
            assert!(rt; flat.instances == *instances);
            assert!(rt; flat.covers == *covers);
            assert!(rt; flat.written.as_slice() == wanted.as_bytes());
        }
    }
    Ok(())
}

// A top and so many models below it, each of which calls the next with these lines.
fn tower(alloc: Global, levels: usize, lines: &[&str]) -> Result<String, Fail> {
    let mut text = String::new(alloc);
    text.push_str(".model top\n.inputs a\n.outputs z\n.subckt m0 i=a o=z\n")?;
    for level in 0..levels {
        writeln!(text, ".model m{level}\n.inputs i\n.outputs o")?;
        let next = level + 1;
        for line in lines {
            writeln!(text, ".subckt m{next} {line}")?;
        }
    }
    writeln!(
        text,
        ".model m{levels}\n.inputs i\n.outputs o\n.names i o\n0 1\n.end"
    )?;
    Ok(text)
}

#[test]
fn a_chain_of_many_models_is_flattened(rt: HostRuntime) -> Result<(), Fail> {
    let alloc = rt.alloc();
    let text = tower(alloc, 2_000, &["i=i o=o"])?;
    let flat = flatten_text(alloc, NameKeys::Ordered, text.as_str().as_bytes(), MOST)??;
    assert!(rt; flat.instances == 2_002);
    assert!(rt; flat.model.covers.len() == 4_003);
    Ok(())
}

// The count of tokens that is refused, where the text's instances may have so many.
fn refused_count(alloc: Global, text: &String, most: u32) -> Result<Option<u64>, Fail> {
    match flatten_text(alloc, NameKeys::Ordered, text.as_str().as_bytes(), most)? {
        Ok(_) => Ok(None),
        Err(
            FlatRefusal::Limit {
                quantity: Quantity::Flat,
                count,
                place,
            },
        ) => {
            if place.line != 1 {
                return Err(Fail::new("another place"));
            }
            Ok(Some(count))
        }
        Err(refusal) => Err(Fail::from(refusal)),
    }
}

// Whether this count is refused.
fn is_refused(alloc: Global, text: &String, most: u32, wanted: u64) -> Result<bool, Fail> {
    match refused_count(alloc, text, most)? {
        Some(count) => Ok(count == wanted),
        None => Ok(false),
    }
}

#[test]
fn instances_that_double_exceed_every_limit(rt: HostRuntime) -> Result<(), Fail> {
    let alloc = rt.alloc();
    let text = tower(alloc, 60, &["i=i o=x", "i=x o=o"])?;
    assert!(rt; is_refused(alloc, &text, MOST, 4_194_305)?);
    assert!(rt; is_refused(alloc, &text, u32::MAX, 4_294_967_296)?);
    Ok(())
}

#[test]
fn as_many_tokens_as_may_be_are_taken(rt: HostRuntime) -> Result<(), Fail> {
    let alloc = rt.alloc();
    // 10 tokens of the top, 10 of each of three models, and 12 of the last.
    let text = tower(alloc, 3, &["i=i o=o"])?;
    assert!(rt; refused_count(alloc, &text, 52)?.is_none());
    assert!(rt; is_refused(alloc, &text, 51, 52)?);
    assert!(rt; is_refused(alloc, &text, 0, 1)?);
    Ok(())
}
