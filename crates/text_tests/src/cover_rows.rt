//! Models of the tests, from texts.
use rm_base::NoMemory;
use rm_model::{Cover, Listed, Literal, Model, Name, Row};
use std::alloc::Global;

// A cover: its inputs, its output, its rows without their ends, and whether these end in 1.
#[derive(Clone, Copy)]
pub(crate) struct Gate<'a> {
    pub inputs: &'a [&'a str],
    pub output: &'a str,
    pub rows: &'a [&'a str],
    pub on: bool,
}

pub(crate) fn name(alloc: Global, text: &str) -> Result<Name, NoMemory> {
    Ok(Listed::from_vec(Vec::from_slice(alloc, text.as_bytes())?))
}

fn names(alloc: Global, texts: &[&str]) -> Result<Listed<Name>, NoMemory> {
    let mut list = Listed::new(alloc);
    for text in texts {
        list.push(name(alloc, *text)?)?;
    }
    Ok(list)
}

fn literal(byte: u8) -> Literal {
    match byte {
        b'0' => Literal::Zero,
        b'1' => Literal::One,
        _ => Literal::Any,
    }
}

fn row(alloc: Global, text: &str) -> Result<Row, NoMemory> {
    let mut list = Listed::new(alloc);
    for byte in text.as_bytes() {
        list.push(literal(*byte))?;
    }
    Ok(list)
}

fn rows(alloc: Global, texts: &[&str]) -> Result<Listed<Row>, NoMemory> {
    let mut list = Listed::new(alloc);
    for text in texts {
        list.push(row(alloc, *text)?)?;
    }
    Ok(list)
}

fn covers(alloc: Global, gates: &[Gate]) -> Result<Listed<Cover>, NoMemory> {
    let mut list = Listed::new(alloc);
    for gate in gates {
        let cover = Cover {
            inputs: names(alloc, gate.inputs)?,
            output: name(alloc, gate.output)?,
            on: gate.on,
            rows: rows(alloc, gate.rows)?,
        };
        list.push(cover)?;
    }
    Ok(list)
}

// A model without latches.
pub(crate) fn model(
    alloc: Global,
    inputs: &[&str],
    outputs: &[&str],
    gates: &[Gate],
) -> Result<Model, NoMemory> {
    Ok(Model {
        name: name(alloc, "m")?,
        inputs: names(alloc, inputs)?,
        clocks: Listed::new(alloc),
        outputs: names(alloc, outputs)?,
        latches: Listed::new(alloc),
        covers: covers(alloc, gates)?,
    })
}

// A cover that reads `a` so many times, in one row of ones.
fn wide_cover(alloc: Global, output: &str, count: usize) -> Result<Cover, NoMemory> {
    let mut inputs = Listed::new(alloc);
    let mut row = Listed::new(alloc);
    for _ in 0..count {
        inputs.push(name(alloc, "a")?)?;
        row.push(Literal::One)?;
    }
    let mut rows = Listed::new(alloc);
    rows.push(row)?;
    Ok(Cover {
        inputs,
        output: name(alloc, output)?,
        on: true,
        rows,
    })
}

// A model with two wide covers.
pub(crate) fn wide_model(alloc: Global, count: usize) -> Result<Model, NoMemory> {
    let mut covers = Listed::new(alloc);
    covers.push(wide_cover(alloc, "x", count)?)?;
    covers.push(wide_cover(alloc, "y", count)?)?;
    Ok(Model {
        name: name(alloc, "m")?,
        inputs: names(alloc, &["a"])?,
        clocks: Listed::new(alloc),
        outputs: names(alloc, &["x", "y"])?,
        latches: Listed::new(alloc),
        covers,
    })
}
