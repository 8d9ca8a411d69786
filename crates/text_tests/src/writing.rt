ghost use Rattle.std.specs.Prelude.{◌≡◌, ◌≤◌, ◌∷◌, [], All, IfOk, IfSome, None, Some};

use blif_writer::write_model;
use rm_base::NoMemory;
use rm_model::{Cover, Latch, LatchKind, Listed, Literal, Model, Name, Row, Timing};
use std::alloc::Global;
use std::test::Fail;

fn name(alloc: Global, text: &[u8]) -> Result<Name, NoMemory> {
    Ok(Listed::from_vec(Vec::from_slice(alloc, text)?))
}

/// Names of one byte each.
fn names(alloc: Global, letters: &[u8]) -> Result<Listed<Name>, NoMemory> {
    let mut names = Listed::new(alloc);
    for letter in letters {
        names.push(name(alloc, &[*letter])?)?;
    }
    Ok(names)
}

fn literal(byte: u8) -> Literal {
    match byte {
        b'0' => Literal::Zero,
        b'1' => Literal::One,
        _ => Literal::Any,
    }
}

fn row(alloc: Global, bytes: &[u8]) -> Result<Row, NoMemory> {
    let mut row = Listed::new(alloc);
    for byte in bytes {
        row.push(literal(*byte))?;
    }
    Ok(row)
}

/// A cover of one-byte names and rows.
fn cover(
    alloc: Global,
    inputs: &[u8],
    output: u8,
    on: bool,
    rows: &[&[u8]],
) -> Result<Cover, NoMemory> {
    let mut listed = Listed::new(alloc);
    for bytes in rows {
        listed.push(row(alloc, *bytes)?)?;
    }
    Ok(Cover {
        inputs: names(alloc, inputs)?,
        output: name(alloc, &[output])?,
        on,
        rows: listed,
    })
}

/// A model without latches and with one cover.
fn one_cover(alloc: Global, title: &[u8], inputs: &[u8], cover: Cover) -> Result<Model, NoMemory>
    ensures { IfOk result (λ m. m.latches ≡ []) }
{
    let outputs = names(alloc, b"z")?;
    let mut covers = Listed::new(alloc);
    covers.push(cover)?;
    Ok(Model {
        name: name(alloc, title)?,
        inputs: names(alloc, inputs)?,
        clocks: Listed::new(alloc),
        outputs,
        latches: Listed::new(alloc),
        covers,
    })
}

#[test]
fn an_and_is_one_row(rt: HostRuntime) -> Result<(), Fail> {
    let alloc = rt.alloc();
    let model = one_cover(
        alloc,
        b"r1",
        b"ab",
        cover(alloc, b"ab", b'z', true, &[b"11"])?,
    )?;
    let text = write_model(alloc, &model)?;
    let wanted = b".model r1\n.inputs a b\n.outputs z\n.names a b z\n11 1\n.end\n";
    assert!(rt; text.as_slice() == wanted.as_slice());
    Ok(())
}

#[test]
fn rows_keep_their_literals_and_their_ending(rt: HostRuntime) -> Result<(), Fail> {
    let alloc = rt.alloc();
    let rows: &[&[u8]] = &[b"0-1", b"1--"];
    let model = one_cover(
        alloc,
        b"r5",
        b"abc",
        cover(alloc, b"abc", b'z', false, rows)?,
    )?;
    let text = write_model(alloc, &model)?;
    let wanted = b".model r5\n.inputs a b c\n.outputs z\n.names a b c z\n0-1 0\n1-- 0\n.end\n";
    assert!(rt; text.as_slice() == wanted.as_slice());
    Ok(())
}

#[test]
fn constants_have_no_inputs(rt: HostRuntime) -> Result<(), Fail> {
    let alloc = rt.alloc();
    let zero = one_cover(alloc, b"r6", b"", cover(alloc, b"", b'z', true, &[])?)?;
    let text = write_model(alloc, &zero)?;
    let wanted = b".model r6\n.inputs\n.outputs z\n.names z\n.end\n";
    assert!(rt; text.as_slice() == wanted.as_slice());
    let one = one_cover(alloc, b"r6", b"", cover(alloc, b"", b'z', true, &[b""])?)?;
    let text = write_model(alloc, &one)?;
    let wanted = b".model r6\n.inputs\n.outputs z\n.names z\n1\n.end\n";
    assert!(rt; text.as_slice() == wanted.as_slice());
    Ok(())
}

/// A latch of one-byte names, with a clock edge and an init value.
fn edge_latch(alloc: Global, control: Option<Name>) -> Result<Latch, NoMemory>
    ensures { IfOk result (λ l. l.init ≡ Some 2) }
{
    Ok(Latch {
        input: name(alloc, b"nd")?,
        output: name(alloc, b"q")?,
        timing: Some(Timing {
            kind: LatchKind::Re,
            control,
        }),
        init: Some(2),
    })
}

fn plain_latch(alloc: Global) -> Result<Latch, NoMemory>
    ensures { IfOk result (λ l. l.init ≡ None) }
{
    Ok(Latch {
        input: name(alloc, b"q")?,
        output: name(alloc, b"s")?,
        timing: None,
        init: None,
    })
}

fn latches(alloc: Global, first: Latch) -> Result<Listed<Latch>, NoMemory>
    requires { first.init ≡ Some 2 }
    ensures { IfOk result (λ ls. All (λ l. IfSome l.init (λ n. n ≤ 3)) ls) }
{
    let mut latches = Listed::new(alloc);
    latches.push(first)?;
    latches.push(plain_latch(alloc)?)?;
    Ok(latches)
}

fn model_with_latch(alloc: Global, control: Option<Name>) -> Result<Model, NoMemory>
    ensures { IfOk result (λ m. All (λ l. IfSome l.init (λ n. n ≤ 3)) m.latches) }
{
    let latches = latches(alloc, edge_latch(alloc, control)?)?;
    Ok(Model {
        name: name(alloc, b"r8")?,
        inputs: names(alloc, b"de")?,
        clocks: names(alloc, b"c")?,
        outputs: names(alloc, b"q")?,
        latches,
        covers: Listed::new(alloc),
    })
}

#[test]
fn latches_keep_the_fields_that_they_have(rt: HostRuntime) -> Result<(), Fail> {
    let alloc = rt.alloc();
    let text = write_model(alloc, &model_with_latch(alloc, Some(name(alloc, b"g")?))?)?;
    let wanted =
        b".model r8\n.inputs d e\n.outputs q\n.clock c\n.latch nd q re g 2\n.latch q s\n.end\n";
    assert!(rt; text.as_slice() == wanted.as_slice());
    let text = write_model(alloc, &model_with_latch(alloc, None)?)?;
    let wanted =
        b".model r8\n.inputs d e\n.outputs q\n.clock c\n.latch nd q re NIL 2\n.latch q s\n.end\n";
    assert!(rt; text.as_slice() == wanted.as_slice());
    Ok(())
}
