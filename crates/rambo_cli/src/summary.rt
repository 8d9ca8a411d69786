//! The summaries of runs.
ghost use Rattle.std.specs.Prelude.{◌≡◌, ◌++◌, ◌∷◌, [], codes, IfOk, OnOk};
ghost use Rattle.std.specs.Fmt.{decimal};
ghost use Rattle.rambo_cli.specs.Summary.{care_text, settled_word as word_of_settled, summary_text};

use itoa::Buffer;
use optimisation::Figures;
use rm_base::{Made, NoMemory};
use std::alloc::Global;

fn settled_word(settled: bool) -> &'static str
    ensures { result.now ≡ word_of_settled settled }
{
    if settled { "settled" } else { "spent" }
}

// Adds a line of a label and two numbers.
fn add_pair(text: &mut Vec<u8>, label: &[u8], first: u64, second: u64) -> Result<(), NoMemory>
    ensures { OnOk result (text.new.items ≡ text.old.items ++ (label.now ++ (decimal first ++ (codes " " ++ (decimal second ++ 10 ∷ []))))) }
{
    let mut buffer = Buffer::new();
    text.extend_from_slice(label)?;
    text.extend_from_slice(buffer.format(first).as_bytes())?;
    text.extend_from_slice(b" ")?;
    text.extend_from_slice(buffer.format(second).as_bytes())?;
    text.extend_from_slice(b"\n")?;
    Ok(())
}

// Adds the counts of steps by kind, and the end of the line.
fn add_steps(text: &mut Vec<u8>, made: Made) -> Result<(), NoMemory>
    ensures { OnOk result (text.new.items ≡ text.old.items ++ (decimal made.adds ++ (codes " " ++ (decimal made.fixes ++ (codes " " ++ (decimal made.local ++ 10 ∷ [])))))) }
{
    let mut buffer = Buffer::new();
    text.extend_from_slice(buffer.format(made.adds).as_bytes())?;
    text.extend_from_slice(b" ")?;
    text.extend_from_slice(buffer.format(made.fixes).as_bytes())?;
    text.extend_from_slice(b" ")?;
    text.extend_from_slice(buffer.format(made.local).as_bytes())?;
    text.extend_from_slice(b"\n")?;
    Ok(())
}

// Adds the count of tries and how the last round ended.
fn add_tries(text: &mut Vec<u8>, tries: u32, settled: bool) -> Result<(), NoMemory>
    ensures { OnOk result (text.new.items ≡ text.old.items ++ (codes "tries " ++ (decimal tries ++ (codes " " ++ (word_of_settled settled ++ 10 ∷ []))))) }
{
    let mut buffer = Buffer::new();
    text.extend_from_slice(b"tries ")?;
    text.extend_from_slice(buffer.format(tries).as_bytes())?;
    text.extend_from_slice(b" ")?;
    text.extend_from_slice(settled_word(settled).as_bytes())?;
    text.extend_from_slice(b"\n")?;
    Ok(())
}

/// The five lines of a run's summary.
pub fn summary(alloc: Global, figures: &Figures) -> Result<Vec<u8>, NoMemory>
    ensures { IfOk result (λ text. text.items ≡ summary_text figures.now) }
{
    let mut text = Vec::new(alloc);
    add_pair(
        &mut text,
        b"wires ",
        u64::from(figures.wires_before),
        u64::from(figures.wires),
    )?;
    add_pair(
        &mut text,
        b"gates ",
        u64::from(figures.gates_before),
        u64::from(figures.gates),
    )?;
    text.extend_from_slice(b"steps ")?;
    add_steps(&mut text, figures.made)?;
    add_tries(&mut text, figures.tries, figures.settled)?;
    add_pair(&mut text, b"faults ", figures.tested, figures.spent)?;
    Ok(text)
}

/// The figures of `optcare`: wires and gates of the decomposition and of the output, the steps made by kind, and the faults with
/// a vector and with a search that spent its budget.
#[derive(Clone, Copy, Debug)]
pub struct CareFigures {
    pub wires_before: u32,
    pub wires: u32,
    pub gates_before: u32,
    pub gates: u32,
    pub made: Made,
    pub tested: u64,
    pub spent: u64,
}

/// The four lines of the summary of `optcare`.
pub fn care_summary(alloc: Global, figures: &CareFigures) -> Result<Vec<u8>, NoMemory>
    ensures { IfOk result (λ text. text.items ≡ care_text figures.now) }
{
    let mut text = Vec::new(alloc);
    add_pair(
        &mut text,
        b"wires ",
        u64::from(figures.wires_before),
        u64::from(figures.wires),
    )?;
    add_pair(
        &mut text,
        b"gates ",
        u64::from(figures.gates_before),
        u64::from(figures.gates),
    )?;
    text.extend_from_slice(b"steps ")?;
    add_steps(&mut text, figures.made)?;
    add_pair(&mut text, b"faults ", figures.tested, figures.spent)?;
    Ok(text)
}
