//! The lines that a run puts.
ghost use Rattle.std.specs.Prelude.{◌≡◌, ◌++◌, ◌∷◌, [], IfOk, OnOk, Some};
ghost use Rattle.std.specs.Fmt.{decimal};
ghost use Rattle.rambo_cli.specs.Lines.{fault_word as word_of_fault, list_word as word_of_list, quantity_word as word_of_quantity, fault_line as line_of_fault, cut_line, flat_line, limit_line, replayed_lines, second_line, sewn_line, stop_line, unlike_line, window_line};
ghost use Rattle.journal_audit.specs.Lines.{number as number_of};
ghost use Rattle.rambo_cli.specs.Problems.{done_text, line_of, text_line};
ghost use Rattle.rambo_cli.specs.Verdicts.{judged_lines, verdict_line};

use crate::problem::{NameList, Problem, TextProblem};
use crate::proof_lines::proof_line;
use crate::summary::{care_summary, summary};
use crate::verdict::Verdict;
use crate::work::Done;
use accepted_steps::Stop;
use blif_format::{FaultKind, Quantity};
use equal_miter::difference_line;
use itoa::Buffer;
use journal_audit::{fault_line, netlist_line, refusal_line};
use pattern_text::tests_line;
use rm_base::{NoMemory, Place};
use std::alloc::Global;

fn fault_word(kind: FaultKind) -> &'static str
    ensures { result.now ≡ word_of_fault kind }
{
    match kind {
        FaultKind::BadByte => "BadByte",
        FaultKind::OpenJoin => "OpenJoin",
        FaultKind::NoModel => "NoModel",
        FaultKind::Unsupported => "Unsupported",
        FaultKind::UnknownCommand => "UnknownCommand",
        FaultKind::MissingWord => "MissingWord",
        FaultKind::ExtraWord => "ExtraWord",
        FaultKind::RowOutsideCover => "RowOutsideCover",
        FaultKind::RowLength => "RowLength",
        FaultKind::RowCharacter => "RowCharacter",
        FaultKind::MixedCover => "MixedCover",
        FaultKind::BadLatchWord => "BadLatchWord",
        FaultKind::DoubleDriven => "DoubleDriven",
        FaultKind::DoubleOutput => "DoubleOutput",
        FaultKind::AfterEnd => "AfterEnd",
        FaultKind::Undriven => "Undriven",
        FaultKind::NoRank => "NoRank",
        FaultKind::BadPin => "BadPin",
        FaultKind::MissingPin => "MissingPin",
        FaultKind::UnknownModel => "UnknownModel",
        FaultKind::DoubleModel => "DoubleModel",
        FaultKind::Recursive => "Recursive",
    }
}

fn quantity_word(quantity: Quantity) -> &'static str
    ensures { result.now ≡ word_of_quantity quantity }
{
    match quantity {
        Quantity::Text => "text",
        Quantity::Name => "name",
        Quantity::Inputs => "inputs",
        Quantity::Sources => "sources",
        Quantity::Observed => "observed",
        Quantity::Signals => "signals",
        Quantity::Pins => "pins",
        Quantity::Journal => "journal",
        Quantity::Flat => "flat",
        Quantity::Windows => "windows",
    }
}

fn fault_text(alloc: Global, kind: FaultKind, place: Place) -> Result<Vec<u8>, NoMemory>
    ensures { IfOk result (λ line. line.items ≡ line_of_fault kind place) }
{
    let mut buffer = Buffer::new();
    let mut line = Vec::from_slice(alloc, b"text ")?;
    line.extend_from_slice(buffer.format(place.line).as_bytes())?;
    line.extend_from_slice(b":")?;
    line.extend_from_slice(buffer.format(place.column).as_bytes())?;
    line.extend_from_slice(b" ")?;
    line.extend_from_slice(fault_word(kind).as_bytes())?;
    line.extend_from_slice(b"\n")?;
    Ok(line)
}

fn limit_text(alloc: Global, quantity: Quantity, count: u64) -> Result<Vec<u8>, NoMemory>
    ensures { IfOk result (λ line. line.items ≡ limit_line quantity count) }
{
    let mut buffer = Buffer::new();
    let mut line = Vec::from_slice(alloc, b"limit ")?;
    line.extend_from_slice(quantity_word(quantity).as_bytes())?;
    line.extend_from_slice(b" ")?;
    line.extend_from_slice(buffer.format(count).as_bytes())?;
    line.extend_from_slice(b"\n")?;
    Ok(line)
}

// The line of what is found of a text.
fn text_line(alloc: Global, found: TextProblem) -> Result<Vec<u8>, NoMemory>
    ensures { IfOk result (λ line. line.items ≡ text_line found) }
{
    match found {
        TextProblem::Fault { kind, place } => fault_text(alloc, kind, place),
        TextProblem::Limit { quantity, count } => limit_text(alloc, quantity, count),
    }
}

// The line of what is found of the second text.
fn second_text(alloc: Global, found: TextProblem) -> Result<Vec<u8>, NoMemory>
    ensures { IfOk result (λ line. line.items ≡ second_line (text_line found)) }
{
    let own = text_line(alloc, found)?;
    let mut line = Vec::from_slice(alloc, b"second ")?;
    line.extend_from_slice(own.as_slice())?;
    Ok(line)
}

fn list_word(list: NameList) -> &'static str
    ensures { result.now ≡ word_of_list list }
{
    match list {
        NameList::Sources => "sources",
        NameList::Observed => "observed",
    }
}

fn unlike_text(alloc: Global, list: NameList, at: u32) -> Result<Vec<u8>, NoMemory>
    ensures { IfOk result (λ line. line.items ≡ unlike_line list at) }
{
    let mut buffer = Buffer::new();
    let mut line = Vec::from_slice(alloc, b"unlike ")?;
    line.extend_from_slice(list_word(list).as_bytes())?;
    line.extend_from_slice(b" ")?;
    line.extend_from_slice(buffer.format(at).as_bytes())?;
    line.extend_from_slice(b"\n")?;
    Ok(line)
}

// What `check` puts of what ends the steps.
fn stop_text(alloc: Global, stop: Stop) -> Result<Vec<u8>, NoMemory>
    ensures { IfOk result (λ line. line.items ≡ stop_line stop) }
{
    match stop {
        Stop::Text { fault } => fault_line(alloc, fault),
        Stop::Refused { refusal } => refusal_line(alloc, &refusal),
    }
}

// The line of a window whose journal isn't accepted.
fn window_text(alloc: Global, number: u64, stop: Stop) -> Result<Vec<u8>, NoMemory>
    ensures { IfOk result (λ line. line.items ≡ window_line number stop) }
{
    let mut buffer = Buffer::new();
    let found = stop_text(alloc, stop)?;
    let mut line = Vec::from_slice(alloc, b"window ")?;
    line.extend_from_slice(buffer.format(number).as_bytes())?;
    line.extend_from_slice(b" ")?;
    line.extend_from_slice(found.as_slice())?;
    Ok(line)
}

/// The line that a problem puts.
pub fn line(alloc: Global, problem: Problem) -> Result<Vec<u8>, NoMemory>
    ensures { IfOk result (λ line. line.items ≡ line_of problem) }
{
    match problem {
        Problem::Words => Ok(Vec::from_slice(alloc, b"words refused\n")?),
        Problem::Text { kind, place } => fault_text(alloc, kind, place),
        Problem::Limit { quantity, count } => limit_text(alloc, quantity, count),
        Problem::Missing => Ok(Vec::from_slice(alloc, b"fault shelf\n")?),
        Problem::Fault => Ok(Vec::from_slice(alloc, b"fault shelf\n")?),
        Problem::Journal { fault } => fault_line(alloc, fault),
        Problem::Record { refusal } => refusal_line(alloc, &refusal),
        Problem::Netlist { byte } => netlist_line(alloc, byte),
        Problem::Second { found } => second_text(alloc, found),
        Problem::Unlike { list, at } => unlike_text(alloc, list, at),
        Problem::CareShape => Ok(Vec::from_slice(alloc, b"care shape\n")?),
        Problem::Window { number, stop } => window_text(alloc, number, stop),
        Problem::Proof { found } => proof_line(alloc, found),
        Problem::Memory => Ok(Vec::from_slice(alloc, b"memory\n")?),
    }
}

// A line of a label and a number.
fn count_text(alloc: Global, label: &[u8], count: u64) -> Result<Vec<u8>, NoMemory>
    ensures { IfOk result (λ line. line.items ≡ label.now ++ (decimal count ++ 10 ∷ [])) }
{
    let mut buffer = Buffer::new();
    let mut line = Vec::from_slice(alloc, label)?;
    line.extend_from_slice(buffer.format(count).as_bytes())?;
    line.extend_from_slice(b"\n")?;
    Ok(line)
}

// The line of a hierarchy that is flattened.
fn flat_text(alloc: Global, instances: u32, covers: u64) -> Result<Vec<u8>, NoMemory>
    ensures { IfOk result (λ line. line.items ≡ flat_line instances covers) }
{
    let mut buffer = Buffer::new();
    let mut line = Vec::from_slice(alloc, b"flat ")?;
    line.extend_from_slice(buffer.format(instances).as_bytes())?;
    line.extend_from_slice(b" ")?;
    line.extend_from_slice(buffer.format(covers).as_bytes())?;
    line.extend_from_slice(b"\n")?;
    Ok(line)
}

fn cut_text(alloc: Global, windows: u64, signals: u64) -> Result<Vec<u8>, NoMemory>
    ensures { IfOk result (λ line. line.items ≡ cut_line windows signals) }
{
    let mut buffer = Buffer::new();
    let mut line = Vec::from_slice(alloc, b"cut ")?;
    line.extend_from_slice(buffer.format(windows).as_bytes())?;
    line.extend_from_slice(b" ")?;
    line.extend_from_slice(buffer.format(signals).as_bytes())?;
    line.extend_from_slice(b"\n")?;
    Ok(line)
}

// A space and a number behind a line that is begun.
fn push_number(line: &mut Vec<u8>, number: u64) -> Result<(), NoMemory>
    ensures { OnOk result (line.new.items ≡ line.old.items ++ number_of number) }
{
    let mut buffer = Buffer::new();
    line.extend_from_slice(b" ")?;
    line.extend_from_slice(buffer.format(number).as_bytes())?;
    Ok(())
}

// The line of windows that are sewn.
fn sewn_text(
    alloc: Global,
    windows: u64,
    replayed: u64,
    wires: u64,
    before: u64,
) -> Result<Vec<u8>, NoMemory>
    ensures { IfOk result (λ line. line.items ≡ sewn_line windows replayed wires before) }
{
    let mut line = Vec::from_slice(alloc, b"sewn")?;
    push_number(&mut line, windows)?;
    push_number(&mut line, replayed)?;
    push_number(&mut line, wires)?;
    push_number(&mut line, before)?;
    line.extend_from_slice(b"\n")?;
    Ok(line)
}

// The lines of steps that something of the journal ends.
fn stopped_text(alloc: Global, count: u64, stop: Stop) -> Result<Vec<u8>, NoMemory>
    ensures { IfOk result (λ lines. lines.items ≡ replayed_lines count (Some stop)) }
{
    let mut lines = count_text(alloc, b"replayed ", count)?;
    let found = stop_text(alloc, stop)?;
    lines.extend_from_slice(b"stopped ")?;
    lines.extend_from_slice(found.as_slice())?;
    Ok(lines)
}

// The lines of steps that are made, and of what ends them.
fn replayed_text(alloc: Global, count: u64, stop: Option<Stop>) -> Result<Vec<u8>, NoMemory>
    ensures { IfOk result (λ lines. lines.items ≡ replayed_lines count stop) }
{
    match stop {
        Some(stop) => stopped_text(alloc, count, stop),
        None => count_text(alloc, b"replayed ", count),
    }
}

// The line of what is decided of two models.
fn verdict_text(alloc: Global, verdict: &Verdict) -> Result<Vec<u8>, NoMemory>
    ensures { IfOk result (λ line. line.items ≡ verdict_line verdict.now) }
{
    match verdict {
        Verdict::Equal => Ok(Vec::from_slice(alloc, b"equal\n")?),
        Verdict::Differ(vector) => difference_line(alloc, vector),
        Verdict::Undecided(budget) => count_text(alloc, b"undecided ", u64::from(*budget)),
    }
}

// The lines of a proof that is accepted.
fn judged_text(alloc: Global, count: u64, verdict: &Verdict) -> Result<Vec<u8>, NoMemory>
    ensures { IfOk result (λ lines. lines.items ≡ judged_lines count verdict.now) }
{
    let mut lines = count_text(alloc, b"accepted ", count)?;
    let said = verdict_text(alloc, verdict)?;
    lines.extend_from_slice(said.as_slice())?;
    Ok(lines)
}

/// What a command that is done puts.
pub fn done_line(alloc: Global, done: &Done) -> Result<Vec<u8>, NoMemory>
    ensures { IfOk result (λ line. line.items ≡ done_text done.now) }
{
    match done {
        Done::Optimised(figures) => summary(alloc, figures),
        Done::Accepted(count) => count_text(alloc, b"accepted ", *count),
        Done::Flattened { instances, covers } => flat_text(alloc, *instances, *covers),
        Done::Tested(counts) => tests_line(alloc, counts),
        Done::Replayed { count, stop } => replayed_text(alloc, *count, *stop),
        Done::Converted(count) => count_text(alloc, b"converted ", *count),
        Done::Compared(verdict) => verdict_text(alloc, verdict),
        Done::Judged { count, verdict } => judged_text(alloc, *count, verdict),
        Done::Cared(figures) => care_summary(alloc, figures),
        Done::Cut { windows, signals } => cut_text(alloc, *windows, *signals),
        Done::Sewn {
            windows,
            replayed,
            wires,
            before,
        } => sewn_text(alloc, *windows, *replayed, *wires, *before),
    }
}
