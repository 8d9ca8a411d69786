// The sections of a text, each with the tokens of its lines.
ghost use Rattle.std.specs.Prelude.{◌≡◌, ◌≢◌, ◌≤◌, ◌<◌, ◌^◌, [], length, List, OnOk, IfOk, IfErr, All, true, false, None};
ghost use Rattle.rm_base.specs.Words.{Word};
ghost use Rattle.blif_lines.specs.Layout.{Logical, layout};
ghost use Rattle.blif_lines.specs.Reading.{IsWithin, IsFault};
ghost use Rattle.blif_format.specs.FirstFault.{or_else};
ghost use Rattle.blif_reader.specs.Lines.{spots_at};
ghost use Rattle.blif_reader.specs.Meant.{IsRefusal};
ghost use Rattle.blif_flatten.specs.Sections.{is_title as titles, with_line, onto_last, sections_of, sound_lines, layout_fault};
ghost use Rattle.blif_flatten.specs.LineFaults.{head_fault, empty_fault};
ghost use Rattle.blif_flatten.specs.Inner.Tokens.{AreReadTo, AreWithin, IsBareSectionWithin, IsLineWithin, IsStep, sections_at};

use blif_format::{FaultKind, ReadRefusal};
use blif_lines::{LineFault, LineReader, LogicalLine, Token};
use blif_reader::{is_text, word_of};
use rm_base::{NoMemory, Place};
use rm_model::Listed;
use std::alloc::Global;

/// A `.model` line and the lines up to the next one.
#[derive(Drop)]
pub struct Section {
    pub title: Listed<Token>,
    pub body: Listed<Listed<Token>>,
}

/// Whether a line is a `.model` line.
fn is_title(text: &[u8], line: &[Token]) -> bool
    requires { All (IsWithin text.now) line.now }
    ensures { result ≡ titles (spots_at text.now line.now) }
{
    match line.first() {
        Some(first) => is_text(word_of(text, first), ".model"),
        None => false,
    }
}

/// What comes next in a text.
#[derive(Drop)]
pub enum Step {
    Line(LogicalLine),
    Flaw(ReadRefusal),
    End,
}

fn flaw_of(fault: LineFault) -> Result<ReadRefusal, NoMemory>
    ensures flaw { (rest : List Logical) → IsFault rest fault → IfOk result (λ refusal. layout_fault rest ≡ Some refusal) }
    ensures lines { (rest : List Logical) → IsFault rest fault → OnOk result (sound_lines rest ≡ []) }
{
    match fault {
        LineFault::BadByte(place) => Ok(ReadRefusal::Fault {
            kind: FaultKind::BadByte,
            place,
        }),
        LineFault::OpenJoin(place) => Ok(ReadRefusal::Fault {
            kind: FaultKind::OpenJoin,
            place,
        }),
        LineFault::NoMemory => Err(NoMemory),
    }
}

fn next_step(reader: &mut LineReader<'_>) -> Result<Step, NoMemory>
    ensures text { reader.new.text ≡ reader.old.text }
    ensures step { IfOk result (λ step. IsStep reader.old.text reader.old.rest reader.new.rest step) }
{
    match reader.next() {
        Ok(Some(line)) => Ok(Step::Line(line)),
        Ok(None) => Ok(Step::End),
        Err(fault) => match flaw_of(fault) {
            Ok(refusal) => Ok(Step::Flaw(refusal)),
            Err(refused) => Err(refused),
        },
    }
}

// Adds a line to the last section.
fn push_to_last(sections: &mut Vec<Section>, line: Listed<Token>) -> Result<(), NoMemory>
    ensures lines { (text : Word) → OnOk result (sections_at text sections.new.items ≡ onto_last (spots_at text line) (sections_at text sections.old.items)) }
    ensures within { (text : Word) → All (IsBareSectionWithin text) sections.old.items → IsLineWithin text line → OnOk result (All (IsBareSectionWithin text) sections.new.items) }
    ensures some { OnOk result (sections.new.items ≡ [] → sections.old.items ≡ []) }
{
    match sections.pop() {
        None => Ok(()),
        Some(section) => {
            let Section { title, body } = section;
            let mut body = body;
            body.push(line)?;
            sections.push(Section { title, body })?;
            Ok(())
        }
    }
}

fn push_line(
    alloc: Global,
    text: &[u8],
    sections: &mut Vec<Section>,
    line: &[Token],
) -> Result<(), NoMemory>
    requires { IsLineWithin text.now line.now }
    ensures lines { OnOk result (sections_at text.now sections.new.items ≡ with_line (sections_at text.now sections.old.items) (spots_at text.now line.now)) }
    ensures within { All (IsBareSectionWithin text.now) sections.old.items → OnOk result (All (IsBareSectionWithin text.now) sections.new.items) }
    ensures some { titles (spots_at text.now line.now) ≡ true → OnOk result (sections.new.items ≢ []) }
    ensures kept { sections.old.items ≢ [] → OnOk result (sections.new.items ≢ []) }
{
    let tokens = Listed::from_vec(Vec::from_slice(alloc, line)?);
    if is_title(text, line) {
        sections.push(Section {
            title: tokens,
            body: Listed::new(alloc),
        })?;
        return Ok(());
    }
    push_to_last(sections, tokens)
}

// Whether a line stands before the first `.model`.
fn is_misplaced(sections: &[Section], text: &[u8], line: &[Token]) -> bool
    requires { All (IsWithin text.now) line.now }
    ensures misplaced { result ≡ true → (sections.now ≡ []) × (titles (spots_at text.now line.now) ≡ false) }
    ensures placed { result ≡ false → sections.now ≡ [] → titles (spots_at text.now line.now) ≡ true }
{
    if !sections.is_empty() {
        return false;
    }
    !is_title(text, line)
}

// Adds the next line, which has tokens.
fn take_line(
    alloc: Global,
    text: &[u8],
    sections: &mut Vec<Section>,
    line: &[Token],
) -> Result<(), ReadRefusal>
    requires within { All (IsWithin text.now) line.now }
    requires few { length line.now ≤ 2 ^ 32 }
    requires some { line.now ≢ [] }
    ensures ok { (rest left : List Logical) → AreReadTo text.now rest sections.old.items → IsStep text.now rest left (Step.Line line.now) → OnOk result (AreReadTo text.now left sections.new.items) }
    ensures err { (rest left : List Logical) → AreReadTo text.now rest sections.old.items → IsStep text.now rest left (Step.Line line.now) → IfErr result (λ e. IsRefusal e (head_fault (sound_lines (layout text.now)))) }
{
    if is_misplaced(sections.as_slice(), text, line) {
        return Err(ReadRefusal::Fault {
            kind: FaultKind::NoModel,
            place: line[0].place,
        });
    }
    match push_line(alloc, text, sections, line) {
        Ok(()) => Ok(()),
        Err(_) => Err(ReadRefusal::NoMemory),
    }
}

/// The sections of a text up to the first fault of its layout.
#[derive(Drop)]
pub struct Sections {
    pub sections: Vec<Section>,
    /// The fault of layout; without it, that of a text without lines.
    pub last: Option<ReadRefusal>,
}

// The fault of a text that ends here.
fn end_fault(sections: &[Section]) -> Option<ReadRefusal>
    ensures none { sections.now ≢ [] → result ≡ None }
    ensures some { sections.now ≡ [] → result ≡ empty_fault [] }
{
    if sections.is_empty() {
        return Some(ReadRefusal::Fault {
            kind: FaultKind::NoModel,
            place: Place { line: 1, column: 1 },
        });
    }
    None
}

/// The sections of a text, or the fault of its first line.
pub fn read_sections(alloc: Global, text: &[u8]) -> Result<Sections, ReadRefusal>
    requires { length text.now < 2 ^ 32 }
    ensures sections { IfOk result (λ r. sections_at text.now r.sections.items ≡ sections_of text.now) }
    ensures within { IfOk result (λ r. AreWithin text.now r.sections.items) }
    ensures last { IfOk result (λ r. r.last ≡ or_else (layout_fault (layout text.now)) (empty_fault (sound_lines (layout text.now)))) }
    ensures head { OnOk result (head_fault (sound_lines (layout text.now)) ≡ None) }
    ensures err { IfErr result (λ e. IsRefusal e (head_fault (sound_lines (layout text.now)))) }
{
    let mut reader = LineReader::new(alloc, text);
    let mut sections = Vec::new(alloc);
    'lines: loop {
        match next_step(&mut reader) {
            Err(_) => return Err(ReadRefusal::NoMemory),
            Ok(Step::End) => {
                let last = end_fault(sections.as_slice());
                return Ok(Sections { sections, last });
            }
            Ok(Step::Flaw(refusal)) => {
                return Ok(Sections {
                    sections,
                    last: Some(refusal),
                });
            }
            Ok(Step::Line(line)) => match take_line(alloc, text, &mut sections, line.tokens()) {
                Ok(()) => {}
                Err(refusal) => return Err(refusal),
            },
        }
    }
}
