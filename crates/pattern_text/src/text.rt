// The whole text.
ghost use Rattle.std.specs.Prelude.{◌≡◌, ◌++◌, ◌∷◌, ◌<◌, ◌^◌, [], IfOk, OnOk, slice_index_or};
ghost use Rattle.rm_model.specs.WellFormed.{IsWellFormed};
ghost use Rattle.pattern_text.specs.Text.{chosen, header_line, names_text, observed_line, pattern_line, pattern_lines, sources_line, tests_text as text_of_tests};

use crate::counts::{add_counts, count_tests};
use crate::faults::add_covers;
use crate::lines::{add_bits, add_names, add_number};
use rm_base::{NoMemory, Vector};
use rm_model::{Model, Name, NameKeys, list_observed, sources};
use std::alloc::Global;

// Adds the line of a pattern.
fn add_pattern(text: &mut Vec<u8>, number: usize, values: &[bool]) -> Result<(), NoMemory>
    ensures { OnOk result (text.new.items ≡ text.old.items ++ pattern_line number values.now) }
{
    text.extend_from_slice(b"pattern")?;
    add_number(text, number as u64)?;
    text.push(b' ')?;
    add_bits(text, values)?;
    text.push(b'\n')?;
    Ok(())
}

// The values of the vector of a number; none where there is no such vector.
fn values_at(vectors: &[Vector], number: usize) -> &[bool]
    ensures { result.now ≡ slice_index_or vectors.now number [] }
{
    match vectors.get(number) {
        Some(vector) => vector.values(),
        None => &[],
    }
}

// Adds the lines of all patterns, which are vectors of these numbers.
fn add_patterns(text: &mut Vec<u8>, vectors: &[Vector], patterns: &[usize]) -> Result<(), NoMemory>
    ensures { OnOk result (text.new.items ≡ text.old.items ++ pattern_lines 0 (chosen vectors.now patterns.now)) }
{
    for at in 0..patterns.len() {
        add_pattern(text, at, values_at(vectors, patterns[at]))?;
    }
    Ok(())
}

// Adds a line of names.
fn add_names_line(text: &mut Vec<u8>, label: &[u8], names: &[Name]) -> Result<(), NoMemory>
    ensures { OnOk result (text.new.items ≡ text.old.items ++ (label.now ++ (names_text names.now ++ 10 ∷ []))) }
{
    text.extend_from_slice(label)?;
    add_names(text, names)?;
    text.push(b'\n')?;
    Ok(())
}

// Adds the header, and the names of the sources and of what is observed.
fn add_head(
    alloc: Global,
    keys: NameKeys,
    text: &mut Vec<u8>,
    model: &Model,
) -> Result<(), NoMemory>
    ensures { OnOk result (text.new.items ≡ text.old.items ++ (header_line ++ (sources_line model.now ++ observed_line model.now))) }
{
    let sources = sources(alloc, keys, model)?;
    let observed = list_observed(alloc, model)?;
    text.extend_from_slice(b"tests 1\n")?;
    add_names_line(text, b"sources", sources.as_slice())?;
    add_names_line(text, b"observed", observed.as_slice())
}

/// The text of patterns, which are vectors of these numbers, and of the first of them that detects each fault of the model,
/// in order, or None; with the faults that are the last of their classes marked.
pub fn tests_text(
    alloc: Global,
    keys: NameKeys,
    model: &Model,
    vectors: &[Vector],
    patterns: &[usize],
    firsts: &[Option<usize>],
    lasts: &[bool],
) -> Result<Vec<u8>, NoMemory>
    requires formed { IsWellFormed model.now }
    ensures { IfOk result (λ text. text.items ≡ text_of_tests model.now (record { patterns = chosen vectors.now patterns.now; firsts = firsts.now; lasts = lasts.now })) }
{
    let mut text = Vec::new(alloc);
    add_head(alloc, keys, &mut text, model)?;
    add_patterns(&mut text, vectors, patterns)?;
    add_covers(&mut text, model.covers.items(), firsts)?;
    add_counts(&mut text, &count_tests(patterns, firsts, lasts))?;
    Ok(text)
}
