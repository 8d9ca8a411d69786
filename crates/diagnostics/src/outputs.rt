// The files that a command will write.
use crate::commands::CommandRule;
use crate::reading::read_words;
use rm_base::NoMemory;
use std::alloc::Global;

/// The file that a command reads first, and those that it writes.
#[derive(Drop)]
pub struct Outputs<'a> {
    pub input: &'a str,
    pub names: Vec<&'a str>,
}

fn written_names<'a>(
    alloc: Global,
    command: &CommandRule,
    names: &[&'a str],
) -> Result<Vec<&'a str>, NoMemory> {
    let mut written = Vec::new(alloc);
    for (role, name) in command.names.iter().zip(names.iter()) {
        if command.written.contains(role) {
            written.push(*name)?;
        }
    }
    Ok(written)
}

/// The files that the words' command will write. None where the words are refused, or the command writes none.
pub fn outputs_of<'a>(alloc: Global, words: &'a [String]) -> Result<Option<Outputs<'a>>, NoMemory> {
    let reading = read_words(alloc, words)?;
    let Some(command) = reading.command else {
        return Ok(None);
    };
    if reading.refusal.is_some() || command.written.is_empty() {
        return Ok(None);
    }
    let Some(input) = reading.names.first().copied() else {
        return Ok(None);
    };
    let names = written_names(alloc, &command, reading.names.as_slice())?;
    Ok(Some(Outputs { input, names }))
}
