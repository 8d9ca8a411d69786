// The names of the signals.
ghost use Rattle.std.specs.Prelude.{◌≡◌, ◌+◌, ◌<◌, ℕ, IfOk, map};
ghost use Rattle.demo_generator.specs.Generator.{numbers_from, signal};

use rm_base::NoMemory;
use rm_model::{Listed, Name};
use std::alloc::Global;

pub(crate) fn signal_name(alloc: Global, number: u64) -> Result<Name, NoMemory>
    ensures { IfOk result (λ name. name ≡ signal number) }
{
    let text = if number < 16 {
        format!(in alloc; "i{number}")?
    } else {
        format!(in alloc; "t{}", number - 16)?
    };
    Ok(Listed::from_vec(text.into_bytes()))
}

pub(crate) fn signal_names(alloc: Global, first: u64, count: u64) -> Result<Listed<Name>, NoMemory>
    requires { first + count < 100 }
    ensures { IfOk result (λ names. names ≡ map signal (numbers_from first count)) }
{
    let mut names = Listed::new(alloc);
    for number in first..first + count {
        names.push(signal_name(alloc, number)?)?;
    }
    Ok(names)
}
