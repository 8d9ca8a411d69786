// The names that a model drives.
ghost use Rattle.std.specs.Prelude.{◌≡◌, ◌++◌, map, OnOk, IfOk};
ghost use Rattle.rm_model.specs.Value.{is_among};
ghost use Rattle.rm_base.specs.Words.{Word};

use rm_base::NoMemory;
use rm_model::{Cover, Name, NameKeys, NameTable};
use std::alloc::Global;

fn include_names<'a>(set: &mut NameTable<'a>, names: &'a [Name]) -> Result<(), NoMemory>
    ensures { OnOk result ((x : Word) → is_among set.new x ≡ is_among (set.old ++ names.now) x) }
{
    for name in names {
        set.include(name.items())?;
    }
    Ok(())
}

fn include_outputs<'a>(set: &mut NameTable<'a>, covers: &'a [Cover]) -> Result<(), NoMemory>
    ensures { OnOk result ((x : Word) → is_among set.new x ≡ is_among (set.old ++ map (λ c. c.output) covers.now) x) }
{
    for cover in covers {
        set.include(cover.output.items())?;
    }
    Ok(())
}

/// The sources and the outputs of the covers.
pub fn table_of_driven<'a>(
    alloc: Global,
    keys: NameKeys,
    sources: &'a [Name],
    covers: &'a [Cover],
) -> Result<NameTable<'a>, NoMemory>
    ensures { IfOk result (λ set. (x : Word) → is_among set x ≡ is_among (sources.now ++ map (λ c. c.output) covers.now) x) }
{
    let mut set = NameTable::new(alloc, keys);
    include_names(&mut set, sources)?;
    include_outputs(&mut set, covers)?;
    Ok(set)
}
