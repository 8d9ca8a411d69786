// The covers that each cover reads, by their places.
ghost use Rattle.std.specs.Prelude.{◌≡◌, ◌^◌, ◌<◌, true, length, map, IfOk};
ghost use Rattle.std.specs.List.{filter_map};
ghost use Rattle.rm_model.specs.Numbers.{place_of};
ghost use Rattle.rm_model.specs.Inner.Numbers.{drivers_of};
ghost use Rattle.rm_model.specs.WellFormed.{is_distinct};

use crate::name_keys::NameKeys;
use crate::name_table::NameTable;
use crate::parts::Cover;
use rm_base::NoMemory;
use std::alloc::Global;

fn output_table<'a>(
    alloc: Global,
    keys: NameKeys,
    covers: &'a [Cover],
) -> Result<NameTable<'a>, NoMemory>
    requires { is_distinct (map (λ c. c.output) covers.now) ≡ true }
    ensures { IfOk result (λ table. table ≡ map (λ c. c.output) covers.now) }
{
    let mut table = NameTable::new(alloc, keys);
    for cover in covers {
        table.add(cover.output.items())?;
    }
    Ok(table)
}

fn cover_drivers<'a>(
    alloc: Global,
    table: &NameTable<'a>,
    cover: &'a Cover,
) -> Result<Vec<u32>, NoMemory>
    requires { length table.now < 2 ^ 32 }
    ensures { IfOk result (λ ds. ds.items ≡ filter_map (place_of table.now) cover.now.inputs) }
{
    let mut drivers = Vec::new(alloc);
    for name in cover.inputs.items() {
        if let Some(place) = table.place(name.items()) {
            drivers.push(place as u32)?;
        }
    }
    Ok(drivers)
}

fn all_drivers<'a>(
    alloc: Global,
    table: &NameTable<'a>,
    covers: &'a [Cover],
) -> Result<Vec<Vec<u32>>, NoMemory>
    requires { length table.now < 2 ^ 32 }
    ensures { IfOk result (λ ds. map (λ d. d.items) ds.items
        ≡ map (λ c. filter_map (place_of table.now) c.inputs) covers.now) }
{
    let mut all = Vec::new(alloc);
    for cover in covers {
        all.push(cover_drivers(alloc, table, cover)?)?;
    }
    Ok(all)
}

/// For each cover the covers that it reads, in the order of its inputs.
pub fn drivers(alloc: Global, keys: NameKeys, covers: &[Cover]) -> Result<Vec<Vec<u32>>, NoMemory>
    requires once { is_distinct (map (λ c. c.output) covers.now) ≡ true }
    requires room { length covers.now < 2 ^ 32 }
    ensures { IfOk result (λ ds. map (λ d. d.items) ds.items ≡ map (drivers_of covers.now) covers.now) }
{
    let table = output_table(alloc, keys, covers)?;
    all_drivers(alloc, &table, covers)
}
