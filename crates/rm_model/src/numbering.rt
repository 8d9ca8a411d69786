// The signals of a model by number: its sources in order, and then the output of each cover. Each name is looked up once.
ghost use Rattle.std.specs.Prelude.{◌≡◌, ◌<◌, ◌+◌, ◌^◌, ◌++◌, length, map, true, OnOk, IfOk, Some};
ghost use Rattle.std.specs.List.{filter_map, list_all};
ghost use Rattle.rm_model.specs.Numbers.{place_of};
ghost use Rattle.rm_model.specs.Signals.{AreNumbers, AreSignals};
ghost use Rattle.rm_model.specs.Inner.Signals.{cover_at as cover_place};
ghost use Rattle.rm_model.specs.Value.{is_among, observed_names, source_names};
ghost use Rattle.rm_model.specs.WellFormed.{driven_names, is_distinct, IsWellFormed};

use crate::name_keys::NameKeys;
use crate::name_table::NameTable;
use crate::parts::{Cover, Model, Name};
use crate::points::{list_observed, sources};
use rm_base::NoMemory;
use std::alloc::Global;

/// How many sources a model has, the numbers of the inputs of each cover, and those of the observed names, each in order.
#[derive(Drop)]
pub struct Numbering {
    pub sources: u32,
    pub inputs: Vec<Vec<u32>>,
    pub observed: Vec<u32>,
}

fn add_sources<'a>(table: &mut NameTable<'a>, sources: &'a [Name]) -> Result<(), NoMemory>
    requires { is_distinct (table.old ++ sources.now) ≡ true }
    ensures { OnOk result (table.new ≡ table.old ++ sources.now) }
{
    for name in sources {
        table.add(name.items())?;
    }
    Ok(())
}

fn add_outputs<'a>(table: &mut NameTable<'a>, covers: &'a [Cover]) -> Result<(), NoMemory>
    requires { is_distinct (table.old ++ map (λ c. c.output) covers.now) ≡ true }
    ensures { OnOk result (table.new ≡ table.old ++ map (λ c. c.output) covers.now) }
{
    for cover in covers {
        table.add(cover.output.items())?;
    }
    Ok(())
}

// The sources, and then the outputs of the covers.
fn signal_table<'a>(
    alloc: Global,
    keys: NameKeys,
    sources: &'a [Name],
    covers: &'a [Cover],
) -> Result<NameTable<'a>, NoMemory>
    requires { is_distinct (sources.now ++ map (λ c. c.output) covers.now) ≡ true }
    ensures { IfOk result (λ table. table ≡ sources.now ++ map (λ c. c.output) covers.now) }
{
    let mut table = NameTable::new(alloc, keys);
    add_sources(&mut table, sources)?;
    add_outputs(&mut table, covers)?;
    Ok(table)
}

fn signal<'a>(table: &NameTable<'a>, name: &'a Name) -> u32
    requires there { is_among table.now name.now ≡ true }
    requires room { length table.now < 2 ^ 32 }
    ensures { place_of table.now name.now ≡ Some result }
{
    match table.place(name.items()) {
        Some(place) => place as u32,
        None => unreachable!(),
    }
}

// The numbers of names that the table has.
fn signals<'a>(
    alloc: Global,
    table: &NameTable<'a>,
    names: &'a [Name],
) -> Result<Vec<u32>, NoMemory>
    requires there { list_all (is_among table.now) names.now ≡ true }
    requires room { length table.now < 2 ^ 32 }
    ensures { IfOk result (λ ks. AreSignals table.now names.now ks.items) }
{
    let mut places = Vec::with_capacity(alloc, names.len())?;
    for name in names {
        places.push(signal(table, name))?;
    }
    Ok(places)
}

// The numbers of the inputs of each cover.
fn cover_inputs<'a>(
    alloc: Global,
    table: &NameTable<'a>,
    covers: &'a [Cover],
) -> Result<Vec<Vec<u32>>, NoMemory>
    requires there { list_all (λ c. list_all (is_among table.now) c.inputs) covers.now ≡ true }
    requires room { length table.now < 2 ^ 32 }
    ensures { IfOk result (λ all. map (λ ks. map (λ k. Some k) ks.items) all.items
        ≡ map (λ c. map (place_of table.now) c.inputs) covers.now) }
{
    let mut all = Vec::with_capacity(alloc, covers.len())?;
    for cover in covers {
        all.push(signals(alloc, table, cover.inputs.items())?)?;
    }
    Ok(all)
}

fn number_by<'a>(
    alloc: Global,
    model: &'a Model,
    table: &NameTable<'a>,
    sources: u32,
    observed: &'a [Name],
) -> Result<Numbering, NoMemory>
    requires formed { IsWellFormed model.now }
    requires table { table.now ≡ driven_names model.now }
    requires room { length table.now < 2 ^ 32 }
    requires sources { sources ≡ length (source_names model.now) }
    requires observed { observed.now ≡ observed_names model.now }
    ensures numbers { IfOk result (λ n. AreNumbers model.now (map (λ ks. ks.items) n.inputs.items) n.observed.items) }
    ensures sources { IfOk result (λ n. n.sources ≡ length (source_names model.now)) }
{
    let inputs = cover_inputs(alloc, table, model.covers.items())?;
    let observed = signals(alloc, table, observed)?;
    Ok(Numbering {
        sources,
        inputs,
        observed,
    })
}

/// Numbers the signals of a model. It takes time linear in the model, but for one look-up of each name that stands in it.
pub fn number(alloc: Global, keys: NameKeys, model: &Model) -> Result<Numbering, NoMemory>
    requires formed { IsWellFormed model.now }
    requires room { length (source_names model.now) + length model.now.covers < 2 ^ 32 }
    ensures numbers { IfOk result (λ n. AreNumbers model.now (map (λ ks. ks.items) n.inputs.items) n.observed.items) }
    ensures sources { IfOk result (λ n. n.sources ≡ length (source_names model.now)) }
{
    let sources = sources(alloc, keys, model)?;
    let observed = list_observed(alloc, model)?;
    let table = signal_table(alloc, keys, sources.as_slice(), model.covers.items())?;
    number_by(
        alloc,
        model,
        &table,
        sources.len() as u32,
        observed.as_slice(),
    )
}

// The place of the cover that drives a signal, unless a source does.
fn cover_at(sources: u32, signal: u32) -> Option<u32>
    ensures { result ≡ cover_place sources signal }
{
    if signal < sources {
        return None;
    }
    Some(signal - sources)
}

fn covers_among(alloc: Global, sources: u32, signals: &[u32]) -> Result<Vec<u32>, NoMemory>
    ensures { IfOk result (λ ds. ds.items ≡ filter_map (cover_place sources) signals.now) }
{
    let mut places = Vec::with_capacity(alloc, signals.len())?;
    for signal in signals {
        if let Some(place) = cover_at(sources, *signal) {
            places.push(place)?;
        }
    }
    Ok(places)
}

/// For each cover the covers that it reads, by their places, in the order of its inputs.
pub fn covers_read(
    alloc: Global,
    sources: u32,
    inputs: &[Vec<u32>],
) -> Result<Vec<Vec<u32>>, NoMemory>
    ensures { IfOk result (λ ds. map (λ d. d.items) ds.items
        ≡ map (λ ks. filter_map (cover_place sources) ks.items) inputs.now) }
{
    let mut all = Vec::with_capacity(alloc, inputs.len())?;
    for signals in inputs {
        all.push(covers_among(alloc, sources, signals.as_slice())?)?;
    }
    Ok(all)
}
