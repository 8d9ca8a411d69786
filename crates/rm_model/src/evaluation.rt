// The values of a model's names for given values of its sources.
ghost use Rattle.std.specs.Prelude.{◌≡◌, ◌^◌, ◌<◌, ◌++◌, ◌∷◌, [], All, Bool, IfErr, IfOk, None, OnOk, Option, false, length, map, true, ℕ};
ghost use Rattle.rm_model.specs.Inner.Numbers.{drivers_of};
ghost use Rattle.rm_model.specs.RankFaults.{IsRefused};
ghost use Rattle.rm_model.specs.Ranks.{first_without_rank};
ghost use Rattle.rm_model.specs.Inner.Search.{list_at, IsIn, IsOrder};
ghost use Rattle.rm_model.specs.Value.{is_among, observed_names, source_names, value_of, IsConsistent};
ghost use Rattle.rm_model.specs.WellFormed.{is_distinct, IsWellFormed, IsWellFormedCover};
ghost use Rattle.rm_base.specs.Words.{Word};

use crate::name_keys::NameKeys;
use crate::name_table::NameTable;
use crate::parts::{Cover, Model, Name};
use crate::points::{list_observed, sources};
use crate::ranking::{RankFault, first_missing, search_covers};
use crate::value::cover_value;
use rm_base::{NoMemory, SourceNo, Vector};
use std::alloc::Global;

/// Names with their values.
#[derive(Drop)]
pub struct Known<'a> {
    names: NameTable<'a>,
    values: Vec<bool>,
}

impl<'a> Known<'a> {
    fn new(alloc: Global, keys: NameKeys) -> Known<'a>
        ensures names { result.names ≡ [] }
        ensures values { result.values.items ≡ [] }
    {
        Known {
            names: NameTable::new(alloc, keys),
            values: Vec::new(alloc),
        }
    }

    fn add(&mut self, name: &'a [u8], value: bool) -> Result<(), NoMemory>
        requires { is_among self.old.names name.now ≡ false }
        ensures names { OnOk result (self.new.names ≡ self.old.names ++ name.now ∷ []) }
        ensures values { OnOk result (self.new.values.items ≡ self.old.values.items ++ value ∷ []) }
    {
        self.names.add(name)?;
        self.values.push(value)?;
        Ok(())
    }

    fn value(&self, name: &'a [u8]) -> bool
        requires known { is_among self.now.names name.now ≡ true }
        requires paired { length self.now.names ≡ length self.now.values.items }
        ensures { (v : Word → Bool) → map v self.now.names ≡ self.now.values.items
            → result ≡ v name.now }
    {
        match self.names.place(name) {
            Some(place) => self.values[place],
            None => false,
        }
    }

    fn values_of(&self, alloc: Global, names: &'a [Name]) -> Result<Vec<bool>, NoMemory>
        requires known { All (λ x. is_among self.now.names x ≡ true) names.now }
        requires paired { length self.now.names ≡ length self.now.values.items }
        ensures length { IfOk result (λ values. length values.items ≡ length names.now) }
        ensures values { IfOk result (λ values. (v : Word → Bool) → map v self.now.names ≡ self.now.values.items
            → values.items ≡ map v names.now) }
    {
        let mut values = Vec::new(alloc);
        for name in names {
            values.push(self.value(name.items()))?;
        }
        Ok(values)
    }
}

fn known_sources<'a>(
    alloc: Global,
    keys: NameKeys,
    names: &'a [Name],
    values: &[bool],
) -> Result<Known<'a>, NoMemory>
    requires once { is_distinct names.now ≡ true }
    requires paired { length names.now ≡ length values.now }
    ensures names { IfOk result (λ known. known.names ≡ names.now) }
    ensures values { IfOk result (λ known. known.values.items ≡ values.now) }
{
    let mut known = Known::new(alloc, keys);
    for (place, name) in names.iter().enumerate() {
        known.add(name.items(), values[place])?;
    }
    Ok(known)
}

fn add_cover<'a>(alloc: Global, known: &mut Known<'a>, cover: &'a Cover) -> Result<(), NoMemory>
    requires new { is_among known.old.names cover.now.output ≡ false }
    requires inputs { All (λ x. is_among known.old.names x ≡ true) cover.now.inputs }
    requires rows { All (λ r. length r ≡ length cover.now.inputs) cover.now.rows }
    requires paired { length known.old.names ≡ length known.old.values.items }
    ensures names { OnOk result (known.new.names ≡ known.old.names ++ cover.now.output ∷ []) }
    ensures values { OnOk result ((v : Word → Bool)
        → v cover.now.output ≡ value_of cover.now (map v cover.now.inputs)
        → map v known.old.names ≡ known.old.values.items
        → map v known.new.names ≡ known.new.values.items) }
    ensures paired { OnOk result (length known.new.names ≡ length known.new.values.items) }
{
    let values = known.values_of(alloc, cover.inputs.items())?;
    let value = cover_value(cover, values.as_slice());
    known.add(cover.output.items(), value)
}

fn add_covers<'a>(
    alloc: Global,
    known: &mut Known<'a>,
    covers: &'a [Cover],
    order: &[u32],
) -> Result<(), NoMemory>
    requires order { IsOrder (map (drivers_of covers.now) covers.now) order.now }
    requires once { is_distinct (known.old.names ++ map (λ c. c.output) covers.now) ≡ true }
    requires driven { let driven = known.old.names ++ map (λ c. c.output) covers.now in
        All (λ c. All (λ x. is_among driven x ≡ true) c.inputs) covers.now }
    requires rows { All IsWellFormedCover covers.now }
    requires paired { length known.old.names ≡ length known.old.values.items }
    ensures names { OnOk result (known.new.names
        ≡ known.old.names ++ map (list_at (map (λ c. c.output) covers.now)) order.now) }
    ensures values { OnOk result ((v : Word → Bool)
        → All (λ c. v c.output ≡ value_of c (map v c.inputs)) covers.now
        → map v known.old.names ≡ known.old.values.items
        → map v known.new.names ≡ known.new.values.items) }
    ensures paired { OnOk result (length known.new.names ≡ length known.new.values.items) }
{
    for place in order {
        add_cover(alloc, known, &covers[*place as usize])?;
    }
    Ok(())
}

fn vector_of(alloc: Global, values: &[bool]) -> Result<Vector, NoMemory>
    requires { length values.now < 2 ^ 32 }
    ensures { IfOk result (λ vector. vector ≡ values.now) }
{
    let mut vector = Vector::zeros(alloc, values.len())?;
    for (place, value) in values.iter().enumerate() {
        vector.set(SourceNo(place as u32), *value);
    }
    Ok(vector)
}

fn values_in_order(
    alloc: Global,
    keys: NameKeys,
    model: &Model,
    order: &[u32],
    vector: &Vector,
) -> Result<Vector, NoMemory>
    requires well_formed { IsWellFormed model.now }
    requires order { IsOrder (map (drivers_of model.now.covers) model.now.covers) order.now }
    requires all { (k : ℕ) → k < length model.now.covers → IsIn order.now k }
    requires sources { length vector.now ≡ length (source_names model.now) }
    requires observed { length (observed_names model.now) < 2 ^ 32 }
    ensures { IfOk result (λ values. (v : Word → Bool) → IsConsistent model.now v
        → map v (source_names model.now) ≡ vector.now
        → values ≡ map v (observed_names model.now)) }
{
    let names = sources(alloc, keys, model)?;
    let points = list_observed(alloc, model)?;
    let mut known = known_sources(alloc, keys, names.as_slice(), vector.values())?;
    add_covers(alloc, &mut known, model.covers.items(), order)?;
    let values = known.values_of(alloc, points.as_slice())?;
    vector_of(alloc, values.as_slice())
}

/// The values of the model's observed points, in order, where its sources have the values of the
/// vector, in order. It takes time linear in the model, but for the look-ups of names.
pub fn evaluate(
    alloc: Global,
    keys: NameKeys,
    model: &Model,
    vector: &Vector,
) -> Result<Vector, RankFault>
    requires well_formed { IsWellFormed model.now }
    requires covers { length model.now.covers < 2 ^ 32 }
    requires few_sources { length (source_names model.now) < 2 ^ 32 }
    requires few_observed { length (observed_names model.now) < 2 ^ 32 }
    requires sources { length vector.now ≡ length (source_names model.now) }
    ensures values { IfOk result (λ values. (v : Word → Bool) → IsConsistent model.now v
        → map v (source_names model.now) ≡ vector.now
        → values ≡ map v (observed_names model.now)) }
    ensures valued { IfOk result (λ values. (v : Word → Bool) × (IsConsistent model.now v
        × ((map v (source_names model.now) ≡ vector.now)
        × (values ≡ map v (observed_names model.now))))) }
    ensures ranked { OnOk result (first_without_rank model.now ≡ None) }
    ensures refused { IfErr result (λ fault. IsRefused (first_without_rank model.now) fault) }
{
    let found = search_covers(alloc, keys, model.covers.items())?;
    if let Some(place) = first_missing(found.ranks.as_slice()) {
        return Err(RankFault::NoRank {
            cover: place as u32,
        });
    }
    Ok(values_in_order(alloc, keys, model, found.order.as_slice(), vector)?)
}
