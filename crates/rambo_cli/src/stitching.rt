//! The command `sew`.
ghost use Rattle.std.specs.Prelude.{◌≡◌, ◌≤◌, ◌<◌, ◌+◌, ◌++◌, ◌∷◌, ◌^◌, ◌⊎◌, [], All, IfErr, IfOk, IfSome, List, OnOk, if◌then◌else◌, length};
ghost use Rattle.std.specs.String.{string_bytes};
ghost use Rattle.cover_decompose.specs.Count.{decomposed};
ghost use Rattle.rm_model.specs.Value.{IsRanked, source_names};
ghost use Rattle.rm_model.specs.declared.parts.Model.{Model as CircuitModel};
ghost use Rattle.blif_format.specs.Text.{text_of};
ghost use Rattle.rm_model.specs.WellFormed.{IsWellFormed};
ghost use Rattle.cover_sharing.specs.Shared.{shared};
ghost use Rattle.sewing.specs.Laws.{AreFew, AreParts, IsReplacement};
ghost use Rattle.window_cut.specs.Laws.{IsStandalone};
ghost use Rattle.window_fit.specs.Shared.{sewn_again};
ghost use Rattle.window_parts.specs.Part.{IsPartOf};
ghost use Rattle.rambo_cli.specs.Contract.{Caused};
ghost use Rattle.rambo_cli.specs.Files.{IfTold};
ghost use Rattle.rambo_cli.specs.Inner.Sew.{IsSewnOf, ModelFinds, PartFinds, PartsFind};
ghost use Rattle.rambo_cli.specs.Problems.{KeepsFiles};
ghost use Rattle.rambo_cli.specs.Sew.{BeginsSewn, HasSewn, HaveParts, IsSewnInto, SewFinds};
ghost use Rattle.rambo_cli.specs.Windows.{window_journal};

use crate::input_model::{wide_model, windows_of};
use crate::optimising::replace;
use crate::problem::Problem;
use blif_format::Quantity;
use blif_writer::{write_model, written_texts_read};
use cover_decompose::count_wires;
use rm_base::{NoMemory, Shelf};
use rm_model::{Model, NameKeys, RankFault, RankedModel, ranks_exist, sources};
use sewing::{parts_follow, sew, windows_may_stay};
use std::alloc::Global;
use window_fit::shared_windows_compose;
use window_parts::{Part, PartRefusal, part_of};

/// The names that `sew` is given.
#[derive(Clone, Copy)]
pub(crate) struct SewNames<'a> {
    pub(crate) input: &'a str,
    pub(crate) prefix: &'a str,
    pub(crate) output: &'a str,
}

// What stands for the windows, and how many of them are replayed.
#[derive(Drop)]
struct Parts {
    models: Vec<Model>,
    replayed: u64,
}

// The name of the journal of a window.
fn journal_name(alloc: Global, prefix: &str, number: usize) -> Result<String, NoMemory>
    ensures { IfOk result (λ name. string_bytes name ≡ window_journal prefix.now number) }
{
    Ok(format!(in alloc; "{prefix}{number}.journal")?)
}

// What stands for the window with this number.
fn part_at<S: Shelf>(
    alloc: Global,
    keys: NameKeys,
    shelf: &mut S,
    prefix: &str,
    number: usize,
    window: &Model,
) -> Result<Part, Problem>
    requires { IsStandalone window.now }
    ensures part { IfOk result (λ p. IfSome (S.files shelf.old) (IsPartOf window.now (window_journal prefix.now number) p.model p.replayed)) }
    ensures replacement { IfOk result (λ p. IsReplacement window.now p.model) }
    ensures cause { IfErr result (Caused (PartFinds window.now prefix.now number (S.files shelf.old)) (S.faults shelf.old) (S.faults shelf.new)) }
    ensures files { S.files shelf.new ≡ S.files shelf.old }
    ensures later { S.faults shelf.old ≤ S.faults shelf.new }
{
    let journal = journal_name(alloc, prefix, number)?;
    match part_of(alloc, keys, shelf, window, journal.as_str()) {
        Ok(part) => Ok(part),
        Err(PartRefusal::Journal { stop }) => Err(Problem::Window {
            number: number as u64,
            stop,
        }),
        Err(PartRefusal::TooLong) => Err(Problem::Limit {
            quantity: Quantity::Journal,
            count: 4_611_686_018_427_387_905,
        }),
        Err(PartRefusal::Fault) => Err(Problem::Fault),
        Err(PartRefusal::NoMemory) => Err(Problem::Memory),
    }
}

// One more part.
fn push_part(parts: &mut Parts, part: Part) -> Result<(), NoMemory>
    ensures models { OnOk result (parts.new.models.items ≡ parts.old.models.items ++ part.model ∷ []) }
    ensures replayed { OnOk result (parts.new.replayed ≡ parts.old.replayed + (if part.replayed then 1 else 0)) }
{
    parts.models.push(part.model)?;
    if part.replayed {
        match parts.replayed.checked_add(1) {
            Some(sum) => parts.replayed = sum,
            // No memory holds so many windows.
            None => return Err(NoMemory),
        }
    }
    Ok(())
}

// What stands for each window, in order.
fn parts_of<S: Shelf>(
    alloc: Global,
    keys: NameKeys,
    shelf: &mut S,
    prefix: &str,
    windows: &[Model],
) -> Result<Parts, Problem>
    requires { All IsStandalone windows.now }
    ensures parts { IfOk result (λ p. IfSome (S.files shelf.old) (HaveParts prefix.now windows.now p.models.items p.replayed)) }
    ensures replacements { IfOk result (λ p. AreParts windows.now p.models.items) }
    ensures cause { IfErr result (Caused (PartsFind prefix.now windows.now (S.files shelf.old)) (S.faults shelf.old) (S.faults shelf.new)) }
    ensures files { S.files shelf.new ≡ S.files shelf.old }
    ensures later { S.faults shelf.old ≤ S.faults shelf.new }
{
    parts_follow();
    let mut parts = Parts {
        models: Vec::new(alloc),
        replayed: 0,
    };
    for place in 0..windows.len() {
        let part = part_at(alloc, keys, shelf, prefix, place + 1, &windows[place])?;
        push_part(&mut parts, part)?;
    }
    Ok(parts)
}

// A model with its ranks and its wires.
#[derive(Drop)]
struct CountedModel {
    ranked: RankedModel,
    wires: u64,
}

// A model with its ranks.
fn rank_model(alloc: Global, keys: NameKeys, model: Model) -> Result<RankedModel, NoMemory>
    requires formed { IsWellFormed model }
    requires ranked { IsRanked model }
    ensures same { IfOk result (λ m. m ≡ model) }
    ensures few { IfOk result (λ _. length (source_names model) + length model.covers < 2 ^ 32) }
{
    ranks_exist();
    let sources = sources(alloc, keys, &model)?;
    // No text is so long.
    if sources.len() >= 2_147_483_648 || model.covers.len() >= 2_147_483_648 {
        return Err(NoMemory);
    }
    match RankedModel::new(alloc, keys, model) {
        Ok(ranked) => Ok(ranked),
        Err(RankFault::NoMemory) => Err(NoMemory),
        Err(RankFault::NoRank { cover: _ }) => unreachable!(),
    }
}

// A model with its ranks, and the wires of its decomposition.
fn count_model(alloc: Global, keys: NameKeys, model: Model) -> Result<CountedModel, NoMemory>
    requires formed { IsWellFormed model }
    requires ranked { IsRanked model }
    ensures same { IfOk result (λ c. c.ranked ≡ model) }
    ensures wires { IfOk result (λ c. c.wires ≡ decomposed model) }
{
    let ranked = rank_model(alloc, keys, model)?;
    let wires = count_wires(alloc, &ranked)?;
    Ok(CountedModel { ranked, wires })
}

/// The text of what is sewn, and the wires of its model and of the input's.
#[derive(Drop)]
struct SewnText {
    text: Vec<u8>,
    wires: u64,
    before: u64,
}

// The text of a model, with the wires of it and of the input.
fn text_with(alloc: Global, made: &CountedModel, before: u64) -> Result<SewnText, NoMemory>
    requires { All (λ l. IfSome l.init (λ n. n ≤ 3)) made.now.ranked.latches }
    ensures text { IfOk result (λ s. s.text.items ≡ text_of made.now.ranked) }
    ensures wires { IfOk result (λ s. s.wires ≡ made.now.wires) }
    ensures before { IfOk result (λ s. s.before ≡ before) }
{
    let text = write_model(alloc, made.ranked.model())?;
    Ok(SewnText {
        text,
        wires: made.wires,
        before,
    })
}

// The text of what is sewn of the parts of a model; where that has more wires than the model, of the model.
fn chosen_text(alloc: Global, own: &CountedModel, made: &CountedModel) -> Result<SewnText, NoMemory>
    requires formed { IsWellFormed own.now.ranked }
    requires ranked { IsRanked own.now.ranked }
    requires counted { own.now.wires ≡ decomposed own.now.ranked }
    requires made { IsReplacement own.now.ranked made.now.ranked }
    requires wires { made.now.wires ≡ decomposed made.now.ranked }
    ensures { (parts : List CircuitModel) → made.now.ranked ≡ sewn_again own.now.ranked parts → IfOk result (λ s. IsSewnInto own.now.ranked parts s.wires s.before s.text.items) }
{
    windows_may_stay();
    written_texts_read();
    if made.wires <= own.wires {
        return text_with(alloc, made, own.wires);
    }
    text_with(alloc, own, own.wires)
}

// Sews these parts of a model together.
fn sew_parts(
    alloc: Global,
    keys: NameKeys,
    own: &CountedModel,
    whole: &Model,
    parts: &[Model],
) -> Result<SewnText, NoMemory>
    requires formed { IsWellFormed own.now.ranked }
    requires ranked { IsRanked own.now.ranked }
    requires counted { own.now.wires ≡ decomposed own.now.ranked }
    requires whole { whole.now ≡ shared own.now.ranked }
    requires fit { AreFew whole.now parts.now → IsReplacement own.now.ranked (sewn_again own.now.ranked parts.now) }
    ensures { IfOk result (λ s. IsSewnInto own.now.ranked parts.now s.wires s.before s.text.items) }
{
    let sewn = sew(alloc, keys, whole, parts)?;
    let made = count_model(alloc, keys, sewn)?;
    chosen_text(alloc, own, &made)
}

// What is sewn of a model: so many windows, of which so many are replayed, and the text.
#[derive(Drop)]
struct Sewn {
    windows: u64,
    replayed: u64,
    text: SewnText,
}

// Makes the windows of a model again, replaces each by what the steps of its journal lead to, if there is one, and sews them.
fn sew_model<S: Shelf>(
    alloc: Global,
    keys: NameKeys,
    shelf: &mut S,
    prefix: &str,
    own: &CountedModel,
    width: u32,
    shift: u32,
) -> Result<Sewn, Problem>
    requires formed { IsWellFormed own.now.ranked }
    requires ranked { IsRanked own.now.ranked }
    requires counted { own.now.wires ≡ decomposed own.now.ranked }
    ensures sewn { IfOk result (λ s. IfSome (S.files shelf.old) (IsSewnOf own.now.ranked width prefix.now shift s.windows s.replayed s.text.wires s.text.before s.text.text.items)) }
    ensures cause { IfErr result (Caused (ModelFinds own.now.ranked width prefix.now shift (S.files shelf.old)) (S.faults shelf.old) (S.faults shelf.new)) }
    ensures files { S.files shelf.new ≡ S.files shelf.old }
    ensures later { S.faults shelf.old ≤ S.faults shelf.new }
{
    shared_windows_compose();
    let windowed = windows_of(alloc, keys, own.ranked.model(), width, shift)?;
    let windows = windowed.windows.as_slice();
    let parts = parts_of(alloc, keys, shelf, prefix, windows)?;
    let text = sew_parts(alloc, keys, own, &windowed.whole, parts.models.as_slice())?;
    Ok(Sewn {
        windows: windows.len() as u64,
        replayed: parts.replayed,
        text,
    })
}

/// What `sew` has made: so many windows, of which so many are replayed, and the wires of the output and of the input.
#[derive(Clone, Copy, Debug)]
pub(crate) struct SewnCounts {
    pub(crate) windows: u64,
    pub(crate) replayed: u64,
    pub(crate) wires: u64,
    pub(crate) before: u64,
}

/// Makes the windows of the input again, replaces each by what the steps of its journal lead to, if there is one, and writes
/// the model with these in place of them as the output.
pub(crate) fn sew_input<S: Shelf>(
    alloc: Global,
    keys: NameKeys,
    shelf: &mut S,
    names: &SewNames,
    width: u32,
    shift: u32,
) -> Result<SewnCounts, Problem>
    ensures done { IfOk result (λ c. IfTold (S.files shelf.old) (S.files shelf.new) (HasSewn names.now.input.now width names.now.prefix.now names.now.output.now shift c.windows c.replayed c.wires c.before)) }
    ensures cause { IfErr result (Caused (SewFinds names.now.input.now width names.now.prefix.now shift (S.files shelf.old)) (S.faults shelf.old) (S.faults shelf.new)) }
    ensures unchanged { IfErr result (λ problem. KeepsFiles problem (S.files shelf.old) (S.files shelf.new)) }
    ensures safe { IfTold (S.files shelf.old) (S.files shelf.new) (λ before after. (after ≡ before) ⊎ BeginsSewn names.now.input.now width names.now.prefix.now names.now.output.now shift before after) }
    ensures later { S.faults shelf.old ≤ S.faults shelf.new }
{
    let flat = wide_model(alloc, keys, shelf, names.input)?;
    let own = count_model(alloc, keys, flat.model)?;
    let sewn = sew_model(alloc, keys, shelf, names.prefix, &own, width, shift)?;
    replace(shelf, names.output, sewn.text.text.as_slice())?;
    Ok(SewnCounts {
        windows: sewn.windows,
        replayed: sewn.replayed,
        wires: sewn.text.wires,
        before: sewn.text.before,
    })
}
