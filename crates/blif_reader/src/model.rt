// The model of a text.
ghost use Rattle.std.specs.Prelude.{◌≡◌, ◌≤◌, ◌<◌, ◌*◌, ◌+◌, ◌^◌, length, OnOk, IfOk, IfErr, None, Option, ℕ};
ghost use Rattle.rm_model.specs.Ranks.{first_without_rank};
ghost use Rattle.rm_model.specs.RankFaults.{IsRefused};
ghost use Rattle.rm_model.specs.declared.ranking.RankFault.TheVariants.{NoRank};
ghost use Rattle.rm_model.specs.Value.{source_names, observed_names};
ghost use Rattle.rm_model.specs.WellFormed.{IsWellFormed};
ghost use Rattle.blif_lines.specs.Layout.{lines_of};
ghost use Rattle.blif_format.specs.Grammar.{Reads};
ghost use Rattle.blif_format.specs.FirstFault.{first_fault};
ghost use Rattle.rm_model.specs.Size.{covers_weight};
ghost use Rattle.blif_reader.specs.Meant.{IsRefusal};
ghost use Rattle.blif_reader.specs.Inner.Ranked.{fault_at, rank_found};

use crate::draft::model_of;
use crate::read::{Lines, read_lines};
use blif_format::{FaultKind, ReadRefusal};
use rm_base::Place;
use rm_model::{Model, NameKeys, RankFault, RankedModel, ranks_exist, ranks_follow};
use std::alloc::Global;

fn fault(kind: FaultKind, place: Place) -> ReadRefusal
    ensures { result ≡ ReadRefusal.Fault kind place }
{
    ReadRefusal::Fault { kind, place }
}

// The refusal of a model without ranks, by the places of its covers.
fn rank_refusal(refused: RankFault, places: &[Place]) -> ReadRefusal
    requires { (k : ℕ) → refused ≡ NoRank k → k < length places.now }
    ensures { (first : Option ℕ) → IsRefused first refused → IsRefusal result (fault_at places.now first) }
{
    match refused {
        RankFault::NoMemory => ReadRefusal::NoMemory,
        RankFault::NoRank { cover } => fault(FaultKind::NoRank, places[cover as usize]),
    }
}

// The model with its ranks.
fn rank_model(
    alloc: Global,
    keys: NameKeys,
    model: Model,
    places: &[Place],
) -> Result<RankedModel, ReadRefusal>
    requires formed { IsWellFormed model }
    requires few { length (source_names model) + length model.covers < 2 ^ 32 }
    requires placed { length places.now ≡ length model.covers }
    ensures same { IfOk result (λ r. r ≡ model) }
    ensures ok { OnOk result (first_without_rank model ≡ None) }
    ensures err { IfErr result (λ e. IsRefusal e (rank_found model places.now)) }
{
    ranks_follow();
    match RankedModel::new(alloc, keys, model) {
        Ok(ranked) => Ok(ranked),
        Err(refused) => Err(rank_refusal(refused, places)),
    }
}

/// The model that a text says, or the text's first fault. Within the limits a text says a model exactly where it has no
/// fault. It takes one pass over the text and time linear in it, but for two look-ups of each name that stands in it. The last clauses bound what
/// is made of the model.
pub fn read_model(alloc: Global, keys: NameKeys, text: &[u8]) -> Result<RankedModel, ReadRefusal>
    requires { length text.now ≤ 16777216 }
    ensures model { IfOk result (λ m. Reads (lines_of text.now) m) }
    ensures faultless { IfOk result (λ _. first_fault text.now ≡ None) }
    ensures fault { IfErr result (λ e. IsRefusal e (first_fault text.now)) }
    ensures sources { IfOk result (λ m. length (source_names m) ≤ 1024) }
    ensures observed { IfOk result (λ m. length (observed_names m) ≤ 4096) }
    ensures covers { IfOk result (λ m. length m.covers ≤ length text.now) }
    ensures weight { IfOk result (λ m. covers_weight m.covers ≤ 2 * length text.now) }
{
    ranks_exist();
    let lines = match read_lines(alloc, keys, text) {
        Ok(lines) => lines,
        Err(refusal) => return Err(refusal),
    };
    if !lines.checker.began {
        let place = Place { line: 1, column: 1 };
        return Err(fault(FaultKind::NoModel, place));
    }
    match lines.checker.names.first_undriven() {
        Some(place) => return Err(fault(FaultKind::Undriven, place)),
        None => {}
    }
    let Lines {
        checker,
        draft,
        places,
    } = lines;
    drop(checker);
    let model = match model_of(draft) {
        Ok(model) => model,
        Err(_) => return Err(ReadRefusal::NoMemory),
    };
    rank_model(alloc, keys, model, places.as_slice())
}
