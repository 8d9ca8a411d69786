//! The models and the journal that were worked by hand, and how a model is read.
ghost use Rattle.std.specs.Prelude.{◌≡◌, ◌<◌, ◌≤◌, ◌^◌, IfOk, None, length};
ghost use Rattle.cover_decompose.specs.Count.{decomposed};
ghost use Rattle.rm_model.specs.Ranks.{first_without_rank};
ghost use Rattle.rm_model.specs.Value.{observed_names, source_names};
ghost use Rattle.rm_model.specs.WellFormed.{IsWellFormed};

use blif_reader::read_model;
use cover_decompose::{decompose, is_small, wires_are_bounded};
use rm_model::{NameKeys, RankedModel, is_well_formed, rank, ranks_exist};
use std::alloc::Global;
use std::test::Fail;

/// 4 is And(2, 3), which is observed.
pub const ONE_GATE: &str = ".model r1\n.inputs a b\n.outputs z\n.names a b z\n11 1\n.end\n";

pub const ONE_GATE_JOURNAL: &str =
    "rambo 1 256\nhit 4 0 0 11\nhit 4 0 1 01\nhit 4 1 0 11\nhit 4 1 1 10\nend\n";

/// Sources 2 to 5, 6 is And(2, 3), 7 is And(2, 4), 8 is Or(6, 7), and 9 is And(8, 5), which is observed.
pub const FOUR_GATES: &str =
    ".model r3\n.inputs a b c d\n.outputs k\n.names a b c o\n11- 1\n1-1 1\n.names o d k\n11 1\n.end\n";

/// The records that take three wires from the four gates.
pub const FOUR_GATES_JOURNAL: &str =
    "rambo 1 256\nadd 9 2 a g6 g7 g8 s o8 i9,0 !8\nfix 6 0 1 a s h8 h9 o2 i9,2 !2\nconst 6 0\none 6\ndead 6\nfix 7 0 1 a h9 o2 i9,2 !2\nconst 7 0\none 7\ndead 7\nhit 8 0 0 1101\nhit 8 0 1 1001\nhit 8 1 0 1011\nhit 8 1 1 1001\nhit 9 0 0 1101\nhit 9 0 1 1001\nhit 9 1 0 1101\nhit 9 1 1 1100\nhit 9 2 0 1101\nhit 9 2 1 0101\nend\n";

/// 2 is a Not of One, which is observed.
pub const ZERO_ROW: &str = ".model r6\n.inputs\n.outputs z\n.names z\n0\n.end\n";

/// The model of a text, which is within all limits.
pub fn read(alloc: Global, text: &str) -> Result<RankedModel, Fail>
    ensures formed { IfOk result (λ m. IsWellFormed m) }
    ensures ranked { IfOk result (λ m. first_without_rank m ≡ None) }
    ensures covers { IfOk result (λ m. length m.covers < 2 ^ 32) }
    ensures sources { IfOk result (λ m. length (source_names m) ≤ 1024) }
    ensures observed { IfOk result (λ m. length (observed_names m) ≤ 4096) }
    ensures few { IfOk result (λ m. decomposed m ≤ 65536) }
{
    ranks_exist();
    wires_are_bounded();
    if text.len() > 1_000 {
        return Err("too long".into());
    }
    let Ok(model) = read_model(alloc, NameKeys::Ordered, text.as_bytes()) else {
        return Err("no model".into());
    };
    if !is_well_formed(alloc, NameKeys::Ordered, model.model())? {
        return Err("not well formed".into());
    }
    if !is_small(alloc, NameKeys::Ordered, model.model())? {
        return Err("too large".into());
    }
    let Ok(_ranks) = rank(alloc, NameKeys::Ordered, model.model()) else {
        return Err("no rank".into());
    };
    let Ok(_graph) = decompose(alloc, &model) else {
        return Err("too many pins".into());
    };
    Ok(model)
}

/// The text with a part replaced.
pub fn replace_part(alloc: Global, text: &str, old: &str, new: &str) -> Result<String, Fail> {
    let at = text.find(old).ok_or("no such part")?;
    let mut made = String::from_str(alloc, &text[..at])?;
    made.push_str(new)?;
    made.push_str(&text[at + old.len()..])?;
    Ok(made)
}
