// A model whose signals are numbered and whose covers are ranked, once and for all who need it.
ghost use Rattle.std.specs.Prelude.{◌≡◌, ◌<◌, ◌+◌, ◌^◌, length, map, IfErr, IfOk, None, OnOk, Some};
ghost use Rattle.rm_model.specs.RankFaults.{IsRefused};
ghost use Rattle.rm_model.specs.Ranks.{first_without_rank, ranks_of};
ghost use Rattle.rm_model.specs.Signals.{AreNumbers};
ghost use Rattle.rm_model.specs.Value.{source_names};
ghost use Rattle.rm_model.specs.WellFormed.{IsWellFormed};

use crate::name_keys::NameKeys;
use crate::numbering::{Numbering, number};
use crate::parts::Model as Netlist;
use crate::ranking::{RankFault, rank_numbered};
use std::alloc::Global;
use std::marker::Model;

/// A model with the numbers of its signals and the ranks of its covers. Contracts see the model.
#[derive(Drop)]
pub struct RankedModel {
    model: Netlist,
    numbering: Numbering,
    ranks: Vec<u32>,
}

impl Model for RankedModel {
    ghost use Rattle.rm_model.specs.declared.parts.Model.{Model as ModelValue};

    ghost Value = { ModelValue };

    ghost use Rattle.rm_model.specs.Inner.RankedInside.{IsRankedInside};

    ghost view = { λ r. r.model };

    ghost invariant = { IsRankedInside };
}

impl RankedModel {
    /// Numbers and ranks a model, or says which cover has no rank.
    pub fn new(alloc: Global, keys: NameKeys, model: Netlist) -> Result<RankedModel, RankFault>
        requires formed { IsWellFormed model }
        requires room { length (source_names model) + length model.covers < 2 ^ 32 }
        ensures same { IfOk result (λ ranked. ranked ≡ model) }
        ensures ranked { OnOk result (first_without_rank model ≡ None) }
        ensures refused { IfErr result (λ fault. IsRefused (first_without_rank model) fault) }
    {
        let numbering = number(alloc, keys, &model)?;
        let ranks = rank_numbered(alloc, &model, &numbering)?;
        Ok(RankedModel {
            model,
            numbering,
            ranks,
        })
    }

    pub fn model(&self) -> &Netlist
        ensures { result.now ≡ self.now }
    {
        &self.model
    }

    /// The numbers of the model's signals.
    pub fn numbering(&self) -> &Numbering
        ensures numbers { AreNumbers self.now (map (λ ks. ks.items) result.now.inputs.items) result.now.observed.items }
        ensures sources { result.now.sources ≡ length (source_names self.now) }
    {
        &self.numbering
    }

    /// The rank of each cover, in the order of the model: 0 where it reads sources alone, and otherwise one more than the
    /// greatest rank of the covers that it reads.
    pub fn ranks(&self) -> &[u32]
        ensures { map Some result.now ≡ ranks_of self.now }
    {
        self.ranks.as_slice()
    }
}
