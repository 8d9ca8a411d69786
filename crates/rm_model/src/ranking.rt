// The rank of each cover of a model.
ghost use Rattle.std.specs.Prelude.{◌≡◌, ◌^◌, ◌<◌, length, map, position, IfOk, IfErr, Some, Option, true, is_none, IfSome};
ghost use Rattle.rm_model.specs.Ranks.{first_without_rank, ranks_of, AreRanks};
ghost use Rattle.rm_model.specs.RankFaults.{IsRefused};
ghost use Rattle.rm_model.specs.declared.ranking.RankFault.TheVariants.{NoMemory};
ghost use Rattle.rm_model.specs.Inner.Search.{IsSound};
ghost use Rattle.rm_model.specs.Inner.SearchView.{state_of};
ghost use Rattle.rm_model.specs.Inner.Numbers.{drivers_of, IsFixed};
ghost use Rattle.rm_model.specs.Signals.{AreNumbers};
ghost use Rattle.rm_model.specs.Value.{source_names};
ghost use Rattle.rm_model.specs.WellFormed.{is_distinct, IsWellFormed};

use crate::drivers::drivers;
use crate::name_keys::NameKeys;
use crate::numbering::{Numbering, covers_read};
use crate::parts::{Cover, Model};
use crate::rank_search::{Search, find_ranks};
use rm_base::NoMemory;
use std::alloc::{AllocError, AllocFailed, Global};
use std::error::Error;
use std::fmt;

/// Why a model's covers have no ranks.
#[derive(Clone, Copy, Debug, PartialEq, Eq)]
pub enum RankFault {
    /// The first cover, by its place in the model, that stands on a cycle or reads one that does.
    NoRank { cover: u32 },
    NoMemory,
}

impl fmt::Display for RankFault {
    fn fmt<W: fmt::Write>(&self, f: &mut fmt::Formatter<W>) -> fmt::Result {
        match self {
            RankFault::NoRank { cover } => write!(
                f,
                "cover {cover} stands on a cycle, or behind one"
            ),
            RankFault::NoMemory => f.write_str("out of memory"),
        }
    }
}

impl Error for RankFault {}

impl From<NoMemory> for RankFault {
    ghost from_gives = { λ _ e. e ≡ NoMemory };

    fn from(_: NoMemory) -> Self {
        RankFault::NoMemory
    }
}

impl From<AllocError> for RankFault {
    ghost from_gives = { λ _ e. e ≡ NoMemory };

    fn from(_: AllocError) -> Self {
        RankFault::NoMemory
    }
}

impl<T: Drop> From<AllocFailed<T>> for RankFault {
    ghost from_gives = { λ _ e. e ≡ NoMemory };

    fn from(_: AllocFailed<T>) -> Self {
        RankFault::NoMemory
    }
}

fn all_ranks(alloc: Global, ranks: &[Option<u32>]) -> Result<Vec<u32>, RankFault>
    requires { length ranks.now < 2 ^ 32 }
    ensures ranks { IfOk result (λ all. map Some all.items ≡ ranks.now) }
    ensures refused { IfErr result (λ fault. IsRefused (position is_none ranks.now) fault) }
{
    let mut all = Vec::new(alloc);
    for (place, rank) in ranks.iter().enumerate() {
        match rank {
            Some(rank) => all.push(*rank)?,
            None => {
                return Err(RankFault::NoRank {
                    cover: place as u32,
                });
            }
        }
    }
    Ok(all)
}

/// The first place without a rank.
pub fn first_missing(ranks: &[Option<u32>]) -> Option<usize>
    ensures first { result ≡ position is_none ranks.now }
    ensures within { IfSome result (λ place. place < length ranks.now) }
{
    ranks.iter().position(|rank| rank.is_none())
}

/// The search's result for the covers of a model.
pub fn search_covers(alloc: Global, keys: NameKeys, covers: &[Cover]) -> Result<Search, NoMemory>
    requires once { is_distinct (map (λ c. c.output) covers.now) ≡ true }
    requires room { length covers.now < 2 ^ 32 }
    ensures sound { IfOk result (λ s. IsSound (map (drivers_of covers.now) covers.now) (state_of s)) }
    ensures ranks { IfOk result (λ s. IsFixed covers.now s.ranks.items) }
{
    let lists = drivers(alloc, keys, covers)?;
    find_ranks(alloc, lists.as_slice())
}

/// The rank of each cover, in the order of the model: 0 where it reads sources alone, and otherwise
/// one more than the greatest rank of the covers that it reads. It takes time linear in the model,
/// but for the look-ups of names.
pub fn rank(alloc: Global, keys: NameKeys, model: &Model) -> Result<Vec<u32>, RankFault>
    requires well_formed { IsWellFormed model.now }
    requires covers { length model.now.covers < 2 ^ 32 }
    ensures ranks { IfOk result (λ ranks. map Some ranks.items ≡ ranks_of model.now) }
    ensures follow { IfOk result (λ ranks. AreRanks model.now (map Some ranks.items)) }
    ensures refused { IfErr result (λ fault. IsRefused (first_without_rank model.now) fault) }
{
    let found = search_covers(alloc, keys, model.covers.items())?;
    all_ranks(alloc, found.ranks.as_slice())
}

// The search's result for the covers of a model whose signals are numbered.
fn search_numbered(alloc: Global, model: &Model, numbering: &Numbering) -> Result<Search, NoMemory>
    requires once { IsWellFormed model.now }
    requires room { length model.now.covers < 2 ^ 32 }
    requires numbers { AreNumbers model.now (map (λ ks. ks.items) numbering.now.inputs.items) numbering.now.observed.items }
    requires sources { numbering.now.sources ≡ length (source_names model.now) }
    ensures { IfOk result (λ s. IsFixed model.now.covers s.ranks.items) }
{
    let lists = covers_read(alloc, numbering.sources, numbering.inputs.as_slice())?;
    find_ranks(alloc, lists.as_slice())
}

/// The ranks of a model's covers by the numbers of its signals, as `rank` gives them by names.
pub fn rank_numbered(
    alloc: Global,
    model: &Model,
    numbering: &Numbering,
) -> Result<Vec<u32>, RankFault>
    requires well_formed { IsWellFormed model.now }
    requires covers { length model.now.covers < 2 ^ 32 }
    requires numbers { AreNumbers model.now (map (λ ks. ks.items) numbering.now.inputs.items) numbering.now.observed.items }
    requires sources { numbering.now.sources ≡ length (source_names model.now) }
    ensures ranks { IfOk result (λ ranks. map Some ranks.items ≡ ranks_of model.now) }
    ensures refused { IfErr result (λ fault. IsRefused (first_without_rank model.now) fault) }
{
    let found = search_numbered(alloc, model, numbering)?;
    all_ranks(alloc, found.ranks.as_slice())
}
