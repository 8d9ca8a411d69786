// What justifications have in common.
ghost use Rattle.std.specs.Prelude.{◌≡◌, IfOk, true};
ghost use Rattle.refutation.specs.FactSets.{held_by};
ghost use Rattle.recursive_learning.specs.Inner.Common.{AreGoodsOf, AreHeldAmong, IsKnownGood, Meets};

use refutation::pins::{Aspect, known_of};
use refutation::{Fact, FactSet};
use rm_base::{NoMemory, NodeId};
use std::alloc::Global;

/// A good value of a node.
#[derive(Clone, Copy, Debug, PartialEq, Eq)]
pub struct GoodValue {
    pub node: NodeId,
    pub value: bool,
}

/// What a look at one gate, or at all, came to.
#[derive(Clone, Copy, Debug, PartialEq, Eq)]
pub enum Round {
    /// The facts lead to a clash.
    Clash,
    /// There are more facts.
    Gained,
    /// Nothing new.
    Quiet,
}

/// Whether some justification that was looked at didn't clash, and the new good values that all of those led to.
#[derive(Debug, Drop)]
pub struct Common {
    pub found: bool,
    pub goods: Vec<GoodValue>,
}

/// The good value that a gate has, and the open drivers of which one has to give it.
#[derive(Clone, Copy)]
pub struct Choice<'a> {
    pub value: bool,
    pub drivers: &'a [NodeId],
}

/// What a gate implies: the value that one of its open drivers has, and what all of them lead to; nothing was found
/// where all lead to a clash.
#[derive(Debug, Drop)]
pub struct JustifiedValues {
    pub value: bool,
    pub drivers: Vec<NodeId>,
    pub found: bool,
    pub goods: Vec<GoodValue>,
}

// Whether the node is known to have that good value.
fn is_good(facts: &FactSet, node: NodeId, value: bool) -> bool
    ensures { IsKnownGood (held_by facts.now) node.0 value result }
{
    if node.0 as usize >= facts.len() {
        return false;
    }
    match known_of(facts, Aspect::OfGood, node) {
        Some(good) => good == value,
        None => false,
    }
}

// The good values among added facts that are held.
fn goods_among(
    alloc: Global,
    added: &[(NodeId, Fact)],
    facts: &FactSet,
) -> Result<Vec<GoodValue>, NoMemory>
    ensures { IfOk result (λ v. AreGoodsOf added.now (held_by facts.now) v.items) }
{
    let mut goods = Vec::new(alloc);
    for entry in added {
        let Fact::Good(value) = entry.1 else {
            continue;
        };
        if is_good(facts, entry.0, value) {
            goods.push(GoodValue {
                node: entry.0,
                value,
            })?;
        }
    }
    Ok(goods)
}

// Those of the values that are held.
fn held_among(
    alloc: Global,
    goods: &[GoodValue],
    facts: &FactSet,
) -> Result<Vec<GoodValue>, NoMemory>
    ensures { IfOk result (λ v. AreHeldAmong goods.now (held_by facts.now) v.items) }
{
    let mut kept = Vec::new(alloc);
    for good in goods {
        if is_good(facts, good.node, good.value) {
            kept.push(*good)?;
        }
    }
    Ok(kept)
}

/// What the justifications looked at before have in common with one more, under which these facts are held.
pub fn meet_justified(
    alloc: Global,
    before: &Common,
    added: &[(NodeId, Fact)],
    facts: &FactSet,
) -> Result<Common, NoMemory>
    ensures found { IfOk result (λ r. r.found ≡ true) }
    ensures goods { IfOk result (λ r. Meets before.now.found before.now.goods.items added.now (held_by facts.now) r.goods.items) }
{
    let goods = if before.found {
        held_among(alloc, &before.goods, facts)?
    } else {
        goods_among(alloc, added, facts)?
    };
    Ok(Common { found: true, goods })
}
