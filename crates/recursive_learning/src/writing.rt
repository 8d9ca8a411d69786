// Writing the tree of facts that lead to a clash: what is learned is shown by a split, the opposite value first.
ghost use Rattle.std.specs.Prelude.{◌≡◌, ◌<◌, ◌≤◌, IfOk, IsTrue, None, OnOk, false, length, map, not, suc, true, ℕ};
ghost use Rattle.gate_net.specs.Net.{IsLive};
ghost use Rattle.gate_graph.specs.Circuit.{net_of};
ghost use Rattle.refutation.specs.Facts.{known_good};
ghost use Rattle.refutation.specs.FactSets.{held_by, missing};
ghost use Rattle.refutation.specs.Learning.{LeadsToClash};
ghost use Rattle.implications.specs.Bases.{IsListed};
ghost use Rattle.recursive_learning.specs.Inner.Holding.{HasGoods};
ghost use Rattle.recursive_learning.specs.Inner.JustifiedValues.{IsJustified};
ghost use Rattle.recursive_learning.specs.Inner.Telling.{Ends, IsTold};
ghost use Rattle.recursive_learning.specs.Watching.{HasRoom, LeavesList};
ghost use Rattle.recursive_learning.specs.Inner.Watching.{IsBlank};
ghost use Rattle.recursive_learning.specs.Inner.Writing.{CaseClashes, CasesClash, IsPassed, IsWritten, OppositeClashes};
ghost use Rattle.recursive_learning.specs.Inner.Working.{AreSettled, Keeps};

use crate::justified_values::{Choice, GoodValue, JustifiedValues};
use crate::learning::justified_at;
use crate::telling::tell;
use crate::watch::Watch;
use gate_graph::Question;
use implications::Engine;
use refutation::pins::{Aspect, known_of};
use refutation::{Fact, FactSet, Item, TreeBuilder};
use rm_base::{NoMemory, NodeId};

/// Writes a closed tree for settled facts that lead to a clash at the depth.
#[cycle(writing)]
pub fn write(
    engine: &mut Engine,
    question: &Question<'_>,
    facts: &mut FactSet,
    watch: &mut Watch,
    depth: u8,
    tree: &mut TreeBuilder,
) -> Result<(), NoMemory>
    requires numbers { length (net_of question.now.graph.now).nodes ≤ engine.old.numbers }
    requires size { length (net_of question.now.graph.now).nodes ≤ length facts.old }
    requires settled { AreSettled (net_of question.now.graph.now) question.now.fault (held_by facts.old) }
    requires room { HasRoom (net_of question.now.graph.now) watch.old }
    requires goods { HasGoods watch.old engine.old facts.old }
    requires blank { IsBlank watch.old }
    requires clash { LeadsToClash (net_of question.now.graph.now) question.now.fault depth (held_by facts.old) }
    ensures ends { OnOk result (Ends (net_of question.now.graph.now) question.now.fault (held_by facts.old) tree.old tree.new) }
    ensures keeps { OnOk result (Keeps engine.old engine.new facts.old facts.new) }
    ensures leaves { OnOk result (LeavesList watch.old watch.new) }
{
    let _mark = engine.mark();
    if depth == 0 {
        return Ok(());
    }
    while !write_pass(engine, question, facts, watch, depth - 1, tree)? {}
    Ok(())
}

// Writes what each gate whose good value is held implies, once; whether that ends the branch.
#[cycle(writing)]
fn write_pass(
    engine: &mut Engine,
    question: &Question<'_>,
    facts: &mut FactSet,
    watch: &mut Watch,
    depth: u8,
    tree: &mut TreeBuilder,
) -> Result<bool, NoMemory>
    requires numbers { length (net_of question.now.graph.now).nodes ≤ engine.old.numbers }
    requires size { length (net_of question.now.graph.now).nodes ≤ length facts.old }
    requires settled { AreSettled (net_of question.now.graph.now) question.now.fault (held_by facts.old) }
    requires room { HasRoom (net_of question.now.graph.now) watch.old }
    requires goods { HasGoods watch.old engine.old facts.old }
    requires blank { IsBlank watch.old }
    requires clash { LeadsToClash (net_of question.now.graph.now) question.now.fault (suc depth) (held_by facts.old) }
    ensures told { IfOk result (λ ended. IsTold (net_of question.now.graph.now) question.now.fault (held_by facts.old) tree.old ended (held_by facts.new) tree.new) }
    ensures fewer { IfOk result (λ ended. ended ≡ false → missing facts.new < missing facts.old) }
    ensures keeps { IfOk result (λ _. Keeps engine.old engine.new facts.old facts.new) }
    ensures leaves { OnOk result (LeavesList watch.old watch.new) }
{
    let gates = watch.good_nodes(engine.added_facts(0))?;
    let ended = write_each(engine, question, facts, watch, depth, &gates, tree)?;
    Ok(ended)
}

/// Writes what each of the gates implies, in order; whether that ends the branch.
#[cycle(writing)]
pub fn write_each(
    engine: &mut Engine,
    question: &Question<'_>,
    facts: &mut FactSet,
    watch: &mut Watch,
    depth: u8,
    gates: &[NodeId],
    tree: &mut TreeBuilder,
) -> Result<bool, NoMemory>
    requires numbers { length (net_of question.now.graph.now).nodes ≤ engine.old.numbers }
    requires size { length (net_of question.now.graph.now).nodes ≤ length facts.old }
    requires settled { AreSettled (net_of question.now.graph.now) question.now.fault (held_by facts.old) }
    requires room { HasRoom (net_of question.now.graph.now) watch.old }
    requires goods { HasGoods watch.old engine.old facts.old }
    requires blank { IsBlank watch.old }
    ensures told { IfOk result (λ ended. IsTold (net_of question.now.graph.now) question.now.fault (held_by facts.old) tree.old ended (held_by facts.new) tree.new) }
    ensures passed { IfOk result (λ ended. ended ≡ false → IsPassed (net_of question.now.graph.now) question.now.fault depth (IsListed gates.now) facts.old facts.new) }
    ensures keeps { IfOk result (λ _. Keeps engine.old engine.new facts.old facts.new) }
    ensures leaves { OnOk result (LeavesList watch.old watch.new) }
{
    let _mark = engine.mark();
    for gate in gates {
        if write_gate(engine, question, facts, watch, depth, *gate, tree)? {
            return Ok(true);
        }
    }
    Ok(false)
}

// Writes what one gate implies; whether that ends the branch.
#[cycle(writing)]
fn write_gate(
    engine: &mut Engine,
    question: &Question<'_>,
    facts: &mut FactSet,
    watch: &mut Watch,
    depth: u8,
    gate: NodeId,
    tree: &mut TreeBuilder,
) -> Result<bool, NoMemory>
    requires numbers { length (net_of question.now.graph.now).nodes ≤ engine.old.numbers }
    requires size { length (net_of question.now.graph.now).nodes ≤ length facts.old }
    requires settled { AreSettled (net_of question.now.graph.now) question.now.fault (held_by facts.old) }
    requires room { HasRoom (net_of question.now.graph.now) watch.old }
    requires goods { HasGoods watch.old engine.old facts.old }
    requires blank { IsBlank watch.old }
    ensures written { IfOk result (λ ended. IsWritten (net_of question.now.graph.now) question.now.fault depth gate.0 facts.old tree.old ended facts.new tree.new) }
    ensures keeps { IfOk result (λ _. Keeps engine.old engine.new facts.old facts.new) }
    ensures leaves { OnOk result (LeavesList watch.old watch.new) }
{
    let _mark = engine.mark();
    let Some(justified) = justified_at(engine, question, facts, watch, depth, gate)? else {
        return Ok(false);
    };
    if justified.found {
        let ended = write_goods(engine, question, facts, watch, depth, &justified, tree)?;
        return Ok(ended);
    }
    write_cases(
        engine,
        question,
        facts,
        watch,
        depth,
        &Choice {
            value: justified.value,
            drivers: &justified.drivers,
        },
        tree,
    )?;
    Ok(true)
}

// Writes each value that a gate implies; whether that ends the branch.
#[cycle(writing)]
fn write_goods(
    engine: &mut Engine,
    question: &Question<'_>,
    facts: &mut FactSet,
    watch: &mut Watch,
    depth: u8,
    justified: &JustifiedValues,
    tree: &mut TreeBuilder,
) -> Result<bool, NoMemory>
    requires numbers { length (net_of question.now.graph.now).nodes ≤ engine.old.numbers }
    requires size { length (net_of question.now.graph.now).nodes ≤ length facts.old }
    requires settled { AreSettled (net_of question.now.graph.now) question.now.fault (held_by facts.old) }
    requires room { HasRoom (net_of question.now.graph.now) watch.old }
    requires goods { HasGoods watch.old engine.old facts.old }
    requires blank { IsBlank watch.old }
    requires justified { (y : ℕ) × IsJustified (net_of question.now.graph.now) question.now.fault depth (held_by facts.old) y justified.now.value (map (λ n. n.0) justified.now.drivers.items) justified.now.found justified.now.goods.items }
    requires found { justified.now.found ≡ true }
    ensures told { IfOk result (λ ended. IsTold (net_of question.now.graph.now) question.now.fault (held_by facts.old) tree.old ended (held_by facts.new) tree.new) }
    ensures fewer { IfOk result (λ ended. ended ≡ false → missing facts.new < missing facts.old) }
    ensures keeps { IfOk result (λ _. Keeps engine.old engine.new facts.old facts.new) }
    ensures leaves { OnOk result (LeavesList watch.old watch.new) }
{
    let _mark = engine.mark();
    for good in &justified.goods {
        if write_good(
            engine,
            question,
            facts,
            watch,
            depth,
            &Choice {
                value: justified.value,
                drivers: &justified.drivers,
            },
            *good,
            tree,
        )? {
            return Ok(true);
        }
    }
    Ok(false)
}

// Writes one value that a gate implies; whether that ends the branch.
#[cycle(writing)]
fn write_good(
    engine: &mut Engine,
    question: &Question<'_>,
    facts: &mut FactSet,
    watch: &mut Watch,
    depth: u8,
    choice: &Choice<'_>,
    good: GoodValue,
    tree: &mut TreeBuilder,
) -> Result<bool, NoMemory>
    requires numbers { length (net_of question.now.graph.now).nodes ≤ engine.old.numbers }
    requires size { length (net_of question.now.graph.now).nodes ≤ length facts.old }
    requires settled { AreSettled (net_of question.now.graph.now) question.now.fault (held_by facts.old) }
    requires room { HasRoom (net_of question.now.graph.now) watch.old }
    requires goods { HasGoods watch.old engine.old facts.old }
    requires blank { IsBlank watch.old }
    requires node { IsLive (net_of question.now.graph.now) good.node.0 }
    requires cases { OppositeClashes (net_of question.now.graph.now) question.now.fault depth (held_by facts.old) choice.now.value (map (λ n. n.0) choice.now.drivers.now) good.node.0 good.value }
    ensures told { IfOk result (λ ended. IsTold (net_of question.now.graph.now) question.now.fault (held_by facts.old) tree.old ended (held_by facts.new) tree.new) }
    ensures less { IfOk result (λ ended. ended ≡ false → missing facts.new ≤ missing facts.old) }
    ensures fewer { IfOk result (λ ended. ended ≡ false → known_good (held_by facts.old) good.node.0 ≡ None → missing facts.new < missing facts.old) }
    ensures keeps { IfOk result (λ _. Keeps engine.old engine.new facts.old facts.new) }
    ensures leaves { OnOk result (LeavesList watch.old watch.new) }
{
    question.graph.well_formed();
    if let Some(known_value) = known_of(facts, Aspect::OfGood, good.node) {
        if known_value == good.value {
            let _mark = engine.mark();
            return Ok(false);
        }
        write_cases(engine, question, facts, watch, depth, choice, tree)?;
        return Ok(true);
    }
    write_split(engine, question, facts, watch, depth, choice, good, tree)
}

// Writes a split on a value that a gate implies, the opposite first; whether the second branch has ended too.
#[cycle(writing)]
fn write_split(
    engine: &mut Engine,
    question: &Question<'_>,
    facts: &mut FactSet,
    watch: &mut Watch,
    depth: u8,
    choice: &Choice<'_>,
    good: GoodValue,
    tree: &mut TreeBuilder,
) -> Result<bool, NoMemory>
    requires numbers { length (net_of question.now.graph.now).nodes ≤ engine.old.numbers }
    requires size { length (net_of question.now.graph.now).nodes ≤ length facts.old }
    requires settled { AreSettled (net_of question.now.graph.now) question.now.fault (held_by facts.old) }
    requires room { HasRoom (net_of question.now.graph.now) watch.old }
    requires goods { HasGoods watch.old engine.old facts.old }
    requires blank { IsBlank watch.old }
    requires node { IsLive (net_of question.now.graph.now) good.node.0 }
    requires unknown { known_good (held_by facts.old) good.node.0 ≡ None }
    requires cases { OppositeClashes (net_of question.now.graph.now) question.now.fault depth (held_by facts.old) choice.now.value (map (λ n. n.0) choice.now.drivers.now) good.node.0 good.value }
    ensures told { IfOk result (λ ended. IsTold (net_of question.now.graph.now) question.now.fault (held_by facts.old) tree.old ended (held_by facts.new) tree.new) }
    ensures fewer { IfOk result (λ ended. ended ≡ false → missing facts.new < missing facts.old) }
    ensures keeps { IfOk result (λ _. Keeps engine.old engine.new facts.old facts.new) }
    ensures leaves { OnOk result (LeavesList watch.old watch.new) }
{
    let mark = engine.mark();
    tree.push(Item::Split {
        node: good.node,
        first: !good.value,
    })?;
    if !tell(engine, question, facts, good.node, !good.value, tree)? {
        write_cases(engine, question, facts, watch, depth, choice, tree)?;
    }
    engine.take_back(facts, mark);
    let ended = tell(engine, question, facts, good.node, good.value, tree)?;
    Ok(ended)
}

// Writes the cases of a gate, whose open drivers are among these: taking any of them for the value leads to a clash.
#[cycle(writing)]
fn write_cases(
    engine: &mut Engine,
    question: &Question<'_>,
    facts: &mut FactSet,
    watch: &mut Watch,
    depth: u8,
    choice: &Choice<'_>,
    tree: &mut TreeBuilder,
) -> Result<(), NoMemory>
    requires numbers { length (net_of question.now.graph.now).nodes ≤ engine.old.numbers }
    requires size { length (net_of question.now.graph.now).nodes ≤ length facts.old }
    requires settled { AreSettled (net_of question.now.graph.now) question.now.fault (held_by facts.old) }
    requires room { HasRoom (net_of question.now.graph.now) watch.old }
    requires goods { HasGoods watch.old engine.old facts.old }
    requires blank { IsBlank watch.old }
    requires cases { CasesClash (net_of question.now.graph.now) question.now.fault depth (held_by facts.old) choice.now.value (map (λ n. n.0) choice.now.drivers.now) }
    ensures ends { OnOk result (Ends (net_of question.now.graph.now) question.now.fault (held_by facts.old) tree.old tree.new) }
    ensures keeps { OnOk result (Keeps engine.old engine.new facts.old facts.new) }
    ensures leaves { OnOk result (LeavesList watch.old watch.new) }
{
    question.graph.well_formed();
    let _mark = engine.mark();
    for driver in choice.drivers {
        if write_case(
            engine,
            question,
            facts,
            watch,
            depth,
            GoodValue {
                node: *driver,
                value: choice.value,
            },
            tree,
        )? {
            return Ok(());
        }
    }
    Ok(())
}

// Writes what taking a driver for the value comes to, and goes on with the opposite; whether that ends the branch too.
#[cycle(writing)]
fn write_case(
    engine: &mut Engine,
    question: &Question<'_>,
    facts: &mut FactSet,
    watch: &mut Watch,
    depth: u8,
    assumed: GoodValue,
    tree: &mut TreeBuilder,
) -> Result<bool, NoMemory>
    requires numbers { length (net_of question.now.graph.now).nodes ≤ engine.old.numbers }
    requires size { length (net_of question.now.graph.now).nodes ≤ length facts.old }
    requires settled { AreSettled (net_of question.now.graph.now) question.now.fault (held_by facts.old) }
    requires room { HasRoom (net_of question.now.graph.now) watch.old }
    requires goods { HasGoods watch.old engine.old facts.old }
    requires blank { IsBlank watch.old }
    requires node { IsLive (net_of question.now.graph.now) assumed.node.0 }
    requires clash { CaseClashes (net_of question.now.graph.now) question.now.fault depth (held_by facts.old) assumed.value assumed.node.0 }
    ensures told { IfOk result (λ ended. IsTold (net_of question.now.graph.now) question.now.fault (held_by facts.old) tree.old ended (held_by facts.new) tree.new) }
    ensures other { IfOk result (λ ended. ended ≡ false → IsTrue (held_by facts.new assumed.node.0 (Fact.Good (not assumed.value)))) }
    ensures keeps { IfOk result (λ _. Keeps engine.old engine.new facts.old facts.new) }
    ensures leaves { OnOk result (LeavesList watch.old watch.new) }
{
    question.graph.well_formed();
    if let Some(known_value) = known_of(facts, Aspect::OfGood, assumed.node) {
        if known_value == assumed.value {
            write(engine, question, facts, watch, depth, tree)?;
            return Ok(true);
        }
        let _mark = engine.mark();
        return Ok(false);
    }
    write_branches(engine, question, facts, watch, depth, assumed, tree)
}

// Writes a split on a driver, with the value first; whether the second branch has ended too.
#[cycle(writing)]
fn write_branches(
    engine: &mut Engine,
    question: &Question<'_>,
    facts: &mut FactSet,
    watch: &mut Watch,
    depth: u8,
    assumed: GoodValue,
    tree: &mut TreeBuilder,
) -> Result<bool, NoMemory>
    requires numbers { length (net_of question.now.graph.now).nodes ≤ engine.old.numbers }
    requires size { length (net_of question.now.graph.now).nodes ≤ length facts.old }
    requires settled { AreSettled (net_of question.now.graph.now) question.now.fault (held_by facts.old) }
    requires room { HasRoom (net_of question.now.graph.now) watch.old }
    requires goods { HasGoods watch.old engine.old facts.old }
    requires blank { IsBlank watch.old }
    requires node { IsLive (net_of question.now.graph.now) assumed.node.0 }
    requires unknown { known_good (held_by facts.old) assumed.node.0 ≡ None }
    requires clash { CaseClashes (net_of question.now.graph.now) question.now.fault depth (held_by facts.old) assumed.value assumed.node.0 }
    ensures told { IfOk result (λ ended. IsTold (net_of question.now.graph.now) question.now.fault (held_by facts.old) tree.old ended (held_by facts.new) tree.new) }
    ensures other { IfOk result (λ ended. ended ≡ false → IsTrue (held_by facts.new assumed.node.0 (Fact.Good (not assumed.value)))) }
    ensures keeps { IfOk result (λ _. Keeps engine.old engine.new facts.old facts.new) }
    ensures leaves { OnOk result (LeavesList watch.old watch.new) }
{
    let mark = engine.mark();
    tree.push(Item::Split {
        node: assumed.node,
        first: assumed.value,
    })?;
    if !tell(engine, question, facts, assumed.node, assumed.value, tree)? {
        write(engine, question, facts, watch, depth, tree)?;
    }
    engine.take_back(facts, mark);
    let ended = tell(engine, question, facts, assumed.node, !assumed.value, tree)?;
    Ok(ended)
}
