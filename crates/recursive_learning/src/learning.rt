// Learning from the justifications of gates, in place.
ghost use Rattle.std.specs.Prelude.{◌≡◌, ◌≢◌, ◌<◌, ◌≤◌, ◌⊎◌, ℕ, [], IfOk, None, OnOk, Some, false, length, map, suc, true};
ghost use Rattle.gate_net.specs.Net.{IsLive};
ghost use Rattle.gate_graph.specs.Circuit.{net_of};
ghost use Rattle.refutation.specs.Facts.{known_good, with_fact};
ghost use Rattle.refutation.specs.FactSets.{held_by};
ghost use Rattle.implications.specs.Bases.{IsListed};
ghost use Rattle.recursive_learning.specs.Inner.Holding.{HasGoods};
ghost use Rattle.recursive_learning.specs.Inner.JustifiedValues.{AreFound, AreOpen, HasLooked, IsEach, IsOne, IsRound, MeetsOneMore, Teaches};
ghost use Rattle.recursive_learning.specs.Watching.{HasRoom, LeavesList};
ghost use Rattle.recursive_learning.specs.Inner.Watching.{HasNoneListed, IsCovered, IsKnown, IsWatching, Lengthens, NotesRegion, StaysKnown, StaysTaught, looks_left};
ghost use Rattle.recursive_learning.specs.Inner.Working.{AreSettled, IsLearned, Keeps};
ghost use Rattle.recursive_learning.specs.declared.justified_values.Round.TheVariants.{Clash, Gained, Quiet};

use crate::adding::{add, gain};
use crate::gates::{open_drivers, wanted_value};
use crate::justified_values::{Choice, Common, GoodValue, JustifiedValues, Round, meet_justified};
use crate::turning::{is_clash, together};
use crate::watch::Watch;
use gate_graph::Question;
use implications::Engine;
use implications::laws::lines_are_local;
use refutation::{Fact, FactSet};
use rm_base::{NoMemory, NodeId};

/// Closes settled facts at the depth, which is 1 at least; whether that is a clash. A gate is looked at where something
/// changed on which what is known of it rests. Where there is no clash, the watch tells that of the closed facts.
#[cycle(learning)]
pub fn learn(
    engine: &mut Engine,
    question: &Question<'_>,
    facts: &mut FactSet,
    watch: &mut Watch,
    depth: u8,
) -> Result<bool, NoMemory>
    requires numbers { length (net_of question.now.graph.now).nodes ≤ engine.old.numbers }
    requires size { length (net_of question.now.graph.now).nodes ≤ length facts.old }
    requires settled { AreSettled (net_of question.now.graph.now) question.now.fault (held_by facts.old) }
    requires room { HasRoom (net_of question.now.graph.now) watch.old }
    requires goods { HasGoods watch.old engine.old facts.old }
    requires watching { IsWatching (net_of question.now.graph.now) question.now.fault (held_by facts.old) watch.old }
    requires deep { 0 < depth }
    ensures learned { IfOk result (λ clash. IsLearned (net_of question.now.graph.now) question.now.fault depth (held_by facts.old) clash (held_by facts.new)) }
    ensures keeps { IfOk result (λ _. Keeps engine.old engine.new facts.old facts.new) }
    ensures lengthens { OnOk result (Lengthens watch.old watch.new) }
    ensures watching { IfOk result (λ clash. clash ≡ false → IsWatching (net_of question.now.graph.now) question.now.fault (held_by facts.new) watch.new) }
    ensures none { IfOk result (λ clash. clash ≡ false → HasNoneListed watch.new) }
{
    if depth == 1 {
        return learn_one(engine, question, facts, watch);
    }
    learn_deeper(engine, question, facts, watch, depth)
}

// Closes at depth 1: looks at the gates that are listed, until none is.
#[cycle(learning)]
fn learn_one(
    engine: &mut Engine,
    question: &Question<'_>,
    facts: &mut FactSet,
    watch: &mut Watch,
) -> Result<bool, NoMemory>
    requires numbers { length (net_of question.now.graph.now).nodes ≤ engine.old.numbers }
    requires size { length (net_of question.now.graph.now).nodes ≤ length facts.old }
    requires settled { AreSettled (net_of question.now.graph.now) question.now.fault (held_by facts.old) }
    requires room { HasRoom (net_of question.now.graph.now) watch.old }
    requires goods { HasGoods watch.old engine.old facts.old }
    requires watching { IsWatching (net_of question.now.graph.now) question.now.fault (held_by facts.old) watch.old }
    ensures learned { IfOk result (λ clash. IsLearned (net_of question.now.graph.now) question.now.fault 1 (held_by facts.old) clash (held_by facts.new)) }
    ensures keeps { IfOk result (λ _. Keeps engine.old engine.new facts.old facts.new) }
    ensures lengthens { OnOk result (Lengthens watch.old watch.new) }
    ensures watching { IfOk result (λ clash. clash ≡ false → IsWatching (net_of question.now.graph.now) question.now.fault (held_by facts.new) watch.new) }
    ensures none { IfOk result (λ clash. clash ≡ false → HasNoneListed watch.new) }
{
    question.graph.well_formed();
    let _mark = engine.mark();
    watch.begin(engine.added_facts(0))?;
    while let Some(gate) = watch.take() {
        if look_at(engine, question, facts, watch, gate)? {
            return Ok(true);
        }
    }
    Ok(false)
}

// Looks at a gate that was taken off the list, and lists it again where it taught something; whether that is a clash.
#[cycle(learning)]
fn look_at(
    engine: &mut Engine,
    question: &Question<'_>,
    facts: &mut FactSet,
    watch: &mut Watch,
    gate: NodeId,
) -> Result<bool, NoMemory>
    requires numbers { length (net_of question.now.graph.now).nodes ≤ engine.old.numbers }
    requires size { length (net_of question.now.graph.now).nodes ≤ length facts.old }
    requires settled { AreSettled (net_of question.now.graph.now) question.now.fault (held_by facts.old) }
    requires room { HasRoom (net_of question.now.graph.now) watch.old }
    requires all { watch.old.all ≡ false }
    requires known { (y : ℕ) → (y ≡ gate.0) ⊎ IsKnown (net_of question.now.graph.now) question.now.fault (held_by facts.old) watch.old y }
    requires gate { gate.0 < length watch.old.listed }
    ensures looked { IfOk result (λ clash. HasLooked (net_of question.now.graph.now) question.now.fault (held_by facts.old) clash (held_by facts.new)) }
    ensures keeps { IfOk result (λ _. Keeps engine.old engine.new facts.old facts.new) }
    ensures lengthens { OnOk result (Lengthens watch.old watch.new) }
    ensures all { OnOk result (watch.new.all ≡ false) }
    ensures known { IfOk result (λ clash. clash ≡ false → (y : ℕ) → IsKnown (net_of question.now.graph.now) question.now.fault (held_by facts.new) watch.new y) }
    ensures less { IfOk result (λ clash. clash ≡ false → looks_left facts.new watch.new.listed ≤ looks_left facts.old watch.old.listed) }
{
    match visit(engine, question, facts, watch, 0, gate)? {
        Round::Clash => Ok(true),
        Round::Quiet => Ok(false),
        Round::Gained => {
            watch.list(gate);
            Ok(false)
        }
    }
}

// Closes at a depth of 2 at least: looks at the gates whose good values are held, until none implies anything.
#[cycle(learning)]
fn learn_deeper(
    engine: &mut Engine,
    question: &Question<'_>,
    facts: &mut FactSet,
    watch: &mut Watch,
    depth: u8,
) -> Result<bool, NoMemory>
    requires numbers { length (net_of question.now.graph.now).nodes ≤ engine.old.numbers }
    requires size { length (net_of question.now.graph.now).nodes ≤ length facts.old }
    requires settled { AreSettled (net_of question.now.graph.now) question.now.fault (held_by facts.old) }
    requires room { HasRoom (net_of question.now.graph.now) watch.old }
    requires goods { HasGoods watch.old engine.old facts.old }
    requires watching { IsWatching (net_of question.now.graph.now) question.now.fault (held_by facts.old) watch.old }
    requires deep { 1 < depth }
    ensures learned { IfOk result (λ clash. IsLearned (net_of question.now.graph.now) question.now.fault depth (held_by facts.old) clash (held_by facts.new)) }
    ensures keeps { IfOk result (λ _. Keeps engine.old engine.new facts.old facts.new) }
    ensures lengthens { OnOk result (Lengthens watch.old watch.new) }
    ensures watching { IfOk result (λ clash. clash ≡ false → IsWatching (net_of question.now.graph.now) question.now.fault (held_by facts.new) watch.new) }
    ensures none { IfOk result (λ clash. clash ≡ false → HasNoneListed watch.new) }
{
    let _mark = engine.mark();
    if learn(engine, question, facts, watch, depth - 1)? {
        return Ok(true);
    }
    loop {
        match visit_goods(engine, question, facts, watch, depth - 1)? {
            Round::Clash => return Ok(true),
            Round::Quiet => return Ok(false),
            Round::Gained => {}
        }
    }
}

// Learns once from each gate whose good value is held, with justifications closed at the depth.
#[cycle(learning)]
fn visit_goods(
    engine: &mut Engine,
    question: &Question<'_>,
    facts: &mut FactSet,
    watch: &mut Watch,
    depth: u8,
) -> Result<Round, NoMemory>
    requires numbers { length (net_of question.now.graph.now).nodes ≤ engine.old.numbers }
    requires size { length (net_of question.now.graph.now).nodes ≤ length facts.old }
    requires settled { AreSettled (net_of question.now.graph.now) question.now.fault (held_by facts.old) }
    requires room { HasRoom (net_of question.now.graph.now) watch.old }
    requires goods { HasGoods watch.old engine.old facts.old }
    requires watching { IsWatching (net_of question.now.graph.now) question.now.fault (held_by facts.old) watch.old }
    requires none { HasNoneListed watch.old }
    requires deep { 0 < depth }
    ensures round { IfOk result (λ round. IsRound (net_of question.now.graph.now) question.now.fault depth IsEach facts.old round facts.new) }
    ensures keeps { IfOk result (λ _. Keeps engine.old engine.new facts.old facts.new) }
    ensures lengthens { OnOk result (Lengthens watch.old watch.new) }
    ensures watching { IfOk result (λ round. round ≢ Clash → IsWatching (net_of question.now.graph.now) question.now.fault (held_by facts.new) watch.new) }
    ensures none { IfOk result (λ round. round ≢ Clash → HasNoneListed watch.new) }
{
    let gates = watch.good_nodes(engine.added_facts(0))?;
    let round = visit_each(engine, question, facts, watch, depth, &gates)?;
    Ok(round)
}

// Learns from one of the gates after another, once, with justifications closed at the depth.
#[cycle(learning)]
fn visit_each(
    engine: &mut Engine,
    question: &Question<'_>,
    facts: &mut FactSet,
    watch: &mut Watch,
    depth: u8,
    gates: &[NodeId],
) -> Result<Round, NoMemory>
    requires numbers { length (net_of question.now.graph.now).nodes ≤ engine.old.numbers }
    requires size { length (net_of question.now.graph.now).nodes ≤ length facts.old }
    requires settled { AreSettled (net_of question.now.graph.now) question.now.fault (held_by facts.old) }
    requires room { HasRoom (net_of question.now.graph.now) watch.old }
    requires goods { HasGoods watch.old engine.old facts.old }
    requires watching { IsWatching (net_of question.now.graph.now) question.now.fault (held_by facts.old) watch.old }
    requires none { HasNoneListed watch.old }
    requires deep { 0 < depth }
    ensures round { IfOk result (λ round. IsRound (net_of question.now.graph.now) question.now.fault depth (IsListed gates.now) facts.old round facts.new) }
    ensures keeps { IfOk result (λ _. Keeps engine.old engine.new facts.old facts.new) }
    ensures lengthens { OnOk result (Lengthens watch.old watch.new) }
    ensures watching { IfOk result (λ round. round ≢ Clash → IsWatching (net_of question.now.graph.now) question.now.fault (held_by facts.new) watch.new) }
    ensures none { IfOk result (λ round. round ≢ Clash → HasNoneListed watch.new) }
{
    let _mark = engine.mark();
    let mut all = Round::Quiet;
    for gate in gates {
        let round = visit_deep(engine, question, facts, watch, depth, *gate)?;
        if is_clash(round) {
            return Ok(Round::Clash);
        }
        all = together(all, round);
    }
    Ok(all)
}

// Learns from one gate, with justifications closed at the depth, and closes the facts there again.
#[cycle(learning)]
fn visit_deep(
    engine: &mut Engine,
    question: &Question<'_>,
    facts: &mut FactSet,
    watch: &mut Watch,
    depth: u8,
    gate: NodeId,
) -> Result<Round, NoMemory>
    requires numbers { length (net_of question.now.graph.now).nodes ≤ engine.old.numbers }
    requires size { length (net_of question.now.graph.now).nodes ≤ length facts.old }
    requires settled { AreSettled (net_of question.now.graph.now) question.now.fault (held_by facts.old) }
    requires room { HasRoom (net_of question.now.graph.now) watch.old }
    requires goods { HasGoods watch.old engine.old facts.old }
    requires watching { IsWatching (net_of question.now.graph.now) question.now.fault (held_by facts.old) watch.old }
    requires none { HasNoneListed watch.old }
    requires deep { 0 < depth }
    ensures round { IfOk result (λ round. IsRound (net_of question.now.graph.now) question.now.fault depth (IsOne gate.0) facts.old round facts.new) }
    ensures keeps { IfOk result (λ _. Keeps engine.old engine.new facts.old facts.new) }
    ensures lengthens { OnOk result (Lengthens watch.old watch.new) }
    ensures watching { IfOk result (λ round. round ≢ Clash → IsWatching (net_of question.now.graph.now) question.now.fault (held_by facts.new) watch.new) }
    ensures none { IfOk result (λ round. round ≢ Clash → HasNoneListed watch.new) }
{
    match visit(engine, question, facts, watch, depth, gate)? {
        Round::Clash => Ok(Round::Clash),
        Round::Quiet => Ok(Round::Quiet),
        Round::Gained => {
            if learn(engine, question, facts, watch, depth)? {
                return Ok(Round::Clash);
            }
            Ok(Round::Gained)
        }
    }
}

// Learns from one gate, with justifications closed at the depth. What is known of the others is listed where it changed.
#[cycle(learning)]
fn visit(
    engine: &mut Engine,
    question: &Question<'_>,
    facts: &mut FactSet,
    watch: &mut Watch,
    depth: u8,
    gate: NodeId,
) -> Result<Round, NoMemory>
    requires numbers { length (net_of question.now.graph.now).nodes ≤ engine.old.numbers }
    requires size { length (net_of question.now.graph.now).nodes ≤ length facts.old }
    requires settled { AreSettled (net_of question.now.graph.now) question.now.fault (held_by facts.old) }
    requires room { HasRoom (net_of question.now.graph.now) watch.old }
    requires goods { 0 < depth → HasGoods watch.old engine.old facts.old }
    requires watching { 0 < depth → IsWatching (net_of question.now.graph.now) question.now.fault (held_by facts.old) watch.old }
    requires none { 0 < depth → HasNoneListed watch.old }
    ensures round { IfOk result (λ round. IsRound (net_of question.now.graph.now) question.now.fault depth (IsOne gate.0) facts.old round facts.new) }
    ensures keeps { IfOk result (λ _. Keeps engine.old engine.new facts.old facts.new) }
    ensures lengthens { OnOk result (Lengthens watch.old watch.new) }
    ensures all { OnOk result (watch.new.all ≡ watch.old.all) }
    ensures known { IfOk result (λ round. round ≢ Clash → StaysKnown (net_of question.now.graph.now) question.now.fault (held_by facts.old) watch.old (held_by facts.new) watch.new) }
    ensures quiet { IfOk result (λ round. round ≡ Quiet → watch.new.listed ≡ watch.old.listed) }
    ensures stays { IfOk result (λ round. round ≡ Quiet → depth ≡ 0 → watch.old.all ≡ false → StaysTaught (net_of question.now.graph.now) question.now.fault (held_by facts.new) watch.new.rests.entries gate.0) }
{
    let Some(justified) = justified_at(engine, question, facts, watch, depth, gate)? else {
        return Ok(Round::Quiet);
    };
    if !justified.found {
        return Ok(Round::Clash);
    }
    let mark = engine.mark();
    if gain(engine, question, facts, &justified.goods)? {
        return Ok(Round::Clash);
    }
    watch.list_changed(question.graph, engine.added_facts(mark));
    Ok(Round::Gained)
}

/// What one gate implies, with justifications closed at the depth. The facts are left as they were. Where a gate has
/// nothing to teach at depth 0, the watch learns on which places that rests.
#[cycle(learning)]
pub fn justified_at(
    engine: &mut Engine,
    question: &Question<'_>,
    facts: &mut FactSet,
    watch: &mut Watch,
    depth: u8,
    gate: NodeId,
) -> Result<Option<JustifiedValues>, NoMemory>
    requires numbers { length (net_of question.now.graph.now).nodes ≤ engine.old.numbers }
    requires size { length (net_of question.now.graph.now).nodes ≤ length facts.old }
    requires settled { AreSettled (net_of question.now.graph.now) question.now.fault (held_by facts.old) }
    requires room { HasRoom (net_of question.now.graph.now) watch.old }
    requires goods { 0 < depth → HasGoods watch.old engine.old facts.old }
    requires watching { 0 < depth → IsWatching (net_of question.now.graph.now) question.now.fault (held_by facts.old) watch.old }
    requires none { 0 < depth → HasNoneListed watch.old }
    ensures justified { IfOk result (Teaches (net_of question.now.graph.now) question.now.fault depth (held_by facts.old) gate.0) }
    ensures same { IfOk result (λ _. facts.new ≡ facts.old) }
    ensures keeps { IfOk result (λ _. Keeps engine.old engine.new facts.old facts.new) }
    ensures leaves { OnOk result (LeavesList watch.old watch.new) }
    ensures stays { IfOk result (λ justified. justified ≡ None → depth ≡ 0 → watch.old.all ≡ false → StaysTaught (net_of question.now.graph.now) question.now.fault (held_by facts.old) watch.new.rests.entries gate.0) }
{
    question.graph.well_formed();
    lines_are_local();
    let _mark = engine.mark();
    let Some(value) = wanted_value(question.graph, facts, gate) else {
        return Ok(None);
    };
    let Some(drivers) = open_drivers(watch.alloc(), question.graph, facts, gate)? else {
        return Ok(None);
    };
    if drivers.is_empty() {
        return Ok(None);
    }
    let common = in_common(
        engine,
        question,
        facts,
        watch,
        depth,
        gate,
        &Choice {
            value,
            drivers: &drivers,
        },
    )?;
    if common.found && common.goods.is_empty() {
        return Ok(None);
    }
    Ok(Some(JustifiedValues {
        value,
        drivers,
        found: common.found,
        goods: common.goods,
    }))
}

// What the drivers of the gate lead to when each is taken to have the value. The facts are left as they were.
#[cycle(learning)]
fn in_common(
    engine: &mut Engine,
    question: &Question<'_>,
    facts: &mut FactSet,
    watch: &mut Watch,
    depth: u8,
    gate: NodeId,
    choice: &Choice<'_>,
) -> Result<Common, NoMemory>
    requires numbers { length (net_of question.now.graph.now).nodes ≤ engine.old.numbers }
    requires size { length (net_of question.now.graph.now).nodes ≤ length facts.old }
    requires settled { AreSettled (net_of question.now.graph.now) question.now.fault (held_by facts.old) }
    requires room { HasRoom (net_of question.now.graph.now) watch.old }
    requires goods { 0 < depth → HasGoods watch.old engine.old facts.old }
    requires watching { 0 < depth → IsWatching (net_of question.now.graph.now) question.now.fault (held_by facts.old) watch.old }
    requires none { 0 < depth → HasNoneListed watch.old }
    requires gate { gate.0 < watch.old.rests.numbers }
    requires drivers { AreOpen (net_of question.now.graph.now) (held_by facts.old) (map (λ n. n.0) choice.now.drivers.now) }
    ensures found { IfOk result (λ r. AreFound (net_of question.now.graph.now) question.now.fault depth (held_by facts.old) choice.now.value (map (λ n. n.0) choice.now.drivers.now) r.found r.goods.items) }
    ensures same { IfOk result (λ _. facts.new ≡ facts.old) }
    ensures keeps { IfOk result (λ _. Keeps engine.old engine.new facts.old facts.new) }
    ensures leaves { OnOk result (LeavesList watch.old watch.new) }
    ensures region { IfOk result (λ r. NotesRegion (net_of question.now.graph.now) question.now.fault (held_by facts.old) choice.now.value choice.now.drivers.now depth r watch.old.all watch.new.rests.entries gate.0) }
{
    let mut common = Common {
        found: false,
        goods: Vec::new(watch.alloc()),
    };
    for driver in choice.drivers {
        common = one_more(
            engine,
            question,
            facts,
            watch,
            depth,
            gate,
            GoodValue {
                node: *driver,
                value: choice.value,
            },
            common,
        )?;
        if common.found && common.goods.is_empty() {
            return Ok(common);
        }
    }
    Ok(common)
}

// What one more driver has in common with those before, when it is taken to have the value. The facts are left as they were.
#[cycle(learning)]
fn one_more(
    engine: &mut Engine,
    question: &Question<'_>,
    facts: &mut FactSet,
    watch: &mut Watch,
    depth: u8,
    gate: NodeId,
    assumed: GoodValue,
    before: Common,
) -> Result<Common, NoMemory>
    requires numbers { length (net_of question.now.graph.now).nodes ≤ engine.old.numbers }
    requires size { length (net_of question.now.graph.now).nodes ≤ length facts.old }
    requires settled { AreSettled (net_of question.now.graph.now) question.now.fault (held_by facts.old) }
    requires room { HasRoom (net_of question.now.graph.now) watch.old }
    requires goods { 0 < depth → HasGoods watch.old engine.old facts.old }
    requires watching { 0 < depth → IsWatching (net_of question.now.graph.now) question.now.fault (held_by facts.old) watch.old }
    requires none { 0 < depth → HasNoneListed watch.old }
    requires gate { gate.0 < watch.old.rests.numbers }
    requires node { IsLive (net_of question.now.graph.now) assumed.node.0 }
    requires unknown { known_good (held_by facts.old) assumed.node.0 ≡ None }
    ensures common { IfOk result (MeetsOneMore (net_of question.now.graph.now) question.now.fault depth (held_by facts.old) assumed.value assumed.node.0 before) }
    ensures same { IfOk result (λ _. facts.new ≡ facts.old) }
    ensures keeps { IfOk result (λ _. Keeps engine.old engine.new facts.old facts.new) }
    ensures leaves { OnOk result (LeavesList watch.old watch.new) }
    ensures covered { OnOk result (depth ≡ 0 → watch.old.all ≡ false → IsCovered (net_of question.now.graph.now) question.now.fault (held_by facts.old) assumed.value assumed.node.0 watch.new.rests.entries gate.0) }
{
    let mark = engine.mark();
    if take(engine, question, facts, watch, depth, assumed)? {
        engine.take_back(facts, mark);
        return Ok(before);
    }
    let more = meet_justified(watch.alloc(), &before, engine.added_facts(mark), facts)?;
    watch.rest_on_region(question.graph, gate, engine.added_facts(mark), depth)?;
    engine.take_back(facts, mark);
    Ok(more)
}

// Adds a good value, and closes at the depth; whether that is a clash. The watch is left as it was.
#[cycle(learning)]
fn take(
    engine: &mut Engine,
    question: &Question<'_>,
    facts: &mut FactSet,
    watch: &mut Watch,
    depth: u8,
    assumed: GoodValue,
) -> Result<bool, NoMemory>
    requires numbers { length (net_of question.now.graph.now).nodes ≤ engine.old.numbers }
    requires size { length (net_of question.now.graph.now).nodes ≤ length facts.old }
    requires settled { AreSettled (net_of question.now.graph.now) question.now.fault (held_by facts.old) }
    requires room { HasRoom (net_of question.now.graph.now) watch.old }
    requires goods { 0 < depth → HasGoods watch.old engine.old facts.old }
    requires watching { 0 < depth → IsWatching (net_of question.now.graph.now) question.now.fault (held_by facts.old) watch.old }
    requires none { 0 < depth → HasNoneListed watch.old }
    requires node { IsLive (net_of question.now.graph.now) assumed.node.0 }
    requires unknown { known_good (held_by facts.old) assumed.node.0 ≡ None }
    ensures learned { IfOk result (λ clash. IsLearned (net_of question.now.graph.now) question.now.fault depth (with_fact (held_by facts.old) assumed.node.0 (Fact.Good assumed.value)) clash (held_by facts.new)) }
    ensures keeps { IfOk result (λ _. Keeps engine.old engine.new facts.old facts.new) }
    ensures leaves { OnOk result (LeavesList watch.old watch.new) }
{
    let start = engine.mark();
    if add(engine, question, facts, assumed.node, assumed.value)? {
        return Ok(true);
    }
    if depth == 0 {
        return Ok(false);
    }
    let before = watch.mark();
    watch.list_changed(question.graph, engine.added_facts(start));
    let clash = learn(engine, question, facts, watch, depth)?;
    watch.take_back(before);
    Ok(clash)
}
