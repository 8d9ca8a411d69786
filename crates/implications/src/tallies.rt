// How many pins of a gate hold what.
ghost use Rattle.std.specs.Prelude.{◌≡◌, ◌≢◌, ◌<◌, ◌≤◌, ◌&&◌, ◌++◌, ◌∷◌, [], ℕ, List, IfOk, Some, false, length, replicate, slice_get, true};
ghost use Rattle.gate_graph.specs.Circuit.{net_of};
ghost use Rattle.gate_graph.specs.Search.{IsSeen};
ghost use Rattle.gate_net.specs.Net.{IsLive, drivers_of};
ghost use Rattle.refutation.specs.FactSets.{held_by};
ghost use Rattle.refutation.specs.Facts.{Held, with_fact};
ghost use Rattle.refutation.specs.Pins.{AreBelow};
ghost use Rattle.implications.specs.Inner.Rises.{CanRise, IsRaised, RaisesAt, risen, rise_at, rise_by};
ghost use Rattle.implications.specs.Inner.Tallies.{AreTallied, IsTally};
ghost use Rattle.implications.specs.Inner.Working.{Touches};
ghost use Rattle.implications.specs.declared.tallies.Tally.{Tally};
ghost use Rattle.rm_base.specs.Numbers.{number_bound};

use gate_graph::{Inputs, Question};
use refutation::following::gate_pins;
use refutation::worklist::Worklist;
use refutation::{Fact, FactSet};
use rm_base::{NoMemory, NodeId};
use std::alloc::Global;
use std::marker::Model;

/// How many pins of a gate have drivers that hold a fact, and how many have drivers that are equal with a good value;
/// and the driver of the pin at the stuck pin's position, where there is one.
#[derive(Clone, Copy, Debug)]
pub struct Tally {
    pub pins: u32,
    pub good_0: u32,
    pub good_1: u32,
    pub faulty_0: u32,
    pub faulty_1: u32,
    pub equal: u32,
    pub differs: u32,
    pub passing_0: u32,
    pub passing_1: u32,
    pub at: NodeId,
}

/// Which counts of a tally rise.
#[derive(Clone, Copy, Debug)]
pub struct Rise {
    pub good_0: bool,
    pub good_1: bool,
    pub faulty_0: bool,
    pub faulty_1: bool,
    pub equal: bool,
    pub differs: bool,
    pub passing_0: bool,
    pub passing_1: bool,
}

// No count rises.
const NONE_RISES: Rise = Rise {
    good_0: false,
    good_1: false,
    faulty_0: false,
    faulty_1: false,
    equal: false,
    differs: false,
    passing_0: false,
    passing_1: false,
};

// The tally of a gate without pins.
fn no_pins() -> Tally
    ensures { (held : Held) (position : ℕ) → IsTally held position [] result }
{
    Tally {
        pins: 0,
        good_0: 0,
        good_1: 0,
        faulty_0: 0,
        faulty_1: 0,
        equal: 0,
        differs: 0,
        passing_0: 0,
        passing_1: 0,
        at: NodeId(0),
    }
}

// So many tallies.
fn no_tallies(alloc: Global, numbers: u32) -> Result<Vec<Tally>, NoMemory>
    ensures { IfOk result (λ v. length v.items ≡ numbers) }
{
    Ok(vec![in alloc; no_pins(); numbers as usize]?)
}

// A count that is one more where it rises.
fn raise_count(count: u32, rises: bool) -> u32
    requires { rises ≡ true → count < number_bound }
    ensures { result ≡ risen rises count 1 }
{
    if rises { count + 1 } else { count }
}

// The tally with these counts one more.
fn raise_tally(tally: Tally, rise: Rise) -> Tally
    requires { CanRise rise tally }
    ensures { IsRaised rise 1 tally result }
{
    Tally {
        pins: tally.pins,
        good_0: raise_count(tally.good_0, rise.good_0),
        good_1: raise_count(tally.good_1, rise.good_1),
        faulty_0: raise_count(tally.faulty_0, rise.faulty_0),
        faulty_1: raise_count(tally.faulty_1, rise.faulty_1),
        equal: raise_count(tally.equal, rise.equal),
        differs: raise_count(tally.differs, rise.differs),
        passing_0: raise_count(tally.passing_0, rise.passing_0),
        passing_1: raise_count(tally.passing_1, rise.passing_1),
        at: tally.at,
    }
}

fn both(one: bool, other: bool) -> bool
    ensures { result ≡ (one && other) }
{
    one && other
}

// Which counts rise by a pin with that driver.
fn rise_at(facts: &FactSet, driver: NodeId) -> Rise
    requires { driver.0 < length facts.now }
    ensures { result ≡ rise_at (held_by facts.now) driver.0 }
{
    let good_0 = facts.holds(driver, Fact::Good(false));
    let good_1 = facts.holds(driver, Fact::Good(true));
    let equal = facts.holds(driver, Fact::Equal);
    Rise {
        good_0,
        good_1,
        faulty_0: facts.holds(driver, Fact::Faulty(false)),
        faulty_1: facts.holds(driver, Fact::Faulty(true)),
        equal,
        differs: facts.holds(driver, Fact::Differs),
        passing_0: both(equal, good_0),
        passing_1: both(equal, good_1),
    }
}

// Which counts rise by a fact that comes to be held on a pin's driver.
fn rise_by(facts: &FactSet, node: NodeId, fact: Fact) -> Rise
    requires { node.0 < length facts.now }
    ensures { result ≡ rise_by (held_by facts.now) node.0 fact }
{
    match fact {
        Fact::Good(false) => Rise {
            good_0: true,
            passing_0: facts.holds(node, Fact::Equal),
            ..NONE_RISES
        },
        Fact::Good(true) => Rise {
            good_1: true,
            passing_1: facts.holds(node, Fact::Equal),
            ..NONE_RISES
        },
        Fact::Faulty(false) => Rise {
            faulty_0: true,
            ..NONE_RISES
        },
        Fact::Faulty(true) => Rise {
            faulty_1: true,
            ..NONE_RISES
        },
        Fact::Equal => Rise {
            equal: true,
            passing_0: facts.holds(node, Fact::Good(false)),
            passing_1: facts.holds(node, Fact::Good(true)),
            ..NONE_RISES
        },
        Fact::Differs => Rise {
            differs: true,
            ..NONE_RISES
        },
    }
}

// The driver of the pin at the position, once one more pin was counted.
fn driver_at(tally: Tally, position: u32, driver: NodeId) -> NodeId
    ensures here { tally.pins ≡ position → result ≡ driver }
    ensures elsewhere { tally.pins ≢ position → result ≡ tally.at }
{
    if tally.pins == position {
        driver
    } else {
        tally.at
    }
}

// The tally with one pin more, that has that driver.
fn with_driver(tally: Tally, position: u32, facts: &FactSet, driver: NodeId) -> Tally
    requires driver { driver.0 < length facts.now }
    requires room { tally.pins < number_bound }
    requires counted { (ds : List ℕ) × IsTally (held_by facts.now) position ds tally }
    ensures { (ds : List ℕ) → IsTally (held_by facts.now) position ds tally → IsTally (held_by facts.now) position (ds ++ driver.0 ∷ []) result }
{
    let at = driver_at(tally, position, driver);
    let more = Tally {
        pins: tally.pins + 1,
        at,
        ..tally
    };
    raise_tally(more, rise_at(facts, driver))
}

// The tally of a gate with these drivers.
fn count_pins(drivers: Inputs<'_>, position: u32, facts: &FactSet) -> Tally
    requires within { AreBelow drivers (length facts.now) }
    requires few { length drivers ≤ number_bound }
    ensures { IsTally (held_by facts.now) position drivers.entry result }
{
    let mut tally = no_pins();
    for driver in drivers {
        tally = with_driver(tally, position, facts, driver);
    }
    tally
}

// Raises the tally at that place.
fn raise_at(tallies: &mut Vec<Tally>, place: u32, rise: Rise)
    requires place { place < length tallies.old.items }
    requires can { (t : Tally) → slice_get tallies.old.items place ≡ Some t → CanRise rise t }
    ensures raised { (t : Tally) → slice_get tallies.old.items place ≡ Some t → (t' : Tally) × ((slice_get tallies.new.items place ≡ Some t') × IsRaised rise 1 t t') }
    ensures others { (y : ℕ) → y ≢ place → slice_get tallies.new.items y ≡ slice_get tallies.old.items y }
    ensures size { length tallies.new.items ≡ length tallies.old.items }
{
    let tally = tallies[place as usize];
    tallies[place as usize] = raise_tally(tally, rise);
}

/// The tallies of the gates that were counted during a call. A gate is counted when it is looked at for the first
/// time, and its counts rise with each fact on a driver.
#[derive(Drop)]
pub struct Tallies {
    counted: Worklist,
    tallies: Vec<Tally>,
}

impl Model for Tallies {
    ghost use Rattle.std.specs.Prelude.{◌≡◌, length};
    ghost use Rattle.implications.specs.Inner.Tallies.{TallyState};

    ghost Value = { TallyState };

    ghost view = { λ t. record { counted = t.counted; tallies = t.tallies.items } };

    ghost invariant = { λ t. length t.tallies.items ≡ length t.counted };
}

impl Tallies {
    /// No gate counted, for the node numbers below `numbers`.
    pub fn new(alloc: Global, numbers: u32) -> Result<Tallies, NoMemory>
        ensures { IfOk result (λ t. t.counted ≡ replicate numbers false) }
    {
        let counted = Worklist::new(alloc, numbers)?;
        let tallies = no_tallies(alloc, numbers)?;
        Ok(Tallies { counted, tallies })
    }

    /// The tally of a node, which is counted where it wasn't yet.
    pub fn of(&mut self, question: &Question<'_>, facts: &FactSet, node: NodeId) -> Tally
        requires node { IsLive (net_of question.now.graph.now) node.0 }
        requires size { length (net_of question.now.graph.now).nodes ≤ length facts.now }
        requires room { length (net_of question.now.graph.now).nodes ≤ length self.old.counted }
        requires tallied { AreTallied (net_of question.now.graph.now) (held_by facts.now) question.now.fault.position self.old }
        ensures tally { IsTally (held_by facts.now) question.now.fault.position (drivers_of (net_of question.now.graph.now) node.0) result }
        ensures tallied { AreTallied (net_of question.now.graph.now) (held_by facts.now) question.now.fault.position self.new }
        ensures room { length self.new.counted ≡ length self.old.counted }
    {
        if self.counted.has(node) {
            return self.tallies[node.0 as usize];
        }
        let tally = count_pins(
            gate_pins(question.graph, node),
            question.fault.position,
            facts,
        );
        self.counted.add(node);
        self.tallies[node.0 as usize] = tally;
        tally
    }

    // The tally of a gate rises, where it was counted.
    fn raise(&mut self, gate: NodeId, rise: Rise)
        requires room { gate.0 < length self.old.counted }
        requires can { IsSeen self.old.counted gate.0 → (t : Tally) → slice_get self.old.tallies gate.0 ≡ Some t → CanRise rise t }
        ensures { RaisesAt rise self.old self.new gate.0 }
    {
        if !self.counted.has(gate) {
            return;
        }
        raise_at(&mut self.tallies, gate.0, rise);
    }

    /// No gate counted any more, in the time of those that were.
    pub fn clear(&mut self)
        ensures { self.new.counted ≡ replicate (length self.old.counted) false }
    {
        self.counted.clear();
    }
}

/// Puts a node on which a fact comes to be held on the worklist, with its readers, whose tallies rise.
pub(crate) fn touch(
    question: &Question<'_>,
    facts: &FactSet,
    worklist: &mut Worklist,
    tallies: &mut Tallies,
    node: NodeId,
    fact: Fact,
)
    requires node { IsLive (net_of question.now.graph.now) node.0 }
    requires new { held_by facts.now node.0 fact ≡ false }
    requires size { length (net_of question.now.graph.now).nodes ≤ length facts.now }
    requires worklist { length (net_of question.now.graph.now).nodes ≤ length worklist.old }
    requires room { length (net_of question.now.graph.now).nodes ≤ length tallies.old.counted }
    requires tallied { AreTallied (net_of question.now.graph.now) (held_by facts.now) question.now.fault.position tallies.old }
    ensures touches { Touches (net_of question.now.graph.now) worklist.old worklist.new node.0 }
    ensures tallied { AreTallied (net_of question.now.graph.now) (with_fact (held_by facts.now) node.0 fact) question.now.fault.position tallies.new }
    ensures room { length tallies.new.counted ≡ length tallies.old.counted }
{
    let rise = rise_by(facts, node, fact);
    question.graph.readers_listed();
    worklist.add(node);
    for reader in question.graph.readers_of(node) {
        worklist.add(reader);
        tallies.raise(reader, rise);
    }
}
