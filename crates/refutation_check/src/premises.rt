// The facts that the items of a tree rest on.
ghost use Rattle.std.specs.Prelude.{◌≡◌};
ghost use Rattle.gate_graph.specs.Circuit.{net_of};

use gate_graph::{Graph, Inputs, Question};
use refutation::following::gate_pins;
use refutation::pins::{Aspect, Stuck, at_pin, is_value, known_of, stuck_at};
use refutation::{Fact, FactSet, Line};
use rm_base::{FIRST_SOURCE, NoMemory, NodeId};
use std::alloc::Global;

/// A fact of a node.
#[derive(Clone, Copy)]
pub(crate) struct Premise {
    pub(crate) node: NodeId,
    pub(crate) fact: Fact,
}

/// Facts that items rest on, those of one item behind those of the items before it.
#[derive(Drop)]
pub(crate) struct Premises {
    list: Vec<Premise>,
}

// What is known of a node; nothing of a number that the facts have no room for.
fn known_within(facts: &FactSet, aspect: Aspect, node: NodeId) -> Option<bool> {
    if node.0 as usize >= facts.len() {
        return None;
    }
    known_of(facts, aspect, node)
}

// The fact by which that is known.
fn fact_telling(aspect: Aspect, value: bool) -> Fact {
    match aspect {
        Aspect::OfGood => Fact::Good(value),
        Aspect::OfFaulty => Fact::Faulty(value),
        Aspect::OfEqual => if value { Fact::Equal } else { Fact::Differs },
    }
}

// Whether the stuck pin reads the value.
fn is_stuck_to(stuck: Option<Stuck>, value: bool) -> bool {
    match stuck {
        Some(pin) => pin.value == value,
        None => false,
    }
}

// Whether the pin is that one.
fn is_at(pin: Option<u32>, position: usize) -> bool {
    match pin {
        Some(at) => at as usize == position,
        None => false,
    }
}

// Whether the pin is the stuck one.
fn is_stuck_pin(stuck: Option<Stuck>, position: usize) -> bool {
    match stuck {
        Some(pin) => pin.position as usize == position,
        None => false,
    }
}

// The first driver that is known to have the value.
fn driver_with(
    drivers: Inputs<'_>,
    stuck: Option<Stuck>,
    facts: &FactSet,
    aspect: Aspect,
    value: bool,
) -> Option<NodeId> {
    let mut q: usize = 0;
    for driver in drivers {
        let here = at_pin(stuck, q, known_within(facts, aspect, driver));
        if is_value(here, value) {
            return Some(driver);
        }
        q = q.saturating_add(1);
    }
    None
}

// Two opposed facts that are held on the node.
fn opposed_on(facts: &FactSet, node: NodeId) -> Option<(Fact, Fact)> {
    if node.0 as usize >= facts.len() {
        return None;
    }
    let pairs = [
        (Fact::Good(false), Fact::Good(true)),
        (Fact::Faulty(false), Fact::Faulty(true)),
        (Fact::Equal, Fact::Differs),
    ];
    for pair in pairs {
        if facts.holds(node, pair.0) && facts.holds(node, pair.1) {
            return Some(pair);
        }
    }
    None
}

impl Premises {
    /// None yet.
    pub(crate) fn new(alloc: Global) -> Premises {
        Premises {
            list: Vec::new(alloc),
        }
    }

    /// How many there are, to come back to.
    pub(crate) fn mark(&self) -> usize {
        self.list.len()
    }

    /// Drops those after the mark.
    pub(crate) fn cut(&mut self, mark: usize) {
        self.list.truncate(mark);
    }

    /// The last one, where there are more than at the mark.
    pub(crate) fn pop_after(&mut self, mark: usize) -> Option<Premise> {
        if self.list.len() <= mark {
            return None;
        }
        self.list.pop()
    }

    /// What is known of the node.
    pub(crate) fn ask(
        &mut self,
        facts: &FactSet,
        aspect: Aspect,
        node: NodeId,
    ) -> Result<(), NoMemory> {
        if let Some(value) = known_within(facts, aspect, node) {
            let fact = fact_telling(aspect, value);
            self.list.push(Premise { node, fact })?;
        }
        Ok(())
    }

    // What is known of the drivers, but for those of one pin and of the stuck one.
    fn ask_drivers(
        &mut self,
        drivers: Inputs<'_>,
        stuck: Option<Stuck>,
        but: Option<u32>,
        facts: &FactSet,
        aspect: Aspect,
    ) -> Result<(), NoMemory> {
        let mut q: usize = 0;
        for driver in drivers {
            if !is_at(but, q) && !is_stuck_pin(stuck, q) {
                self.ask(facts, aspect, driver)?;
            }
            q = q.saturating_add(1);
        }
        Ok(())
    }

    // What the value of a gate rests on that follows from its pins: one that controls it, or else all.
    fn ask_forward(
        &mut self,
        graph: &Graph,
        stuck: Option<Stuck>,
        facts: &FactSet,
        aspect: Aspect,
        node: NodeId,
    ) -> Result<(), NoMemory> {
        let Some(kind) = graph.kind(node) else {
            return Ok(());
        };
        let Some(value) = kind.controlling_value() else {
            return self.ask_drivers(gate_pins(graph, node), stuck, None, facts, aspect);
        };
        if is_stuck_to(stuck, value) {
            return Ok(());
        }
        match driver_with(gate_pins(graph, node), stuck, facts, aspect, value) {
            Some(driver) => self.ask(facts, aspect, driver),
            None => self.ask_drivers(gate_pins(graph, node), stuck, None, facts, aspect),
        }
    }

    // What the value of a driver rests on: that of the gate, and those of the other pins, but at an And or an Or without
    // its controlling value.
    fn ask_back(
        &mut self,
        graph: &Graph,
        stuck: Option<Stuck>,
        facts: &FactSet,
        aspect: Aspect,
        node: NodeId,
        position: u32,
    ) -> Result<(), NoMemory> {
        self.ask(facts, aspect, node)?;
        let Some(kind) = graph.kind(node) else {
            return Ok(());
        };
        if let Some(value) = kind.controlling_value() {
            if !is_value(known_within(facts, aspect, node), value) {
                return Ok(());
            }
        }
        self.ask_drivers(gate_pins(graph, node), stuck, Some(position), facts, aspect)
    }

    // That drivers are equal, but for the one of a pin.
    fn ask_equals(
        &mut self,
        graph: &Graph,
        but: Option<u32>,
        facts: &FactSet,
        node: NodeId,
    ) -> Result<(), NoMemory> {
        let Some(_) = graph.kind(node) else {
            return Ok(());
        };
        self.ask_drivers(gate_pins(graph, node), None, but, facts, Aspect::OfEqual)
    }

    // Two things that are known of a node.
    fn ask_both(
        &mut self,
        facts: &FactSet,
        one: Aspect,
        other: Aspect,
        node: NodeId,
    ) -> Result<(), NoMemory> {
        self.ask(facts, one, node)?;
        self.ask(facts, other, node)
    }

    /// What a line rests on whose condition these facts meet and which gives a fact of that node.
    pub(crate) fn ask_for_line(
        &mut self,
        question: &Question<'_>,
        facts: &FactSet,
        line: &Line,
        given: NodeId,
    ) -> Result<(), NoMemory> {
        match *line {
            Line::Act | Line::Site | Line::Chain { .. } | Line::Out { .. } => Ok(()),
            Line::Constant { .. } => Ok(()),
            Line::GoodForward { node } => {
                self.ask_forward(question.graph, None, facts, Aspect::OfGood, node)
            }
            Line::FaultyForward { node } => {
                let stuck = stuck_at(&question.fault, node);
                self.ask_forward(question.graph, stuck, facts, Aspect::OfFaulty, node)
            }
            Line::GoodBack { node, position } => {
                self.ask_back(question.graph, None, facts, Aspect::OfGood, node, position)
            }
            Line::FaultyBack { node, position } => {
                let stuck = stuck_at(&question.fault, node);
                self.ask_back(
                    question.graph,
                    stuck,
                    facts,
                    Aspect::OfFaulty,
                    node,
                    position,
                )
            }
            Line::Compare { node } => {
                self.ask_both(facts, Aspect::OfGood, Aspect::OfFaulty, node)
            }
            Line::ToFaulty { node } => self.ask_both(facts, Aspect::OfGood, Aspect::OfEqual, node),
            Line::ToGood { node } => self.ask_both(facts, Aspect::OfFaulty, Aspect::OfEqual, node),
            Line::EqualForward { node } | Line::NotDiffers { node } => {
                self.ask_equals(question.graph, None, facts, node)
            }
            Line::NotEqual { node } => self.ask(facts, Aspect::OfEqual, node),
            Line::DiffersBack { node, position } => {
                self.ask(facts, Aspect::OfEqual, node)?;
                self.ask_equals(question.graph, Some(position), facts, node)
            }
            Line::Side { node, .. } => {
                self.ask(facts, Aspect::OfEqual, node)?;
                self.ask(facts, Aspect::OfEqual, given)
            }
        }
    }

    /// Two opposed facts of the node.
    pub(crate) fn ask_for_clash(&mut self, facts: &FactSet, node: NodeId) -> Result<(), NoMemory> {
        let Some((one, other)) = opposed_on(facts, node) else {
            return Ok(());
        };
        self.list.push(Premise { node, fact: one })?;
        self.list.push(Premise { node, fact: other })?;
        Ok(())
    }

    /// What is known of the sources.
    pub(crate) fn ask_for_sources(
        &mut self,
        graph: &Graph,
        facts: &FactSet,
    ) -> Result<(), NoMemory> {
        graph.well_formed();
        for k in 0..graph.source_count() {
            self.ask(facts, Aspect::OfGood, NodeId(FIRST_SOURCE + k))?;
        }
        Ok(())
    }
}
