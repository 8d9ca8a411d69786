//! A trial of steps, which can be rolled back.
ghost use Rattle.std.specs.Prelude.{◌≡◌, ◌≢◌, ◌<◌, ◌≤◌, ◌+◌, ◌-◌, ◌^◌, ◌++◌, ◌∷◌, [], ℕ, length, min, true, IfOk, IfErr, OnOk, OnErr, Some, Ok};
ghost use Rattle.gate_graph.specs.Circuit.{wiring, net_of, fanouts_of, pins_taken, live_nodes};
ghost use Rattle.gate_graph.specs.Changes.{Edits};
ghost use Rattle.gate_graph.specs.Holds.{HoldsOn, held, pins_held};
ghost use Rattle.gate_graph.specs.Readers.{SameReaders};
ghost use Rattle.wire_edit.specs.Steps.{Applies, change_of, stepped};
ghost use Rattle.wire_edit.specs.Refusals.{has_room, room_after, IsAnswer};
ghost use Rattle.wire_edit.specs.Order.{IsTidy};
ghost use Rattle.wire_edit.specs.Edited.{edit_of};
ghost use Rattle.wire_edit.specs.Inner.Firsts.{IsPlainAfter};
ghost use Rattle.wire_edit.specs.Tried.{start_of, IsAt, GivesBack, refusal_in, Tidies};
ghost use Rattle.wire_edit.specs.Calls.{IsBegun, IsApplied, IsTidied, IsRolledBack};
ghost use Rattle.wire_edit.specs.declared.steps.Step.{Step as StepValue};
ghost use Rattle.rm_base.specs.Numbers.{number_bound};

use crate::budget::{nodes_made, pins_made, room_for};
use crate::faults::fault;
use crate::kept::Kept;
use crate::made::Made;
use crate::refusal::EditRefusal;
use crate::reserving::prepare;
use crate::room::Room;
use crate::seen::Seen;
use crate::steps::Step;
use crate::tidying::{carry_out, next_rule, removes};
use crate::worklist::Worklist;
use gate_graph::{Graph, Marks, Undos, same_wiring};
use rm_base::NoMemory;
use std::alloc::Global;
use std::fmt;
use std::marker::Model;

/// Why a trial can't begin. The graph is as it was.
#[derive(Drop)]
pub enum BeginRefusal {
    NoMemory { graph: Graph },
}

impl fmt::Display for BeginRefusal {
    fn fmt<W: fmt::Write>(&self, f: &mut fmt::Formatter<W>) -> fmt::Result {
        match self {
            BeginRefusal::NoMemory { graph: _ } => f.write_str("out of memory"),
        }
    }
}

/// A graph, with the steps made since the trial began and what undoes them.
#[derive(Drop)]
pub struct Trial {
    pub(crate) graph: Graph,
    pub(crate) undos: Undos,
    pub(crate) made: Made,
    pub(crate) pins: usize,
    pub(crate) nodes: usize,
    pub(crate) marks: Marks,
    pub(crate) worklist: Worklist,
    pub(crate) seen: Seen,
    pub(crate) kept: Kept,
    // The room at the start, and whether the net was known to be tidy then.
    pub(crate) first: Room,
    pub(crate) tidy: bool,
}

impl Model for Trial {
    ghost use Rattle.wire_edit.specs.Tried.{Tried};

    ghost Value = { Tried };

    ghost use Rattle.std.specs.Coded.{codes};
    ghost use Rattle.pin_pool.specs.Pins.{pins_code};

    ghost coded = { Prim.hlevel (codes, pins_code) };

    ghost view = { λ t. record { graph = t.graph; trail = t.undos; steps = t.made.steps; room = record { pins = t.pins; nodes = t.nodes; steps = t.made.spare }; first = t.first } };

    ghost use Rattle.wire_edit.specs.Inner.Trials.{IsTrial, IsReady};

    ghost invariant = { λ t. IsTrial t.graph t.undos (record { pins = t.pins; nodes = t.nodes; steps = t.made.spare }) t.marks t.worklist × IsReady t.graph t.undos t.made.steps t.made.spare t.marks t.seen t.kept t.first t.tidy };
}

impl Trial {
    // Takes the graph over and reserves all that the room's steps take.
    fn over(alloc: Global, graph: Graph, room: Room, tidy: bool) -> Result<Trial, BeginRefusal>
        requires pins { pins_taken graph + room.pins ≤ number_bound }
        requires nodes { live_nodes graph + room.nodes ≤ number_bound }
        requires tidy { tidy ≡ true → IsTidy (net_of graph) }
        ensures net { IfOk result (λ t. net_of t.graph ≡ net_of graph) }
        ensures steps { IfOk result (λ t. t.steps ≡ []) }
        ensures room { IfOk result (λ t. t.room ≡ room) }
        ensures first { IfOk result (λ t. t.first ≡ room) }
        ensures refused { IfErr result (λ e. GivesBack e graph) }
        ensures begun { IfOk result (λ t. IsBegun graph t) }
        ensures held { IfOk result (λ t. (t.trail.entries ≡ []) × (pins_held t.graph ≡ pins_held graph)) }
        ensures readers { IfOk result (λ t. SameReaders graph t.graph) }
    {
        let mut graph = graph;
        match prepare(alloc, &mut graph, room, tidy) {
            Ok((undos, made, marks, worklist, seen, kept)) => {
                graph.well_formed();
                same_wiring();
                Ok(Trial {
                    graph,
                    undos,
                    made,
                    pins: room.pins,
                    nodes: room.nodes,
                    marks,
                    worklist,
                    seen,
                    kept,
                    first: room,
                    tidy,
                })
            }
            Err(NoMemory) => Err(BeginRefusal::NoMemory { graph }),
        }
    }

    /// Takes the graph over and reserves all that the room's steps take: no later call takes memory. The first
    /// `tidy_one` looks at every gate.
    pub fn begin(alloc: Global, graph: Graph, room: Room) -> Result<Trial, BeginRefusal>
        requires pins { pins_taken graph + room.pins ≤ number_bound }
        requires nodes { live_nodes graph + room.nodes ≤ number_bound }
        ensures net { IfOk result (λ t. net_of t.graph ≡ net_of graph) }
        ensures start { IfOk result (λ t. start_of t ≡ wiring graph) }
        ensures epoch { IfOk result (λ t. t.graph.epoch ≡ graph.epoch) }
        ensures steps { IfOk result (λ t. t.steps ≡ []) }
        ensures room { IfOk result (λ t. t.room ≡ room) }
        ensures first { IfOk result (λ t. t.first ≡ room) }
        ensures refused { IfErr result (λ e. GivesBack e graph) }
        ensures begun { IfOk result (λ t. IsBegun graph t) }
        ensures held { IfOk result (λ t. (t.trail.entries ≡ []) × (pins_held t.graph ≡ pins_held graph)) }
        ensures readers { IfOk result (λ t. SameReaders graph t.graph) }
    {
        Trial::over(alloc, graph, room, false)
    }

    /// Begins a trial of a tidy net, in which `tidy_one` looks only at gates that the steps touch.
    pub fn begin_tidy(alloc: Global, graph: Graph, room: Room) -> Result<Trial, BeginRefusal>
        requires pins { pins_taken graph + room.pins ≤ number_bound }
        requires nodes { live_nodes graph + room.nodes ≤ number_bound }
        requires tidy { IsTidy (net_of graph) }
        ensures net { IfOk result (λ t. net_of t.graph ≡ net_of graph) }
        ensures steps { IfOk result (λ t. t.steps ≡ []) }
        ensures room { IfOk result (λ t. t.room ≡ room) }
        ensures first { IfOk result (λ t. t.first ≡ room) }
        ensures refused { IfErr result (λ e. GivesBack e graph) }
        ensures begun { IfOk result (λ t. IsBegun graph t) }
        ensures held { IfOk result (λ t. (t.trail.entries ≡ []) × (pins_held t.graph ≡ pins_held graph)) }
        ensures readers { IfOk result (λ t. SameReaders graph t.graph) }
    {
        Trial::over(alloc, graph, room, true)
    }

    /// The room that is left.
    pub fn room(&self) -> Room
        ensures { result ≡ self.now.room }
    {
        Room {
            pins: self.pins,
            nodes: self.nodes,
            steps: self.made.spare(),
        }
    }

    // Makes a step that may be made.
    fn make(&mut self, step: Step)
        requires applies { Applies (net_of self.old.graph) step }
        requires room { has_room (net_of self.old.graph) self.old.room step ≡ true }
        ensures net { net_of self.new.graph ≡ stepped (net_of self.old.graph) step }
        ensures edits { Edits self.old.graph (edit_of (change_of (net_of self.old.graph) step)) self.new.graph }
        ensures steps { self.new.steps ≡ self.old.steps ++ step ∷ [] }
        ensures room { self.new.room ≡ room_after self.old.room step }
        ensures start { start_of self.new ≡ start_of self.old }
        ensures first { self.new.first ≡ self.old.first }
        ensures epoch { self.new.graph.epoch ≡ self.old.graph.epoch }
        ensures held { HoldsOn self.old.graph self.new.graph self.old.trail.entries self.new.trail.entries }
    {
        self.graph.well_formed();
        self.kept.ready_for(&self.graph, step);
        carry_out(&mut self.graph, &mut self.undos, &mut self.worklist, step);
        self.graph.well_formed();
        self.made.push(step);
        self.pins -= pins_made(step);
        self.nodes -= nodes_made(step);
    }

    // Remembers how far the gate of a pin that was taken out reads no constant.
    fn remember(&mut self, step: Step)
        requires { IsPlainAfter (net_of self.old.graph) step }
        ensures { self.new ≡ self.old }
    {
        match step {
            Step::Const { gate, position } => self.kept.note(gate, Some(position)),
            Step::Same { gate, position: _ } => self.kept.note(gate, None),
            _ => {}
        }
    }

    /// Makes exactly the step, or gives the first reason against it and changes nothing.
    pub fn apply(&mut self, step: Step) -> Result<(), EditRefusal>
        ensures answer { IsAnswer (net_of self.old.graph) self.old.room step (refusal_in result) }
        ensures net { OnOk result (net_of self.new.graph ≡ stepped (net_of self.old.graph) step) }
        ensures readers { OnOk result (Edits self.old.graph (edit_of (change_of (net_of self.old.graph) step)) self.new.graph) }
        ensures steps { OnOk result (self.new.steps ≡ self.old.steps ++ step ∷ []) }
        ensures room { OnOk result (self.new.room ≡ room_after self.old.room step) }
        ensures refused { OnErr result (self.new ≡ self.old) }
        ensures start { start_of self.new ≡ start_of self.old }
        ensures first { self.new.first ≡ self.old.first }
        ensures epoch { self.new.graph.epoch ≡ self.old.graph.epoch }
        ensures call { IsApplied self.old self.new step (refusal_in result) }
        ensures held { HoldsOn self.old.graph self.new.graph self.old.trail.entries self.new.trail.entries }
    {
        self.graph.well_formed();
        if let Some(refusal) = fault(&self.graph, step, &mut self.marks) {
            return Err(refusal);
        }
        if !room_for(&self.graph, self.room(), step) {
            return Err(EditRefusal::Full);
        }
        self.make(step);
        Ok(())
    }

    /// Makes the next step of the tidying order and gives it, or None where the net is tidy.
    pub fn tidy_one(&mut self) -> Result<Option<Step>, EditRefusal>
        ensures tidies { Tidies self.old self.new result }
        ensures room { (step : StepValue) → result ≡ Ok (Some step) → 0 < self.old.room.steps }
        ensures start { start_of self.new ≡ start_of self.old }
        ensures first { self.new.first ≡ self.old.first }
        ensures epoch { self.new.graph.epoch ≡ self.old.graph.epoch }
        ensures call { IsTidied self.old self.new result }
        ensures held { HoldsOn self.old.graph self.new.graph self.old.trail.entries self.new.trail.entries }
    {
        self.graph.well_formed();
        let next = next_rule(
            &self.graph,
            &mut self.worklist,
            &mut self.seen,
            &mut self.kept,
        );
        let Some(step) = next else {
            return Ok(None);
        };
        if self.made.spare() == 0 {
            return Err(EditRefusal::Full);
        }
        let out = removes(&self.graph, step);
        self.make(step);
        if out {
            self.remember(step);
        }
        Ok(Some(step))
    }

    /// The graph as it is now.
    pub fn graph(&self) -> &Graph
        ensures { result.now ≡ self.now.graph }
    {
        &self.graph
    }

    /// The steps made, in order.
    pub fn steps(&self) -> &[Step]
        ensures { result.now ≡ self.now.steps }
    {
        self.made.steps()
    }

    /// Gives the graph back as it was when the trial began.
    pub fn rollback(self) -> Graph
        ensures wiring { wiring result ≡ start_of self }
        ensures graph { IsAt result (start_of self) }
        ensures epoch { result.epoch ≡ self.graph.epoch }
        ensures call { IsRolledBack self result }
        ensures held { pins_held result + length (held self.trail.entries) ≡ pins_held self.graph }
    {
        let Trial {
            mut graph,
            mut undos,
            made: _made,
            pins: _pins,
            nodes: _nodes,
            marks: _marks,
            worklist: _worklist,
            seen: _seen,
            kept: _kept,
            first: _first,
            tidy: _tidy,
        } = self;
        graph.undo(&mut undos);
        same_wiring();
        graph
    }

    /// Gives the graph as it is now. Its epoch rises where a step was made.
    pub fn commit(self) -> Graph
        ensures net { net_of result ≡ net_of self.graph }
        ensures readers { (n : ℕ) → fanouts_of result n ≡ fanouts_of self.graph n }
        ensures same { self.steps ≡ [] → result.epoch ≡ self.graph.epoch }
        ensures epoch { self.steps ≢ [] → result.epoch ≡ min (self.graph.epoch + 1) (2 ^ 64 - 1) }
        ensures held { pins_held result + length (held self.trail.entries) ≡ pins_held self.graph }
        ensures tidy { IsTidy (net_of self.graph) → IsTidy (net_of result) }
    {
        let Trial {
            mut graph,
            mut undos,
            made: _made,
            pins: _pins,
            nodes: _nodes,
            marks: _marks,
            worklist: _worklist,
            seen: _seen,
            kept: _kept,
            first: _first,
            tidy: _tidy,
        } = self;
        graph.keep(&mut undos);
        graph
    }
}
