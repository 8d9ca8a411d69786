//! A trial that goes on in place, from its start again or from where it is.
ghost use Rattle.std.specs.Prelude.{◌≡◌, ◌≢◌, ◌+◌, ◌-◌, ◌^◌, ◌≤◌, ℕ, [], ◌∷◌, length, min, IfOk, OnOk, OnErr};
ghost use Rattle.gate_graph.specs.Circuit.{wiring, net_of, fanouts_of, pins_taken, live_nodes};
ghost use Rattle.rm_base.specs.Numbers.{number_bound};
ghost use Rattle.gate_graph.specs.Holds.{HoldsOn, held, pins_held};
ghost use Rattle.gate_net.specs.Edits.{MakesGate};
ghost use Rattle.gate_net.specs.declared.Kind.TheVariants.{Not};
ghost use Rattle.wire_edit.specs.Calls.{IsApplied};
ghost use Rattle.wire_edit.specs.declared.steps.Step.TheVariants.{NewNot};
ghost use Rattle.wire_edit.specs.Order.{IsTidy};
ghost use Rattle.wire_edit.specs.Tried.{start_of, IsAt, StaysAt, refusal_in};

use crate::refusal::EditRefusal;
use crate::reserving::{is_enough, prepare};
use crate::room::Room;
use crate::steps::Step;
use crate::trial::Trial;
use gate_graph::same_wiring;
use rm_base::{NoMemory, NodeId};
use std::alloc::Global;

impl Trial {
    /// Takes the steps since the start back: the graph and the room are as they were then. It takes no memory, and where
    /// the trial knew a tidy net at the start, the time of what the steps touched.
    pub fn take_back(&mut self)
        ensures wiring { wiring self.new.graph ≡ start_of self.old }
        ensures graph { IsAt self.new.graph (start_of self.old) }
        ensures start { start_of self.new ≡ start_of self.old }
        ensures entries { self.new.trail.entries ≡ [] }
        ensures steps { self.new.steps ≡ [] }
        ensures epoch { self.new.graph.epoch ≡ self.old.graph.epoch }
        ensures room { self.new.room ≡ self.old.first }
        ensures first { self.new.first ≡ self.old.first }
        ensures held { pins_held self.new.graph + length (held self.old.trail.entries) ≡ pins_held self.old.graph }
    {
        self.graph.well_formed();
        self.kept.forget(&self.graph);
        self.graph.undo(&mut self.undos);
        self.graph.well_formed();
        self.graph.leads_back();
        same_wiring();
        self.made.give_back();
        self.pins = self.first.pins;
        self.nodes = self.first.nodes;
        if self.tidy {
            self.worklist.clear_recent();
        } else {
            self.worklist.mark_all();
        }
    }

    /// Keeps the steps so far for good, and goes on from there with as much room for steps as at the start, and the room
    /// for pins and nodes that is left. It takes the time of those steps, and no memory.
    pub fn keep(&mut self)
        ensures net { net_of self.new.graph ≡ net_of self.old.graph }
        ensures readers { (n : ℕ) → fanouts_of self.new.graph n ≡ fanouts_of self.old.graph n }
        ensures start { start_of self.new ≡ wiring self.new.graph }
        ensures entries { self.new.trail.entries ≡ [] }
        ensures steps { self.new.steps ≡ [] }
        ensures room { self.new.room ≡ record self.old.room { steps = self.old.first.steps } }
        ensures first { self.new.first ≡ self.new.room }
        ensures same { self.old.steps ≡ [] → self.new.graph.epoch ≡ self.old.graph.epoch }
        ensures epoch { self.old.steps ≢ [] → self.new.graph.epoch ≡ min (self.old.graph.epoch + 1) (2 ^ 64 - 1) }
        ensures held { pins_held self.new.graph + length (held self.old.trail.entries) ≡ pins_held self.old.graph }
        ensures tidy { IsTidy (net_of self.old.graph) → IsTidy (net_of self.new.graph) }
    {
        self.graph.keep(&mut self.undos);
        self.graph.well_formed();
        self.graph.leads_back();
        same_wiring();
        self.made.give_back();
        self.tidy = self.worklist.restart();
        self.first = Room {
            pins: self.pins,
            nodes: self.nodes,
            steps: self.made.spare(),
        };
    }

    /// Makes a Not of the node, as `apply` does, and gives the number that it took.
    pub fn apply_not(&mut self, node: NodeId) -> Result<NodeId, EditRefusal>
        ensures call { IsApplied self.old self.new (NewNot node) (refusal_in result) }
        ensures made { IfOk result (λ number. MakesGate (net_of self.old.graph) (net_of self.new.graph) Not (node.0 ∷ []) number.0) }
        ensures first { self.new.first ≡ self.old.first }
        ensures held { HoldsOn self.old.graph self.new.graph self.old.trail.entries self.new.trail.entries }
    {
        let number = self.graph.least_free();
        self.apply(Step::NewNot { node })?;
        Ok(number)
    }

    // Reserves anew all that the room's steps take.
    fn reserve_anew(&mut self, alloc: Global, room: Room) -> Result<(), NoMemory>
        requires none { self.old.steps ≡ [] }
        requires pins { pins_taken self.old.graph + room.pins ≤ number_bound }
        requires nodes { live_nodes self.old.graph + room.nodes ≤ number_bound }
        ensures room { OnOk result ((self.new.room ≡ room) × (self.new.first ≡ room)) }
        ensures refused { OnErr result ((self.new.room ≡ self.old.room) × (self.new.first ≡ self.old.first)) }
        ensures stays { StaysAt self.old self.new }
        ensures steps { self.new.steps ≡ [] }
        ensures entries { self.new.trail.entries ≡ [] }
    {
        same_wiring();
        let (undos, made, marks, worklist, seen, kept) = prepare(
            alloc,
            &mut self.graph,
            room,
            self.tidy,
        )?;
        self.graph.well_formed();
        self.undos = undos;
        self.made = made;
        self.pins = room.pins;
        self.nodes = room.nodes;
        self.marks = marks;
        self.worklist = worklist;
        self.seen = seen;
        self.kept = kept;
        self.first = room;
        Ok(())
    }

    /// Gives a trial without steps exactly so much room, from where it is. It takes no time and no memory where nothing
    /// is short, and else as much as `begin`.
    pub fn make_room(&mut self, alloc: Global, room: Room) -> Result<(), NoMemory>
        requires none { self.old.steps ≡ [] }
        requires pins { pins_taken self.old.graph + room.pins ≤ number_bound }
        requires nodes { live_nodes self.old.graph + room.nodes ≤ number_bound }
        ensures room { OnOk result ((self.new.room ≡ room) × (self.new.first ≡ room)) }
        ensures refused { OnErr result ((self.new.room ≡ self.old.room) × (self.new.first ≡ self.old.first)) }
        ensures stays { StaysAt self.old self.new }
        ensures steps { self.new.steps ≡ [] }
        ensures entries { self.new.trail.entries ≡ [] }
    {
        self.graph.well_formed();
        same_wiring();
        if is_enough(&self.graph, &self.undos, &self.marks, room) {
            if self.made.offer(room.steps) {
                self.pins = room.pins;
                self.nodes = room.nodes;
                self.first = room;
                return Ok(());
            }
        }
        self.reserve_anew(alloc, room)
    }
}
