//! A net with what undoes its edits.
ghost use Rattle.std.specs.Prelude.{◌+◌, ◌≤◌};
ghost use Rattle.gate_graph.specs.Circuit.{live_nodes, pins_taken};

use crate::editing::{few_nodes, try_edit};
use gate_graph::{Edit, Graph, Undos};
use std::alloc::Global;
use std::marker::Model;
use std::test::Fail;

/// A net, what undoes its edits, and how many edits more it may get.
#[derive(Drop)]
pub struct EditedNet {
    graph: Graph,
    undos: Undos,
    left: u32,
}

impl Model for EditedNet {
    ghost use Rattle.std.specs.Prelude.{ℕ};

    ghost Value = { ℕ };

    ghost use Rattle.std.specs.Prelude.{◌+◌, ◌≤◌, length};
    ghost use Rattle.gate_graph.specs.Circuit.{pins_taken, wiring};
    ghost use Rattle.gate_graph.specs.Undoing.{AreWithin, CanGoBack};

    ghost view = { λ e. e.left };

    ghost invariant = { λ e. CanGoBack (wiring e.graph) e.undos.entries × (AreWithin (length e.graph.kinds) e.undos.entries × (pins_taken e.graph + e.left ≤ 1000000)) };
}

impl EditedNet {
    /// No edit is made yet.
    pub fn new(alloc: Global, graph: Graph) -> EditedNet
        requires few { pins_taken graph + live_nodes graph ≤ 300000 }
    {
        graph.leads_back();
        EditedNet {
            graph,
            undos: Undos::new(alloc),
            left: 100_000,
        }
    }

    /// The net.
    pub fn graph(&self) -> &Graph {
        &self.graph
    }

    /// Makes the edit where it may be made, and tells whether it was.
    pub fn try_edit(&mut self, alloc: Global, edit: &Edit) -> Result<bool, Fail> {
        if self.left == 0 {
            return Err("too many edits".into());
        }
        self.left -= 1;
        try_edit(alloc, &mut self.graph, &mut self.undos, edit)
    }

    /// Makes room for so many pins and nodes more.
    pub fn reserve(&mut self, pins: u32, nodes: u32) -> Result<(), Fail>
        requires pins { pins ≤ 1000 }
        requires nodes { nodes ≤ 1000 }
    {
        if !few_nodes(&self.graph) {
            return Err("too many nodes".into());
        }
        self.graph.reserve(pins as usize, nodes as usize)?;
        Ok(())
    }

    /// Undoes all edits.
    pub fn undo(&mut self) {
        self.graph.undo(&mut self.undos);
        self.graph.leads_back();
    }

    /// Keeps all edits.
    pub fn keep(&mut self) {
        self.graph.keep(&mut self.undos);
        self.graph.leads_back();
    }
}
