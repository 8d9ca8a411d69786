//! A net as one plain list of pins: what the tests compare a graph with.
use crate::wiring::Gate;
use gate_graph::Edit;
use gate_net::Kind;
use rm_base::{NoMemory, NodeId};
use std::alloc::Global;

// A pin of a gate, or an observed place, whose gate is then 0.
#[derive(Clone, Copy)]
pub struct Wire {
    pub driver: u32,
    pub gate: u32,
    pub position: u32,
}

// The kinds by number, and the pins, where those of one driver stand in the order of its readers.
#[derive(Drop)]
pub struct PlainNet {
    kinds: Vec<Option<Kind>>,
    wires: Vec<Wire>,
}

impl PlainNet {
    pub fn new(alloc: Global, sources: u32) -> Result<PlainNet, NoMemory> {
        let mut kinds = Vec::new(alloc);
        kinds.push(Some(Kind::Zero))?;
        kinds.push(Some(Kind::One))?;
        for _ in 0..sources {
            kinds.push(Some(Kind::Source))?;
        }
        Ok(PlainNet {
            kinds,
            wires: Vec::new(alloc),
        })
    }

    pub fn copy(&self, alloc: Global) -> Result<PlainNet, NoMemory> {
        Ok(PlainNet {
            kinds: Vec::from_slice(alloc, &self.kinds)?,
            wires: Vec::from_slice(alloc, &self.wires)?,
        })
    }

    // A number that is above all others.
    pub fn bound(&self) -> u32 {
        let mut bound = 0u32;
        for _ in &self.kinds {
            bound = bound.saturating_add(1);
        }
        bound
    }

    pub fn kind(&self, node: u32) -> Option<Kind> {
        match self.kinds.get(node as usize) {
            Some(kind) => *kind,
            None => None,
        }
    }

    fn set_kind(&mut self, node: u32, kind: Option<Kind>) -> Result<(), NoMemory> {
        if let Some(place) = self.kinds.get_mut(node as usize) {
            *place = kind;
            return Ok(());
        }
        self.kinds.push(kind)?;
        Ok(())
    }

    fn least_free(&self) -> u32 {
        let mut node = 0u32;
        for kind in &self.kinds {
            if kind.is_none() {
                return node;
            }
            node = node.saturating_add(1);
        }
        node
    }

    // How many pins the gate has.
    fn count(&self, gate: u32) -> u32 {
        let mut count = 0u32;
        for wire in &self.wires {
            if wire.gate == gate {
                count = count.saturating_add(1);
            }
        }
        count
    }

    // Puts a pin last at its gate and at its driver.
    pub fn append(&mut self, gate: u32, driver: u32) -> Result<(), NoMemory> {
        let position = self.count(gate);
        self.wires.push(Wire {
            driver,
            gate,
            position,
        })?;
        Ok(())
    }

    fn add_over(&mut self, kind: Kind, drivers: &[u32]) -> Result<(), NoMemory> {
        let node = self.least_free();
        self.set_kind(node, Some(kind))?;
        for driver in drivers {
            self.append(node, *driver)?;
        }
        Ok(())
    }

    pub fn add(&mut self, gate: Gate) -> Result<(), NoMemory> {
        match gate {
            Gate::And(drivers) => self.add_over(Kind::And, drivers),
            Gate::Or(drivers) => self.add_over(Kind::Or, drivers),
            Gate::Not(driver) => self.add_over(Kind::Not, &[driver]),
            Gate::Xor(one, other) => self.add_over(Kind::Xor, &[one, other]),
        }
    }

    fn remove(&mut self, alloc: Global, gate: u32, position: u32) -> Result<(), NoMemory> {
        let mut left = Vec::new(alloc);
        for wire in &self.wires {
            if wire.gate != gate || wire.position < position {
                left.push(*wire)?;
            } else if wire.position > position {
                left.push(Wire {
                    position: wire.position - 1,
                    ..*wire
                })?;
            }
        }
        self.wires = left;
        Ok(())
    }

    fn redrive(
        &mut self,
        alloc: Global,
        gate: u32,
        position: u32,
        driver: u32,
    ) -> Result<(), NoMemory> {
        let mut left = Vec::new(alloc);
        for wire in &self.wires {
            if wire.gate != gate || wire.position != position {
                left.push(*wire)?;
            }
        }
        left.push(Wire {
            driver,
            gate,
            position,
        })?;
        self.wires = left;
        Ok(())
    }

    fn reread(&mut self, alloc: Global, from: u32, to: u32) -> Result<(), NoMemory> {
        let mut left = Vec::new(alloc);
        for wire in &self.wires {
            if wire.driver != from {
                left.push(*wire)?;
            }
        }
        for wire in &self.wires {
            if wire.driver == from {
                left.push(Wire {
                    driver: to,
                    ..*wire
                })?;
            }
        }
        self.wires = left;
        Ok(())
    }

    fn retire(&mut self, alloc: Global, gate: u32) -> Result<(), NoMemory> {
        let mut left = Vec::new(alloc);
        for wire in &self.wires {
            if wire.gate != gate {
                left.push(*wire)?;
            }
        }
        self.wires = left;
        self.set_kind(gate, None)
    }

    pub fn edit(&mut self, alloc: Global, edit: &Edit) -> Result<(), NoMemory> {
        match *edit {
            Edit::Append { gate, driver } => self.append(gate.0, driver.0),
            Edit::Remove { gate, position } => self.remove(alloc, gate.0, position),
            Edit::Redrive {
                gate,
                position,
                driver,
            } => self.redrive(alloc, gate.0, position, driver.0),
            Edit::Readers { from, to } => self.reread(alloc, from.0, to.0),
            Edit::NewNot { driver } => self.add(Gate::Not(driver.0)),
            Edit::ToNot { gate, position } => {
                self.remove(alloc, gate.0, position)?;
                self.set_kind(gate.0, Some(Kind::Not))
            }
            Edit::Retire { gate } => self.retire(alloc, gate.0),
        }
    }

    fn driver(&self, gate: u32, position: u32) -> u32 {
        for wire in &self.wires {
            if wire.gate == gate && wire.position == position {
                return wire.driver;
            }
        }
        u32::MAX
    }

    pub fn drivers(&self, alloc: Global, gate: u32) -> Result<Vec<u32>, NoMemory> {
        let mut drivers = Vec::new(alloc);
        for position in 0..self.count(gate) {
            drivers.push(self.driver(gate, position))?;
        }
        Ok(drivers)
    }

    pub fn readers(&self, alloc: Global, node: u32) -> Result<Vec<(u32, u32)>, NoMemory> {
        let mut readers = Vec::new(alloc);
        for wire in &self.wires {
            if wire.driver == node && wire.gate != 0 {
                readers.push((wire.gate, wire.position))?;
            }
        }
        Ok(readers)
    }
}
