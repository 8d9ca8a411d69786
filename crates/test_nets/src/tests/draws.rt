//! Edits that look as if drawn by chance, and how many were made of each kind.
ghost use Rattle.std.specs.Prelude.{◌<◌};

use gate_graph::Edit;
use rm_base::NodeId;

// Numbers that look as if drawn by chance.
#[derive(Drop)]
pub struct Draw {
    pub state: u32,
}

impl Draw {
    pub fn next(&mut self, below: u32) -> u32
        requires { 0 < below }
    {
        self.state = self.state.wrapping_mul(1664525).wrapping_add(1013904223);
        (self.state >> 8) % below
    }

    // A number below the bound.
    pub fn node(&mut self, bound: u32) -> NodeId {
        NodeId(self.next(bound.max(1)))
    }

    // An edit of nodes below the bound.
    pub fn edit(&mut self, bound: u32) -> Edit {
        let gate = self.node(bound);
        let driver = self.node(bound);
        let position = self.next(4);
        match self.next(18) {
            0..6 => Edit::Append { gate, driver },
            6..9 => Edit::Remove { gate, position },
            9..13 => Edit::Redrive {
                gate,
                position,
                driver,
            },
            13 => Edit::Readers {
                from: gate,
                to: driver,
            },
            14 => Edit::NewNot { driver },
            15 | 16 => Edit::ToNot {
                gate,
                position: position % 2,
            },
            _ => Edit::Retire { gate },
        }
    }
}

// How many edits of each kind were made.
#[derive(Drop)]
pub struct Tally {
    append: u32,
    remove: u32,
    redrive: u32,
    readers: u32,
    new_not: u32,
    to_not: u32,
    retire: u32,
}

impl Tally {
    pub fn new() -> Tally {
        Tally {
            append: 0,
            remove: 0,
            redrive: 0,
            readers: 0,
            new_not: 0,
            to_not: 0,
            retire: 0,
        }
    }

    pub fn count(&mut self, edit: &Edit) {
        match *edit {
            Edit::Append { gate: _, driver: _ } => self.append = self.append.saturating_add(1),
            Edit::Remove {
                gate: _,
                position: _,
            } => self.remove = self.remove.saturating_add(1),
            Edit::Redrive {
                gate: _,
                position: _,
                driver: _,
            } => self.redrive = self.redrive.saturating_add(1),
            Edit::Readers { from: _, to: _ } => self.readers = self.readers.saturating_add(1),
            Edit::NewNot { driver: _ } => self.new_not = self.new_not.saturating_add(1),
            Edit::ToNot {
                gate: _,
                position: _,
            } => self.to_not = self.to_not.saturating_add(1),
            Edit::Retire { gate: _ } => self.retire = self.retire.saturating_add(1),
        }
    }

    // The least of the seven numbers.
    pub fn least(&self) -> u32 {
        self.append
            .min(self.remove)
            .min(self.redrive)
            .min(self.readers)
            .min(self.new_not)
            .min(self.to_not)
            .min(self.retire)
    }

    pub fn sum(&self) -> u32 {
        self.append
            .saturating_add(self.remove)
            .saturating_add(self.redrive)
            .saturating_add(self.readers)
            .saturating_add(self.new_not)
            .saturating_add(self.to_not)
            .saturating_add(self.retire)
    }
}
