// In which lanes the other value of a node is seen, noted by node.
ghost use Rattle.std.specs.Prelude.{◌≡◌, ℕ, IfOk, List, None, Some, length, replicate, slice_get, slice_set};
ghost use Rattle.gate_net.specs.Net.{Net};
ghost use Rattle.fault_sim.specs.Observing.{AreObservabilities};
ghost use Rattle.fault_sim.specs.Inner.Notes.{IsNoteFound};
ghost use Rattle.fault_sim.specs.declared.observabilities.Note.{Note};

use rm_base::{NoMemory, NodeId};
use std::alloc::Global;
use std::marker::Model;

/// What is noted of a node, where the stamp is the present one.
#[derive(Clone, Copy, Debug, PartialEq, Eq)]
pub struct Note {
    pub(crate) stamp: u32,
    pub(crate) word: u64,
}

/// The observabilities of nodes under one block of 64 vectors on one net: for each node that was asked the lanes in which
/// an observed node differs where it has its other value. Behind a gate its faults differ in nothing else, and in a
/// fanout-free region all lead through the stem, so that these faults share the work (stem analysis and critical path
/// tracing: Abramovici, Menon and Miller 1984; a fault under a word of patterns: Waicukauski et al. 1985). What is noted is
/// right for that net and those vectors alone, and is to be forgotten before others. It takes 16 bytes for a node number, and
/// forgetting takes no time but once in four billion times.
#[derive(Debug, Drop)]
pub struct Observabilities {
    stamp: u32,
    notes: Vec<Note>,
}

impl Model for Observabilities {
    ghost use Rattle.std.specs.Prelude.{List, Option, ℕ};

    ghost Value = { List (Option ℕ) };

    ghost use Rattle.std.specs.Prelude.{◌<◌, map};
    ghost use Rattle.fault_sim.specs.Inner.Notes.{AreStamped, word_noted};

    ghost view = { λ s. map (word_noted s.stamp) s.notes.items };

    ghost invariant = { λ s. (0 < s.stamp) × AreStamped s.stamp s.notes.items };
}

// Takes the stamps off all.
fn clear(notes: &mut Vec<Note>)
    ensures cleared { (k : ℕ) (note : Note) → slice_get notes.new.items k ≡ Some note → note.stamp ≡ 0 }
    ensures room { length notes.new.items ≡ length notes.old.items }
{
    for number in 0..notes.len() {
        notes[number] = Note { stamp: 0, word: 0 };
    }
}

impl Observabilities {
    /// Room for node numbers below that one, of which nothing is noted. Of other numbers nothing is ever noted.
    pub fn new(alloc: Global, numbers: usize) -> Result<Observabilities, NoMemory>
        ensures none { IfOk result (λ s. s ≡ replicate numbers None) }
        ensures right { IfOk result (λ s. (net : Net) (words : List ℕ) → AreObservabilities s net words) }
    {
        let notes = vec![in alloc; Note { stamp: 0, word: 0 }; numbers]?;
        Ok(Observabilities { stamp: 1, notes })
    }

    /// Nothing is noted any more.
    pub fn forget(&mut self)
        ensures none { self.new ≡ replicate (length self.old) None }
        ensures right { (net : Net) (words : List ℕ) → AreObservabilities self.new net words }
    {
        if self.stamp == u32::MAX {
            clear(&mut self.notes);
            self.stamp = 1;
        } else {
            self.stamp += 1;
        }
    }

    // What is noted of the node.
    pub(crate) fn noted(&self, node: NodeId) -> Option<u64>
        ensures { IsNoteFound self.now node.0 result }
    {
        let Some(note) = self.notes.get(node.0 as usize) else {
            return None;
        };
        if note.stamp == self.stamp {
            Some(note.word)
        } else {
            None
        }
    }

    // Notes a word of the node, where there is room.
    pub(crate) fn note(&mut self, node: NodeId, word: u64)
        ensures { self.new ≡ slice_set self.old node.0 (Some word) }
    {
        let number = node.0 as usize;
        if number >= self.notes.len() {
            return;
        }
        self.notes[number] = Note {
            stamp: self.stamp,
            word,
        };
    }
}
