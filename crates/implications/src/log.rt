// What was found, line by line and fact by fact.
ghost use Rattle.std.specs.Prelude.{◌≡◌, ◌<◌, [], OnOk, false, length};
ghost use Rattle.refutation.specs.FactSets.{held_by};
ghost use Rattle.implications.specs.Inner.Working.{Holds, Keeps};

use crate::found::Found;
use refutation::{Fact, FactSet, Line};
use rm_base::{NoMemory, NodeId};

/// The lines of a call, and the facts that were added and not taken back; and the work of all calls together: a unit for each
/// fact that was held, and for each node that a faulty gate reaches.
#[derive(Drop)]
pub struct Log {
    pub lines: Vec<Line>,
    pub trail: Vec<(NodeId, Fact)>,
    pub work_done: u64,
}

// Begins the lines of a call, and tells where the trail ends now.
pub(crate) fn start(log: &mut Log) -> usize
    ensures mark { result ≡ length log.old.trail.items }
    ensures lines { log.new.lines.items ≡ [] }
    ensures trail { log.new.trail.items ≡ log.old.trail.items }
{
    log.lines.clear();
    log.trail.len()
}

// Holds what was found, and logs it.
pub(crate) fn hold(facts: &mut FactSet, log: &mut Log, found: Found) -> Result<(), NoMemory>
    requires node { found.node.0 < length facts.old }
    requires new { held_by facts.old found.node.0 found.fact ≡ false }
    ensures holds { OnOk result (Holds facts.old log.old.lines.items facts.new log.new.lines.items found) }
    ensures keeps { Keeps facts.old log.old.trail.items facts.new log.new.trail.items }
{
    log.lines.push(found.line)?;
    log.trail.push((found.node, found.fact))?;
    log.work_done = log.work_done.saturating_add(1);
    facts.insert(found.node, found.fact);
    Ok(())
}
