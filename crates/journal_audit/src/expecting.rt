// The vectors by which faults are about to be settled. They save time, and no answer depends on them.
ghost use Rattle.std.specs.Prelude.{◌≡◌};

use crate::stage::Stage;
use journal_check::Replay;
use journal_text::{Entry, Record};
use rm_base::{NoMemory, Vector};
use std::alloc::Global;

// The vectors of the hits among the entries.
fn vectors_in(alloc: Global, entries: &[Entry]) -> Result<Vec<Vector>, NoMemory> {
    let mut vectors = Vec::new(alloc);
    for entry in entries {
        if let Entry::Record(Record::Hit { vector, .. }) = entry {
            vectors.push(Vector::of(Vec::from_slice(alloc, vector.values())?))?;
        }
    }
    Ok(vectors)
}

// Lets the replay know the vectors of the entries.
fn let_know(alloc: Global, replay: Replay, entries: &[Entry]) -> Replay
    ensures { result ≡ replay }
{
    let mut replay = replay;
    match vectors_in(alloc, entries) {
        Ok(vectors) => replay.expect(vectors),
        Err(NoMemory) => {}
    }
    replay
}

/// The stage, whose replay knows the vectors of the hits among the entries that come next.
pub(crate) fn expect_hits(alloc: Global, stage: Stage, entries: &[Entry]) -> Stage
    ensures { result ≡ stage }
{
    match stage {
        Stage::Header => Stage::Header,
        Stage::Records { replay, tally } => Stage::Records {
            replay: let_know(alloc, replay, entries),
            tally,
        },
        Stage::Ended { graph, tally } => Stage::Ended { graph, tally },
    }
}
