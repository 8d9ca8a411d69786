// Replaying all records of a journal.
ghost use Rattle.std.specs.Prelude.{◌≡◌, ◌≢◌, ◌<◌, ◌≤◌, ◌^◌, IfErr, IfOk, None, length};
ghost use Rattle.std.specs.List.{AllByRecursion};
ghost use Rattle.gate_graph.specs.Circuit.{net_of};
ghost use Rattle.rm_model.specs.Ranks.{first_without_rank};
ghost use Rattle.rm_model.specs.Value.{observed_names, source_names};
ghost use Rattle.rm_model.specs.WellFormed.{IsWellFormed};
ghost use Rattle.cover_decompose.specs.Count.{decomposed};
ghost use Rattle.cover_decompose.specs.Decomposition.{net_of_model};
ghost use Rattle.cover_decompose.specs.StandsFor.{HasPoints, StandsFor};
ghost use Rattle.journal_check.specs.Accepts.{IsAccepted};
ghost use Rattle.journal_check.specs.Replaying.{IsLocalTree, IsRefusedAt, editing};
ghost use Rattle.journal_check.specs.declared.refusal.Why.TheVariants as why;
ghost use Rattle.cover_decompose.specs.Limits.{most_pins};

use crate::laws::{accepted_stand, replays_accept};
use crate::refusal::{JournalRefusal, Why};
use crate::replaying::Replay;
use cover_decompose::DecomposeRefusal;
use gate_graph::Graph;
use journal_text::Record;
use rm_model::RankedModel;
use std::alloc::Global;

/// Replays all records from the decomposition of the model, and gives the last net where they are accepted.
pub fn replay(
    alloc: Global,
    model: &RankedModel,
    budget: u32,
    records: &[Record],
) -> Result<Graph, JournalRefusal>
    requires formed { IsWellFormed model.now }
    requires ranked { first_without_rank model.now ≡ None }
    requires covers { length model.now.covers < 2 ^ 32 }
    requires sources { length (source_names model.now) ≤ 1024 }
    requires observed { length (observed_names model.now) ≤ 4096 }
    requires few { decomposed model.now ≤ most_pins }
    requires trees { AllByRecursion IsLocalTree records.now }
    ensures accepted { IfOk result (λ g. IsAccepted model.now budget records.now (net_of g)) }
    ensures stands { IfOk result (λ g. StandsFor (net_of g) model.now × HasPoints (net_of g) model.now) }
    ensures refused { IfErr result (λ e. e.why ≢ why.NoMemory → IsRefusedAt budget (editing (net_of_model model.now)) records.now 1 e.number e.why) }
{
    replays_accept();
    accepted_stand();
    let mut replay = match Replay::new(alloc, model, budget) {
        Ok(replay) => replay,
        Err(DecomposeRefusal::Limit { pins: _ }) => unreachable!(),
        Err(DecomposeRefusal::NoMemory) => {
            return Err(JournalRefusal {
                number: 1,
                why: Why::NoMemory,
            });
        }
    };
    for given in records {
        replay.step(given)?;
    }
    replay.finish()
}
