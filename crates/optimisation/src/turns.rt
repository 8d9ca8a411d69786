//! The turns of a run: behind its stages targets are exchanged for wires, and rounds go on behind each turn.
ghost use Rattle.std.specs.Prelude.{◌≡◌, ◌≤◌, ◌+◌, Err, IfOk, IfSome, OnErr, true};
ghost use Rattle.rm_base.specs.Causes.{Rose};
ghost use Rattle.gate_net.specs.Net.{wire_count};
ghost use Rattle.gate_graph.specs.Circuit.{live_nodes, net_of, pins_taken};
ghost use Rattle.journal_text.specs.Appends.{IsThere};
ghost use Rattle.journal_text.specs.Runs.{IsStopped};
ghost use Rattle.journal_text.specs.declared.append.Stop.TheVariants as stop;
ghost use Rattle.optimisation.specs.Inner.Ran.{sum_of};
ghost use Rattle.optimisation.specs.Inner.Turned.{HasTurned, HasTurns, HaveFollowed};
ghost use Rattle.optimisation.specs.Allowed.{IsAllowed};
ghost use Rattle.optimisation.specs.Ranges.{AreSettings};
ghost use Rattle.cover_decompose.specs.Limits.{most_pins};

use crate::rounds::{Round, Rounds, go_rounds};
use crate::stages::go_stages;
use gate_graph::Graph;
use journal_text::{Stop, runs_join, texts_append};
use rar_loop::perturb;
use rm_base::{Gate, Made, Settings, Shelf};
use std::alloc::Global;
use std::thread::Threads;

// The steps of both, where their counts are within 64 bits.
fn sum(made: Made, more: Made) -> Option<Made>
    ensures { IfSome result (λ all. all ≡ sum_of made more) }
{
    Some(Made {
        adds: made.adds.checked_add(more.adds)?,
        fixes: made.fixes.checked_add(more.fixes)?,
        local: made.local.checked_add(more.local)?,
    })
}

// Whether there is any step.
fn is_none(made: Made) -> bool
    ensures { result ≡ true → made.adds + made.fixes + made.local ≡ 0 }
{
    made.adds == 0 && made.fixes == 0 && made.local == 0
}

// The rounds with these steps and tries in place of their own.
fn with_counts(rounds: Rounds, made: Made, tries: u32, limit: u32) -> Rounds
    ensures graph { result.last.graph ≡ rounds.last.graph }
    ensures made { result.last.made ≡ made }
    ensures tries { result.last.tries ≡ tries }
    ensures limit { result.last.limit ≡ limit }
    ensures settled { result.last.settled ≡ rounds.last.settled }
    ensures report { result.report ≡ rounds.report }
{
    let Rounds { last, report } = rounds;
    let last = Round {
        graph: last.graph,
        made,
        tries,
        limit,
        settled: last.settled,
        start: last.start,
    };
    Rounds { last, report }
}

// The rounds behind a turn, counted on from what was before.
fn rounds_behind<R: Threads + Sync, G: Gate, S: Shelf>(
    rt: &R,
    alloc: Global,
    graph: Graph,
    made: Made,
    tries: u32,
    limit: u32,
    settings: &Settings,
    gate: &G,
    shelf: &mut S,
    journal: &str,
    work: &mut u64,
) -> Result<Rounds, Stop>
    requires few { pins_taken graph + live_nodes graph ≤ 1048576 }
    requires wires { wire_count (net_of graph) ≤ most_pins }
    requires settings { AreSettings settings.now }
    requires tries { tries ≤ limit }
    requires allowed { IsAllowed settings.now limit work.old }
    requires there { IsThere (S.files shelf.old) journal.now }
    ensures allowed { IfOk result (λ r. IsAllowed settings.now r.last.limit work.new) }
    ensures grown { work.old ≤ work.new }
    ensures followed { IfOk result (λ r. HaveFollowed settings.now graph made tries limit r (S.files shelf.old) (S.files shelf.new) journal.now) }
    ensures there { IsThere (S.files shelf.new) journal.now }
    ensures stopped { OnErr result (IsStopped (net_of graph) (S.files shelf.old) (S.files shelf.new) journal.now) }
    ensures failed { result ≡ Err stop.Failed → Rose (S.faults shelf.old) (S.faults shelf.new) }
    ensures later { S.faults shelf.old ≤ S.faults shelf.new }
{
    runs_join();
    texts_append();
    let left = Settings {
        tries: limit - tries,
        ..*settings
    };
    let rounds = go_rounds(rt, alloc, graph, &left, gate, shelf, journal, work)?;
    let Some(all) = sum(made, rounds.last.made) else {
        // No journal holds so many steps.
        return Err(Stop::NoMemory);
    };
    let all_tries = tries + rounds.last.tries;
    let all_limit = tries + rounds.last.limit;
    Ok(with_counts(rounds, all, all_tries, all_limit))
}

// A turn, and rounds behind it where something was exchanged; and whether it was.
fn turn_once<R: Threads + Sync, G: Gate, S: Shelf>(
    rt: &R,
    alloc: Global,
    rounds: Rounds,
    settings: &Settings,
    gate: &G,
    shelf: &mut S,
    journal: &str,
    work: &mut u64,
) -> Result<(Rounds, bool), Stop>
    requires few { pins_taken rounds.last.graph + live_nodes rounds.last.graph ≤ 1048576 }
    requires wires { wire_count (net_of rounds.last.graph) ≤ most_pins }
    requires settings { AreSettings settings.now }
    requires tries { rounds.last.tries ≤ rounds.last.limit }
    requires allowed { IsAllowed settings.now rounds.last.limit work.old }
    requires there { IsThere (S.files shelf.old) journal.now }
    ensures allowed { IfOk result (λ r. IsAllowed settings.now r.0.last.limit work.new) }
    ensures grown { work.old ≤ work.new }
    ensures turned { IfOk result (λ r. HasTurned settings.now rounds r.0 r.1 (S.files shelf.old) (S.files shelf.new) journal.now) }
    ensures there { IsThere (S.files shelf.new) journal.now }
    ensures stopped { OnErr result (IsStopped (net_of rounds.last.graph) (S.files shelf.old) (S.files shelf.new) journal.now) }
    ensures failed { result ≡ Err stop.Failed → Rose (S.faults shelf.old) (S.faults shelf.new) }
    ensures later { S.faults shelf.old ≤ S.faults shelf.new }
{
    runs_join();
    texts_append();
    let Rounds { last, report } = rounds;
    let Round {
        graph,
        made,
        tries,
        limit,
        settled,
        start,
    } = last;
    let found = report.found.as_slice();
    let left = Settings {
        tries: limit - tries,
        ..*settings
    };
    let turned = perturb(alloc, graph, &left, shelf, journal, found, work)?;
    let tries = tries + turned.tries;
    if is_none(turned.made) {
        let last = Round {
            graph: turned.graph,
            made,
            tries,
            limit,
            settled,
            start,
        };
        return Ok((Rounds { last, report }, false));
    }
    let Some(made) = sum(made, turned.made) else {
        // No journal holds so many steps.
        return Err(Stop::NoMemory);
    };
    let rounds = rounds_behind(
        rt,
        alloc,
        turned.graph,
        made,
        tries,
        limit,
        settings,
        gate,
        shelf,
        journal,
        work,
    )?;
    Ok((rounds, true))
}

/// Goes stage by stage, and then, as long as pairs were tried in vain and a turn exchanges something, for at most as many turns as
/// the settings say, and none once the work has reached its limit. The units of work come to `work`.
pub(crate) fn go_turns<R: Threads + Sync, G: Gate, S: Shelf>(
    rt: &R,
    alloc: Global,
    graph: Graph,
    settings: &Settings,
    gate: &G,
    shelf: &mut S,
    journal: &str,
    work: &mut u64,
) -> Result<Rounds, Stop>
    requires few { pins_taken graph + live_nodes graph ≤ 1048576 }
    requires wires { wire_count (net_of graph) ≤ most_pins }
    requires settings { AreSettings settings.now }
    requires there { IsThere (S.files shelf.old) journal.now }
    ensures allowed { IfOk result (λ r. IsAllowed settings.now r.last.limit work.new) }
    ensures grown { work.old ≤ work.new }
    ensures turned { IfOk result (λ r. HasTurns (net_of graph) settings.now settings.now.perturb r (S.files shelf.old) (S.files shelf.new) journal.now) }
    ensures there { IsThere (S.files shelf.new) journal.now }
    ensures stopped { OnErr result (IsStopped (net_of graph) (S.files shelf.old) (S.files shelf.new) journal.now) }
    ensures failed { result ≡ Err stop.Failed → Rose (S.faults shelf.old) (S.faults shelf.new) }
    ensures later { S.faults shelf.old ≤ S.faults shelf.new }
{
    runs_join();
    texts_append();
    let mut rounds = go_stages(rt, alloc, graph, settings, gate, shelf, journal, work)?;
    for turn in 0..settings.perturb {
        if !rounds.last.settled {
            return Ok(rounds);
        }
        if settings.is_worked_off(*work) {
            return Ok(rounds);
        }
        let (more, changed) = turn_once(rt, alloc, rounds, settings, gate, shelf, journal, work)?;
        rounds = more;
        if !changed {
            return Ok(rounds);
        }
    }
    Ok(rounds)
}
