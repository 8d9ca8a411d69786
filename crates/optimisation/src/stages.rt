//! The stages of a run: equal gates are merged after a first sweep or after rounds, and rounds go on behind that.
ghost use Rattle.std.specs.Prelude.{◌≡◌, ◌≤◌, ◌+◌, Err, IfOk, OnErr, true};
ghost use Rattle.rm_base.specs.Causes.{Rose};
ghost use Rattle.gate_net.specs.Net.{wire_count};
ghost use Rattle.gate_graph.specs.Circuit.{live_nodes, net_of, pins_taken};
ghost use Rattle.wire_edit.specs.Order.{IsTidy};
ghost use Rattle.journal_text.specs.Appends.{IsThere};
ghost use Rattle.journal_text.specs.Runs.{IsStopped};
ghost use Rattle.journal_text.specs.declared.append.Stop.TheVariants as stop;
ghost use Rattle.merging.specs.Merged.{IsWithin};
ghost use Rattle.optimisation.specs.Inner.Ran.{sum_of};
ghost use Rattle.optimisation.specs.Inner.Staged.{AreUpTo, HasGoneFurther, HasMerged, HasStages};
ghost use Rattle.optimisation.specs.Allowed.{IsAllowed};
ghost use Rattle.optimisation.specs.Ranges.{AreSettings};
ghost use Rattle.cover_decompose.specs.Limits.{most_pins};

use crate::rounds::{Round, Rounds, go_rounds, sweep_depth};
use gate_graph::Graph;
use journal_ranges::records_fit;
use journal_text::{
    Stop, accepted_runs_are_writable, append_records, count_records, runs_join, texts_append,
};
use merging::merge_equal;
use rar_loop::remove_redundant;
use rm_base::{Gate, Made, Settings, Shelf};
use std::alloc::Global;
use std::thread::Threads;

// The graph after merging, its steps by kind, and whether there were any.
#[derive(Drop)]
struct Merged {
    graph: Graph,
    made: Made,
    changed: bool,
}

// Merges equal gates, and records the steps.
fn merge_gates<S: Shelf>(
    alloc: Global,
    graph: Graph,
    settings: &Settings,
    shelf: &mut S,
    journal: &str,
    work: &mut u64,
) -> Result<Merged, Stop>
    requires few { pins_taken graph + live_nodes graph ≤ 1048576 }
    requires settings { AreSettings settings.now }
    requires there { IsThere (S.files shelf.old) journal.now }
    ensures grown { work.old ≤ work.new }
    ensures merged { IfOk result (λ m. HasMerged (net_of graph) (net_of m.graph) m.made m.changed (S.files shelf.old) (S.files shelf.new) journal.now) }
    ensures few { IfOk result (λ m. AreUpTo 35184372088832 m.made) }
    ensures tidy { IfOk result (λ m. IsTidy (net_of m.graph)) }
    ensures within { IfOk result (λ m. IsWithin graph m.graph) }
    ensures stopped { OnErr result (IsStopped (net_of graph) (S.files shelf.old) (S.files shelf.new) journal.now) }
    ensures there { IsThere (S.files shelf.new) journal.now }
    ensures failed { result ≡ Err stop.Failed → Rose (S.faults shelf.old) (S.faults shelf.new) }
    ensures later { S.faults shelf.old ≤ S.faults shelf.new }
{
    accepted_runs_are_writable();
    runs_join();
    texts_append();
    let mut made = Made {
        adds: 0,
        fixes: 0,
        local: 0,
    };
    let (after, records) = merge_equal(alloc, graph, settings.depth, settings.budget, work)?;
    append_records(alloc, shelf, journal, &records)?;
    count_records(&records, &mut made);
    records_fit(&records);
    Ok(Merged {
        graph: after,
        made,
        changed: records.as_slice().len() > 0,
    })
}

// The steps of both.
fn both(made: Made, more: Made) -> Made
    requires adds { made.adds + more.adds ≤ 18446744073709551615 }
    requires fixes { made.fixes + more.fixes ≤ 18446744073709551615 }
    requires local { made.local + more.local ≤ 18446744073709551615 }
    ensures { result ≡ sum_of made more }
{
    Made {
        adds: made.adds + more.adds,
        fixes: made.fixes + more.fixes,
        local: made.local + more.local,
    }
}

// The rounds, with steps and tries of before.
fn counted_on(made: Made, tries: u32, rounds: Rounds) -> Rounds
    requires adds { made.adds + rounds.last.made.adds ≤ 18446744073709551615 }
    requires fixes { made.fixes + rounds.last.made.fixes ≤ 18446744073709551615 }
    requires local { made.local + rounds.last.made.local ≤ 18446744073709551615 }
    requires tries { tries + rounds.last.tries ≤ 4294967295 }
    requires limit { tries + rounds.last.limit ≤ 4294967295 }
    ensures graph { result.last.graph ≡ rounds.last.graph }
    ensures made { result.last.made ≡ sum_of made rounds.last.made }
    ensures tries { result.last.tries ≡ tries + rounds.last.tries }
    ensures limit { result.last.limit ≡ tries + rounds.last.limit }
    ensures settled { result.last.settled ≡ rounds.last.settled }
    ensures report { result.report ≡ rounds.report }
{
    let Rounds { last, report } = rounds;
    let last = Round {
        graph: last.graph,
        made: both(made, last.made),
        tries: tries + last.tries,
        limit: tries + last.limit,
        settled: last.settled,
        start: last.start,
    };
    Rounds { last, report }
}

// What is redundant without any addition goes, and then equal gates are merged: the steps of both.
fn sweep_and_merge<S: Shelf>(
    alloc: Global,
    graph: Graph,
    settings: &Settings,
    shelf: &mut S,
    journal: &str,
    work: &mut u64,
) -> Result<Merged, Stop>
    requires few { pins_taken graph + live_nodes graph ≤ 1048576 }
    requires settings { AreSettings settings.now }
    requires there { IsThere (S.files shelf.old) journal.now }
    ensures grown { work.old ≤ work.new }
    ensures merged { IfOk result (λ m. HasMerged (net_of graph) (net_of m.graph) m.made m.changed (S.files shelf.old) (S.files shelf.new) journal.now) }
    ensures few { IfOk result (λ m. pins_taken m.graph + live_nodes m.graph ≤ 1048576) }
    ensures stopped { OnErr result (IsStopped (net_of graph) (S.files shelf.old) (S.files shelf.new) journal.now) }
    ensures there { IsThere (S.files shelf.new) journal.now }
    ensures failed { result ≡ Err stop.Failed → Rose (S.faults shelf.old) (S.faults shelf.new) }
    ensures later { S.faults shelf.old ≤ S.faults shelf.new }
{
    runs_join();
    texts_append();
    let (swept, made) = remove_redundant(
        alloc,
        graph,
        sweep_depth(settings),
        shelf,
        journal,
        work,
    )?;
    let merged = merge_gates(alloc, swept, settings, shelf, journal, work)?;
    Ok(Merged {
        graph: merged.graph,
        made: both(made, merged.made),
        changed: true,
    })
}

// Whether gates are merged before the first round.
fn merges_first(merge: u8, tries: u32) -> bool
    ensures { result ≡ true → merge ≡ 0 → ⊥ }
{
    match merge {
        0 => false,
        1 => tries == 0,
        _ => true,
    }
}

// Whether gates are merged behind the first rounds.
fn merges_again(merge: u8, tries: u32) -> bool
    ensures { result ≡ true → merge ≡ 0 → ⊥ }
{
    match merge {
        0 => false,
        _ => tries > 0,
    }
}

// The first stage: rounds alone, or behind a sweep and a merging.
fn first_stage<R: Threads + Sync, G: Gate, S: Shelf>(
    rt: &R,
    alloc: Global,
    graph: Graph,
    settings: &Settings,
    gate: &G,
    shelf: &mut S,
    journal: &str,
    work: &mut u64,
) -> Result<Rounds, Stop>
    requires few { pins_taken graph + live_nodes graph ≤ 1048576 }
    requires wires { wire_count (net_of graph) ≤ most_pins }
    requires settings { AreSettings settings.now }
    requires there { IsThere (S.files shelf.old) journal.now }
    ensures allowed { IfOk result (λ r. IsAllowed settings.now r.last.limit work.new) }
    ensures grown { work.old ≤ work.new }
    ensures staged { IfOk result (λ r. HasStages (net_of graph) settings.now r (S.files shelf.old) (S.files shelf.new) journal.now) }
    ensures few { IfOk result (λ r. AreUpTo 4611897124659920896 r.last.made) }
    ensures there { IsThere (S.files shelf.new) journal.now }
    ensures stopped { OnErr result (IsStopped (net_of graph) (S.files shelf.old) (S.files shelf.new) journal.now) }
    ensures failed { result ≡ Err stop.Failed → Rose (S.faults shelf.old) (S.faults shelf.new) }
    ensures later { S.faults shelf.old ≤ S.faults shelf.new }
{
    runs_join();
    texts_append();
    if !merges_first(settings.merge, settings.tries) {
        return go_rounds(rt, alloc, graph, settings, gate, shelf, journal, work);
    }
    let merged = sweep_and_merge(alloc, graph, settings, shelf, journal, work)?;
    let rounds = go_rounds(
        rt,
        alloc,
        merged.graph,
        settings,
        gate,
        shelf,
        journal,
        work,
    )?;
    Ok(counted_on(merged.made, 0, rounds))
}

// A further stage, with the tries that are left; where no gate is merged the rounds stay as they are.
fn further_stage<R: Threads + Sync, G: Gate, S: Shelf>(
    rt: &R,
    alloc: Global,
    rounds: Rounds,
    settings: &Settings,
    gate: &G,
    shelf: &mut S,
    journal: &str,
    work: &mut u64,
) -> Result<Rounds, Stop>
    requires few { pins_taken rounds.last.graph + live_nodes rounds.last.graph ≤ 1048576 }
    requires wires { wire_count (net_of rounds.last.graph) ≤ most_pins }
    requires settings { AreSettings settings.now }
    requires tries { rounds.last.tries ≤ rounds.last.limit }
    requires allowed { IsAllowed settings.now rounds.last.limit work.old }
    requires made { AreUpTo 4611897124659920896 rounds.last.made }
    requires there { IsThere (S.files shelf.old) journal.now }
    ensures allowed { IfOk result (λ r. IsAllowed settings.now r.last.limit work.new) }
    ensures grown { work.old ≤ work.new }
    ensures went { IfOk result (λ r. HasGoneFurther settings.now rounds r (S.files shelf.old) (S.files shelf.new) journal.now) }
    ensures there { IsThere (S.files shelf.new) journal.now }
    ensures stopped { OnErr result (IsStopped (net_of rounds.last.graph) (S.files shelf.old) (S.files shelf.new) journal.now) }
    ensures failed { result ≡ Err stop.Failed → Rose (S.faults shelf.old) (S.faults shelf.new) }
    ensures later { S.faults shelf.old ≤ S.faults shelf.new }
{
    runs_join();
    texts_append();
    let Rounds { last, report } = rounds;
    let Round {
        graph,
        made,
        tries,
        limit,
        settled,
        start,
    } = last;
    let merged = merge_gates(alloc, graph, settings, shelf, journal, work)?;
    if !merged.changed {
        let last = Round {
            graph: merged.graph,
            made,
            tries,
            limit,
            settled,
            start,
        };
        return Ok(Rounds { last, report });
    }
    let left = Settings {
        tries: limit - tries,
        ..*settings
    };
    let more = go_rounds(rt, alloc, merged.graph, &left, gate, shelf, journal, work)?;
    Ok(counted_on(both(made, merged.made), tries, more))
}

/// Goes round by round. By the settings equal gates aren't merged (`merge` is 0); or once the rounds have ended, and without tries
/// after a sweep before they begin (1); or both (2 and more). Where some were merged behind rounds, further rounds have the tries
/// that are left. The units of work come to `work`.
pub(crate) fn go_stages<R: Threads + Sync, G: Gate, S: Shelf>(
    rt: &R,
    alloc: Global,
    graph: Graph,
    settings: &Settings,
    gate: &G,
    shelf: &mut S,
    journal: &str,
    work: &mut u64,
) -> Result<Rounds, Stop>
    requires few { pins_taken graph + live_nodes graph ≤ 1048576 }
    requires wires { wire_count (net_of graph) ≤ most_pins }
    requires settings { AreSettings settings.now }
    requires there { IsThere (S.files shelf.old) journal.now }
    ensures allowed { IfOk result (λ r. IsAllowed settings.now r.last.limit work.new) }
    ensures grown { work.old ≤ work.new }
    ensures staged { IfOk result (λ r. HasStages (net_of graph) settings.now r (S.files shelf.old) (S.files shelf.new) journal.now) }
    ensures there { IsThere (S.files shelf.new) journal.now }
    ensures stopped { OnErr result (IsStopped (net_of graph) (S.files shelf.old) (S.files shelf.new) journal.now) }
    ensures failed { result ≡ Err stop.Failed → Rose (S.faults shelf.old) (S.faults shelf.new) }
    ensures later { S.faults shelf.old ≤ S.faults shelf.new }
{
    runs_join();
    texts_append();
    let rounds = first_stage(rt, alloc, graph, settings, gate, shelf, journal, work)?;
    if !merges_again(settings.merge, settings.tries) {
        return Ok(rounds);
    }
    let more = further_stage(rt, alloc, rounds, settings, gate, shelf, journal, work)?;
    Ok(more)
}
