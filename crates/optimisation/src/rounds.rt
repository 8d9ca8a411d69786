// Rounds: the addition loop and then the closing pass, until the pass fixes nothing.
ghost use Rattle.std.specs.Prelude.{◌≡◌, ◌≢◌, ◌≤◌, ◌<◌, ◌+◌, ◌-◌, ◌⊎◌, Err, IfOk, OnErr, OnOk, IfErr};
ghost use Rattle.rm_base.specs.Causes.{Rose};
ghost use Rattle.gate_net.specs.Net.{wire_count};
ghost use Rattle.gate_graph.specs.Circuit.{live_nodes, net_of, pins_taken};
ghost use Rattle.wire_edit.specs.Order.{IsTidy};
ghost use Rattle.candidate_wires.specs.declared.candidate.Outcome.TheVariants.{Settled};
ghost use Rattle.journal_text.specs.Appends.{IsThere};
ghost use Rattle.journal_text.specs.Runs.{IsStopped};
ghost use Rattle.journal_text.specs.declared.append.Stop.TheVariants as stop;
ghost use Rattle.rar_loop.specs.Ended.{allowed_to};
ghost use Rattle.rar_loop.specs.Rounds.{is_settled, tries_of};
ghost use Rattle.rm_base.specs.Work.{IsWorkedOff};
ghost use Rattle.optimisation.specs.Allowed.{IsAllowed};
ghost use Rattle.optimisation.specs.Inner.Ended.{HasEnded};
ghost use Rattle.optimisation.specs.Inner.Ran.{AreBounded, HasGoneOn, HasRecorded, sum_of};
ghost use Rattle.closing_pass.specs.Reports.{made_in};
ghost use Rattle.optimisation.specs.Ranges.{AreSettings};
ghost use Rattle.cover_decompose.specs.Limits.{most_pins};

use candidate_wires::Outcome;
use closing_pass::{Report, close_before_tries, close_faults};
use gate_graph::Graph;
use journal_text::{Stop, runs_join, texts_append};
use rar_loop::{optimise, remove_redundant, run_begins, run_goes_on};
use rm_base::{Fault, Gate, Made, Settings, Shelf};
use std::alloc::Global;
use std::thread::Threads;

/// The graph after the addition loop of a round, the steps and the tries so far, how many tries are allowed, whether the loop
/// tried all pairs in vain, and the target at which its turns begin. As many tries are allowed as the settings say, or, once a
/// loop was cut short, as many as were made.
#[derive(Drop)]
pub(crate) struct Round {
    pub(crate) graph: Graph,
    pub(crate) made: Made,
    pub(crate) tries: u32,
    pub(crate) limit: u32,
    pub(crate) settled: bool,
    pub(crate) start: Option<Fault>,
}

/// The last round, whose closing pass fixed nothing.
#[derive(Drop)]
pub(crate) struct Rounds {
    pub(crate) last: Round,
    pub(crate) report: Report,
}

fn tries_of(outcome: &Outcome) -> u32
    ensures { result ≡ tries_of outcome.now }
{
    match outcome {
        Outcome::Settled { tries } => *tries,
        Outcome::TriesSpent { tries, at: _ } => *tries,
    }
}

fn is_settled(outcome: &Outcome) -> bool
    ensures { result ≡ is_settled outcome.now }
{
    match outcome {
        Outcome::Settled { tries: _ } => true,
        Outcome::TriesSpent { tries: _, at: _ } => false,
    }
}

// How many tries are allowed after a call that was given those that were left.
fn limit_after(outcome: &Outcome, tries: u32, limit: u32) -> u32
    requires tries { tries ≤ limit }
    requires within { tries_of outcome.now ≤ limit - tries }
    ensures { result ≡ tries + allowed_to (limit - tries) outcome.now }
{
    match outcome {
        Outcome::Settled { tries: _ } => limit,
        Outcome::TriesSpent { tries: more, at: _ } => tries + *more,
    }
}

// With the steps of a closing pass and of a further call.
fn sum_of(made: Made, fixed: u32, local: u64, more: Made) -> Made
    requires adds { made.adds + more.adds ≤ 18446744073709551615 }
    requires fixes { made.fixes + fixed + more.fixes ≤ 18446744073709551615 }
    requires local { made.local + local + more.local ≤ 18446744073709551615 }
    ensures { result ≡ record { adds = made.adds + more.adds; fixes = made.fixes + fixed + more.fixes; local = made.local + local + more.local } }
{
    Made {
        adds: made.adds + more.adds,
        fixes: made.fixes + u64::from(fixed) + more.fixes,
        local: made.local + local + more.local,
    }
}

// A round after a closing pass: the addition loop with the tries that are left.
fn further_round<S: Shelf>(
    alloc: Global,
    graph: Graph,
    report: &Report,
    made: Made,
    tries: u32,
    limit: u32,
    start: Option<Fault>,
    settings: &Settings,
    shelf: &mut S,
    journal: &str,
    work: &mut u64,
) -> Result<Round, Stop>
    requires few { pins_taken graph + live_nodes graph ≤ 1048576 }
    requires settings { AreSettings settings.now }
    requires tries { tries ≤ limit }
    requires limit { limit ≤ settings.now.tries }
    requires adds { made.adds ≤ 4611826755915743232 }
    requires fixes { made.fixes ≤ 4611826755915743232 }
    requires local { (made.local ≤ 4611826755915743232) × (report.now.local ≤ 35184372088832) }
    requires there { IsThere (S.files shelf.old) journal.now }
    ensures went { IfOk result (λ r. HasGoneOn settings.now graph (sum_of made (made_in report.now)) tries limit start r (S.files shelf.old) (S.files shelf.new) journal.now) }
    ensures within { IfOk result (λ r. r.limit ≤ limit) }
    ensures cut_short { IfOk result (λ r. (r.limit ≡ limit) ⊎ IsWorkedOff settings.now work.new) }
    ensures grown { work.old ≤ work.new }
    ensures there { IsThere (S.files shelf.new) journal.now }
    ensures stopped { OnErr result (IsStopped (net_of graph) (S.files shelf.old) (S.files shelf.new) journal.now) }
    ensures failed { result ≡ Err stop.Failed → Rose (S.faults shelf.old) (S.faults shelf.new) }
    ensures later { S.faults shelf.old ≤ S.faults shelf.new }
{
    let left = Settings {
        tries: limit - tries,
        ..*settings
    };
    let found = report.found.as_slice();
    let mut start = start;
    let (graph, outcome, more) = optimise(
        alloc, graph, &left, shelf, journal, found, &mut start, work,
    )?;
    Ok(Round {
        graph,
        made: sum_of(made, report.fixed, report.local, more),
        tries: tries + tries_of(&outcome),
        limit: limit_after(&outcome, tries, limit),
        settled: is_settled(&outcome),
        start,
    })
}

/// The depth of a sweep before the first addition: 1 at least, as what a sweep leaves is found by searches, which cost more.
pub(crate) fn sweep_depth(settings: &Settings) -> u8
    requires { settings.now.depth ≤ 2 }
    ensures { result ≤ 2 }
{
    settings.depth.max(1)
}

// The first round: what is redundant without any addition goes, by a sweep and a closing pass, whose vectors serve the
// addition loop; and then the loop with all tries.
fn first_round<R: Threads + Sync, G: Gate, S: Shelf>(
    rt: &R,
    alloc: Global,
    graph: Graph,
    settings: &Settings,
    gate: &G,
    shelf: &mut S,
    journal: &str,
    work: &mut u64,
) -> Result<Round, Stop>
    requires few { pins_taken graph + live_nodes graph ≤ 1048576 }
    requires wires { wire_count (net_of graph) ≤ most_pins }
    requires settings { AreSettings settings.now }
    requires there { IsThere (S.files shelf.old) journal.now }
    ensures ran { IfOk result (λ r. HasRecorded (net_of graph) settings.now r (S.files shelf.old) (S.files shelf.new) journal.now) }
    ensures allowed { IfOk result (λ r. IsAllowed settings.now r.limit work.new) }
    ensures grown { work.old ≤ work.new }
    ensures there { IsThere (S.files shelf.new) journal.now }
    ensures stopped { OnErr result (IsStopped (net_of graph) (S.files shelf.old) (S.files shelf.new) journal.now) }
    ensures failed { result ≡ Err stop.Failed → Rose (S.faults shelf.old) (S.faults shelf.new) }
    ensures later { S.faults shelf.old ≤ S.faults shelf.new }
{
    run_begins();
    runs_join();
    texts_append();
    let (swept, made) = remove_redundant(
        alloc,
        graph,
        sweep_depth(settings),
        shelf,
        journal,
        work,
    )?;
    let (closed, report) = close_before_tries(
        rt, alloc, swept, settings, gate, shelf, journal, work,
    )?;
    let round = further_round(
        alloc,
        closed,
        &report,
        made,
        0,
        settings.tries,
        None,
        settings,
        shelf,
        journal,
        work,
    )?;
    Ok(round)
}

/// Goes round by round until a closing pass fixes nothing. The units of work come to `work`.
pub(crate) fn go_rounds<R: Threads + Sync, G: Gate, S: Shelf>(
    rt: &R,
    alloc: Global,
    graph: Graph,
    settings: &Settings,
    gate: &G,
    shelf: &mut S,
    journal: &str,
    work: &mut u64,
) -> Result<Rounds, Stop>
    requires few { pins_taken graph + live_nodes graph ≤ 1048576 }
    requires wires { wire_count (net_of graph) ≤ most_pins }
    requires settings { AreSettings settings.now }
    requires there { IsThere (S.files shelf.old) journal.now }
    ensures allowed { IfOk result (λ r. IsAllowed settings.now r.last.limit work.new) }
    ensures grown { work.old ≤ work.new }
    ensures ended { IfOk result (λ r. HasEnded (net_of graph) settings.now r (S.files shelf.old) (S.files shelf.new) journal.now) }
    ensures there { IsThere (S.files shelf.new) journal.now }
    ensures stopped { OnErr result (IsStopped (net_of graph) (S.files shelf.old) (S.files shelf.new) journal.now) }
    ensures failed { result ≡ Err stop.Failed → Rose (S.faults shelf.old) (S.faults shelf.new) }
    ensures later { S.faults shelf.old ≤ S.faults shelf.new }
{
    run_goes_on();
    runs_join();
    texts_append();
    let mut round = first_round(rt, alloc, graph, settings, gate, shelf, journal, work)?;
    loop {
        let Round {
            graph,
            made,
            tries,
            limit,
            settled,
            start,
        } = round;
        let (closed, report) = close_faults(
            rt, alloc, graph, settings, gate, shelf, journal, work,
        )?;
        if report.fixed == 0 {
            let last = Round {
                graph: closed,
                made,
                tries,
                limit,
                settled,
                start,
            };
            return Ok(Rounds { last, report });
        }
        round = further_round(
            alloc, closed, &report, made, tries, limit, start, settings, shelf, journal, work,
        )?;
    }
}
