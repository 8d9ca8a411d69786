//! Journals against what is worked out by hand.
ghost use Rattle.std.specs.Prelude.{◌≡◌, true};
ghost use Rattle.journal_check.specs.Replaying.{IsLocalTree, IsStepTree};

mod texts;

use self::texts::{ACCEPTED, CHANGES, FIRST_RECORDS, SHORT_JOURNALS};
use crate::worked::{FOUR_GATES, FOUR_GATES_JOURNAL, read, replace_part};
use journal_check::{JournalRefusal, Replay, replay};
use journal_text::{Record, read_journal};
use refutation::Tree;
use std::alloc::Global;
use std::test::Fail;
use wire_edit::Step;

// Whether a step has a tree only where it may have one.
fn is_step_local(step: Step, tree: &Tree) -> bool
    ensures { result ≡ true → IsStepTree step tree.now }
{
    let none = tree.items().is_empty();
    match step {
        Step::Add { gate: _, node: _ } => true,
        Step::Fix {
            gate: _,
            position: _,
            value: _,
        } => true,
        Step::NewNot { node: _ } => none,
        Step::Const {
            gate: _,
            position: _,
        } => none,
        Step::Same {
            gate: _,
            position: _,
        } => none,
        Step::NoPins { gate: _ } => none,
        Step::OnePin { gate: _ } => none,
        Step::Twice { gate: _ } => none,
        Step::Twin { gate: _, other: _ } => none,
        Step::Dead { gate: _ } => none,
    }
}

fn is_local(given: &Record) -> bool
    ensures { result ≡ true → IsLocalTree given.now }
{
    match given {
        Record::Step { step, tree } => is_step_local(*step, tree),
        Record::Hit {
            fault: _,
            vector: _,
        } => true,
        Record::Spent { fault: _, tree: _ } => true,
    }
}

// One more record, and whether it is refused. After a refusal it asks again.
fn is_refused(replay: &mut Replay, given: &Record) -> Result<bool, Fail> {
    if !is_local(given) {
        return Err("a tree where none may be".into());
    }
    if let Err(_refusal) = replay.step(given) {
        return match replay.step(given) {
            Ok(()) => Err("accepted after a refusal".into()),
            Err(_again) => Ok(true),
        };
    }
    Ok(false)
}

// All records, and then the end. After a refusal the end is asked.
fn replay_all(replay: Replay, records: &[Record]) -> Result<Result<(), JournalRefusal>, Fail> {
    let mut replay = replay;
    for given in records {
        if is_refused(&mut replay, given)? {
            break;
        }
    }
    match replay.finish() {
        Ok(_graph) => Ok(Ok(())),
        Err(refusal) => Ok(Err(refusal)),
    }
}

// What the records over the net of a model are answered.
fn answer_of(
    alloc: Global,
    text: &str,
    budget: u32,
    records: &[Record],
) -> Result<Result<(), JournalRefusal>, Fail> {
    let model = read(alloc, text)?;
    if records.is_empty() {
        return Ok(match replay(alloc, &model, budget, &[]) {
            Ok(_graph) => Ok(()),
            Err(refusal) => Err(refusal),
        });
    }
    let Ok(begun) = Replay::new(alloc, &model, budget) else {
        return Err("no replay".into());
    };
    replay_all(begun, records)
}

// What a journal over the net of a model is answered, in words.
fn said(alloc: Global, net: &str, text: &str) -> Result<String, Fail> {
    let (budget, records) = match read_journal(alloc, text.as_bytes()) {
        Ok(read) => read,
        Err(fault) => return Ok(format!(in alloc; "{fault:?}")?),
    };
    match answer_of(alloc, net, budget, records.as_slice())? {
        Ok(()) => Ok(format!(in alloc; "accepted {}", records.len())?),
        Err(refusal) => Ok(format!(in alloc; "{} {:?}", refusal.number, refusal.why)?),
    }
}

fn agrees(alloc: Global, net: &str, text: &str, wanted: &str) -> Result<(), Fail> {
    let got = said(alloc, net, text)?;
    if got.as_str() == wanted {
        Ok(())
    } else {
        Err(got.into())
    }
}

// Each kind of record is accepted somewhere among these.
#[test]
fn journals_are_accepted(rt: HostRuntime) -> Result<(), Fail> {
    let alloc = rt.alloc();
    for (net, text, wanted) in ACCEPTED {
        agrees(alloc, net, text, wanted)?;
    }
    Ok(())
}

// A part of the worked journal is replaced.
#[test]
fn changed_journals_are_refused(rt: HostRuntime) -> Result<(), Fail> {
    let alloc = rt.alloc();
    for (old, new, wanted) in CHANGES {
        let text = replace_part(alloc, FOUR_GATES_JOURNAL, old, new)?;
        agrees(alloc, FOUR_GATES, &text, wanted)?;
    }
    Ok(())
}

// The first record over the four gates is refused.
#[test]
fn first_records_are_refused(rt: HostRuntime) -> Result<(), Fail> {
    let alloc = rt.alloc();
    for (record, why) in FIRST_RECORDS {
        let text = format!(in alloc; "rambo 1 2\n{record}\nend\n")?;
        agrees(alloc, FOUR_GATES, &text, why)?;
    }
    Ok(())
}

#[test]
fn short_journals_are_refused(rt: HostRuntime) -> Result<(), Fail> {
    let alloc = rt.alloc();
    for (net, records, wanted) in SHORT_JOURNALS {
        let text = format!(in alloc; "rambo 1 2\n{records}end\n")?;
        agrees(alloc, net, &text, wanted)?;
    }
    Ok(())
}

// More steps than one trial has room for.
#[test]
fn many_steps_are_replayed(rt: HostRuntime) -> Result<(), Fail> {
    let alloc = rt.alloc();
    let mut text = String::from_str(alloc, "rambo 1 256\n")?;
    for _ in 0..520 {
        text.push_str("not 2\ndead 10\n")?;
    }
    text.push_str("end\n")?;
    let wanted =
        "1041 FaultMissing { fault: Fault { gate: NodeId(6), position: 0, value: false } }";
    agrees(alloc, FOUR_GATES, &text, wanted)
}
