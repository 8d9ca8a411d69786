//! The top call.
ghost use Rattle.std.specs.Prelude.{◌≡◌, ◌≤◌, ◌⊎◌, false, map};
ghost use Rattle.std.specs.String.{string_bytes};
ghost use Rattle.rm_base.specs.Causes.{Rose};
ghost use Rattle.word_reading.specs.Words.{asked};
ghost use Rattle.rambo_cli.specs.Commands.{contract_of};
ghost use Rattle.rambo_cli.specs.Contract.{StoreFails};
ghost use Rattle.rambo_cli.specs.Outcome.{EndsBy, EndsDone, EndsFaulty, EndsRefused, EndsWithoutMemory, IsComparedBy, PutsUnlessFailed};
ghost use Rattle.rambo_cli.specs.Problems.{done_status, done_text};
ghost use Rattle.rambo_cli.specs.Inner.Problems.{IsReported, IsPutWith, HasEnded};

use crate::laws::{
    compared_runs_are_told, good_runs_are_done, judged_runs_are_told, others_end_with_0,
};
use crate::lines::{done_line, line};
use crate::problem::Problem;
use crate::work::{Done, work};
use rm_base::Gate;
use rm_base::outside::{OutsideFault, Shelf, Sink};
use rm_model::NameKeys;
use std::alloc::Global;
use std::thread::Threads;

/// Does all that the program does, and answers its status.
///
/// The words are those of `opt IN OUT [JOURNAL]`, `check IN JOURNAL OUT`, `demo SEED`, `flat IN OUT`,
/// `tests IN JOURNAL OUT PATTERNS`, `replay IN JOURNAL OUT`, `convert FROM TO`, `equal A B PROOF`, `judge A B PROOF`,
/// `optcare IN CARE OUT TESTS`, `cut IN WIDTH PREFIX` or `sew IN WIDTH PREFIX OUT`, with their options.
/// A gate lets the pieces of parallel work pass. What each command promises stands in its contract.
pub fn run<R: Threads + Sync, S: Shelf, O: Sink, G: Gate>(
    rt: &R,
    alloc: Global,
    keys: NameKeys,
    words: &[String],
    shelf: &mut S,
    out: &mut O,
    gate: &G,
) -> u8
    ensures status { result ≤ 9 }

    // 0: the command has done what its contract says, which is printed.
    ensures done { result ≡ 0 → EndsDone 0 (contract_of (asked (map string_bytes words.now))) (S.files shelf.old) (S.files shelf.new)
        (O.written out.old) (O.written out.new) }

    // 1: the input has a fault, whose kind and place are printed, and no file has changed.
    ensures unread { result ≡ 1 → EndsBy 1 (contract_of (asked (map string_bytes words.now))) (S.files shelf.old)
        (O.written out.old) (O.written out.new) }
    ensures unread_files { result ≡ 1 → S.files shelf.new ≡ S.files shelf.old }

    // 2: the words ask for no command, and no file has changed.
    ensures refused { result ≡ 2 → EndsRefused (asked (map string_bytes words.now)) (O.written out.old) (O.written out.new) }
    ensures refused_files { result ≡ 2 → S.files shelf.new ≡ S.files shelf.old }

    // 3: a count of faults rose, or a file that is to be read is missing in its turn. The line is printed; or, where standard output
    // itself failed, a beginning of it, or of the one line or summary that a run over these files prints.
    ensures faulty { result ≡ 3 → EndsFaulty (contract_of (asked (map string_bytes words.now))) (S.files shelf.old)
        (S.faults shelf.old) (S.faults shelf.new) (O.faults out.old) (O.faults out.new) }
    ensures faulty_line { result ≡ 3 → PutsUnlessFailed (contract_of (asked (map string_bytes words.now))) (S.files shelf.old) (S.files shelf.new)
        (S.faults shelf.old) (S.faults shelf.new) (O.written out.old) (O.written out.new) (O.faults out.old) (O.faults out.new) }

    // 4: out of memory. The line is printed, unless the sink itself wanted memory.
    ensures memory { result ≡ 4 → EndsWithoutMemory O.may_want (O.written out.old) (O.written out.new) }

    // 5: something of the input is over its limit, or the journal is, which is printed, and no file has changed.
    ensures over { result ≡ 5 → EndsBy 5 (contract_of (asked (map string_bytes words.now))) (S.files shelf.old)
        (O.written out.old) (O.written out.new) }
    ensures over_files { result ≡ 5 → S.files shelf.new ≡ S.files shelf.old }

    // 6: the journal, one of a window or the proof isn't accepted, or the output differs, which is printed, and no file has changed.
    ensures rejected { result ≡ 6 → EndsBy 6 (contract_of (asked (map string_bytes words.now))) (S.files shelf.old)
        (O.written out.old) (O.written out.new) }
    ensures rejected_files { result ≡ 6 → S.files shelf.new ≡ S.files shelf.old }

    // 7: the models of two texts differ. 8: a search spent its whole budget on them. Both are printed, and PROOF is written.
    ensures differ { result ≡ 7 → EndsDone 7 (contract_of (asked (map string_bytes words.now))) (S.files shelf.old) (S.files shelf.new)
        (O.written out.old) (O.written out.new) }
    ensures undecided { result ≡ 8 → EndsDone 8 (contract_of (asked (map string_bytes words.now))) (S.files shelf.old) (S.files shelf.new)
        (O.written out.old) (O.written out.new) }

    // 9: the models of two texts have other sources or observed names, which is printed, and no file has changed.
    ensures unlike { result ≡ 9 → EndsBy 9 (contract_of (asked (map string_bytes words.now))) (S.files shelf.old)
        (O.written out.old) (O.written out.new) }
    ensures unlike_files { result ≡ 9 → S.files shelf.new ≡ S.files shelf.old }

    // Whatever the status is.
    ensures safe { (contract_of (asked (map string_bytes words.now))).Leaves (S.files shelf.old) (S.files shelf.new) }
    ensures untouched { (contract_of (asked (map string_bytes words.now))).needs_files ≡ false → shelf.new ≡ shelf.old }

    // Good words and files, and no fault of the files or of standard output: the command is done, or memory ran out.
    ensures complete { (contract_of (asked (map string_bytes words.now))).IsGood (S.files shelf.old)
        → (StoreFails (contract_of (asked (map string_bytes words.now))) (S.faults shelf.old) (S.faults shelf.new) → ⊥) → (Rose (O.faults out.old) (O.faults out.new) → ⊥)
        → (result ≡ 0) ⊎ (result ≡ 4) }

    // A journal and an output that are there, over an input that can be optimised, or a proof beside two texts whose models have
    // the same names, and no such fault: they are accepted, or the first reason against them is printed, or memory ran out.
    ensures judged { (contract_of (asked (map string_bytes words.now))).IsJudged (S.files shelf.old)
        → (StoreFails (contract_of (asked (map string_bytes words.now))) (S.faults shelf.old) (S.faults shelf.new) → ⊥) → (Rose (O.faults out.old) (O.faults out.new) → ⊥)
        → (result ≡ 0) ⊎ ((result ≡ 6) ⊎ (result ≡ 4)) }

    // Two texts that can be optimised, and no such fault: their models are compared, or memory ran out.
    ensures compared { (contract_of (asked (map string_bytes words.now))).IsCompared (S.files shelf.old)
        → (StoreFails (contract_of (asked (map string_bytes words.now))) (S.faults shelf.old) (S.faults shelf.new) → ⊥) → (Rose (O.faults out.old) (O.faults out.new) → ⊥)
        → IsComparedBy result }
{
    good_runs_are_done();
    judged_runs_are_told();
    compared_runs_are_told();
    others_end_with_0();
    match work(rt, alloc, keys, words, shelf, gate) {
        Ok(done) => finish(alloc, out, &done),
        Err(problem) => report(alloc, out, problem),
    }
}

fn put<O: Sink>(out: &mut O, line: &[u8], status: u8) -> u8
    ensures put { IsPutWith O.may_want status result line.now (O.written out.old) (O.written out.new) (O.faults out.old) (O.faults out.new) }
    ensures later { O.faults out.old ≤ O.faults out.new }
{
    match out.put(line) {
        Ok(()) => status,
        Err(OutsideFault::Failed) => 3,
        Err(OutsideFault::NoMemory) => 4,
    }
}

// Puts what a command has done.
fn finish<O: Sink>(alloc: Global, out: &mut O, done: &Done) -> u8
    ensures ended { HasEnded O.may_want (done_status done.now) (done_text done.now) result (O.written out.old) (O.written out.new) (O.faults out.old) (O.faults out.new) }
    ensures later { O.faults out.old ≤ O.faults out.new }
{
    match done_line(alloc, done) {
        Ok(line) => put(out, line.as_slice(), done.status()),
        Err(_) => put(out, b"memory\n", 4),
    }
}

// Puts what kept the run from ending with 0.
fn report<O: Sink>(alloc: Global, out: &mut O, problem: Problem) -> u8
    ensures reported { IsReported O.may_want problem result (O.written out.old) (O.written out.new) (O.faults out.old) (O.faults out.new) }
    ensures later { O.faults out.old ≤ O.faults out.new }
{
    match line(alloc, problem) {
        Ok(line) => put(out, line.as_slice(), problem.status()),
        Err(_) => put(out, b"memory\n", 4),
    }
}
