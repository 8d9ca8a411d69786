//! Does what the words ask for.
ghost use Rattle.std.specs.Prelude.{◌≡◌, ◌≤◌, IfErr, IfOk, false, map};
ghost use Rattle.std.specs.String.{string_bytes};
ghost use Rattle.word_reading.specs.Words.{asked};
ghost use Rattle.rambo_cli.specs.Commands.{contract_of};
ghost use Rattle.rambo_cli.specs.Contract.{IsCause};
ghost use Rattle.rambo_cli.specs.Problems.{KeepsFiles, done_status};

use crate::caring::{CareNames, optimise_cared};
use crate::checking::check;
use crate::comparing::{EqualNames, compare};
use crate::converting::convert_file;
use crate::cutting::cut_input;
use crate::flattening::flatten_input;
use crate::judging::judge_proof;
use crate::optimising::{Names, optimise_input};
use crate::problem::Problem;
use crate::replaying::replay_journal;
use crate::showing::show;
use crate::stitching::{SewNames, sew_input};
use crate::summary::CareFigures;
use crate::testing::{TestNames, write_tests};
use crate::verdict::Verdict;
use accepted_steps::Stop;
use optimisation::Figures;
use pattern_text::Counts;
use rm_base::Gate;
use rm_base::outside::Shelf;
use rm_model::NameKeys;
use std::alloc::Global;
use std::thread::Threads;
use word_reading::{Command, read_words};

/// What a command has done.
#[derive(Debug, Drop)]
pub enum Done {
    /// `opt` and `demo`: the figures of the run.
    Optimised(Figures),
    /// `check`: the journal is accepted, with so many records.
    Accepted(u64),
    /// `flat`: the output is one model of so many instances and covers.
    Flattened {
        instances: u32,
        covers: u64,
    },
    /// `tests`: so many patterns are written, and how many faults they detect.
    Tested(Counts),
    /// `replay`: so many steps lead to the output, and what of the journal ends its accepted steps.
    Replayed {
        count: u64,
        stop: Option<Stop>,
    },
    /// `convert`: the journal is written in version 2, with so many records.
    Converted(u64),
    /// `equal`: what is decided of the models.
    Compared(Verdict),
    /// `judge`: the proof is accepted, with so many lines of evidence, and this is what it says.
    Judged {
        count: u64,
        verdict: Verdict,
    },
    /// `optcare`: the figures of the run.
    Cared(CareFigures),
    /// `cut`: so many windows are written, which hand on so many signals.
    Cut {
        windows: u64,
        signals: u64,
    },
    /// `sew`: so many windows, of which so many are replayed, and the wires of the output and of the input.
    Sewn {
        windows: u64,
        replayed: u64,
        wires: u64,
        before: u64,
    },
}

impl Done {
    /// The status of the run.
    pub(crate) fn status(&self) -> u8
        ensures { result ≡ done_status self.now }
    {
        match self {
            Done::Optimised(_figures) => 0,
            Done::Accepted(_count) => 0,
            Done::Flattened {
                instances: _,
                covers: _,
            } => 0,
            Done::Tested(_counts) => 0,
            Done::Replayed { count: _, stop: _ } => 0,
            Done::Converted(_count) => 0,
            Done::Compared(verdict) => verdict.status(),
            Done::Judged {
                count: _,
                verdict: _,
            } => 0,
            Done::Cared(_figures) => 0,
            Done::Cut {
                windows: _,
                signals: _,
            } => 0,
            Done::Sewn {
                windows: _,
                replayed: _,
                wires: _,
                before: _,
            } => 0,
        }
    }
}

/// Does what the words ask for.
pub(crate) fn work<R: Threads + Sync, S: Shelf, G: Gate>(
    rt: &R,
    alloc: Global,
    keys: NameKeys,
    words: &[String],
    shelf: &mut S,
    gate: &G,
) -> Result<Done, Problem>
    ensures done { IfOk result ((contract_of (asked (map string_bytes words.now))).Does (S.files shelf.old) (S.files shelf.new)) }
    ensures cause { IfErr result (IsCause (contract_of (asked (map string_bytes words.now))) (S.files shelf.old) (S.faults shelf.old) (S.faults shelf.new)) }
    ensures unchanged { IfErr result (λ problem. KeepsFiles problem (S.files shelf.old) (S.files shelf.new)) }
    ensures safe { (contract_of (asked (map string_bytes words.now))).Leaves (S.files shelf.old) (S.files shelf.new) }
    ensures untouched { (contract_of (asked (map string_bytes words.now))).needs_files ≡ false → shelf.new ≡ shelf.old }
    ensures later { S.faults shelf.old ≤ S.faults shelf.new }
{
    match read_words(alloc, words)? {
        Command::Opt {
            input,
            output,
            journal,
            settings,
        } => {
            let names = Names {
                input,
                output,
                journal,
            };
            let figures = optimise_input(rt, alloc, keys, shelf, gate, &names, &settings)?;
            Ok(Done::Optimised(figures))
        }
        Command::Check {
            input,
            journal,
            output,
        } => {
            let count = check(alloc, keys, shelf, input, journal, output)?;
            Ok(Done::Accepted(count))
        }
        Command::Demo { seed, settings } => {
            let figures = show(rt, alloc, keys, gate, seed, &settings)?;
            Ok(Done::Optimised(figures))
        }
        Command::Flat { input, output } => {
            let counts = flatten_input(alloc, keys, shelf, input, output)?;
            Ok(Done::Flattened {
                instances: counts.instances,
                covers: counts.covers,
            })
        }
        Command::Tests {
            input,
            journal,
            output,
            patterns,
        } => {
            let names = TestNames {
                input,
                journal,
                output,
                patterns,
            };
            let counts = write_tests(alloc, keys, shelf, &names)?;
            Ok(Done::Tested(counts))
        }
        Command::Replay {
            input,
            journal,
            output,
        } => {
            let replayed = replay_journal(alloc, keys, shelf, input, journal, output)?;
            Ok(Done::Replayed {
                count: replayed.count,
                stop: replayed.stop,
            })
        }
        Command::Convert { from, to } => {
            let count = convert_file(alloc, shelf, from, to)?;
            Ok(Done::Converted(count))
        }
        Command::Equal {
            first,
            second,
            proof,
            settings,
        } => {
            let names = EqualNames {
                first,
                second,
                proof,
            };
            compare(alloc, keys, shelf, &names, &settings)
        }
        Command::Judge {
            first,
            second,
            proof,
        } => {
            let names = EqualNames {
                first,
                second,
                proof,
            };
            judge_proof(alloc, keys, shelf, &names)
        }
        Command::Optcare {
            input,
            care,
            output,
            tests,
            settings,
        } => {
            let names = CareNames {
                input,
                care,
                output,
                tests,
            };
            let figures = optimise_cared(alloc, keys, shelf, &names, &settings)?;
            Ok(Done::Cared(figures))
        }
        Command::Cut {
            input,
            width,
            prefix,
            shift,
        } => {
            let counts = cut_input(alloc, keys, shelf, input, width, prefix, shift)?;
            Ok(Done::Cut {
                windows: counts.windows,
                signals: counts.signals,
            })
        }
        Command::Sew {
            input,
            width,
            prefix,
            output,
            shift,
        } => {
            let names = SewNames {
                input,
                prefix,
                output,
            };
            let counts = sew_input(alloc, keys, shelf, &names, width, shift)?;
            Ok(Done::Sewn {
                windows: counts.windows,
                replayed: counts.replayed,
                wires: counts.wires,
                before: counts.before,
            })
        }
    }
}
