//! How the layers compose.
ghost use Rattle.rambo_cli.specs.Inner.Complete.{ComparedRunsAreTold, GoodRunsAreDone, JudgedRunsAreTold, OthersEndWith0};
ghost use Rattle.rambo_cli.specs.Composition.{KeptNetsFit, ReplaysAreWritten, RunsAreWritten};
ghost use Rattle.rambo_cli.specs.Inner.Composition.{PassedAuditsTell};
ghost use Rattle.rambo_cli.specs.Inner.Optcare.{CaredNetsAreWritten};

use blif_format::reads_once;
use blif_reader::texts_keep_limits;
use blif_writer::{read_texts_are_faultless, written_texts_read};
use care_opt::extracts_keep_faults;
use closing_pass::tidy_nets_have_sources;
use cover_decompose::{decompositions_are_formed, decompositions_stand};
use gate_net::values_exist;
use graph_to_model::{tidy_nets_have_models, tidy_nets_have_small_models};
use journal_audit::problems_exclude;
use journal_check::accepted_journals_tell;
use journal_text::journals_are_one;
use model_faults::laws::tidy_nets_have_model_faults;

/// A net that keeps what is observed of the decomposition has the sources and the observed points of the model.
pub fn kept_nets_fit()
    ensures { KeptNetsFit }
{
    values_exist();
}

/// The journal and the text of the last net of a run over a model are what the headline says.
pub fn runs_are_written()
    ensures { RunsAreWritten }
{
    values_exist();
    tidy_nets_have_models();
    tidy_nets_have_model_faults();
    tidy_nets_have_small_models();
    written_texts_read();
    read_texts_are_faultless();
    texts_keep_limits();
}

/// The text of the net to which accepted steps lead, tidied, is what is written for them.
pub fn replays_are_written()
    ensures { ReplaysAreWritten }
{
    values_exist();
    tidy_nets_have_models();
    tidy_nets_have_small_models();
    written_texts_read();
    read_texts_are_faultless();
    texts_keep_limits();
}

/// What remains of a model under a care model is written as the records of its faults and the text of its net.
pub(crate) fn cared_nets_are_written()
    ensures { CaredNetsAreWritten }
{
    tidy_nets_have_models();
    tidy_nets_have_model_faults();
    tidy_nets_have_small_models();
    tidy_nets_have_sources();
    extracts_keep_faults();
    written_texts_read();
    read_texts_are_faultless();
    texts_keep_limits();
}

/// An output that passes the audit is the text of a model that gives the outputs and the latch pins of the original.
pub fn passed_audits_tell()
    ensures { PassedAuditsTell }
{
    values_exist();
    decompositions_stand();
    decompositions_are_formed();
    accepted_journals_tell();
    tidy_nets_have_models();
}

/// Where words and files are good, nothing but the outside keeps a run from its end.
pub fn good_runs_are_done()
    ensures { GoodRunsAreDone }
{
    reads_once();
    problems_exclude();
    journals_are_one();
}

/// Where a journal and an output are there to be judged, nothing but the outside and what is found of them keeps a run from its end.
pub fn judged_runs_are_told()
    ensures { JudgedRunsAreTold }
{}

/// Where two texts can be compared, nothing but the outside and unlike names keep a run from deciding.
pub fn compared_runs_are_told()
    ensures { ComparedRunsAreTold }
{}

/// What is done of good files, or of files that are judged, has status 0.
pub fn others_end_with_0()
    ensures { OthersEndWith0 }
{}
