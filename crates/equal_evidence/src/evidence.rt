// What is shown of two models.
ghost use Rattle.std.specs.Prelude.{◌≡◌};

use equal_miter::Likeness;
use journal_text::Record;
use std::marker::Model;

/// Records of a journal, meant as accepted steps, one after another, from a miter to a net that observes the constant One alone.
#[derive(Debug, Drop)]
pub struct StepRun {
    records: Vec<Record>,
}

impl Model for StepRun {
    ghost use Rattle.std.specs.Prelude.{List};
    ghost use Rattle.journal_text.specs.declared.record.Record.{Record};

    ghost Value = { List Record };

    ghost view = { λ r. r.records.items };
}

impl StepRun {
    /// The run of these records. It takes no memory.
    pub fn of(records: Vec<Record>) -> StepRun
        ensures { result ≡ records.items }
    {
        StepRun { records }
    }

    /// The records, in order.
    pub fn records(&self) -> &[Record]
        ensures { result.now ≡ self.now }
    {
        self.records.as_slice()
    }
}

/// What is shown of two models.
#[derive(Debug, Drop)]
pub enum Evidence {
    /// A tree of the fault of their miter, or a vector that tells them apart.
    Plain(Likeness),
    /// Equal gates of the miter are merged until it observes the constant One alone: the models compute the same.
    Merged(StepRun),
}
