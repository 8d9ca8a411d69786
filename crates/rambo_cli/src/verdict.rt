//! What is decided of two models.
ghost use Rattle.std.specs.Prelude.{◌≡◌};
ghost use Rattle.rambo_cli.specs.Verdicts.{likeness_verdict, records_in, verdict_of, verdict_status};

use equal_evidence::Evidence;
use equal_miter::Likeness;
use rm_base::Vector;

/// What is decided of two models.
#[derive(Debug, Drop)]
pub enum Verdict {
    /// They compute the same.
    Equal,
    /// They differ under these values of the sources.
    Differ(Vector),
    /// A search entered so many edges, as many as it may.
    Undecided(u32),
}

impl Verdict {
    /// The status of a run that decides.
    pub(crate) fn status(&self) -> u8
        ensures { result ≡ verdict_status self.now }
    {
        match self {
            Verdict::Equal => 0,
            Verdict::Differ(_vector) => 7,
            Verdict::Undecided(_budget) => 8,
        }
    }
}

// What a tree or a vector says.
fn likeness_verdict(budget: u32, likeness: Likeness) -> Verdict
    ensures { result ≡ likeness_verdict budget likeness }
{
    match likeness {
        Likeness::Same(_tree) => Verdict::Equal,
        Likeness::Differ(vector) => Verdict::Differ(vector),
        Likeness::Undecided(_tree) => Verdict::Undecided(budget),
    }
}

/// What evidence says.
pub(crate) fn verdict_of(budget: u32, evidence: Evidence) -> Verdict
    ensures { result ≡ verdict_of budget evidence }
{
    match evidence {
        Evidence::Plain(likeness) => likeness_verdict(budget, likeness),
        Evidence::Merged(_run) => Verdict::Equal,
    }
}

/// How many lines of a proof are evidence.
pub(crate) fn records_in(evidence: &Evidence) -> u64
    ensures { result ≡ records_in evidence.now }
{
    match evidence {
        Evidence::Plain(_likeness) => 1,
        Evidence::Merged(run) => run.records().len() as u64,
    }
}
