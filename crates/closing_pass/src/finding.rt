// What is known of a fault.
ghost use Rattle.std.specs.Prelude.{◌≡◌, ◌↔◌, true};
ghost use Rattle.closing_pass.specs.Inner.Findings.{IsSought};

use refutation::Tree;

/// What a pass has found of a fault.
#[derive(Debug, Drop)]
pub(crate) enum Finding {
    /// No search has begun, and no vector was found that detects it.
    Open,
    /// The kept vector of that number, the first that detects it.
    Detected(usize),
    /// The tree of a search that spent its budget.
    Spent(Tree),
}

/// Whether a vector that detects the fault is still wanted.
pub(crate) fn is_sought(finding: &Finding) -> bool
    ensures { (result ≡ true) ↔ IsSought finding.now }
{
    match finding {
        Finding::Open => true,
        Finding::Detected(_number) => false,
        Finding::Spent(_tree) => true,
    }
}
