// What deciding answers.
use refutation::Tree;
use rm_base::Vector;

/// Whether two models compute the same, with the evidence.
#[derive(Debug, Drop)]
pub enum Likeness {
    /// They do: a closed tree of the miter's fault.
    Same(Tree),
    /// They don't: values of the sources, under which they differ.
    Differ(Vector),
    /// The partial tree of a search that entered as many edges as it may.
    Undecided(Tree),
}
