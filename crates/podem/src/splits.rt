// The splits whose trees aren't done yet.
ghost use Rattle.std.specs.Prelude.{◌≡◌, ◌≤◌, ◌<◌, ◌∷◌, [], IfNone, IfSome, OnErr, OnOk};
ghost use Rattle.podem.specs.Inner.Waiting.{value_of, waits};

use crate::choosing::Goal;
use rm_base::NoMemory;
use std::alloc::Global;
use std::marker::Model;

/// A split, and which of its branches is searched.
#[derive(Clone, Copy, Debug, PartialEq, Eq)]
pub(crate) struct OpenSplit {
    /// The source, and the value of its first branch.
    pub choice: Goal,
    /// Whether the second branch is searched.
    pub second: bool,
    /// Whether a second branch of a split above is still to be entered.
    pub waiting: bool,
}

impl OpenSplit {
    /// The value that the source has in the branch that is searched.
    pub(crate) fn value(&self) -> bool
        ensures { result ≡ value_of self.now.second self.now.choice }
    {
        if self.second {
            !self.choice.value
        } else {
            self.choice.value
        }
    }
}

/// The splits on the way to the branch that is searched, the last one first.
#[derive(Drop)]
pub(crate) struct Splits {
    kept: Vec<OpenSplit>,
}

impl Model for Splits {
    ghost use Rattle.std.specs.Prelude.{List, reverse};
    ghost use Rattle.podem.specs.declared.splits.OpenSplit.{OpenSplit};

    ghost Value = { List OpenSplit };

    ghost view = { λ s. reverse s.kept.items };
}

impl Splits {
    /// None.
    pub(crate) fn new(alloc: Global) -> Splits
        ensures { result ≡ [] }
    {
        Splits {
            kept: Vec::new(alloc),
        }
    }

    /// Takes a split up.
    pub(crate) fn push(&mut self, split: OpenSplit) -> Result<(), NoMemory>
        ensures { OnOk result (self.new ≡ split ∷ self.old) }
    {
        self.kept.push(split)?;
        Ok(())
    }

    /// Lets the last split go.
    pub(crate) fn pop(&mut self) -> Option<OpenSplit>
        ensures some { IfSome result (λ s. self.old ≡ s ∷ self.new) }
        ensures none { IfNone result (self.old ≡ []) }
    {
        self.kept.pop()
    }

    /// Whether a second branch is still to be entered.
    pub(crate) fn is_waiting(&self) -> bool
        ensures { result ≡ waits self.now }
    {
        match self.kept.last() {
            Some(split) => !split.second || split.waiting,
            None => false,
        }
    }
}
