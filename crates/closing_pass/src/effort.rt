//! How much is done for a fault whose search was cut short.
ghost use Rattle.std.specs.Prelude.{◌≤◌};

/// What follows a search that was cut short.
#[derive(Clone, Copy, Debug, PartialEq, Eq)]
pub enum Effort {
    /// Nothing.
    Once,
    /// A search of few splits: where it finds a vector, no try asks for the fault again.
    Few,
    /// A search of as many splits as pay.
    All,
}

impl Effort {
    /// Whether anything follows.
    pub(crate) fn is_longer(self) -> bool {
        match self {
            Effort::Once => false,
            Effort::Few => true,
            Effort::All => true,
        }
    }

    /// So many splits decide many faults, or most of them.
    pub(crate) fn splits(self) -> u32
        ensures { result ≤ 4096 }
    {
        match self {
            Effort::Once => 0,
            Effort::Few => 256,
            Effort::All => 4096,
        }
    }
}
