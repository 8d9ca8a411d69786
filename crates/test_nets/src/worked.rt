//! The nets that were worked by hand. Sources are named a, b, c and d from 2 on.
use crate::wiring::{Gate, Wiring};

/// a b.
pub const ONE_GATE: Wiring<'static> = Wiring {
    sources: 2,
    gates: &[Gate::And(&[2, 3])],
    observed: &[4],
};

/// a b, observed twice.
pub const ONE_GATE_TWICE: Wiring<'static> = Wiring {
    sources: 2,
    gates: &[Gate::And(&[2, 3])],
    observed: &[4, 4],
};

/// a a.
pub const BUFFER: Wiring<'static> = Wiring {
    sources: 1,
    gates: &[Gate::And(&[2, 2])],
    observed: &[3],
};

/// a + a b.
pub const ABSORBED: Wiring<'static> = Wiring {
    sources: 2,
    gates: &[Gate::And(&[2, 3]), Gate::Or(&[2, 4])],
    observed: &[5],
};

/// (b + c) d a.
pub const TWO_GATES: Wiring<'static> = Wiring {
    sources: 4,
    gates: &[Gate::Or(&[3, 4]), Gate::And(&[6, 5, 2])],
    observed: &[7],
};

/// (a b + a c) d.
pub const FOUR_GATES: Wiring<'static> = Wiring {
    sources: 4,
    gates: &[
        Gate::And(&[2, 3]),
        Gate::And(&[2, 4]),
        Gate::Or(&[6, 7]),
        Gate::And(&[8, 5]),
    ],
    observed: &[9],
};

/// (a b + a c) d, with a Not of it that isn't observed.
pub const FOUR_GATES_AND_NOT: Wiring<'static> = Wiring {
    sources: 4,
    gates: &[
        Gate::And(&[2, 3]),
        Gate::And(&[2, 4]),
        Gate::Or(&[6, 7]),
        Gate::And(&[8, 5]),
        Gate::Not(9),
    ],
    observed: &[9],
};

/// (a b + a c) d a: the four gates with one pin more.
pub const FOUR_GATES_AND_PIN: Wiring<'static> = Wiring {
    sources: 4,
    gates: &[
        Gate::And(&[2, 3]),
        Gate::And(&[2, 4]),
        Gate::Or(&[6, 7]),
        Gate::And(&[8, 5, 2]),
    ],
    observed: &[9],
};

/// z = (a b + a c) d, and a + a z.
pub const SIX_GATES: Wiring<'static> = Wiring {
    sources: 4,
    gates: &[
        Gate::And(&[2, 3]),
        Gate::And(&[2, 4]),
        Gate::Or(&[6, 7]),
        Gate::And(&[8, 5]),
        Gate::And(&[2, 9]),
        Gate::Or(&[2, 10]),
    ],
    observed: &[9, 11],
};
