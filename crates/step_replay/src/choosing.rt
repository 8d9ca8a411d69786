// The best beginning of steps.
ghost use Rattle.std.specs.Prelude.{◌≡◌, ◌<◌, ◌≤◌};

/// So many steps, and the wires that they leave.
#[derive(Clone, Copy)]
pub(crate) struct Best {
    pub(crate) taken: usize,
    pub(crate) wires: u32,
}

/// The beginning with fewer wires, and of two with as many the one that came later.
pub(crate) fn better(best: Best, later: Best) -> Best
    ensures later { later.wires ≤ best.wires → result ≡ later }
    ensures best { best.wires < later.wires → result ≡ best }
{
    if later.wires <= best.wires {
        return later;
    }
    best
}
