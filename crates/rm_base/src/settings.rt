// The settings of a run, and how many steps a call recorded.
ghost use Rattle.std.specs.Prelude.{◌↔◌, IsTrue};
ghost use Rattle.rm_base.specs.Work.{IsWorkedOff};

/// The settings of a run: the depth of recursive learning (0 to 2), the edges that one search for a test may enter
/// (1 to 1,048,576), the additions that the whole run may try (0 to 1,000,000), the workers that search (1 to 64), when equal
/// gates are merged (0 to 2), the turns of perturbation (0 to 64), and after how many million units of work no more additions
/// are tried (0 to 1,000,000, 0 for no such limit).
#[derive(Clone, Copy, Debug, PartialEq, Eq)]
pub struct Settings {
    pub depth: u8,
    pub budget: u32,
    pub tries: u32,
    pub workers: u8,
    pub merge: u8,
    pub perturb: u8,
    pub work: u32,
}

impl Settings {
    /// Whether there is a limit of work, and so many units reach it.
    pub fn is_worked_off(&self, done: u64) -> bool
        ensures { IsTrue result ↔ IsWorkedOff self.now done }
    {
        self.work > 0 && u64::from(self.work) * 1_000_000 <= done
    }
}

/// How many steps a call recorded, by kind: additions of a wire, pins fixed at a constant, and all others.
#[derive(Clone, Copy, Debug, PartialEq, Eq)]
pub struct Made {
    pub adds: u64,
    pub fixes: u64,
    pub local: u64,
}
