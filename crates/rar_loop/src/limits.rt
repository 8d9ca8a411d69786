//! What bounds a call.
ghost use Rattle.std.specs.Prelude.{◌≡◌, max};

use recursive_learning::refuter::Refuter;
use rm_base::Settings;

/// The settings of the run, with the tries that are left for the call, and how many units of work the run was before the
/// refuter that serves the call.
#[derive(Clone, Copy, Debug)]
pub(crate) struct Limits {
    pub(crate) settings: Settings,
    pub(crate) work_before: u64,
}

impl Limits {
    /// How many units of work the run has been so far: those of the refuter, and one for each pair that was tried, come to
    /// those before.
    pub(crate) fn work_done(&self, refuter: &Refuter, left: u32) -> u64 {
        let tried = u64::from(self.settings.tries.saturating_sub(left));
        self.work_before
            .saturating_add(refuter.work_done())
            .saturating_add(tried)
    }

    /// Whether that has reached the limit.
    pub(crate) fn is_worked_off(&self, refuter: &Refuter, left: u32) -> bool {
        self.settings.is_worked_off(self.work_done(refuter, left))
    }
}

/// Counts so much work, or as much as before where that is more.
pub(crate) fn raise(work: &mut u64, done: u64)
    ensures { work.new ≡ max work.old done }
{
    *work = (*work).max(done);
}
