//! Laws of the definitions.
ghost use Rattle.window_fit.specs.Laws.{CutsCanBeSewn, CutsCompose, SharedWindowsCompose, SharedWindowsStandAlone};

use cover_sharing::shared_models_agree;
use rm_model::one_valuation;
use sewing::windows_compose;
use window_cut::{windows_are_models, windows_are_ordered};

/// The windows of a cut are windows of the model that can be replaced one by one.
pub fn cuts_can_be_sewn()
    ensures { CutsCanBeSewn }
{
    windows_are_ordered();
    windows_are_models();
}

/// What is sewn of replacements for the windows of a cut computes what the model does.
pub fn cuts_compose()
    ensures { CutsCompose }
{
    cuts_can_be_sewn();
    windows_compose();
}

/// Each window of a model whose equal covers are merged stands alone: it is well formed and acyclic, and gives something.
pub fn shared_windows_stand_alone()
    ensures { SharedWindowsStandAlone }
{
    shared_models_agree();
    windows_are_models();
}

/// What is sewn of replacements for the windows of a model whose equal covers are merged computes what the model does.
pub fn shared_windows_compose()
    ensures { SharedWindowsCompose }
{
    shared_models_agree();
    one_valuation();
    cuts_compose();
}
