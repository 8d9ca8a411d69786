//! The flat model of the input, and its windows.
ghost use Rattle.std.specs.Prelude.{◌≡◌, ◌≤◌, ◌<◌, All, IfErr, IfOk, IfSome, OnOk, length};
ghost use Rattle.rm_model.specs.Value.{IsRanked};
ghost use Rattle.rm_model.specs.WellFormed.{IsWellFormed};
ghost use Rattle.cover_sharing.specs.Shared.{shared};
ghost use Rattle.window_cut.specs.Laws.{IsStandalone};
ghost use Rattle.window_fit.specs.Shared.{shared_windows};
ghost use Rattle.rambo_cli.specs.Contract.{Caused};
ghost use Rattle.rambo_cli.specs.Files.{Holds};
ghost use Rattle.rambo_cli.specs.Flat.{FlatFinds, IsFlat, flat_limits, wide_limits};
ghost use Rattle.rambo_cli.specs.Inner.Cut.{WindowsCause};
ghost use Rattle.rambo_cli.specs.Inner.Problems.{FlatTextCause};
ghost use Rattle.rambo_cli.specs.Windows.{most_windows};

use crate::problem::Problem;
use crate::reading::bytes_of;
use blif_flatten::flatten;
use blif_format::Quantity;
use cover_sharing::{share, shared_models_agree};
use rm_base::Shelf;
use rm_model::{Model, NameKeys};
use std::alloc::Global;
use window_cut::cut;
use window_fit::shared_windows_stand_alone;

/// How large a text and its flat model may be: the bytes of the text, and the tokens of all instances.
#[derive(Clone, Copy, Debug)]
pub struct FlatLimits {
    pub bytes: u32,
    pub tokens: u32,
}

/// A flat model, of so many instances.
#[derive(Drop)]
pub(crate) struct FlatModel {
    pub(crate) model: Model,
    pub(crate) instances: u32,
}

// The flat model of a text that isn't too long.
fn model_of_short(
    alloc: Global,
    keys: NameKeys,
    text: &[u8],
    limits: FlatLimits,
) -> Result<FlatModel, Problem>
    requires { length text.now ≤ limits.bytes }
    ensures flat { IfOk result (λ f. IsFlat limits text.now f.model f.instances) }
    ensures formed { IfOk result (λ f. IsWellFormed f.model) }
    ensures ranked { IfOk result (λ f. IsRanked f.model) }
    ensures cause { IfErr result (FlatTextCause limits text.now) }
{
    match flatten(alloc, keys, text, limits.tokens) {
        Ok(flat) => Ok(FlatModel {
            model: flat.model,
            instances: flat.instances,
        }),
        Err(refusal) => Err(Problem::from(refusal)),
    }
}

// The flat model of a text.
fn model_of_text(
    alloc: Global,
    keys: NameKeys,
    text: &[u8],
    limits: FlatLimits,
) -> Result<FlatModel, Problem>
    ensures flat { IfOk result (λ f. IsFlat limits text.now f.model f.instances) }
    ensures formed { IfOk result (λ f. IsWellFormed f.model) }
    ensures ranked { IfOk result (λ f. IsRanked f.model) }
    ensures cause { IfErr result (FlatTextCause limits text.now) }
{
    if text.len() > limits.bytes as usize {
        return Err(Problem::Limit {
            quantity: Quantity::Text,
            count: limits.bytes as u64 + 1,
        });
    }
    model_of_short(alloc, keys, text, limits)
}

// The flat model of the input, which is read as far as one byte more than it may have.
fn model_within<S: Shelf>(
    alloc: Global,
    keys: NameKeys,
    shelf: &mut S,
    input: &str,
    limits: FlatLimits,
) -> Result<FlatModel, Problem>
    ensures flat { IfOk result (λ f. IfSome (S.files shelf.old) (λ told. Holds told input.now (λ text. IsFlat limits text f.model f.instances))) }
    ensures formed { IfOk result (λ f. IsWellFormed f.model) }
    ensures ranked { IfOk result (λ f. IsRanked f.model) }
    ensures cause { IfErr result (Caused (FlatFinds limits input.now (S.files shelf.old)) (S.faults shelf.old) (S.faults shelf.new)) }
    ensures files { S.files shelf.new ≡ S.files shelf.old }
    ensures later { S.faults shelf.old ≤ S.faults shelf.new }
{
    let text = bytes_of(shelf, input, limits.bytes as usize + 1)?;
    model_of_text(alloc, keys, text.as_slice(), limits)
}

/// The flat model of the input of `flat`.
pub(crate) fn flat_model<S: Shelf>(
    alloc: Global,
    keys: NameKeys,
    shelf: &mut S,
    input: &str,
) -> Result<FlatModel, Problem>
    ensures flat { IfOk result (λ f. IfSome (S.files shelf.old) (λ told. Holds told input.now (λ text. IsFlat flat_limits text f.model f.instances))) }
    ensures formed { IfOk result (λ f. IsWellFormed f.model) }
    ensures ranked { IfOk result (λ f. IsRanked f.model) }
    ensures cause { IfErr result (Caused (FlatFinds flat_limits input.now (S.files shelf.old)) (S.faults shelf.old) (S.faults shelf.new)) }
    ensures files { S.files shelf.new ≡ S.files shelf.old }
    ensures later { S.faults shelf.old ≤ S.faults shelf.new }
{
    let limits = FlatLimits {
        bytes: 16_777_216,
        tokens: 4_194_304,
    };
    model_within(alloc, keys, shelf, input, limits)
}

/// The flat model of the input of `cut` and `sew`, as large as 32 bits can number.
pub(crate) fn wide_model<S: Shelf>(
    alloc: Global,
    keys: NameKeys,
    shelf: &mut S,
    input: &str,
) -> Result<FlatModel, Problem>
    ensures flat { IfOk result (λ f. IfSome (S.files shelf.old) (λ told. Holds told input.now (λ text. IsFlat wide_limits text f.model f.instances))) }
    ensures formed { IfOk result (λ f. IsWellFormed f.model) }
    ensures ranked { IfOk result (λ f. IsRanked f.model) }
    ensures cause { IfErr result (Caused (FlatFinds wide_limits input.now (S.files shelf.old)) (S.faults shelf.old) (S.faults shelf.new)) }
    ensures files { S.files shelf.new ≡ S.files shelf.old }
    ensures later { S.faults shelf.old ≤ S.faults shelf.new }
{
    let limits = FlatLimits {
        bytes: 4_294_967_295,
        tokens: 4_294_967_295,
    };
    model_within(alloc, keys, shelf, input, limits)
}

/// A model whose equal covers are merged, and its windows.
#[derive(Drop)]
pub(crate) struct Windowed {
    pub(crate) whole: Model,
    pub(crate) windows: Vec<Model>,
}

// Refuses more windows than there may be.
fn check_count(windows: &[Model]) -> Result<(), Problem>
    ensures few { OnOk result (length windows.now ≤ most_windows) }
    ensures cause { IfErr result (WindowsCause (length windows.now)) }
{
    if windows.len() > 1_048_576 {
        return Err(Problem::Limit {
            quantity: Quantity::Windows,
            count: windows.len() as u64,
        });
    }
    Ok(())
}

/// Merges equal covers of a model, and cuts it into windows of about so many wires, the first of `shift` unless that is 0.
pub(crate) fn windows_of(
    alloc: Global,
    keys: NameKeys,
    model: &Model,
    width: u32,
    shift: u32,
) -> Result<Windowed, Problem>
    requires formed { IsWellFormed model.now }
    requires ranked { IsRanked model.now }
    ensures whole { IfOk result (λ w. w.whole ≡ shared model.now) }
    ensures windows { IfOk result (λ w. w.windows.items ≡ shared_windows width shift model.now) }
    ensures each { IfOk result (λ w. All IsStandalone w.windows.items) }
    ensures few { IfOk result (λ w. length w.windows.items ≤ most_windows) }
    ensures cause { IfErr result (WindowsCause (length (shared_windows width shift model.now))) }
{
    shared_models_agree();
    shared_windows_stand_alone();
    let whole = share(alloc, keys, model)?;
    let windows = cut(alloc, keys, &whole, width, shift)?;
    check_count(windows.as_slice())?;
    Ok(Windowed { whole, windows })
}
