// The covers of a model in post-order, by a walk with a stack of its own.
ghost use Rattle.std.specs.Prelude.{◌≡◌, ◌<◌, ◌^◌, ◌++◌, [], ℕ, fold, length, reverse, true, slice_get, IfOk, IfSome, OnOk};
ghost use Rattle.std.specs.Option.{option_copied};
ghost use Rattle.rm_model.specs.Numbers.{place_of};
ghost use Rattle.rm_model.specs.Value.{observed_names, outputs_of};
ghost use Rattle.rm_model.specs.WellFormed.{is_distinct, IsWellFormed};
ghost use Rattle.window_cut.specs.Inner.Levels.{IsLevelled};
ghost use Rattle.window_cut.specs.Inner.Walk.{AreWithin, IsMarked, Steps, entered, visit as visit_of};
ghost use Rattle.window_cut.specs.Order.{inputs_at, post_order as post_order_of};

use rm_base::NoMemory;
use rm_model::{Cover, Model, Name, NameKeys, NameTable, list_observed};
use std::alloc::Global;

/// A cover that is being visited, and how many of its inputs are done.
#[derive(Clone, Copy)]
pub struct Frame {
    pub place: usize,
    pub next: usize,
}

// The outputs of the covers, each at its cover's place.
fn output_table<'a>(
    alloc: Global,
    keys: NameKeys,
    covers: &'a [Cover],
) -> Result<NameTable<'a>, NoMemory>
    requires { is_distinct (outputs_of covers.now) ≡ true }
    ensures { IfOk result (λ table. table ≡ outputs_of covers.now) }
{
    let mut table = NameTable::new(alloc, keys);
    for cover in covers {
        table.add(cover.output.items())?;
    }
    Ok(table)
}

// The next input of a frame's cover.
fn next_input<'a>(covers: &'a [Cover], frame: Frame) -> Option<&'a Name>
    ensures at { option_copied result ≡ slice_get (inputs_at covers.now frame.place) frame.next }
    ensures bound { IfSome result (λ x. frame.next < 2 ^ 63) }
{
    match covers.get(frame.place) {
        Some(cover) => cover.inputs.items().get(frame.next),
        None => None,
    }
}

// Puts the cover of a name on the stack, if it isn't done.
fn enter<'a>(
    table: &NameTable<'a>,
    marks: &[bool],
    name: &'a Name,
    stack: &mut Vec<Frame>,
) -> Result<(), NoMemory>
    requires { length marks.now ≡ length table.now }
    ensures { OnOk result (stack.new.items ≡ stack.old.items ++ entered marks.now (place_of table.now name.now)) }
{
    let Some(place) = table.place(name.items()) else {
        return Ok(());
    };
    if !marks[place] {
        stack.push(Frame { place, next: 0 })?;
    }
    Ok(())
}

// Takes the last frame a step on.
fn take_step<'a>(
    model: &'a Model,
    table: &NameTable<'a>,
    frame: Frame,
    marks: &mut [bool],
    order: &mut Vec<usize>,
    stack: &mut Vec<Frame>,
) -> Result<(), NoMemory>
    requires levelled { (level : ℕ → ℕ) × IsLevelled model.now level }
    requires table { table.now ≡ outputs_of model.now.covers }
    requires marked { IsMarked model.now order.old.items marks.old }
    requires place { frame.place < length model.now.covers }
    requires within { AreWithin model.now (reverse stack.old.items) }
    ensures { OnOk result (Steps model.now frame (reverse stack.old.items) order.old.items (reverse stack.new.items) order.new.items marks.new) }
{
    match next_input(model.covers.items(), frame) {
        None => {
            marks[frame.place] = true;
            order.push(frame.place)?;
        }
        Some(name) => {
            stack.push(Frame {
                place: frame.place,
                next: frame.next + 1,
            })?;
            enter(table, marks, name, stack)?;
        }
    }
    Ok(())
}

// Visits the cover of a name, behind those that it reads.
fn visit<'a>(
    alloc: Global,
    model: &'a Model,
    table: &NameTable<'a>,
    name: &'a Name,
    marks: &mut [bool],
    order: &mut Vec<usize>,
) -> Result<(), NoMemory>
    requires levelled { (level : ℕ → ℕ) × IsLevelled model.now level }
    requires table { table.now ≡ outputs_of model.now.covers }
    requires marked { IsMarked model.now order.old.items marks.old }
    ensures done { OnOk result (order.new.items ≡ visit_of model.now order.old.items name.now) }
    ensures marked { OnOk result (IsMarked model.now order.new.items marks.new) }
{
    let mut stack = Vec::new(alloc);
    enter(table, marks, name, &mut stack)?;
    while let Some(frame) = stack.pop() {
        take_step(model, table, frame, marks, order, &mut stack)?;
    }
    Ok(())
}

fn visit_all<'a>(
    alloc: Global,
    model: &'a Model,
    table: &NameTable<'a>,
    names: &'a [Name],
) -> Result<Vec<usize>, NoMemory>
    requires levelled { (level : ℕ → ℕ) × IsLevelled model.now level }
    requires table { table.now ≡ outputs_of model.now.covers }
    ensures { IfOk result (λ order. order.items ≡ fold (visit_of model.now) [] names.now) }
{
    let mut marks = Vec::new(alloc);
    marks.resize(model.covers.len(), false)?;
    let mut order = Vec::new(alloc);
    for name in names {
        visit(alloc, model, table, name, marks.as_mut_slice(), &mut order)?;
    }
    Ok(order)
}

/// The places of the needed covers in post-order. Each name that a needed cover reads is looked up once.
pub fn post_order(alloc: Global, keys: NameKeys, model: &Model) -> Result<Vec<usize>, NoMemory>
    requires formed { IsWellFormed model.now }
    requires levelled { (level : ℕ → ℕ) × IsLevelled model.now level }
    ensures { IfOk result (λ order. order.items ≡ post_order_of model.now) }
{
    let observed = list_observed(alloc, model)?;
    let table = output_table(alloc, keys, model.covers.items())?;
    visit_all(alloc, model, &table, observed.as_slice())
}
