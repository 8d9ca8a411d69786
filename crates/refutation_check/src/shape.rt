// How large an accepted tree is.
ghost use Rattle.std.specs.Prelude.{◌≡◌, ◌≤◌, length};
ghost use Rattle.refutation.specs.Stack.{splits_among, untrieds_among};
ghost use Rattle.refutation_check.specs.Shapes.{IsShapeOf};
ghost use Rattle.refutation_check.specs.Inner.Shapes.{IsSmall};

use refutation::{Form, Item, Shape};

/// How many splits and how many `Untried`s there are among the items.
#[derive(Clone, Copy, Debug, PartialEq, Eq)]
struct Counts {
    splits: u64,
    untried: u64,
}

fn count(items: &[Item]) -> Counts
    ensures splits { result.splits ≡ splits_among items.now }
    ensures untried { result.untried ≡ untrieds_among items.now }
{
    let mut splits = 0u64;
    let mut untried = 0u64;
    for item in items {
        match item {
            Item::Split { .. } => splits += 1,
            Item::Untried => untried += 1,
            _ => {}
        }
    }
    Counts { splits, untried }
}

/// The size of a tree that is accepted in the form.
pub(crate) fn shape_of(items: &[Item], form: Form) -> Shape
    requires { IsSmall form items.now }
    ensures { IsShapeOf items.now result }
{
    let counts = count(items);
    let here = match form {
        Form::Closed => 0,
        Form::Partial => 1,
    };
    Shape {
        edges: 2 * counts.splits - counts.untried,
        here,
        untried: counts.untried as u32,
    }
}
