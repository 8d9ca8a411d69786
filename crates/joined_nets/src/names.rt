// Where two lists of names differ.
ghost use Rattle.std.specs.Prelude.{◌≡◌, ◌≤◌, length};
ghost use Rattle.joined_nets.specs.Ready.{first_difference};

use rm_model::Name;

/// The first place, from 1, where the lists differ or one has ended; nothing where they are the same. The first has at most
/// 4,096 names.
pub fn first_difference(xs: &[Name], ys: &[Name]) -> Option<u32>
    requires few { length xs.now ≤ 4096 }
    ensures { result ≡ first_difference xs.now ys.now }
{
    let mut at = 0u32;
    for x in xs {
        let Some(y) = ys.get(at as usize) else {
            return Some(at + 1);
        };
        if x.items() != y.items() {
            return Some(at + 1);
        }
        at += 1;
    }
    if ys.len() > xs.len() {
        return Some(at + 1);
    }
    None
}
