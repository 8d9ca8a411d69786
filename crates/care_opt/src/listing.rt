// The faults of the main gates.
ghost use Rattle.std.specs.Prelude.{◌≡◌, ◌<◌, IfOk, length};
ghost use Rattle.gate_graph.specs.Circuit.{net_of};
ghost use Rattle.care_opt.specs.Extract.{main_faults};
ghost use Rattle.care_opt.specs.Inner.Leading.{leading};

use gate_graph::{Graph, faults_of};
use rm_base::{Fault, NoMemory};
use std::alloc::Global;

// How many faults at the front are of main gates.
fn main_count(faults: &[Fault], bound: u32) -> usize
    ensures { result ≡ leading bound faults.now }
{
    let mut count = 0usize;
    for fault in faults {
        if fault.gate.0 >= bound {
            return count;
        }
        count += 1;
    }
    count
}

/// The faults of the pins of main gates, by gate, position and value, 0 before 1.
pub(crate) fn list_faults(alloc: Global, graph: &Graph, bound: u32) -> Result<Vec<Fault>, NoMemory>
    ensures { IfOk result (λ faults. faults.items ≡ main_faults bound (net_of graph.now)) }
{
    let mut faults = faults_of(alloc, graph)?;
    let count = main_count(faults.as_slice(), bound);
    faults.truncate(count);
    Ok(faults)
}
