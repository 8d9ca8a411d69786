// The net of a drawn model of 60 covers, at both depths.
ghost use Rattle.std.specs.Prelude.{◌≤◌};

use super::{End, counts_made, fault, optimised_at, outcome_spent, settled_after, wire};
use cover_decompose::decompose;
use demo_generator::demo_model;
use rm_model::NameKeys;
use std::alloc::Global;
use std::test::Fail;

fn end_at(alloc: Global, depth: u8, tries: u32) -> Result<End, Fail>
    requires { depth ≤ 2 }
{
    let model = demo_model(alloc, NameKeys::Ordered, 1)?;
    let Ok(graph) = decompose(alloc, &model) else {
        return Err("too many pins".into());
    };
    optimised_at(alloc, graph, depth, tries)
}

#[test]
fn few_tries_by_direct_implication(rt: HostRuntime) -> Result<(), Fail> {
    let end = end_at(rt.alloc(), 0, 200)?;
    assert_eq!(rt; end.before, 219);
    assert_eq!(rt;
        end.outcome,
        outcome_spent(200, fault(51, 1, true), wire(41, false, 69))
    );
    assert_eq!(rt; end.made, counts_made(0, 21, 153));
    assert_eq!(rt; end.graph.wire_count(), 89);
    assert_eq!(rt; end.graph.gate_count(), 51);
    Ok(())
}

#[test]
fn until_no_pair_gains(rt: HostRuntime) -> Result<(), Fail> {
    let end = end_at(rt.alloc(), 1, 20_000)?;
    assert_eq!(rt; end.outcome, settled_after(3168));
    assert_eq!(rt; end.made, counts_made(2, 24, 164));
    assert_eq!(rt; end.graph.wire_count(), 84);
    assert_eq!(rt; end.graph.gate_count(), 47);
    Ok(())
}
