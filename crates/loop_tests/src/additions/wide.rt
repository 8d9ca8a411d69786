// Gates of many pins: more than learning looks at, and more than 64.
ghost use Rattle.std.specs.Prelude.{◌≤◌, ◌+◌, IfOk};
ghost use Rattle.gate_graph.specs.Circuit.{live_nodes, pins_taken};

use super::{counts_made, fault, optimise_for, outcome_spent, settled_after, wire};
use gate_graph::Graph;
use std::alloc::Global;
use std::test::Fail;
use test_nets::{Gate, NetBuilder};

// What the terms are; their sum is of the other kind.
#[derive(Clone, Copy)]
enum Form {
    Ands,
    Ors,
}

fn term<'a>(form: Form, drivers: &'a [u32]) -> Gate<'a> {
    match form {
        Form::Ands => Gate::And(drivers),
        Form::Ors => Gate::Or(drivers),
    }
}

fn sum<'a>(form: Form, drivers: &'a [u32]) -> Gate<'a> {
    match form {
        Form::Ands => Gate::Or(drivers),
        Form::Ors => Gate::And(drivers),
    }
}

// Adds so many terms of the source 2 and a source of their own.
fn add_terms(net: &mut NetBuilder, terms: &mut Vec<u32>, count: u32, form: Form) -> Result<(), Fail>
    requires { count ≤ 100 }
{
    for number in 0..count {
        let gate = net.add(term(form, &[2, 3 + number]))?;
        terms.push(gate.0)?;
    }
    Ok(())
}

// Adds their sum, and a gate of it and of a last source.
fn add_sum(net: &mut NetBuilder, terms: &[u32], count: u32, form: Form) -> Result<(), Fail>
    requires { count ≤ 100 }
{
    let all = net.add(sum(form, terms))?;
    let last = net.add(term(form, &[all.0, count + 3]))?;
    net.observe(last.0)?;
    Ok(())
}

// So many terms of the source 2 and a source of their own, their sum, and a gate of the sum and of a last source. With
// Ands as terms and an Or as sum this is (a b1 + a b2 + ..) d.
fn wide(alloc: Global, count: u32, form: Form) -> Result<Graph, Fail>
    ensures few { IfOk result (λ g. pins_taken g + live_nodes g ≤ 300000) }
{
    if count > 100 {
        return Err("too many terms".into());
    }
    let mut net = NetBuilder::new(alloc, count + 2)?;
    let mut terms = Vec::new(alloc);
    add_terms(&mut net, &mut terms, count, form)?;
    add_sum(&mut net, terms.as_slice(), count, form)?;
    Ok(net.finish())
}

// For each number of terms m: 3 m + 2 wires become m + 3, since the source is added at the last gate and goes from each
// term. That pair comes at place m + 4, and m (m + 3) more are tried in vain.
const WIDE: [(u32, u32, u32, u32); 3] = [(2, 16, 8, 5), (9, 121, 29, 12), (20, 484, 62, 23)];

fn row_ends(alloc: Global, row: (u32, u32, u32, u32), form: Form) -> Result<bool, Fail> {
    let (terms, tries, before, after) = row;
    let graph = wide(alloc, terms, form)?;
    let end = optimise_for(alloc, graph, 10_000)?;
    let terms = terms as u64;
    Ok(
        end.outcome == settled_after(tries)
            && end.made == counts_made(1, terms, 3 * terms)
            && end.before == before
            && end.graph.wire_count() == after,
    )
}

#[test]
fn a_wire_for_many_terms(rt: HostRuntime) -> Result<(), Fail> {
    let alloc = rt.alloc();
    for row in WIDE {
        assert!(rt; row_ends(alloc, row, Form::Ands)?);
        assert!(rt; row_ends(alloc, row, Form::Ors)?);
    }
    Ok(())
}

// The candidates of the first term before the one that gains: as many at the term as there are terms, 3 at the sum, none at
// the last gate.
#[test]
fn its_place_among_the_tries(rt: HostRuntime) -> Result<(), Fail> {
    let alloc = rt.alloc();
    let graph = wide(alloc, 9, Form::Ands)?;
    let end = optimise_for(alloc, graph, 12)?;
    assert_eq!(rt;
        end.outcome,
        outcome_spent(12, fault(13, 0, true), wire(2, false, 23))
    );
    let graph = wide(alloc, 9, Form::Ors)?;
    let end = optimise_for(alloc, graph, 12)?;
    assert_eq!(rt;
        end.outcome,
        outcome_spent(12, fault(13, 0, false), wire(2, false, 23))
    );
    Ok(())
}

#[test]
fn more_than_64_terms(rt: HostRuntime) -> Result<(), Fail> {
    let alloc = rt.alloc();
    let graph = wide(alloc, 65, Form::Ands)?;
    let end = optimise_for(alloc, graph, 69)?;
    assert_eq!(rt;
        end.outcome,
        outcome_spent(69, fault(134, 0, false), wire(2, false, 134))
    );
    assert_eq!(rt; end.made, counts_made(1, 65, 195));
    assert_eq!(rt; end.before, 197);
    assert_eq!(rt; end.graph.wire_count(), 68);
    Ok(())
}
