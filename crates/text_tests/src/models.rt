// Tests of ranks, sources, observed points and values.
use rm_base::{NoMemory, Vector};
use rm_model::{
    Cover, Latch, LatchKind, Listed, Literal, Model, Name, NameKeys, RankFault, Row, Timing,
    evaluate, is_well_formed, list_observed, rank, sources,
};
use std::alloc::Global;
use std::test::Fail;

mod tables;

#[derive(Clone, Copy)]
struct Gate<'a> {
    inputs: &'a [&'a str],
    output: &'a str,
    rows: &'a [&'a str],
    on: bool,
}

// A latch, with the control of its rising edge where it has a type.
#[derive(Clone, Copy)]
struct Store<'a> {
    input: &'a str,
    output: &'a str,
    control: Option<&'a str>,
    init: Option<u8>,
}

#[derive(Clone, Copy)]
struct Net<'a> {
    inputs: &'a [&'a str],
    clocks: &'a [&'a str],
    outputs: &'a [&'a str],
    stores: &'a [Store<'a>],
    gates: &'a [Gate<'a>],
}

const AND: &[&str] = &["11"];

const FOUR_GATES: Net<'static> = Net {
    inputs: &["a", "b", "c", "d"],
    clocks: &[],
    outputs: &["k"],
    stores: &[],
    gates: &[
        Gate {
            inputs: &["a", "b", "c"],
            output: "o",
            rows: &["11-", "1-1"],
            on: true,
        },
        Gate {
            inputs: &["o", "d"],
            output: "k",
            rows: AND,
            on: true,
        },
    ],
};

const CYCLE: Net<'static> = Net {
    inputs: &["u"],
    clocks: &[],
    outputs: &["q"],
    stores: &[],
    gates: &[
        Gate {
            inputs: &["u", "u"],
            output: "a",
            rows: AND,
            on: true,
        },
        Gate {
            inputs: &["u", "q"],
            output: "p",
            rows: AND,
            on: true,
        },
        Gate {
            inputs: &["p", "a"],
            output: "q",
            rows: AND,
            on: true,
        },
    ],
};

const BEHIND_CYCLE: Net<'static> = Net {
    inputs: &["u"],
    clocks: &[],
    outputs: &["y"],
    stores: &[],
    gates: &[
        Gate {
            inputs: &["u", "u"],
            output: "a",
            rows: AND,
            on: true,
        },
        Gate {
            inputs: &["a", "z"],
            output: "y",
            rows: AND,
            on: true,
        },
        Gate {
            inputs: &["z", "u"],
            output: "z",
            rows: AND,
            on: true,
        },
    ],
};

const OTHER_ROWS: Net<'static> = Net {
    inputs: &["a", "b"],
    clocks: &[],
    outputs: &["z", "x", "a"],
    stores: &[],
    gates: &[
        Gate {
            inputs: &["a", "b"],
            output: "z",
            rows: &["00"],
            on: false,
        },
        Gate {
            inputs: &[],
            output: "x",
            rows: &[""],
            on: true,
        },
    ],
};

const TWO_LATCHES: Net<'static> = Net {
    inputs: &["d", "e", "clk"],
    clocks: &[],
    outputs: &["q"],
    stores: &[
        Store {
            input: "nd",
            output: "q",
            control: Some("g"),
            init: Some(2),
        },
        Store {
            input: "q",
            output: "s",
            control: None,
            init: None,
        },
    ],
    gates: &[
        Gate {
            inputs: &["clk", "e"],
            output: "g",
            rows: AND,
            on: true,
        },
        Gate {
            inputs: &["d", "s"],
            output: "nd",
            rows: AND,
            on: true,
        },
    ],
};

fn name(alloc: Global, text: &str) -> Result<Name, NoMemory> {
    Ok(Listed::from_vec(Vec::from_slice(alloc, text.as_bytes())?))
}

fn names(alloc: Global, texts: &[&str]) -> Result<Listed<Name>, NoMemory> {
    let mut list = Listed::new(alloc);
    for text in texts {
        list.push(name(alloc, *text)?)?;
    }
    Ok(list)
}

fn literal(byte: u8) -> Literal {
    match byte {
        b'0' => Literal::Zero,
        b'1' => Literal::One,
        _ => Literal::Any,
    }
}

fn row(alloc: Global, text: &str) -> Result<Row, NoMemory> {
    let mut list = Listed::new(alloc);
    for byte in text.as_bytes() {
        list.push(literal(*byte))?;
    }
    Ok(list)
}

fn rows(alloc: Global, texts: &[&str]) -> Result<Listed<Row>, NoMemory> {
    let mut list = Listed::new(alloc);
    for text in texts {
        list.push(row(alloc, *text)?)?;
    }
    Ok(list)
}

fn cover(alloc: Global, gate: &Gate) -> Result<Cover, NoMemory> {
    let inputs = names(alloc, gate.inputs)?;
    let output = name(alloc, gate.output)?;
    let rows = rows(alloc, gate.rows)?;
    Ok(Cover {
        inputs,
        output,
        on: gate.on,
        rows,
    })
}

fn covers(alloc: Global, gates: &[Gate]) -> Result<Listed<Cover>, NoMemory> {
    let mut list = Listed::new(alloc);
    for gate in gates {
        list.push(cover(alloc, gate)?)?;
    }
    Ok(list)
}

fn timing(alloc: Global, control: Option<&str>) -> Result<Option<Timing>, NoMemory> {
    let Some(control) = control else {
        return Ok(None);
    };
    Ok(Some(Timing {
        kind: LatchKind::Re,
        control: Some(name(alloc, control)?),
    }))
}

fn latch(alloc: Global, store: &Store) -> Result<Latch, NoMemory> {
    let input = name(alloc, store.input)?;
    let output = name(alloc, store.output)?;
    let timing = timing(alloc, store.control)?;
    Ok(Latch {
        input,
        output,
        timing,
        init: store.init,
    })
}

fn latches(alloc: Global, stores: &[Store]) -> Result<Listed<Latch>, NoMemory> {
    let mut list = Listed::new(alloc);
    for store in stores {
        list.push(latch(alloc, store)?)?;
    }
    Ok(list)
}

fn model(alloc: Global, net: &Net) -> Result<Model, NoMemory> {
    let name = name(alloc, "m")?;
    let inputs = names(alloc, net.inputs)?;
    let clocks = names(alloc, net.clocks)?;
    let outputs = names(alloc, net.outputs)?;
    let latches = latches(alloc, net.stores)?;
    let covers = covers(alloc, net.gates)?;
    Ok(Model {
        name,
        inputs,
        clocks,
        outputs,
        latches,
        covers,
    })
}

// A net, and the ranks of its covers or the first of these that has none.
#[derive(Clone, Copy)]
struct Ranking {
    net: Net<'static>,
    ranks: &'static [u32],
    without: Option<u32>,
}

const RANKINGS: [Ranking; 3] = [
    Ranking {
        net: FOUR_GATES,
        ranks: &[0, 1],
        without: None,
    },
    Ranking {
        net: CYCLE,
        ranks: &[],
        without: Some(1),
    },
    // A cover behind a cycle has no rank.
    Ranking {
        net: BEHIND_CYCLE,
        ranks: &[],
        without: Some(1),
    },
];

// The ranks of a well-formed model.
fn ranks(alloc: Global, model: &Model) -> Result<Result<Vec<u32>, RankFault>, Fail> {
    if !is_well_formed(alloc, NameKeys::Ordered, model)? {
        return Err("not well formed".into());
    }
    if model.covers.len() > 1_000_000 {
        return Err("too many covers".into());
    }
    Ok(rank(alloc, NameKeys::Ordered, model))
}

fn is_ranked(alloc: Global, row: &Ranking) -> Result<bool, Fail> {
    let model = model(alloc, &row.net)?;
    match ranks(alloc, &model)? {
        Ok(found) => Ok(row.without.is_none() && found.as_slice() == row.ranks),
        Err(RankFault::NoRank { cover }) => Ok(row.without == Some(cover)),
        Err(RankFault::NoMemory) => Ok(false),
    }
}

#[test]
fn models_are_ranked(rt: HostRuntime) -> Result<(), Fail> {
    for row in &RANKINGS {
        assert!(rt; is_ranked(rt.alloc(), row)?);
    }
    Ok(())
}

fn chain(alloc: Global, length: u32) -> Result<Listed<Cover>, NoMemory> {
    let mut covers = Listed::new(alloc);
    for place in 0..length.min(1_000_000) {
        let output = format!(in alloc; "x{place}")?;
        let next = place + 1;
        let input = format!(in alloc; "x{next}")?;
        let gate = Gate {
            inputs: &[input.as_str(), input.as_str()],
            output: output.as_str(),
            rows: AND,
            on: true,
        };
        covers.push(cover(alloc, &gate)?)?;
    }
    Ok(covers)
}

#[test]
fn a_long_chain_is_ranked_at_once(rt: HostRuntime) -> Result<(), Fail> {
    let net = Net {
        inputs: &["x50000"],
        clocks: &[],
        outputs: &["x0"],
        stores: &[],
        gates: &[],
    };
    let mut found = model(rt.alloc(), &net)?;
    found.covers = chain(rt.alloc(), 50_000)?;
    match ranks(rt.alloc(), &found)? {
        Ok(found) => assert!(rt; found.len() == 50_000 && found[0] == 49_999),
        Err(_) => assert!(rt; false),
    }
    Ok(())
}

// A net, the values of its sources, and those of its observed points.
#[derive(Clone, Copy)]
struct Valuation {
    net: Net<'static>,
    given: &'static [bool],
    wanted: &'static [bool],
}

const VALUATIONS: [Valuation; 4] = [
    Valuation {
        net: FOUR_GATES,
        given: &[true, true, false, true],
        wanted: &[true],
    },
    Valuation {
        net: FOUR_GATES,
        given: &[false, true, false, true],
        wanted: &[false],
    },
    Valuation {
        net: OTHER_ROWS,
        given: &[false, false],
        wanted: &[false, true, false],
    },
    Valuation {
        net: TWO_LATCHES,
        given: &[true, true, true, false, true],
        wanted: &[false, true, false, true],
    },
];

// The values of the observed points of a well-formed model.
fn values(
    alloc: Global,
    model: &Model,
    vector: &Vector,
) -> Result<Result<Vector, RankFault>, Fail> {
    if !is_well_formed(alloc, NameKeys::Ordered, model)? {
        return Err("not well formed".into());
    }
    if model.covers.len() > 1_000_000 {
        return Err("too many covers".into());
    }
    let sources = sources(alloc, NameKeys::Ordered, model)?;
    if vector.len() != sources.len() || sources.len() > 1_000_000 {
        return Err("not a value for each source".into());
    }
    if list_observed(alloc, model)?.len() > 1_000_000 {
        return Err("too many observed points".into());
    }
    Ok(evaluate(alloc, NameKeys::Ordered, model, vector))
}

fn is_valued(alloc: Global, row: &Valuation) -> Result<bool, Fail> {
    let model = model(alloc, &row.net)?;
    let vector = Vector::of(Vec::from_slice(alloc, row.given)?);
    match values(alloc, &model, &vector)? {
        Ok(found) => Ok(found.values() == row.wanted),
        Err(_) => Ok(false),
    }
}

#[test]
fn observed_points_are_valued(rt: HostRuntime) -> Result<(), Fail> {
    for row in &VALUATIONS {
        assert!(rt; is_valued(rt.alloc(), row)?);
    }
    Ok(())
}

fn are_names(found: &[Name], wanted: &[&str]) -> bool {
    if found.len() != wanted.len() {
        return false;
    }
    for (name, text) in found.iter().zip(wanted) {
        if name.items() != text.as_bytes() {
            return false;
        }
    }
    true
}

#[test]
fn sources_of_latches(rt: HostRuntime) -> Result<(), Fail> {
    let net = Net {
        clocks: &["clk"],
        ..TWO_LATCHES
    };
    let found = sources(rt.alloc(), NameKeys::Ordered, &model(rt.alloc(), &net)?)?;
    assert!(rt; are_names(found.as_slice(), &["d", "e", "clk", "q", "s"]));
    Ok(())
}

#[test]
fn observed_points_of_latches(rt: HostRuntime) -> Result<(), Fail> {
    let found = list_observed(rt.alloc(), &model(rt.alloc(), &TWO_LATCHES)?)?;
    assert!(rt; are_names(found.as_slice(), &["q", "nd", "q", "g"]));
    Ok(())
}
