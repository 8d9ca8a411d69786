// A net in which only a Not that isn't there yet pays.
use super::{counts_made, fault, optimise_net, outcome_spent, settled_after, wire};
use rm_base::NodeId;
use std::test::Fail;
use test_nets::{Gate, Wiring};

// The gates are 6 to 11. Where 6 is 1, 2 is 1, so that 7 and with it 10 are 0; where 2 and 5 are 1, 6 is 1. So a Not of 6 may be read by 11, and
// then neither 8 nor 9 needs 7.
const UNDER_A_NOT: Wiring<'static> = Wiring {
    sources: 4,
    gates: &[
        Gate::And(&[2, 5]),
        Gate::Not(2),
        Gate::And(&[7, 3]),
        Gate::And(&[7, 4]),
        Gate::Or(&[8, 9]),
        Gate::And(&[10, 5]),
    ],
    observed: &[11, 6],
};

#[test]
fn a_fresh_not_pays(rt: HostRuntime) -> Result<(), Fail> {
    let rows = [
        (
            13,
            outcome_spent(13, fault(8, 0, true), wire(6, true, 11)),
            counts_made(0, 0, 0),
            11,
        ),
        (
            14,
            outcome_spent(14, fault(10, 0, false), wire(2, true, 10)),
            counts_made(1, 2, 9),
            8,
        ),
        (
            33,
            outcome_spent(33, fault(11, 2, true), wire(2, true, 11)),
            counts_made(1, 2, 9),
            8,
        ),
        (34, settled_after(34), counts_made(1, 2, 9), 8),
    ];
    for (tries, outcome, steps, wires) in rows {
        let end = optimise_net(rt.alloc(), &UNDER_A_NOT, tries)?;
        assert_eq!(rt; end.outcome, outcome);
        assert_eq!(rt; end.made, steps);
        assert_eq!(rt; end.graph.wire_count(), wires);
    }
    Ok(())
}

// The records, without the trees.
const STEPS: [&str; 12] = [
    "not 6",
    "add 11 12 ",
    "fix 8 0 1 ",
    "const 8 0",
    "one 8",
    "dead 8",
    "fix 7 0 0 ",
    "const 7 0",
    "dead 7",
    "const 9 0",
    "one 9",
    "dead 9",
];

// Words without which no tree of a record gets to a clash. The new pin's fault makes 12 a 0, so 6 and 2 are 1 and 7 is 0,
// while 10 is to be 1. The fixed faults make 2 a 1, and 5 and 12 are to be 1.
const WORDS: [(usize, &str); 12] = [
    (1, "a"),
    (1, "b12,0"),
    (1, "b6,0"),
    (1, "g7"),
    (1, "i11,0"),
    (2, "a"),
    (2, "b7,0"),
    (2, "i11,1"),
    (2, "i11,2"),
    (6, "a"),
    (6, "i11,1"),
    (6, "i11,2"),
];

fn has_word(line: &str, word: &str) -> bool {
    for part in line.split(' ') {
        if part == word {
            return true;
        }
    }
    false
}

// Whether a record has the words of its place.
fn has_words(line: &str, record: usize) -> bool {
    for (place, word) in WORDS {
        if place == record && !has_word(line, word) {
            return false;
        }
    }
    true
}

// Gate, position and driver of each pin at the end.
const PINS: [(u32, u32, u32); 8] = [
    (6, 0, 2),
    (6, 1, 5),
    (10, 0, 3),
    (10, 1, 4),
    (11, 0, 10),
    (11, 1, 5),
    (11, 2, 12),
    (12, 0, 6),
];

// Whether there is a record for each step, in order.
fn are_steps(text: &str) -> bool {
    let mut place = 0usize;
    for line in text.lines() {
        if place >= 12 {
            return false;
        }
        if !line.starts_with(STEPS[place]) {
            return false;
        }
        if !has_words(line, place) {
            return false;
        }
        place += 1;
    }
    place == 12
}

#[test]
fn its_steps(rt: HostRuntime) -> Result<(), Fail> {
    let end = optimise_net(rt.alloc(), &UNDER_A_NOT, 34)?;
    let text = str::from_utf8(end.text.as_slice())?;
    assert!(rt; are_steps(text));
    for (gate, position, driver) in PINS {
        assert_eq!(rt;
            end.graph.driver(NodeId(gate), position),
            Some(NodeId(driver))
        );
    }
    Ok(())
}
