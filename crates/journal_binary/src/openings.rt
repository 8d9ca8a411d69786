// The opening of a record at the front of bytes: what stands before its first item or bit.
ghost use Rattle.std.specs.Prelude.{◌≡◌};
ghost use Rattle.std.specs.Option.{option_map};
ghost use Rattle.journal_binary.specs.Fronts.{keyword_among, record_keywords};
ghost use Rattle.journal_binary.specs.Inner.Answers.{front_of};
ghost use Rattle.journal_binary.specs.Inner.Openings.{bare, head_keyword, one_step, open_add, open_fields, open_fix, open_hit, open_one, open_spent, open_two, read_opening, two_step};

use crate::fronts::{Lack, read_count, read_fault, read_four};
use rm_base::{Fault, NodeId};
use wire_edit::Step;

/// What the items of a record are of.
#[derive(Clone, Copy)]
pub(crate) enum Begun {
    Step(Step),
    Spent(Fault),
}

/// A record up to its first item or bit, and how many of them are to come.
#[derive(Clone, Copy)]
pub(crate) enum Opened {
    Items { what: Begun, left: u64 },
    Bits { fault: Fault, left: u64 },
}

/// A local step of one number.
#[derive(Clone, Copy)]
pub(crate) enum OneStep {
    NewNot,
    NoPins,
    OnePin,
    Twice,
    Dead,
}

/// A local step of two numbers.
#[derive(Clone, Copy)]
pub(crate) enum TwoStep {
    Const,
    Same,
    Twin,
}

/// What kind of record a byte says.
#[derive(Clone, Copy)]
pub(crate) enum Head {
    Add,
    Fix,
    One(OneStep),
    Two(TwoStep),
    Hit,
    Spent,
}

// The kind of record that a byte says.
fn head_of(byte: u8) -> Option<Head>
    ensures { option_map (λ h. head_keyword h) result ≡ keyword_among record_keywords byte }
{
    match byte {
        1 => Some(Head::Add),
        2 => Some(Head::Fix),
        3 => Some(Head::One(OneStep::NewNot)),
        4 => Some(Head::Two(TwoStep::Const)),
        5 => Some(Head::Two(TwoStep::Same)),
        6 => Some(Head::One(OneStep::NoPins)),
        7 => Some(Head::One(OneStep::OnePin)),
        8 => Some(Head::One(OneStep::Twice)),
        9 => Some(Head::Two(TwoStep::Twin)),
        10 => Some(Head::One(OneStep::Dead)),
        11 => Some(Head::Hit),
        12 => Some(Head::Spent),
        _ => None,
    }
}

fn one_step(kind: OneStep, node: NodeId) -> Step
    ensures { result ≡ one_step kind node }
{
    match kind {
        OneStep::NewNot => Step::NewNot { node },
        OneStep::NoPins => Step::NoPins { gate: node },
        OneStep::OnePin => Step::OnePin { gate: node },
        OneStep::Twice => Step::Twice { gate: node },
        OneStep::Dead => Step::Dead { gate: node },
    }
}

fn two_step(kind: TwoStep, gate: NodeId, number: u32) -> Step
    ensures { result ≡ two_step kind gate number }
{
    match kind {
        TwoStep::Const => Step::Const {
            gate,
            position: number,
        },
        TwoStep::Same => Step::Same {
            gate,
            position: number,
        },
        TwoStep::Twin => Step::Twin {
            gate,
            other: NodeId(number),
        },
    }
}

// A local step has no items.
fn bare(step: Step) -> Opened
    ensures { result ≡ bare step }
{
    Opened::Items {
        what: Begun::Step(step),
        left: 0,
    }
}

fn open_one(kind: OneStep, bytes: &[u8]) -> Result<(Opened, &[u8]), Lack>
    ensures { front_of (λ x. (x.0, x.1.now)) result ≡ open_one (λ y. one_step kind y) bytes.now }
{
    let (number, rest) = read_four(bytes)?;
    Ok((bare(one_step(kind, NodeId(number))), rest))
}

fn open_two(kind: TwoStep, bytes: &[u8]) -> Result<(Opened, &[u8]), Lack>
    ensures { front_of (λ x. (x.0, x.1.now)) result ≡ open_two (λ y q. two_step kind y q) bytes.now }
{
    let (gate, rest) = read_four(bytes)?;
    let (number, rest) = read_four(rest)?;
    Ok((bare(two_step(kind, NodeId(gate), number)), rest))
}

fn open_add(bytes: &[u8]) -> Result<(Opened, &[u8]), Lack>
    ensures { front_of (λ x. (x.0, x.1.now)) result ≡ open_add bytes.now }
{
    let (gate, rest) = read_four(bytes)?;
    let (driver, rest) = read_four(rest)?;
    let (left, rest) = read_count(rest)?;
    let what = Begun::Step(Step::Add {
        gate: NodeId(gate),
        node: NodeId(driver),
    });
    Ok((Opened::Items { what, left }, rest))
}

fn open_fix(bytes: &[u8]) -> Result<(Opened, &[u8]), Lack>
    ensures { front_of (λ x. (x.0, x.1.now)) result ≡ open_fix bytes.now }
{
    let (fault, rest) = read_fault(bytes)?;
    let (left, rest) = read_count(rest)?;
    let what = Begun::Step(Step::Fix {
        gate: fault.gate,
        position: fault.position,
        value: fault.value,
    });
    Ok((Opened::Items { what, left }, rest))
}

fn open_hit(bytes: &[u8]) -> Result<(Opened, &[u8]), Lack>
    ensures { front_of (λ x. (x.0, x.1.now)) result ≡ open_hit bytes.now }
{
    let (fault, rest) = read_fault(bytes)?;
    let (left, rest) = read_count(rest)?;
    Ok((Opened::Bits { fault, left }, rest))
}

fn open_spent(bytes: &[u8]) -> Result<(Opened, &[u8]), Lack>
    ensures { front_of (λ x. (x.0, x.1.now)) result ≡ open_spent bytes.now }
{
    let (fault, rest) = read_fault(bytes)?;
    let (left, rest) = read_count(rest)?;
    let what = Begun::Spent(fault);
    Ok((Opened::Items { what, left }, rest))
}

// What stands behind the byte of a record, up to its first item or bit.
fn open_fields(head: Head, bytes: &[u8]) -> Result<(Opened, &[u8]), Lack>
    ensures { front_of (λ x. (x.0, x.1.now)) result ≡ open_fields (head_keyword head) bytes.now }
{
    match head {
        Head::Add => open_add(bytes),
        Head::Fix => open_fix(bytes),
        Head::One(kind) => open_one(kind, bytes),
        Head::Two(kind) => open_two(kind, bytes),
        Head::Hit => open_hit(bytes),
        Head::Spent => open_spent(bytes),
    }
}

/// The opening at the front.
#[tactic(auto, unfolding(crate::specs::Inner::Openings::read_opening))]
pub(crate) fn read_opening(bytes: &[u8]) -> Result<(Opened, &[u8]), Lack>
    ensures { front_of (λ x. (x.0, x.1.now)) result ≡ read_opening bytes.now }
{
    let [byte, rest @ ..] = bytes else {
        return Err(Lack::Early);
    };
    let Some(head) = head_of(*byte) else {
        return Err(Lack::Wrong);
    };
    open_fields(head, rest)
}
