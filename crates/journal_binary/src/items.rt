// The item at the front of bytes.
ghost use Rattle.std.specs.Prelude.{◌≡◌, List, ℕ};
ghost use Rattle.refutation.specs.declared.items.Item.TheVariants as item;
ghost use Rattle.journal_text.specs.Letters.{all_letters};
ghost use Rattle.journal_binary.specs.Fronts.{letter_among, read_item, read_letter, with_bit, with_node, with_pin};
ghost use Rattle.journal_binary.specs.Inner.Answers.{front_of};
ghost use Rattle.journal_binary.specs.Inner.Items.{node_item, pin_item, read_kind, read_kinds};

use crate::fronts::{Lack, read_bit, read_four};
use refutation::{Item, Line};
use rm_base::NodeId;

/// An item with one node.
#[derive(Clone, Copy)]
pub(crate) enum NodeKind {
    Chain,
    Out,
    Constant,
    GoodForward,
    FaultyForward,
    Compare,
    ToFaulty,
    ToGood,
    EqualForward,
    NotDiffers,
    NotEqual,
    Clash,
}

/// An item with a node and a position.
#[derive(Clone, Copy)]
pub(crate) enum PinKind {
    GoodBack,
    FaultyBack,
    DiffersBack,
    Side,
}

/// What stands behind the byte of an item.
#[derive(Clone, Copy)]
pub(crate) enum Kind {
    /// Nothing.
    Bare(Item),
    Node(NodeKind),
    Pin(PinKind),
    /// A node and a bit.
    Split,
}

// The kind of item that a byte says.
fn kind_of(byte: u8) -> Option<Kind>
    ensures { (bytes : List ℕ) → read_kinds result bytes ≡ read_letter (letter_among all_letters byte) bytes }
{
    match byte {
        1 => Some(Kind::Bare(Item::Line(Line::Act))),
        2 => Some(Kind::Bare(Item::Line(Line::Site))),
        3 => Some(Kind::Node(NodeKind::Chain)),
        4 => Some(Kind::Node(NodeKind::Out)),
        5 => Some(Kind::Node(NodeKind::Constant)),
        6 => Some(Kind::Node(NodeKind::GoodForward)),
        7 => Some(Kind::Node(NodeKind::FaultyForward)),
        8 => Some(Kind::Pin(PinKind::GoodBack)),
        9 => Some(Kind::Pin(PinKind::FaultyBack)),
        10 => Some(Kind::Node(NodeKind::Compare)),
        11 => Some(Kind::Node(NodeKind::ToFaulty)),
        12 => Some(Kind::Node(NodeKind::ToGood)),
        13 => Some(Kind::Node(NodeKind::EqualForward)),
        14 => Some(Kind::Node(NodeKind::NotDiffers)),
        15 => Some(Kind::Node(NodeKind::NotEqual)),
        16 => Some(Kind::Pin(PinKind::DiffersBack)),
        17 => Some(Kind::Pin(PinKind::Side)),
        18 => Some(Kind::Split),
        19 => Some(Kind::Node(NodeKind::Clash)),
        20 => Some(Kind::Bare(Item::Quiet)),
        21 => Some(Kind::Bare(Item::Here)),
        22 => Some(Kind::Bare(Item::Untried)),
        _ => None,
    }
}

fn node_item(kind: NodeKind, node: NodeId) -> Item
    ensures { result ≡ node_item kind node }
{
    match kind {
        NodeKind::Chain => Item::Line(Line::Chain { node }),
        NodeKind::Out => Item::Line(Line::Out { node }),
        NodeKind::Constant => Item::Line(Line::Constant { node }),
        NodeKind::GoodForward => Item::Line(Line::GoodForward { node }),
        NodeKind::FaultyForward => Item::Line(Line::FaultyForward { node }),
        NodeKind::Compare => Item::Line(Line::Compare { node }),
        NodeKind::ToFaulty => Item::Line(Line::ToFaulty { node }),
        NodeKind::ToGood => Item::Line(Line::ToGood { node }),
        NodeKind::EqualForward => Item::Line(Line::EqualForward { node }),
        NodeKind::NotDiffers => Item::Line(Line::NotDiffers { node }),
        NodeKind::NotEqual => Item::Line(Line::NotEqual { node }),
        NodeKind::Clash => Item::Clash(node),
    }
}

fn pin_item(kind: PinKind, node: NodeId, position: u32) -> Item
    ensures { result ≡ pin_item kind node position }
{
    match kind {
        PinKind::GoodBack => Item::Line(Line::GoodBack { node, position }),
        PinKind::FaultyBack => Item::Line(Line::FaultyBack { node, position }),
        PinKind::DiffersBack => Item::Line(Line::DiffersBack { node, position }),
        PinKind::Side => Item::Line(Line::Side { node, position }),
    }
}

fn read_node(kind: NodeKind, bytes: &[u8]) -> Result<(Item, &[u8]), Lack>
    ensures { front_of (λ x. (x.0, x.1.now)) result ≡ with_node (λ y. node_item kind y) bytes.now }
{
    let (number, rest) = read_four(bytes)?;
    Ok((node_item(kind, NodeId(number)), rest))
}

fn read_pin(kind: PinKind, bytes: &[u8]) -> Result<(Item, &[u8]), Lack>
    ensures { front_of (λ x. (x.0, x.1.now)) result ≡ with_pin (λ y q. pin_item kind y q) bytes.now }
{
    let (number, rest) = read_four(bytes)?;
    let (position, rest) = read_four(rest)?;
    Ok((pin_item(kind, NodeId(number), position), rest))
}

fn read_split(bytes: &[u8]) -> Result<(Item, &[u8]), Lack>
    ensures { front_of (λ x. (x.0, x.1.now)) result ≡ with_bit (λ y first. item.Split y first) bytes.now }
{
    let (number, rest) = read_four(bytes)?;
    let (first, rest) = read_bit(rest)?;
    let node = NodeId(number);
    Ok((Item::Split { node, first }, rest))
}

// What stands behind the byte of an item.
fn read_kind(kind: Kind, bytes: &[u8]) -> Result<(Item, &[u8]), Lack>
    ensures { front_of (λ x. (x.0, x.1.now)) result ≡ read_kind kind bytes.now }
{
    match kind {
        Kind::Bare(item) => Ok((item, bytes)),
        Kind::Node(kind) => read_node(kind, bytes),
        Kind::Pin(kind) => read_pin(kind, bytes),
        Kind::Split => read_split(bytes),
    }
}

/// The item at the front.
#[tactic(auto, unfolding(crate::specs::Fronts::read_item))]
pub(crate) fn read_item(bytes: &[u8]) -> Result<(Item, &[u8]), Lack>
    ensures { front_of (λ x. (x.0, x.1.now)) result ≡ read_item bytes.now }
{
    let [byte, rest @ ..] = bytes else {
        return Err(Lack::Early);
    };
    let Some(kind) = kind_of(*byte) else {
        return Err(Lack::Wrong);
    };
    read_kind(kind, rest)
}
