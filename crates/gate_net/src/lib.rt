//! What a net of gates is: its nodes and pins, its good and faulty values, its changes, and their laws.
#![tactic(auto)]

ghost use Rattle.gate_net.specs.Forward.{ReadingsHold, ReadingsAgree};
ghost use Rattle.gate_net.specs.Laws.{ValuesExist, FaultyValuesExist, OutsideIsEqual, ChainsDecide, IdlePinsChangeNothing, FixesKeep, FixesKeepAcyclic, AddsKeep, PinsKeepAcyclic, MovesKeep, TwiceKeeps, MovesKeepAcyclic};

mod meaning;

/// What a node is.
#[derive(Clone, Copy, Debug, PartialEq, Eq)]
pub enum Kind {
    Source,
    Zero,
    One,
    And,
    Or,
    Not,
    Xor,
}

/// What a kind means. A Not is the parity of one pin, inverted, and an Xor that of two.
#[derive(Clone, Copy, Debug, PartialEq, Eq)]
pub enum Family {
    /// A source has the value that it is assigned.
    Input,
    Constant { value: bool },
    /// An And or an Or: a pin with the controlling value decides.
    Junction { controlling: bool },
    /// 1 where an odd number of pins is 1, and the opposite where it inverts.
    Parity { inverts: bool },
}

/// An acyclic net has exactly one valuation for each assignment.
pub fn values_exist()
    ensures { ValuesExist }
{}

/// And exactly one faulty valuation.
pub fn faulty_values_exist()
    ensures { FaultyValuesExist }
{}

/// A node that the fault doesn't reach has one value with and without it.
pub fn outside_is_equal()
    ensures { OutsideIsEqual }
{}

/// Where a node of the chain has one value with and without the fault, so has every observed node.
pub fn chains_decide()
    ensures { ChainsDecide }
{}

/// A stuck pin that reads what it is stuck at changes no value.
pub fn idle_pins_change_nothing()
    ensures { IdlePinsChangeNothing }
{}

/// What forward reading marks is true for every completion of the known sources.
pub fn readings_hold()
    ensures { ReadingsHold }
{}

/// There is one forward reading at most.
pub fn readings_agree()
    ensures { ReadingsAgree }
{}

/// A pin whose fault is undetected may read the constant.
pub fn fixes_keep()
    ensures values { FixesKeep }
    ensures acyclic { FixesKeepAcyclic }
{}

/// A pin may be added where its fault at the noncontrolling value is undetected afterwards.
pub fn adds_keep()
    ensures { AddsKeep }
{}

/// A pin may be added where its driver isn't reached from the gate.
pub fn pins_keep_acyclic()
    ensures { PinsKeepAcyclic }
{}

/// Readers may move between nodes that always have one value.
pub fn moves_keep()
    ensures moves { MovesKeep }
    ensures twice { TwiceKeeps }
    ensures acyclic { MovesKeepAcyclic }
{}
