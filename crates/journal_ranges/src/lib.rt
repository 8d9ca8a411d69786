//! The numbers of steps, faults, trees and records in memory are machine words, so that a journal of them can be read: each
//! call does nothing, and its contract says so.
#![tactic(auto)]

ghost use Rattle.refutation.specs.declared.items.Item.TheVariants as item;
ghost use Rattle.journal_ranges.specs.Ranges.{AreFit, FittingAreEntries};
ghost use Rattle.journal_text.specs.Text.{AreItems, Fits, IsFault, IsItem, IsNumber, IsStep};
ghost use Rattle.journal_text.specs.declared.record.Entry.TheVariants as entry;

use journal_text::Record;
use refutation::{Item, Line, Tree};
use rm_base::{Fault, NodeId};
use wire_edit::Step;

fn number_fits(number: u32)
    ensures { IsNumber number }
{
    let _number = number;
}

fn node_fits(node: NodeId)
    ensures { IsNumber node.0 }
{
    number_fits(node.0);
}

fn pin_fits(node: NodeId, position: u32)
    ensures node { IsNumber node.0 }
    ensures position { IsNumber position }
{
    node_fits(node);
    number_fits(position);
}

/// The numbers of a fault.
pub fn fault_fits(fault: Fault)
    ensures { IsFault fault }
{
    pin_fits(fault.gate, fault.position);
}

fn step_fits(step: Step)
    ensures { IsStep step }
{
    match step {
        Step::Add { gate, node } => {
            node_fits(gate);
            node_fits(node);
        }
        Step::Fix { gate, position, .. } => pin_fits(gate, position),
        Step::NewNot { node } => node_fits(node),
        Step::Const { gate, position } => pin_fits(gate, position),
        Step::Same { gate, position } => pin_fits(gate, position),
        Step::NoPins { gate } => node_fits(gate),
        Step::OnePin { gate } => node_fits(gate),
        Step::Twice { gate } => node_fits(gate),
        Step::Twin { gate, other } => {
            node_fits(gate);
            node_fits(other);
        }
        Step::Dead { gate } => node_fits(gate),
    }
}

fn line_fits(line: Line)
    ensures { IsItem (item.Line line) }
{
    match line {
        Line::Act => {}
        Line::Site => {}
        Line::Chain { node } => node_fits(node),
        Line::Out { node } => node_fits(node),
        Line::Constant { node } => node_fits(node),
        Line::GoodForward { node } => node_fits(node),
        Line::FaultyForward { node } => node_fits(node),
        Line::GoodBack { node, position } => pin_fits(node, position),
        Line::FaultyBack { node, position } => pin_fits(node, position),
        Line::Compare { node } => node_fits(node),
        Line::ToFaulty { node } => node_fits(node),
        Line::ToGood { node } => node_fits(node),
        Line::EqualForward { node } => node_fits(node),
        Line::NotDiffers { node } => node_fits(node),
        Line::NotEqual { node } => node_fits(node),
        Line::DiffersBack { node, position } => pin_fits(node, position),
        Line::Side { node, position } => pin_fits(node, position),
    }
}

fn item_fits(item: Item)
    ensures { IsItem item }
{
    match item {
        Item::Line(line) => line_fits(line),
        Item::Split { node, .. } => node_fits(node),
        Item::Clash(node) => node_fits(node),
        Item::Quiet => {}
        Item::Here => {}
        Item::Untried => {}
    }
}

/// The numbers of a tree.
pub fn tree_fits(tree: &Tree)
    ensures { AreItems tree.now }
{
    let items = tree.items();
    for item in items {
        item_fits(*item);
    }
}

fn record_fits(given: &Record)
    ensures { Fits (entry.Record given.now) }
{
    match given {
        Record::Step { step, tree } => {
            step_fits(*step);
            tree_fits(tree);
        }
        Record::Hit { fault, .. } => fault_fits(*fault),
        Record::Spent { fault, tree } => {
            fault_fits(*fault);
            tree_fits(tree);
        }
    }
}

/// The numbers of records.
pub fn records_fit(records: &[Record])
    ensures { AreFit records.now }
{
    for record in records {
        record_fits(record);
    }
}

/// Records that fit and have lines are those of a journal.
pub fn fitting_are_entries()
    ensures { FittingAreEntries }
{}
