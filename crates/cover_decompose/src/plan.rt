// The nodes of a decomposition, listed before a graph is made of them.
ghost use Rattle.std.specs.Prelude.{◌≡◌, ◌<◌, ◌+◌, ◌≤◌, ◌^◌, ◌++◌, ◌∷◌, length, map, replicate, All, IfOk, OnOk, None, slice_get, slice_index};
ghost use Rattle.cover_decompose.specs.Decomposition.{plain as plain_node};
ghost use Rattle.cover_decompose.specs.Inner.Tally.{AreEven};
ghost use Rattle.gate_net.specs.declared.Kind.TheVariants.{Source, Xor, Zero, One};
ghost use Rattle.std.specs.Option.{option_to_list};
ghost use Rattle.cover_decompose.specs.Inner.PlanView.{node_of_plan};
ghost use Rattle.cover_decompose.specs.Inner.Plan.{closed_planned, counting, cover_planned, covers_planned, gate_planned, joined_planned, literal_planned, literals_planned, node_planned, not_of, not_planned, one_planned, start_planned, term_planned, terms_planned};
ghost use Rattle.rm_base.specs.Numbers.{first_source};

use crate::parity::parity_ending;
use gate_net::Kind;
use rm_base::{FIRST_SOURCE, NoMemory};
use rm_model::{Cover, Literal, Row};
use std::alloc::Global;
use std::marker::Model;

/// A node and the nodes that it reads.
#[derive(Drop)]
pub struct PlanNode {
    pub kind: Kind,
    pub drivers: Vec<usize>,
}

/// The nodes by number, and by the number of each signal its node and its Not.
#[derive(Drop)]
pub struct Plan {
    made: Vec<PlanNode>,
    nodes: Vec<usize>,
    nots: Vec<Option<usize>>,
    alloc: Global,
}

impl Model for Plan {
    ghost use Rattle.cover_decompose.specs.Inner.Plan.{Planned};
    ghost use Rattle.cover_decompose.specs.Inner.PlanView.{node_of_plan};
    ghost use Rattle.std.specs.Prelude.{◌≡◌, length, map};

    ghost Value = { Planned };

    ghost view = { λ p. record { made = map node_of_plan p.made.items; nodes = p.nodes.items; nots = p.nots.items } };

    ghost invariant = { λ p. length p.nots.items ≡ length p.nodes.items };
}

fn plain(alloc: Global, kind: Kind) -> PlanNode
    ensures { node_of_plan result ≡ plain_node kind }
{
    PlanNode {
        kind,
        drivers: Vec::new(alloc),
    }
}

fn first_nodes(alloc: Global, sources: usize) -> Result<Vec<PlanNode>, NoMemory>
    ensures { IfOk result (λ ns. map node_of_plan ns.items ≡ plain_node Zero ∷ plain_node One ∷ replicate sources (plain_node Source)) }
{
    let mut nodes = Vec::new(alloc);
    nodes.push(plain(alloc, Kind::Zero))?;
    nodes.push(plain(alloc, Kind::One))?;
    for _source in 0..sources {
        nodes.push(plain(alloc, Kind::Source))?;
    }
    Ok(nodes)
}

fn first_numbers(alloc: Global, sources: usize, covers: usize) -> Result<Vec<usize>, NoMemory>
    requires { first_source + sources + covers < 2 ^ 64 }
    ensures { IfOk result (λ ns. ns.items ≡ counting 2 sources ++ replicate covers 0) }
{
    let mut numbers = Vec::new(alloc);
    for source in 0..sources {
        numbers.push(FIRST_SOURCE as usize + source)?;
    }
    for _cover in 0..covers {
        numbers.push(0)?;
    }
    Ok(numbers)
}

fn no_nots(alloc: Global, signals: usize) -> Result<Vec<Option<usize>>, NoMemory>
    ensures { IfOk result (λ ns. ns.items ≡ replicate signals None) }
{
    let mut nots = Vec::new(alloc);
    nots.resize(signals, None)?;
    Ok(nots)
}

impl Plan {
    /// The constants and the sources; no cover's output has a node yet.
    pub fn start(alloc: Global, sources: usize, covers: usize) -> Result<Plan, NoMemory>
        requires { first_source + sources + covers < 2 ^ 64 }
        ensures { IfOk result (λ p. p ≡ start_planned sources covers) }
    {
        Ok(Plan {
            made: first_nodes(alloc, sources)?,
            nodes: first_numbers(alloc, sources, covers)?,
            nots: no_nots(alloc, sources + covers)?,
            alloc,
        })
    }

    pub fn made_nodes(&self) -> &[PlanNode]
        ensures { map node_of_plan result.now ≡ self.now.made }
    {
        self.made.as_slice()
    }

    pub fn node(&self, signal: usize) -> usize
        requires { signal < length self.now.nodes }
        ensures { result ≡ slice_index self.now.nodes signal }
    {
        self.nodes[signal]
    }

    fn gate(&mut self, kind: Kind, drivers: Vec<usize>) -> Result<usize, NoMemory>
        ensures plan { OnOk result (self.new ≡ gate_planned self.old kind drivers.items) }
        ensures number { IfOk result (λ n. n ≡ length self.old.made) }
    {
        let number = self.made.len();
        self.made.push(PlanNode { kind, drivers })?;
        Ok(number)
    }

    // The Not of a signal, made at its first use.
    fn not_node(&mut self, signal: usize) -> Result<usize, NoMemory>
        requires { signal < length self.old.nodes }
        ensures plan { OnOk result (self.new ≡ (not_planned self.old signal (not_of self.old signal)).0) }
        ensures number { IfOk result (λ n. n ≡ (not_planned self.old signal (not_of self.old signal)).1) }
        ensures kept { OnOk result (length self.new.nodes ≡ length self.old.nodes) }
    {
        if let Some(node) = self.nots[signal] {
            return Ok(node);
        }
        let driver = self.nodes[signal];
        let node = self.gate(Kind::Not, Vec::from_array(self.alloc, [driver])?)?;
        self.nots[signal] = Some(node);
        Ok(node)
    }

    // The node of a literal, if it reads its signal.
    fn literal(&mut self, signal: usize, literal: Literal) -> Result<Option<usize>, NoMemory>
        requires { signal < length self.old.nodes }
        ensures plan { OnOk result (self.new ≡ (literal_planned self.old signal literal).0) }
        ensures number { IfOk result (λ n. n ≡ (literal_planned self.old signal literal).1) }
        ensures kept { OnOk result (length self.new.nodes ≡ length self.old.nodes) }
    {
        match literal {
            Literal::Zero => Ok(Some(self.not_node(signal)?)),
            Literal::One => Ok(Some(self.nodes[signal])),
            Literal::Any => Ok(None),
        }
    }

    fn push_literal(
        &mut self,
        nodes: &mut Vec<usize>,
        signal: usize,
        literal: Literal,
    ) -> Result<(), NoMemory>
        requires { signal < length self.old.nodes }
        ensures plan { OnOk result (self.new ≡ (literal_planned self.old signal literal).0) }
        ensures pushed { OnOk result (nodes.new.items ≡ nodes.old.items ++ option_to_list (literal_planned self.old signal literal).1) }
        ensures kept { OnOk result (length self.new.nodes ≡ length self.old.nodes) }
    {
        if let Some(node) = self.literal(signal, literal)? {
            nodes.push(node)?;
        }
        Ok(())
    }

    fn literals(&mut self, inputs: &[u32], row: &[Literal]) -> Result<Vec<usize>, NoMemory>
        requires even { length row.now ≡ length inputs.now }
        requires within { All (λ k. k < length self.old.nodes) inputs.now }
        ensures plan { OnOk result (self.new ≡ (literals_planned self.old inputs.now row.now).0) }
        ensures nodes { IfOk result (λ ns. ns.items ≡ (literals_planned self.old inputs.now row.now).1) }
        ensures kept { OnOk result (length self.new.nodes ≡ length self.old.nodes) }
    {
        let mut nodes = Vec::new(self.alloc);
        for (at, literal) in row.iter().enumerate() {
            self.push_literal(&mut nodes, inputs[at] as usize, *literal)?;
        }
        Ok(nodes)
    }

    // The gate over a list of nodes: none for fewer than two.
    fn join_nodes(&mut self, kind: Kind, empty: usize, nodes: Vec<usize>) -> Result<usize, NoMemory>
        ensures plan { OnOk result (self.new ≡ (joined_planned kind empty self.old nodes.items).0) }
        ensures number { IfOk result (λ n. n ≡ (joined_planned kind empty self.old nodes.items).1) }
        ensures kept { OnOk result (length self.new.nodes ≡ length self.old.nodes) }
    {
        if nodes.len() >= 2 {
            return self.gate(kind, nodes);
        }
        match nodes.first() {
            None => Ok(empty),
            Some(node) => Ok(*node),
        }
    }

    fn term(&mut self, inputs: &[u32], row: &[Literal]) -> Result<usize, NoMemory>
        requires even { length row.now ≡ length inputs.now }
        requires within { All (λ k. k < length self.old.nodes) inputs.now }
        ensures plan { OnOk result (self.new ≡ (term_planned self.old inputs.now row.now).0) }
        ensures number { IfOk result (λ n. n ≡ (term_planned self.old inputs.now row.now).1) }
        ensures kept { OnOk result (length self.new.nodes ≡ length self.old.nodes) }
    {
        let nodes = self.literals(inputs, row)?;
        self.join_nodes(Kind::And, 1, nodes)
    }

    fn terms(&mut self, inputs: &[u32], rows: &[Row]) -> Result<Vec<usize>, NoMemory>
        requires even { All (λ r. length r ≡ length inputs.now) rows.now }
        requires within { All (λ k. k < length self.old.nodes) inputs.now }
        ensures plan { OnOk result (self.new ≡ (terms_planned self.old inputs.now rows.now).0) }
        ensures nodes { IfOk result (λ ns. ns.items ≡ (terms_planned self.old inputs.now rows.now).1) }
        ensures kept { OnOk result (length self.new.nodes ≡ length self.old.nodes) }
    {
        let mut nodes = Vec::new(self.alloc);
        for row in rows {
            let node = self.term(inputs, row.items())?;
            nodes.push(node)?;
        }
        Ok(nodes)
    }

    fn with_ending(&mut self, on: bool, node: usize) -> Result<usize, NoMemory>
        ensures plan { OnOk result (self.new ≡ (closed_planned on (self.old, node)).0) }
        ensures number { IfOk result (λ n. n ≡ (closed_planned on (self.old, node)).1) }
        ensures kept { OnOk result (length self.new.nodes ≡ length self.old.nodes) }
    {
        if on {
            return Ok(node);
        }
        self.gate(Kind::Not, Vec::from_array(self.alloc, [node])?)
    }

    fn nodes_of(&self, signals: &[u32]) -> Result<Vec<usize>, NoMemory>
        requires { All (λ k. k < length self.now.nodes) signals.now }
        ensures { IfOk result (λ ns. ns.items ≡ map (slice_index self.now.nodes) signals.now) }
    {
        let mut nodes = Vec::new(self.alloc);
        for signal in signals {
            nodes.push(self.nodes[*signal as usize])?;
        }
        Ok(nodes)
    }

    fn parity(&mut self, inputs: &[u32]) -> Result<usize, NoMemory>
        requires { All (λ k. k < length self.old.nodes) inputs.now }
        ensures plan { OnOk result (self.new ≡ gate_planned self.old Xor (map (slice_index self.old.nodes) inputs.now)) }
        ensures number { IfOk result (λ n. n ≡ length self.old.made) }
        ensures kept { OnOk result (length self.new.nodes ≡ length self.old.nodes) }
    {
        let drivers = self.nodes_of(inputs)?;
        self.gate(Kind::Xor, drivers)
    }

    fn sum(&mut self, inputs: &[u32], cover: &Cover) -> Result<usize, NoMemory>
        requires even { All (λ r. length r ≡ length inputs.now) cover.now.rows }
        requires within { All (λ k. k < length self.old.nodes) inputs.now }
        ensures plan { OnOk result (self.new ≡ (node_planned self.old inputs.now cover.now).0) }
        ensures number { IfOk result (λ n. n ≡ (node_planned self.old inputs.now cover.now).1) }
        ensures kept { OnOk result (length self.new.nodes ≡ length self.old.nodes) }
    {
        if let Some(ends) = parity_ending(cover) {
            let sum = self.parity(inputs)?;
            return self.with_ending(ends, sum);
        }
        let terms = self.terms(inputs, cover.rows.items())?;
        let sum = self.join_nodes(Kind::Or, 0, terms)?;
        self.with_ending(cover.on, sum)
    }

    /// Makes the nodes of a cover whose output is the signal of that number.
    pub fn cover(&mut self, inputs: &[u32], output: usize, cover: &Cover) -> Result<(), NoMemory>
        requires even { All (λ r. length r ≡ length inputs.now) cover.now.rows }
        requires within { All (λ k. k < length self.old.nodes) inputs.now }
        requires output { output < length self.old.nodes }
        ensures plan { OnOk result (self.new ≡ cover_planned self.old inputs.now output cover.now) }
        ensures kept { OnOk result (length self.new.nodes ≡ length self.old.nodes) }
    {
        let node = self.sum(inputs, cover)?;
        self.nodes[output] = node;
        Ok(())
    }

    // Makes the nodes of the cover at a place.
    fn cover_at(
        &mut self,
        covers: &[Cover],
        inputs: &[Vec<u32>],
        first: usize,
        place: usize,
    ) -> Result<(), NoMemory>
        requires place { place < length covers.now }
        requires even { AreEven covers.now (map (λ ks. ks.items) inputs.now) }
        requires within { All (λ ks. All (λ k. k < length self.old.nodes) ks.items) inputs.now }
        requires room { first + length covers.now ≤ length self.old.nodes }
        requires fits { first + length covers.now < 2 ^ 64 }
        ensures plan { OnOk result (self.new
            ≡ one_planned self.old (slice_get covers.now place)
            (slice_get (map (λ ks. ks.items) inputs.now) place) (first + place)) }
        ensures kept { OnOk result (length self.new.nodes ≡ length self.old.nodes) }
    {
        self.cover(inputs[place].as_slice(), first + place, &covers[place])?;
        Ok(())
    }

    /// Makes the nodes of the covers at these places, of which the first has an output of this number.
    pub fn covers(
        &mut self,
        covers: &[Cover],
        inputs: &[Vec<u32>],
        first: usize,
        places: &[usize],
    ) -> Result<(), NoMemory>
        requires places { All (λ i. i < length covers.now) places.now }
        requires even { AreEven covers.now (map (λ ks. ks.items) inputs.now) }
        requires within { All (λ ks. All (λ k. k < length self.old.nodes) ks.items) inputs.now }
        requires room { first + length covers.now ≤ length self.old.nodes }
        requires fits { first + length covers.now < 2 ^ 64 }
        ensures plan { OnOk result (self.new ≡ covers_planned self.old covers.now (map (λ ks. ks.items) inputs.now) first places.now) }
        ensures kept { OnOk result (length self.new.nodes ≡ length self.old.nodes) }
    {
        for place in places {
            self.cover_at(covers, inputs, first, *place)?;
        }
        Ok(())
    }
}
