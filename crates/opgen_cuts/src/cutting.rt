//! A net that is made anew, node by node of the old one.
ghost use Rattle.std.specs.Prelude.{◌≡◌, ◌≤◌, ◌+◌, ◌<◌, ◌^◌, IfOk, OnOk, false};
ghost use Rattle.opgen_num.specs.declared.format.TheConstants.{MAX_WIDTH};
ghost use Rattle.opgen_design.specs.Plain.{plain};
ghost use Rattle.opgen_design.specs.Value.{IsWidth};
ghost use Rattle.opgen_net.specs.Valid.{IsValid};
ghost use Rattle.opgen_net.specs.WordRule.{bits_from};
ghost use Rattle.opgen_pieces.specs.Law.{AreOperands};
ghost use Rattle.opgen_cuts.specs.Recipe.{is_minus, with_cells, with_copy, with_entry, with_given, with_operands, with_pieces};
ghost use Rattle.opgen_cuts.specs.Stands.{AreBits, CellsFollow, CopyFollows, PiecesFollow};

use crate::renamed::{place_at, renamed, renamed_slice};
use crate::wires::{bits_at, bits_of_constant, wire_bits};
use opgen_list::Items;
use opgen_net::{Class, Expr, Net, Node, Op, Slice, WordBit, push_bits};
use opgen_num::{Memory, Word};
use opgen_pieces::{Sum, add_in_pieces};
use std::alloc::{AllocError, Global};

/// A net that is made anew: the new net, and for each node of the old one so far its bits in the new net, the highest first, and
/// its place there, a node of these bits, if it is needed whole.
#[derive(Drop)]
pub struct Cutting {
    pub net: Net,
    pub bits: Items<Items<WordBit>>,
    pub places: Items<usize>,
}

// Whether an operator takes its second operand off.
fn is_minus(op: Op) -> bool
    ensures { result ≡ is_minus op }
{
    match op {
        Op::Minus => true,
        Op::And | Op::Or | Op::Xor | Op::Cat | Op::Plus => false,
    }
}

// Another list of the same words.
fn copied(alloc: Global, rows: &[Word]) -> Result<Vec<Word>, AllocError>
    ensures { IfOk result (λ v. v.items ≡ rows.now) }
{
    rows.iter().copied().collect(alloc)
}

impl Cutting {
    // The allocator of the new net.
    fn allocator(&self) -> Global {
        self.net.nodes.allocator()
    }

    // Appends the bits and the place of the next node.
    fn enter(&mut self, bits: Items<WordBit>, place: usize) -> Result<(), AllocError>
        ensures { OnOk result (self.new ≡ with_entry bits place self.old) }
    {
        self.bits.push(bits)?;
        self.places.push(place)?;
        Ok(())
    }

    // The next node has bits that are there. A node of them is made if it is needed.
    fn give(&mut self, bits: Items<WordBit>, whole: bool) -> Result<(), Memory>
        requires net { IsValid self.old.net }
        requires bits { AreBits self.old.net bits }
        ensures { OnOk result (self.new ≡ with_given whole bits self.old) }
    {
        let place = if whole {
            self.net.word(bits.as_slice())?
        } else {
            0
        };
        self.enter(bits, place)?;
        Ok(())
    }

    // The next node is one of so many bits that has been appended.
    fn place(&mut self, width: u32, place: usize) -> Result<(), Memory>
        requires { IsWidth width }
        ensures { OnOk result (self.new ≡ with_entry (bits_from place 0 width) place self.old) }
    {
        let mut bits = Items::new(self.allocator());
        push_bits(&mut bits, place, 0, width)?;
        self.enter(bits, place)?;
        Ok(())
    }

    // The next node is a sum or a difference of two words.
    fn add(&mut self, sum: Sum<'_>, most: u32, whole: bool) -> Result<(), Memory>
        requires net { IsValid self.old.net }
        requires most { (4 ≤ most) × (most ≤ MAX_WIDTH) }
        requires operands { AreOperands self.old.net sum.first.now sum.second.now }
        ensures { OnOk result (self.new ≡ with_operands most whole sum.entry.is_minus sum.entry.first.now sum.entry.second.now self.old) }
    {
        let bits = add_in_pieces(self.allocator(), &mut self.net, sum, most)?;
        self.give(bits, whole)
    }

    // The next node is a sum or a difference of two wires.
    fn add_wires(&mut self, expr: &Expr, most: u32, whole: bool) -> Result<(), Memory>
        requires net { IsValid self.old.net }
        requires most { (4 ≤ most) × (most ≤ MAX_WIDTH) }
        requires operands { PiecesFollow self.old (plain expr.now) }
        ensures { OnOk result (self.new ≡ with_pieces most whole (plain expr.now) self.old) }
    {
        let Expr::Chain(op, operands) = expr else {
            unreachable!()
        };
        let alloc = self.allocator();
        let first = wire_bits(alloc, self.bits.as_slice(), &operands[0])?;
        let second = wire_bits(alloc, self.bits.as_slice(), &operands[1])?;
        let sum = Sum {
            first: first.as_slice(),
            second: second.as_slice(),
            is_minus: is_minus(*op),
        };
        self.add(sum, most, whole)
    }

    // The next node is an expression made of cells of one class.
    fn cells(
        &mut self,
        class: Class,
        width: u32,
        expr: &Expr,
        most: u32,
        whole: bool,
    ) -> Result<(), Memory>
        requires net { IsValid self.old.net }
        requires most { (4 ≤ most) × (most ≤ MAX_WIDTH) }
        requires follow { CellsFollow self.old class width (plain expr.now) }
        ensures { OnOk result (self.new ≡ with_cells most whole class width (plain expr.now) self.old) }
    {
        let alloc = self.allocator();
        match class {
            Class::Wire => {
                let bits = wire_bits(alloc, self.bits.as_slice(), expr)?;
                self.give(bits, whole)
            }
            Class::Add => self.add_wires(expr, most, whole),
            Class::Logic | Class::Choice | Class::Table | Class::Register => {
                let expr = renamed(alloc, self.places.as_slice(), expr)?;
                let place = self.net.cells(class, width, expr)?;
                self.place(width, place)
            }
        }
    }

    // The next node is a choice.
    fn choose(&mut self, on: usize, yes: Slice, no: Slice) -> Result<(), Memory>
        requires net { IsValid self.old.net }
        requires follow { CopyFollows self.old (Node.Choice on yes no) }
        ensures { OnOk result (self.new ≡ with_copy 4 false (Node.Choice on yes no) self.old) }
    {
        let places = self.places.as_slice();
        let on = place_at(places, on);
        let one = renamed_slice(places, yes);
        let other = renamed_slice(places, no);
        let place = self.net.choice(on, one, other)?;
        self.place(yes.high - yes.low + 1, place)
    }

    // The next node is a table.
    fn look_up(&mut self, address: usize, rows: &[Word]) -> Result<(), Memory>
        requires net { IsValid self.old.net }
        requires follow { CopyFollows self.old (Node.Table address rows.now) }
        ensures { OnOk result (self.new ≡ with_copy 4 false (Node.Table address rows.now) self.old) }
    {
        let address = place_at(self.places.as_slice(), address);
        let copied = copied(self.allocator(), rows)?;
        let place = self.net.table(address, copied)?;
        self.place(rows[0].width(), place)
    }

    // The next node is a delay.
    fn delay(&mut self, of: usize) -> Result<(), Memory>
        requires net { IsValid self.old.net }
        requires follow { CopyFollows self.old (Node.Delay of) }
        ensures { OnOk result (self.new ≡ with_copy 4 false (Node.Delay of) self.old) }
    {
        let width = bits_at(self.bits.as_slice(), of).len() as u32;
        let place = self.net.delay(place_at(self.places.as_slice(), of))?;
        self.place(width, place)
    }

    /// Appends what the recipe makes of the next node.
    pub(crate) fn copy(&mut self, node: &Node, most: u32, whole: bool) -> Result<(), Memory>
        requires net { IsValid self.old.net }
        requires most { (4 ≤ most) × (most ≤ MAX_WIDTH) }
        requires follow { CopyFollows self.old node.now }
        ensures { OnOk result (self.new ≡ with_copy most whole node.now self.old) }
    {
        match node {
            Node::Input { port, width } => self.place(*width, *port),
            Node::Constant(word) => {
                let bits = bits_of_constant(self.allocator(), *word)?;
                self.give(bits, whole)
            }
            Node::Cells { class, width, expr } => {
                self.cells(*class, *width, expr.expr(), most, whole)
            }
            Node::Choice { on, yes, no } => self.choose(*on, *yes, *no),
            Node::Table { address, rows } => self.look_up(*address, rows.as_slice()),
            Node::Delay { of } => self.delay(*of),
        }
    }
}
