//! Nets as types, and their builder: appends inputs, constants, cells, choices, tables, delays and outputs.
ghost use Rattle.std.specs.Prelude.{◌≡◌, ◌<◌, ◌++◌, [], ◌∷◌, length, slice_index, IfOk, OnOk, OnErr};
ghost use Rattle.opgen_net.specs.Flow.{KeepsFlow};
ghost use Rattle.opgen_design.specs.Plain.{plain};
ghost use Rattle.opgen_net.specs.Cells.{IsOfClass};
ghost use Rattle.opgen_net.specs.Valid.{IsValid, FitsNodes, FitsChoice, FitsTable, LiesWithin, MayStand, input_nodes, widths};
ghost use Rattle.opgen_design.specs.Value.{IsWidth};
ghost use Rattle.opgen_net.specs.Placed.{with_port};

use crate::{Class, Expr, Formula, Node, Slice};
use opgen_list::{Items, Text};
use opgen_num::{Memory, Word};
use std::alloc::{AllocError, Global};

/// An output of a net: a slice of a node under a name.
#[derive(Drop)]
pub struct Output {
    pub name: Text,
    pub from: Slice,
}

/// A net: the names and widths of its inputs, its nodes in order and its outputs.
#[derive(Drop)]
pub struct Net {
    pub inputs: Items<(Text, u32)>,
    pub nodes: Items<Node>,
    pub outputs: Items<Output>,
}

impl Net {
    /// A net of no nodes, which keeps the allocator for what it will hold.
    pub fn new(alloc: Global) -> Net
        ensures inputs { result.inputs ≡ [] }
        ensures nodes { result.nodes ≡ [] }
        ensures outputs { result.outputs ≡ [] }
        ensures valid { IsValid result }
    {
        Net {
            inputs: Items::new(alloc),
            nodes: Items::new(alloc),
            outputs: Items::new(alloc),
        }
    }

    /// Appends an input port of a width in bits, and answers the number of its node.
    pub fn input(&mut self, name: &str, width: u32) -> Result<usize, Memory>
        requires net { IsValid self.old }
        requires width { IsWidth width }
        ensures ok { OnOk result (self.new ≡ with_port name.now width self.old) }
        ensures place { IfOk result (λ n. n ≡ length self.old.nodes) }
        ensures err { OnErr result (self.new ≡ self.old) }
        ensures valid { IsValid self.new }
        ensures flow { KeepsFlow self.old.nodes self.new.nodes }
    {
        let name = Text::from_str(self.nodes.allocator(), name)?;
        let port = self.inputs.len();
        let place = self.nodes.len();
        self.inputs.push((name, width))?;
        match self.nodes.push(Node::Input { port, width }) {
            Ok(()) => Ok(place),
            Err(refused) => {
                let _input = self.inputs.pop();
                Err(refused.into())
            }
        }
    }

    /// Appends a node that has the same word at each time, and answers its number.
    pub fn constant(&mut self, word: Word) -> Result<usize, Memory>
        requires net { IsValid self.old }
        requires width { IsWidth (length word) }
        ensures ok { OnOk result (self.new ≡ record self.old { nodes = self.old.nodes ++ Node.Constant word ∷ [] }) }
        ensures place { IfOk result (λ n. n ≡ length self.old.nodes) }
        ensures err { OnErr result (self.new ≡ self.old) }
        ensures valid { IsValid self.new }
        ensures flow { KeepsFlow self.old.nodes self.new.nodes }
    {
        let place = self.append(Node::Constant(word))?;
        Ok(place)
    }

    /// Appends an expression over the nodes that are there, made of cells of one class, and answers its number.
    pub fn cells(&mut self, class: Class, width: u32, expr: Expr) -> Result<usize, Memory>
        requires net { IsValid self.old }
        requires class { IsOfClass (widths self.old.nodes) class (plain expr) }
        requires fits { FitsNodes (widths self.old.nodes) width (plain expr) }
        ensures ok { OnOk result (self.new ≡ record self.old { nodes = self.old.nodes ++ Node.Cells class width (plain expr) ∷ [] }) }
        ensures place { IfOk result (λ n. n ≡ length self.old.nodes) }
        ensures err { OnErr result (self.new ≡ self.old) }
        ensures valid { IsValid self.new }
        ensures flow { KeepsFlow self.old.nodes self.new.nodes }
    {
        let expr = Formula::new(expr);
        let place = self.append(Node::Cells { class, width, expr })?;
        Ok(place)
    }

    /// Appends the choice of `yes` where node `on`, of one bit, is 1, and of `no` otherwise, and answers its number.
    pub fn choice(&mut self, on: usize, yes: Slice, no: Slice) -> Result<usize, Memory>
        requires net { IsValid self.old }
        requires fits { FitsChoice (widths self.old.nodes) on yes no }
        ensures ok { OnOk result (self.new ≡ record self.old { nodes = self.old.nodes ++ Node.Choice on yes no ∷ [] }) }
        ensures place { IfOk result (λ n. n ≡ length self.old.nodes) }
        ensures err { OnErr result (self.new ≡ self.old) }
        ensures valid { IsValid self.new }
        ensures flow { KeepsFlow self.old.nodes self.new.nodes }
    {
        let place = self.append(Node::Choice { on, yes, no })?;
        Ok(place)
    }

    /// Appends a table that has the row that the word of node `address` numbers, from 0, and answers its number.
    pub fn table(&mut self, address: usize, rows: Vec<Word>) -> Result<usize, Memory>
        requires net { IsValid self.old }
        requires fits { FitsTable (widths self.old.nodes) address rows.items }
        ensures ok { OnOk result (self.new ≡ record self.old { nodes = self.old.nodes ++ Node.Table address rows.items ∷ [] }) }
        ensures place { IfOk result (λ n. n ≡ length self.old.nodes) }
        ensures err { OnErr result (self.new ≡ self.old) }
        ensures valid { IsValid self.new }
        ensures flow { KeepsFlow self.old.nodes self.new.nodes }
    {
        let rows = Items::from_vec(rows);
        let place = self.append(Node::Table { address, rows })?;
        Ok(place)
    }

    /// Appends a node that has at each time what node `of` had one cycle before, and answers its number.
    pub fn delay(&mut self, of: usize) -> Result<usize, Memory>
        requires net { IsValid self.old }
        requires there { of < length self.old.nodes }
        ensures ok { OnOk result (self.new ≡ record self.old { nodes = self.old.nodes ++ Node.Delay of ∷ [] }) }
        ensures place { IfOk result (λ n. n ≡ length self.old.nodes) }
        ensures err { OnErr result (self.new ≡ self.old) }
        ensures valid { IsValid self.new }
        ensures flow { KeepsFlow self.old.nodes self.new.nodes }
    {
        let place = self.append(Node::Delay { of })?;
        Ok(place)
    }

    /// Appends an output that gives a slice of a node under a name.
    pub fn output(&mut self, name: &str, from: Slice) -> Result<(), Memory>
        requires net { IsValid self.old }
        requires lies { LiesWithin (widths self.old.nodes) from }
        ensures ok { OnOk result (self.new ≡ record self.old { outputs = self.old.outputs ++ (record { name = name.now; from = from }) ∷ [] }) }
        ensures err { OnErr result (self.new ≡ self.old) }
        ensures valid { IsValid self.new }
    {
        let name = Text::from_str(self.nodes.allocator(), name)?;
        self.outputs.push(Output { name, from })?;
        Ok(())
    }

    /// The number of bits of a node's word. A delay has those of its operand, so this goes back along a chain of delays.
    pub fn width_of(&self, node: usize) -> u32
        requires net { IsValid self.now }
        requires there { node < length self.now.nodes }
        ensures { result ≡ slice_index (widths self.now.nodes) node }
    {
        let mut at = node;
        loop {
            match self.nodes.get(at) {
                Node::Delay { of } => at = *of,
                Node::Input { port: _, width } => return *width,
                Node::Constant(word) => return word.width(),
                Node::Cells {
                    class: _,
                    width,
                    expr: _,
                } => return *width,
                Node::Choice { on: _, yes, no: _ } => return yes.high - yes.low + 1,
                Node::Table { address: _, rows } => return rows.get(0).width(),
            }
        }
    }

    // Appends a node that is no input.
    fn append(&mut self, node: Node) -> Result<usize, AllocError>
        requires net { IsValid self.old }
        requires stands { MayStand (widths self.old.nodes) node }
        requires no_input { input_nodes (node ∷ []) ≡ [] }
        ensures ok { OnOk result (self.new ≡ record self.old { nodes = self.old.nodes ++ node ∷ [] }) }
        ensures place { IfOk result (λ n. n ≡ length self.old.nodes) }
        ensures err { OnErr result (self.new ≡ self.old) }
        ensures valid { IsValid self.new }
        ensures flow { KeepsFlow self.old.nodes self.new.nodes }
    {
        let place = self.nodes.len();
        self.nodes.push(node)?;
        Ok(place)
    }
}
