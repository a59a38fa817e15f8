//! Expressions over bits as types: signals, slices, constants, input ports, `not`, and chains of one operator.
use opgen_num::Word;

/// The most parentheses round operands that are open at one place of an expression's text.
pub const MAX_NESTING: u32 = 64;

/// The bits `high` down to `low` of a node, or of a signal in a design.
#[derive(Clone, Copy, Debug, PartialEq, Eq)]
pub struct Slice {
    pub node: usize,
    pub high: u32,
    pub low: u32,
}

/// An operator between the operands of a chain. `Cat` is `&`: its first operand stands highest.
#[derive(Clone, Copy, Debug, PartialEq, Eq)]
pub enum Op {
    And,
    Or,
    Xor,
    Cat,
    Plus,
    Minus,
}

/// An expression over bits.
///
/// `Name` and `Part` speak of nodes in a net, of signals in a design; `Port` of a place in the list of ports.
#[derive(Debug, Drop)]
pub enum Expr {
    Name(usize),
    Part(Slice),
    Bits(Word),
    Port(usize),
    Not(Box<Expr>),
    Chain(Op, Vec<Expr>),
}
