//! The nodes of a net as a type: each reads earlier nodes only.
use crate::{Class, Formula, Slice};
use opgen_list::Items;
use opgen_num::Word;

/// A node of a net. It reads only nodes before it.
#[derive(Drop)]
pub enum Node {
    /// The word of an input port.
    Input {
        port: usize,
        width: u32,
    },
    Constant(Word),
    /// An expression over the nodes before, made of cells of one class.
    Cells {
        class: Class,
        width: u32,
        expr: Formula,
    },
    /// `yes` where the bit of node `on` is 1, and `no` otherwise.
    Choice {
        on: usize,
        yes: Slice,
        no: Slice,
    },
    /// The row that the word of node `address` numbers.
    Table {
        address: usize,
        rows: Items<Word>,
    },
    /// The word that node `of` had one cycle before.
    Delay {
        of: usize,
    },
}
