//! A larger counter: six bits of a heap that one table of three bits counts.
use opgen_list::Items;
use opgen_net::WordBit;

/// Six bits that are counted together.
#[derive(Drop)]
pub struct Counter {
    /// The column that counts one.
    pub column: u32,
    /// Whether the first bit stands in the next column, and so counts twice.
    pub twice: bool,
    /// The bits, the first of them the highest of the table's address.
    pub bits: Items<WordBit>,
}
