//! Designs as types: an entity with its ports, and an architecture with its signals and drivers.
use crate::Formula;
use opgen_list::{Items, Text};
use opgen_num::Word;

/// The direction of a port.
#[derive(Clone, Copy, Debug, PartialEq, Eq)]
pub enum Dir {
    In,
    Out,
}

#[derive(Drop)]
pub struct Port {
    pub name: Text,
    pub dir: Dir,
    pub width: u32,
}

#[derive(Drop)]
pub struct Signal {
    pub name: Text,
    pub width: u32,
    pub initial: Option<Word>,
}

/// The most signals that a design may have when it is planned or read.
pub const MAX_SIGNALS: usize = 65_536;

/// What a driver drives: a signal or a port, by its place.
#[derive(Clone, Copy, Debug, PartialEq, Eq)]
pub enum Target {
    Signal(usize),
    Port(usize),
}

/// What gives a signal or an output port its words.
#[derive(Drop)]
pub enum Driver {
    Assign {
        to: usize,
        expr: Formula,
    },
    Choice {
        to: usize,
        on: Formula,
        yes: Formula,
        no: Formula,
    },
    /// Rows of an address and a word, and the word for every other address.
    Table {
        to: usize,
        on: Formula,
        rows: Items<(Word, Word)>,
        other: Word,
    },
    Register {
        to: usize,
        expr: Formula,
    },
    Output {
        port: usize,
        expr: Formula,
    },
}

/// A design: an entity with its ports beside `clk`, and an architecture with its signals and drivers.
#[derive(Drop)]
pub struct Design {
    pub name: Text,
    pub ports: Items<Port>,
    pub signals: Items<Signal>,
    pub drivers: Items<Driver>,
    /// The place of the port that lets the registers move: in a cycle in which its word is not 1 they hold. Without it they
    /// move in every cycle.
    pub enable: Option<usize>,
}
