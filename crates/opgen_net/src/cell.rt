//! Cells as types: a class of hardware (wire, logic, adder, choice, table, register) and a width in bits.

/// The class of a cell, which a table of delays goes by.
#[derive(Clone, Copy, Debug, PartialEq, Eq)]
pub enum Class {
    Wire,
    Logic,
    Add,
    Choice,
    Table,
    Register,
}

impl Class {
    /// All classes, in their fixed order.
    pub const ALL: [Class; 6] = [
        Class::Wire,
        Class::Logic,
        Class::Add,
        Class::Choice,
        Class::Table,
        Class::Register,
    ];
}

/// A cell of a class over so many bits.
#[derive(Clone, Copy, Debug, PartialEq, Eq)]
pub struct Cell {
    pub class: Class,
    pub width: u32,
}
