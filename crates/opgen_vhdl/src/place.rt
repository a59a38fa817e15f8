//! The places in a text of the VHDL subset, such as the ports of the entity or the body of the process.

/// The places of a text of the VHDL subset, between which its pieces lead. A piece ends with `;`.
#[derive(Clone, Copy, Debug, PartialEq, Eq)]
pub enum Place {
    /// The library clause.
    Library,
    /// The use clause of `std_logic_1164`.
    UseLogic,
    /// The use clause of `numeric_std`.
    UseNumeric,
    /// The head of the entity, with the clock.
    Entity,
    /// A port.
    Ports,
    /// The end of the entity.
    EndEntity,
    /// The head of the architecture.
    Architecture,
    /// A signal, or the beginning of the statements.
    Declarations,
    /// A statement, the process or the end, where no process came before.
    Body,
    /// An assignment within the process, or the end of the `if` round them.
    Process,
    /// The end of the `if` of the clock's edge, behind that of the enable.
    EndEdge,
    /// The end of the process.
    EndProcess,
    /// A statement or the end, behind the process.
    AfterProcess,
    /// No more pieces.
    End,
}
