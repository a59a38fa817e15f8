//! The trait of a gate, which tests use to hold and observe the pieces of a search without changing its result.

/// Is told when a piece of a search begins and when it has ended. It cannot change what the search answers.
pub trait Gate {
    // The piece begins: it has not looked at the least cost known yet.
    fn arrive(&self, piece: u32);
    // The piece has ended. As it began, `first` was the least cost known.
    fn leave(&self, piece: u32, first: u64);
}

/// A gate that does nothing.
#[derive(Drop)]
pub struct OpenGate;

impl Gate for OpenGate {
    fn arrive(&self, _piece: u32) {}

    fn leave(&self, _piece: u32, _first: u64) {}
}
