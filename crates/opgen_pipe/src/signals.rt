//! The signals of a net's design: one for each node and one for each of its copies, with names and initial values.
ghost use Rattle.std.specs.Prelude.{◌≡◌, ◌<◌, ◌+◌, ◌++◌, ◌∷◌, [], length, map, Some, IfOk, OnOk};
ghost use Rattle.std.specs.List.{range_with_len};
ghost use Rattle.opgen_net.specs.Made.{signal_name};
ghost use Rattle.opgen_pipe.specs.Counts.{AreSmall, IsSmall};
ghost use Rattle.opgen_pipe.specs.Pipelined.{all_of, copy_name, copy_signal, initial_of, node_signals, own_signal};
ghost use Rattle.opgen_pipe.specs.Zeros.{zero_words};

use crate::standing::Standing;
use opgen_design::Signal;
use opgen_list::{Items, Text};
use opgen_net::{Net, Node};
use opgen_num::Word;
use std::alloc::{AllocError, Global};

// The name of the signal of a node.
fn signal_name(alloc: Global, node: usize) -> Result<Text, AllocError>
    ensures { IfOk result (λ name. name ≡ signal_name node) }
{
    Ok(Text::from_string(format!(in alloc; "s{node}")?))
}

// The name of a copy of a node.
fn copy_name(alloc: Global, node: usize, copy: usize) -> Result<Text, AllocError>
    ensures { IfOk result (λ name. name ≡ copy_name node copy) }
{
    Ok(Text::from_string(format!(in alloc; "s{node}_{copy}")?))
}

// The initial value of a node's own signal, if it is a register.
fn initial_of(zero: Word, node: &Node) -> Option<Word>
    ensures { result ≡ initial_of zero node.now }
{
    match node {
        Node::Delay { .. } => Some(zero),
        _ => None,
    }
}

// Appends the signals of the copies of a node.
fn push_copies(
    alloc: Global,
    signals: &mut Items<Signal>,
    own: Standing,
    zero: Word,
    node: usize,
) -> Result<(), AllocError>
    requires { IsSmall own }
    ensures { OnOk result (signals.new ≡ signals.old ++ map (copy_signal zero own node) (range_with_len 1 own.copies)) }
{
    'copies: for copy in 0..own.copies {
        signals.push(Signal {
            name: copy_name(alloc, node, copy + 1)?,
            width: own.width,
            initial: Some(zero),
        })?;
    }
    Ok(())
}

// Appends the signals of a node.
fn push_node(
    alloc: Global,
    signals: &mut Items<Signal>,
    own: Standing,
    zero: Word,
    number: usize,
    node: &Node,
) -> Result<(), AllocError>
    requires { IsSmall own }
    ensures { OnOk result (signals.new ≡ signals.old ++ own_signal zero own number node.now ∷ map (copy_signal zero own number) (range_with_len 1 own.copies)) }
{
    signals.push(Signal {
        name: signal_name(alloc, number)?,
        width: own.width,
        initial: initial_of(zero, node),
    })?;
    push_copies(alloc, signals, own, zero, number)
}

/// The signals of a net's design: for each node its own, and then its copies.
pub(crate) fn all_signals(
    alloc: Global,
    net: &Net,
    standings: &[Standing],
    zeros: &[Word],
) -> Result<Items<Signal>, AllocError>
    requires standings { length standings.now ≡ length net.now.nodes }
    requires small { AreSmall standings.now }
    requires zeros { zeros.now ≡ zero_words net.now }
    ensures { IfOk result (λ signals. signals ≡ all_of (node_signals net.now standings.now) 0 net.now.nodes) }
{
    let nodes = net.nodes.as_slice();
    let mut signals = Items::new(alloc);
    'nodes: for (number, node) in nodes.iter().enumerate() {
        push_node(
            alloc,
            &mut signals,
            standings[number],
            zeros[number],
            number,
            node,
        )?;
    }
    Ok(signals)
}
