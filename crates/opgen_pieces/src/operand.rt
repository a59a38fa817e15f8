//! The expression of given bits: constants, and parts of nodes or whole ones.
//!
//! These functions are `runs_of`, `operand`, `operands` and `expression` of `opgen_net`, which are private there. They are to be
//! published when that crate next changes, and to go from here then.
ghost use Rattle.std.specs.Prelude.{◌≡◌, ◌*◌, ◌^◌, ◌<◌, ◌++◌, [], ◌∷◌, All, IfOk, OnOk, length, map, option_map, reverse};
ghost use Rattle.opgen_num.specs.Words.{digit};
ghost use Rattle.opgen_design.specs.Plain.{plain};
ghost use Rattle.opgen_net.specs.Valid.{IsValid, LiesWithin, widths};
ghost use Rattle.opgen_net.specs.WordRule.{IsThere, joined, alone, above, runs, RunIsThere, run_tree, word_tree, is_whole, FirstHasAtMost};
ghost use Rattle.opgen_pieces.specs.Run.{RunsAreThere, net_run, net_runs};

use opgen_net::{Expr, Net, Op, Slice, WordBit};
use opgen_num::Word;
use std::alloc::{AllocError, Global};

/// Neighbouring bits of a word that are written together: constants, or neighbours in one node.
#[derive(Clone, Copy)]
pub enum Run {
    Bits(Word),
    Part(Slice),
}

// The number that a bit adds at a place of a word.
fn weight(bit: bool, place: u32) -> u128
    requires { place < 128 }
    ensures { result ≡ digit bit * 2 ^ place }
{
    if bit { 1u128 << place } else { 0 }
}

// A word with a bit more above its highest.
fn with_top(word: Word, bit: bool) -> Word
    requires { length word < 128 }
    ensures { result ≡ word ++ bit ∷ [] }
{
    let width = word.width();
    Word::new(word.bits() + weight(bit, width), width + 1)
}

// A bit by itself.
fn alone(bit: WordBit) -> Run
    ensures { net_run result ≡ alone bit }
{
    match bit {
        WordBit::Zero => Run::Bits(Word::new(0, 1)),
        WordBit::One => Run::Bits(Word::new(1, 1)),
        WordBit::Of { node, index } => Run::Part(Slice {
            node,
            high: index,
            low: index,
        }),
    }
}

// The run with the bit above it, if they are written together.
fn join(bit: WordBit, run: &Run) -> Option<Run>
    requires { FirstHasAtMost 127 (net_run run.now ∷ []) }
    ensures { option_map net_run result ≡ joined bit (net_run run.now) }
{
    match (bit, run) {
        (WordBit::Zero, Run::Bits(word)) => Some(Run::Bits(with_top(*word, false))),
        (WordBit::One, Run::Bits(word)) => Some(Run::Bits(with_top(*word, true))),
        (WordBit::Of { node, index }, Run::Part(slice)) => {
            if node == slice.node && index.checked_sub(1) == Some(slice.high) {
                Some(Run::Part(Slice {
                    node,
                    high: index,
                    low: slice.low,
                }))
            } else {
                None
            }
        }
        _ => None,
    }
}

// Puts a bit above the runs, of which the last is the highest.
fn put(runs: &mut Vec<Run>, bit: WordBit) -> Result<(), AllocError>
    requires { FirstHasAtMost 127 (net_runs (reverse runs.old.items)) }
    ensures { OnOk result (net_runs (reverse runs.new.items) ≡ above bit (net_runs (reverse runs.old.items))) }
{
    let Some(run) = runs.pop() else {
        runs.push(alone(bit))?;
        return Ok(());
    };
    match join(bit, &run) {
        Some(longer) => {
            runs.push(longer)?;
            Ok(())
        }
        None => {
            runs.push(run)?;
            runs.push(alone(bit))?;
            Ok(())
        }
    }
}

// The fewest runs that the bits fall into, the highest first.
fn runs_of(alloc: Global, bits: &[WordBit]) -> Result<Vec<Run>, AllocError>
    requires { length bits.now < 128 }
    ensures { IfOk result (λ v. net_runs v.items ≡ runs bits.now) }
{
    let mut found = Vec::new(alloc);
    let mut rest = bits.len();
    'bits: while rest > 0 {
        rest -= 1;
        put(&mut found, bits[rest])?;
    }
    found.reverse();
    Ok(found)
}

// Whether a slice has all bits of its node.
fn is_whole(net: &Net, slice: Slice) -> bool
    requires net { IsValid net.now }
    requires lies { LiesWithin (widths net.now.nodes) slice }
    ensures { result ≡ is_whole (widths net.now.nodes) slice }
{
    slice.low == 0 && slice.high + 1 == net.width_of(slice.node)
}

// A run as an operand: the name of a whole node, a part of another, or constants.
fn operand(net: &Net, run: &Run) -> Expr
    requires net { IsValid net.now }
    requires there { RunIsThere (widths net.now.nodes) (net_run run.now) }
    ensures { plain result ≡ run_tree (widths net.now.nodes) (net_run run.now) }
{
    match run {
        Run::Bits(word) => Expr::Bits(*word),
        Run::Part(slice) => {
            if is_whole(net, *slice) {
                Expr::Name(slice.node)
            } else {
                Expr::Part(*slice)
            }
        }
    }
}

// Each run as an operand, in their order.
fn operands(alloc: Global, net: &Net, runs: &[Run]) -> Result<Vec<Expr>, AllocError>
    requires net { IsValid net.now }
    requires there { RunsAreThere (widths net.now.nodes) runs.now }
    ensures { IfOk result (λ v. map plain v.items ≡ map (run_tree (widths net.now.nodes)) (net_runs runs.now)) }
{
    let mut found = Vec::new(alloc);
    'runs: for run in runs {
        found.push(operand(net, run))?;
    }
    Ok(found)
}

// One run is the expression itself, and several are joined by `&`.
fn runs_expression(alloc: Global, net: &Net, runs: &[Run]) -> Result<Expr, AllocError>
    requires net { IsValid net.now }
    requires there { RunsAreThere (widths net.now.nodes) runs.now }
    ensures { IfOk result (λ e. plain e ≡ word_tree (widths net.now.nodes) (net_runs runs.now)) }
{
    match runs {
        [run] => Ok(operand(net, run)),
        _ => {
            let operands = operands(alloc, net, runs)?;
            Ok(Expr::Chain(Op::Cat, operands))
        }
    }
}

/// The expression of given bits, the highest first.
pub fn expression(alloc: Global, net: &Net, bits: &[WordBit]) -> Result<Expr, AllocError>
    requires net { IsValid net.now }
    requires few { length bits.now < 128 }
    requires there { All (IsThere (widths net.now.nodes)) bits.now }
    ensures { IfOk result (λ e. plain e ≡ word_tree (widths net.now.nodes) (runs bits.now)) }
{
    let runs = runs_of(alloc, bits)?;
    runs_expression(alloc, net, &runs)
}
