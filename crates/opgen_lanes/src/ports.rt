//! Vectors at the ports of a design.
ghost use Rattle.std.specs.Prelude.{ℕ, ◌≡◌, ◌<◌, ◌≤◌, ◌+◌, ◌++◌, true, if◌then◌else◌};
ghost use Rattle.std.specs.Prelude.{drop, length, map, slice_index, slice_set, take};
ghost use Rattle.std.specs.List.{sum};
ghost use Rattle.opgen_design.specs.Run.{at_ports, is_in, is_out};
ghost use Rattle.opgen_streams.specs.Streams.{streams, word_in, words_in};
ghost use Rattle.opgen_lanes.specs.Banks.{HasWords, IsBank, inputs_at, widths_at, widths_of, words_at};

use crate::bank::Bank;
use opgen_design::{Dir, Port};
use std::simd::prelude::*;

// Puts the next inputs at an input port, and answers the place behind them.
fn take_one(port: &Port, place: usize, inputs: &[u64x4], at: usize, bank: &mut Bank) -> usize
    requires bank { IsBank bank.old }
    requires place { place < length bank.old.places.items }
    requires width { slice_index (widths_of bank.old) place ≡ port.now.width }
    requires at { is_in port.now.dir ≡ true → at + port.now.width ≤ length inputs.now }
    ensures at { result ≡ (if is_in port.now.dir then at + port.now.width else at) }
    ensures bank { IsBank bank.new }
    ensures widths { widths_of bank.new ≡ widths_of bank.old }
    ensures words { let given = take port.now.width (drop at inputs.now) in
        HasWords bank.new (λ k. if is_in port.now.dir then slice_set (words_at bank.old k) place (word_in given k) else words_at bank.old k) }
{
    match port.dir {
        Dir::In => {
            let end = at + port.width as usize;
            bank.store(place, &inputs[at..end]);
            end
        }
        Dir::Out => at,
    }
}

/// Puts the inputs at the input ports, in order.
pub fn take_inputs(ports: &[Port], inputs: &[u64x4], bank: &mut Bank)
    requires bank { IsBank bank.old }
    requires widths { widths_of bank.old ≡ map (λ p. p.width) ports.now }
    requires inputs { length inputs.now ≡ sum (widths_at is_in ports.now) }
    ensures bank { IsBank bank.new }
    ensures widths { widths_of bank.new ≡ map (λ p. p.width) ports.now }
    ensures inputs { (k : ℕ) → k < streams → inputs_at ports.now bank.new k ≡ words_in (widths_at is_in ports.now) inputs.now k }
{
    let mut at = 0;
    for place in 0..ports.len() {
        at = take_one(&ports[place], place, inputs, at, bank);
    }
}

// Gives the vectors at an output port, and answers the place behind them.
fn give_one(port: &Port, word: &[u64x4], outputs: &mut [u64x4], at: usize) -> usize
    requires { is_out port.now.dir ≡ true → at + length word.now ≤ length outputs.old }
    ensures at { result ≡ (if is_out port.now.dir then at + length word.now else at) }
    ensures outputs { let behind = drop (length word.now) (drop at outputs.old) in
        outputs.new ≡ (if is_out port.now.dir then take at outputs.old ++ (word.now ++ behind) else outputs.old) }
{
    match port.dir {
        Dir::In => at,
        Dir::Out => {
            let end = at + word.len();
            outputs[at..end].copy_from_slice(word);
            end
        }
    }
}

/// Gives the vectors at the output ports, in order.
pub fn give_outputs(ports: &[Port], bank: &Bank, outputs: &mut [u64x4])
    requires bank { IsBank bank.now }
    requires widths { widths_of bank.now ≡ map (λ p. p.width) ports.now }
    requires room { length outputs.old ≡ sum (widths_at is_out ports.now) }
    ensures words { (k : ℕ) → k < streams → words_in (widths_at is_out ports.now) outputs.new k ≡ at_ports is_out ports.now (words_at bank.now k) }
    ensures length { length outputs.new ≡ length outputs.old }
{
    let mut at = 0;
    for place in 0..ports.len() {
        at = give_one(&ports[place], bank.word(place), outputs, at);
    }
}
