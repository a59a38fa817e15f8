//! Numbers at the ports of a design.
ghost use Rattle.std.specs.Prelude.{◌≡◌, ◌<◌, ◌^◌, ◌+◌, true, if◌then◌else◌, length, map, slice_index, slice_set};
ghost use Rattle.opgen_num.specs.Words.{FitWidths, nat, words_of};
ghost use Rattle.opgen_design.specs.Run.{at_ports, is_in, is_out};
ghost use Rattle.opgen_sim.specs.Numbers.{with_input};

use opgen_design::{Dir, Port};
use opgen_num::Word;

// Puts the next input at an input port, and counts it.
fn take_one(port: &Port, place: usize, inputs: &[u128], at: usize, words: &mut [Word]) -> usize
    requires place { place < length words.old }
    requires at { is_in port.now.dir ≡ true → at < length inputs.now }
    requires fits { is_in port.now.dir ≡ true → slice_index inputs.now at < 2 ^ port.now.width }
    ensures at { result ≡ (if is_in port.now.dir then at + 1 else at) }
    ensures words { words.new ≡ with_input port.now place (slice_index inputs.now at) words.old }
{
    match port.dir {
        Dir::In => {
            words[place] = Word::new(inputs[at], port.width);
            at + 1
        }
        Dir::Out => at,
    }
}

/// Puts the inputs at the input ports, in order.
pub fn take_inputs(ports: &[Port], inputs: &[u128], words: &mut [Word])
    requires widths { map length words.old ≡ map (λ p. p.width) ports.now }
    requires inputs { FitWidths (at_ports is_in ports.now (map (λ p. p.width) ports.now)) inputs.now }
    ensures inputs { at_ports is_in ports.now words.new ≡ words_of (at_ports is_in ports.now (map (λ p. p.width) ports.now)) inputs.now }
    ensures widths { map length words.new ≡ map (λ p. p.width) ports.now }
{
    let mut at = 0;
    for place in 0..ports.len() {
        at = take_one(&ports[place], place, inputs, at, words);
    }
}

// Gives the number at an output port, and counts it.
fn give_one(port: &Port, word: Word, outputs: &mut [u128], at: usize) -> usize
    requires { is_out port.now.dir ≡ true → at < length outputs.old }
    ensures at { result ≡ (if is_out port.now.dir then at + 1 else at) }
    ensures outputs { outputs.new ≡ (if is_out port.now.dir then slice_set outputs.old at (nat word) else outputs.old) }
{
    match port.dir {
        Dir::In => at,
        Dir::Out => {
            outputs[at] = word.bits();
            at + 1
        }
    }
}

/// Gives the numbers at the output ports, in order.
pub fn give_outputs(ports: &[Port], words: &[Word], outputs: &mut [u128])
    requires words { length words.now ≡ length ports.now }
    requires room { length outputs.old ≡ length (at_ports is_out ports.now words.now) }
    ensures { outputs.new ≡ map nat (at_ports is_out ports.now words.now) }
{
    let mut at = 0;
    for place in 0..ports.len() {
        at = give_one(&ports[place], words[place], outputs, at);
    }
}
