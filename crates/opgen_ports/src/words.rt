//! Tests whether rows of numbers fit the ports of an operator: one number for each port, of no more bits than the port.
ghost use Rattle.std.specs.Prelude.{ℕ, ◌≡◌, ◌<◌, ◌%◌, ◌^◌, ◌↔◌, length, IsTrue};
ghost use Rattle.opgen_ports.specs.Ports.{format_at, IsHistory, IsCycle};

use crate::ports::PortFormat;
use opgen_num::Format;

/// Whether the words are those of whole cycles, of one at least: all ports of cycle 0 first, each
/// word of no more bits than its port.
pub fn is_history(ports: &[PortFormat], words: &[u128]) -> bool
    ensures { IsTrue result ↔ IsHistory ports.now words.now }
{
    if ports.is_empty() || words.is_empty() || words.len() % ports.len() != 0 {
        return false;
    }
    let mut place = 0;
    'words: for word in words {
        if !fits(format_at(ports, place % ports.len()), *word) {
            return false;
        }
        place += 1;
    }
    true
}

/// Whether the words are those of one cycle, one for each port and of no more bits.
pub fn is_cycle(ports: &[PortFormat], words: &[u128]) -> bool
    ensures { IsTrue result ↔ IsCycle ports.now words.now }
{
    if words.len() != ports.len() {
        return false;
    }
    let mut place = 0;
    'words: for word in words {
        if !fits(format_at(ports, place), *word) {
            return false;
        }
        place += 1;
    }
    true
}

fn format_at(ports: &[PortFormat], place: usize) -> Format
    requires { place < length ports.now }
    ensures { result ≡ format_at ports.now place }
{
    ports[place].format
}

fn fits(format: Format, word: u128) -> bool
    ensures { IsTrue result ↔ (word < 2 ^ format.width) }
{
    format.width >= 128 || word < 1 << format.width
}
