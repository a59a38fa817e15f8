//! Which names a document may give to the inputs, and which words of a later VHDL it may give to itself.

ghost use Rattle.std.specs.Prelude.{◌≡◌, ◌≤◌, ◌≢◌, ◌↔◌, All, IsTrue, length, map};
ghost use Rattle.std.specs.List.{AllPairs};
ghost use Rattle.opgen_names.specs.Names.{is_allowed_name};
ghost use Rattle.opgen_net.specs.Named.{begins_as_signal};
ghost use Rattle.opgen_operator.specs.GivenNames.{is_one_of, later_words, taken_names, is_name_in, is_port_name, AreGivenNames};

use opgen_names::is_allowed_name;
use opgen_ports::ports::PortFormat;

/// The most bytes that an input's name has.
pub const MAX_PORT_NAME_LEN: usize = 32;

static LATER: [&str; 18] = [
    "assume",
    "assume_guarantee",
    "context",
    "cover",
    "default",
    "fairness",
    "force",
    "parameter",
    "property",
    "protected",
    "release",
    "restrict",
    "restrict_guarantee",
    "sequence",
    "strong",
    "vmode",
    "vprop",
    "vunit",
];

static TAKEN: [&str; 4] = ["rtl", "clk", "ce", "y"];

fn is_later_word(name: &str) -> bool
    ensures { result ≡ is_one_of later_words name.now }
{
    LATER.contains(&name)
}

/// Whether documents of the version may have the name, which in version 4 is no word of a later VHDL.
pub fn is_name_in(version: u32, name: &str) -> bool
    ensures { result ≡ is_name_in version name.now }
{
    version < 4 || !is_later_word(name)
}

fn is_taken(name: &str) -> bool
    ensures { result ≡ is_one_of taken_names name.now }
{
    TAKEN.contains(&name)
}

fn begins_as_signal(name: &str) -> bool
    ensures { result ≡ begins_as_signal name.now }
{
    match name.as_bytes() {
        [b's', digit, ..] => digit.is_ascii_digit(),
        _ => false,
    }
}

/// Whether a document may give an input the name: it is a name of the VHDL subset, short enough, no
/// word of a later VHDL, and none that a written text gives to something else.
pub fn is_port_name(name: &str) -> bool
    ensures { result ≡ is_port_name name.now }
{
    name.len() <= MAX_PORT_NAME_LEN
        && is_allowed_name(name)
        && !is_later_word(name)
        && !is_taken(name)
        && !begins_as_signal(name)
}

/// Whether the names of ports are such names, none of them that of the specification, and differ.
pub(crate) fn are_given_names(name: &str, ports: &[PortFormat]) -> bool
    ensures { IsTrue result ↔ AreGivenNames name.now (map (λ p. p.name) ports.now) }
{
    are_port_names(ports) && are_apart(name, ports)
}

// Whether no port has the name, and no two have the same.
fn are_apart(name: &str, ports: &[PortFormat]) -> bool
    ensures { IsTrue result ↔ (All (λ p. p.name ≢ name.now) ports.now × AllPairs (λ p q. p.name ≢ q.name) ports.now) }
{
    none_has(name, ports) && differ(ports)
}

fn are_port_names(ports: &[PortFormat]) -> bool
    ensures { IsTrue result ↔ All (λ p. IsTrue (is_port_name p.name)) ports.now }
{
    'ports: for port in ports {
        if !is_port_name(port.name.as_str()) {
            return false;
        }
    }
    true
}

// Whether no port has the name.
fn none_has(name: &str, ports: &[PortFormat]) -> bool
    ensures { IsTrue result ↔ All (λ p. p.name ≢ name.now) ports.now }
{
    'ports: for port in ports {
        if port.name.as_str() == name {
            return false;
        }
    }
    true
}

// Whether no two ports have the same name.
fn differ(ports: &[PortFormat]) -> bool
    ensures { IsTrue result ↔ AllPairs (λ p q. p.name ≢ q.name) ports.now }
{
    'ports: for place in 0..ports.len() {
        if !none_has(ports[place].name.as_str(), &ports[..place]) {
            return false;
        }
    }
    true
}
