//! Which names the VHDL subset accepts.
//!
//! Proved: A text is accepted exactly if it is a name of the VHDL subset in lower case. Such a name has 1 to 64 bytes.
//!
//! By: `is_allowed_name`.
#![tactic(auto)]

ghost use Rattle.std.specs.Prelude.{◌≡◌, ◌≤◌, length, IsTrue};
ghost use Rattle.std.specs.List.{list_all};
ghost use Rattle.opgen_names.specs.Names.{is_allowed_name, is_refused, is_underscore, is_name_byte, starts_with_letter, ends_with_underscore, has_double_underscore, has_single_underscores, is_identifier};

/// The most bytes that a name has.
pub const MAX_NAME_LEN: usize = 64;

static REFUSED: [&str; 107] = [
    "abs",
    "access",
    "after",
    "alias",
    "all",
    "and",
    "architecture",
    "array",
    "assert",
    "attribute",
    "begin",
    "block",
    "body",
    "buffer",
    "bus",
    "case",
    "component",
    "configuration",
    "constant",
    "disconnect",
    "downto",
    "else",
    "elsif",
    "end",
    "entity",
    "exit",
    "file",
    "for",
    "function",
    "generate",
    "generic",
    "group",
    "guarded",
    "if",
    "impure",
    "in",
    "inertial",
    "inout",
    "is",
    "label",
    "library",
    "linkage",
    "literal",
    "loop",
    "map",
    "mod",
    "nand",
    "new",
    "next",
    "nor",
    "not",
    "null",
    "of",
    "on",
    "open",
    "or",
    "others",
    "out",
    "package",
    "port",
    "postponed",
    "procedure",
    "process",
    "pure",
    "range",
    "record",
    "register",
    "reject",
    "rem",
    "report",
    "return",
    "rol",
    "ror",
    "select",
    "severity",
    "shared",
    "signal",
    "sla",
    "sll",
    "sra",
    "srl",
    "subtype",
    "then",
    "to",
    "transport",
    "type",
    "unaffected",
    "units",
    "until",
    "use",
    "variable",
    "wait",
    "when",
    "while",
    "with",
    "xnor",
    "xor",
    "ieee",
    "work",
    "std",
    "std_logic",
    "std_logic_vector",
    "unsigned",
    "signed",
    "rising_edge",
    "numeric_std",
    "std_logic_1164",
];

fn is_refused(word: &str) -> bool
    ensures { result ≡ is_refused word.now }
{
    REFUSED.contains(&word)
}

fn is_underscore(byte: u8) -> bool
    ensures { result ≡ is_underscore byte }
{
    byte == b'_'
}

fn is_name_byte(byte: u8) -> bool
    ensures { result ≡ is_name_byte byte }
{
    byte.is_ascii_lowercase() || byte.is_ascii_digit() || is_underscore(byte)
}

fn starts_with_letter(bytes: &[u8]) -> bool
    ensures { result ≡ starts_with_letter bytes.now }
{
    match bytes.first() {
        Some(first) => first.is_ascii_lowercase(),
        None => false,
    }
}

fn ends_with_underscore(name: &str) -> bool
    ensures { result ≡ ends_with_underscore name.now }
{
    name.ends_with('_')
}

fn has_double_underscore(name: &str) -> bool
    ensures { result ≡ has_double_underscore name.now }
{
    name.contains("__")
}

fn has_single_underscores(name: &str) -> bool
    ensures { result ≡ has_single_underscores name.now }
{
    !ends_with_underscore(name) && !has_double_underscore(name)
}

fn has_name_bytes(bytes: &[u8]) -> bool
    ensures { result ≡ list_all is_name_byte bytes.now }
{
    bytes.iter().all(|byte| is_name_byte(*byte))
}

fn is_identifier(name: &str) -> bool
    ensures { result ≡ is_identifier name.now }
{
    starts_with_letter(name.as_bytes())
        && has_name_bytes(name.as_bytes())
        && has_single_underscores(name)
}

/// Whether a text is a name of the VHDL subset, written in lower case.
pub fn is_allowed_name(name: &str) -> bool
    ensures value { result ≡ is_allowed_name name.now }
    ensures length { IsTrue result → (1 ≤ length name.now) × (length name.now ≤ MAX_NAME_LEN) }
{
    name.len() <= MAX_NAME_LEN && is_identifier(name) && !is_refused(name)
}
