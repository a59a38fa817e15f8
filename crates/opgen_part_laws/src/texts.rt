//! Laws of texts: a text has one list of tokens and spells one design at most, that of a design spells it, and a rejected one has one cause.
ghost use Rattle.std.specs.Prelude.{◌≡◌, ◌⊎◌, ℕ, List, ◌≤◌, [], ◌++◌, length, ◌<◌, All, map, ◌≢◌};
ghost use Rattle.opgen_vhdl.specs.declared.kind.Token.{Token};
ghost use Rattle.opgen_vhdl.specs.Tokens.{Tokens, LexicalAt, IsToken};
ghost use Rattle.opgen_vhdl.specs.declared.kind.TokenKind.{TokenKind};
ghost use Rattle.opgen_vhdl.specs.Symbols.{InOrder, IsWithin, IsSpelledIn, spelled, spellings_of};
ghost use Rattle.opgen_design.specs.declared.design.Design.{Design};
ghost use Rattle.opgen_vhdl.specs.Statements.{Reading};
ghost use Rattle.opgen_vhdl.specs.Spelled.{Statements, Spells, SyntaxAt};
ghost use Rattle.opgen_vhdl.specs.DesignText.{text_of};
ghost use Rattle.opgen_vhdl.specs.Shaped.{IsShaped, IsWritable};
ghost use Rattle.opgen_design.specs.Sound.{IsSound};
ghost use Rattle.opgen_read.specs.declared.fault.ReadFault.{ReadFault};
ghost use Rattle.opgen_read.specs.declared.fault.ReadFault.TheVariants.{Memory};
ghost use Rattle.opgen_read.specs.Answer.{IsWithinLimits, IsReadFault};

/// A text has either one list of tokens or one offset at which nothing starts.
pub fn one_cut()
    ensures tokens { (bytes : List ℕ) (a b : List Token) → Tokens bytes a → Tokens bytes b → a ≡ b }
    ensures offset { (bytes : List ℕ) (m n : ℕ) → LexicalAt bytes m → LexicalAt bytes n → m ≡ n }
    ensures not_both { (bytes : List ℕ) (a : List Token) (n : ℕ) → Tokens bytes a → LexicalAt bytes n → ⊥ }
    ensures either { (bytes : List ℕ) → ((a : List Token) × Tokens bytes a) ⊎ ((n : ℕ) × LexicalAt bytes n) }
{}

/// A token is the longest that starts where it stands: no token by itself (with nothing behind it)
/// takes up more of the bytes there.
pub fn longest_token()
    ensures { (kind other : TokenKind) (text longer rest beyond : List ℕ) → IsToken kind text rest → IsToken other longer []
        → text ++ rest ≡ longer ++ beyond → length longer ≤ length text }
{}

/// The tokens of a text stand in it in order, the bytes of each are its spelling, and an offset at
/// which nothing starts lies within the text.
pub fn token_spans()
    ensures in_order { (bytes : List ℕ) (ts : List Token) → Tokens bytes ts → InOrder 0 (length bytes) ts }
    ensures within { (bytes : List ℕ) (ts : List Token) → Tokens bytes ts → All (IsWithin (length bytes)) ts }
    ensures spelled { (bytes : List ℕ) (ts : List Token) → Tokens bytes ts → All (IsSpelledIn bytes) ts }
    ensures elements { (bytes : List ℕ) (ts : List Token) (t : Tokens bytes ts) → map (spelled bytes) ts ≡ spellings_of t.elements }
    ensures before_the_end { (bytes : List ℕ) (n : ℕ) → LexicalAt bytes n → n < length bytes }
{}

/// A text spells one design at most. It has one reading, or one first piece that its place does not
/// take, or an offset at which no token starts, and never two of them.
pub fn one_reading_of_text()
    ensures design { (bytes : List ℕ) (c d : Design) → Spells bytes c → Spells bytes d → c ≡ d }
    ensures statements { (bytes : List ℕ) (q r : Reading) → Statements bytes q → Statements bytes r → q ≡ r }
    ensures piece { (bytes : List ℕ) (j k : ℕ) → SyntaxAt bytes j → SyntaxAt bytes k → j ≡ k }
    ensures not_both { (bytes : List ℕ) (r : Reading) (k : ℕ) → Statements bytes r → SyntaxAt bytes k → ⊥ }
    ensures one_answer { (bytes : List ℕ) → ((r : Reading) × Statements bytes r)
        ⊎ (((k : ℕ) × SyntaxAt bytes k) ⊎ ((n : ℕ) × LexicalAt bytes n)) }
{}

/// The text of every design that is sound, stands under allowed names, has a port and has the
/// subset's form spells that design: by the reader's own definitions, its statements give the
/// design, with the same ports, signals, initial values and enable, and its drivers in their order.
///
/// It holds for any number of ports and signals.
pub fn text_spells()
    ensures { (d : Design) → IsWritable d → IsShaped d → Spells (text_of d) d }
{}

/// The text of a design has a byte for each signal at least.
pub fn text_lengths()
    ensures { (d : Design) → length d.signals ≤ length (text_of d) }
{}

/// A text has one cause against it at most, running out of memory aside, and none where it spells a sound
/// design within the limits. So `read_design` gives each answer exactly where it is due.
pub fn one_cause()
    ensures cause { (bytes : List ℕ) (e f : ReadFault) → e ≢ Memory → f ≢ Memory
        → IsReadFault bytes e → IsReadFault bytes f → e ≡ f }
    ensures no_cause { (bytes : List ℕ) (d : Design) (e : ReadFault) → Spells bytes d → IsWithinLimits d → IsSound d
        → IsReadFault bytes e → e ≡ Memory }
{}
