//! The word of each node when all inputs are zero, with which its registers begin.
ghost use Rattle.std.specs.Prelude.{◌≡◌, ◌<◌, [], length, map, IfOk};
ghost use Rattle.opgen_num.specs.Words.{nat};
ghost use Rattle.opgen_design.specs.Value.{cut, word_at};
ghost use Rattle.opgen_net.specs.Valid.{IsValid, LiesWithin, MayStand};
ghost use Rattle.opgen_runs.specs.Fitting.{AreNarrow};
ghost use Rattle.opgen_pipe.specs.Zeros.{still_word, zero_words};

use opgen_design::Slice;
use opgen_net::{Net, Node};
use opgen_num::Word;
use opgen_runs::{chosen, cut, value};
use std::alloc::{AllocError, Global};

// A slice of a node's word.
fn part(words: &[Word], slice: Slice) -> Word
    requires narrow { AreNarrow words.now }
    requires lies { LiesWithin (map length words.now) slice }
    ensures { result ≡ cut slice.high slice.low (word_at words.now slice.node) }
{
    cut(slice.high, slice.low, words[slice.node])
}

// The row that a word numbers.
fn row(rows: &[Word], address: Word) -> Word
    requires { nat address < length rows.now }
    ensures { result ≡ word_at rows.now (nat address) }
{
    rows[address.bits() as usize]
}

// A node's word of zero inputs, over the words of the nodes before it.
fn still_word(words: &[Word], node: &Node) -> Word
    requires narrow { AreNarrow words.now }
    requires stands { MayStand (map length words.now) node.now }
    ensures { result ≡ still_word words.now node.now }
{
    match node {
        Node::Input { width, .. } => Word::new(0, *width),
        Node::Constant(word) => *word,
        Node::Cells { expr, .. } => value(expr.expr(), words, &[]),
        Node::Choice { on, yes, no } => chosen(words[*on], part(words, *yes), part(words, *no)),
        Node::Table { address, rows } => row(rows.as_slice(), words[*address]),
        Node::Delay { of } => words[*of],
    }
}

/// The word of each node of a net when all inputs are zeros.
pub(crate) fn zero_words(alloc: Global, net: &Net) -> Result<Vec<Word>, AllocError>
    requires { IsValid net.now }
    ensures { IfOk result (λ v. v.items ≡ zero_words net.now) }
{
    let nodes = net.nodes.as_slice();
    let mut words = Vec::new(alloc);
    'nodes: for node in nodes {
        let word = still_word(&words, node);
        words.push(word)?;
    }
    Ok(words)
}
