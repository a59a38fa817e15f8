//! The step: the test, the limit and the choice; and the lowest bits alone.
ghost use Rattle.std.specs.Prelude.{◌≡◌, ◌+◌, ◌++◌, ◌<◌, ◌≤◌, ◌^◌, false, IfOk, OnOk, replicate};
ghost use Rattle.opgen_num.specs.declared.format.TheConstants.{MAX_WIDTH};
ghost use Rattle.opgen_num.specs.declared.mode.Overflow.TheVariants.{Saturate, Wrap};
ghost use Rattle.opgen_num.specs.Formats.{IsWidthOf};
ghost use Rattle.opgen_net.specs.Flow.{KeepsFlow};
ghost use Rattle.opgen_net.specs.Placed.{whole};
ghost use Rattle.opgen_net.specs.Valid.{IsValid};
ghost use Rattle.opgen_saturate.specs.Converts.{AreFormats, Converts};
ghost use Rattle.opgen_saturate.specs.Recipe.{is_wider, resized, least_word, greatest_word, with_limit, with_choice, with_saturated, with_wrapped};

use crate::test::{bit, counting, is_wider};
use crate::tree::test;
use opgen_list::Items;
use opgen_net::{Class, Net, Slice, WordBit, push_bits};
use opgen_num::{Format, Memory, Word};
use std::alloc::{AllocError, Global};

// Appends a bit so many times.
fn push_copies(bits: &mut Items<WordBit>, bit: WordBit, count: u32) -> Result<(), AllocError>
    ensures { OnOk result (bits.new ≡ bits.old ++ replicate count bit) }
{
    'copies: for k in 0..count {
        bits.push(bit)?;
    }
    Ok(())
}

// The lowest bits of a node, as many as are asked for; above its own stand copies of its sign, or zeros.
fn resized(
    alloc: Global,
    node: usize,
    format: Format,
    width: u32,
) -> Result<Items<WordBit>, AllocError>
    requires some { 1 ≤ format.width }
    requires few { format.width ≤ MAX_WIDTH }
    ensures { IfOk result (λ bits. bits ≡ resized node format width) }
{
    let fill = if format.signed {
        WordBit::Of {
            node,
            index: format.width - 1,
        }
    } else {
        WordBit::Zero
    };
    let mut bits = Items::new(alloc);
    push_copies(&mut bits, fill, width.saturating_sub(format.width))?;
    push_bits(&mut bits, node, 0, width.min(format.width))?;
    Ok(bits)
}

/// All bits of a node.
pub fn whole(width: u32, node: usize) -> Slice
    requires { 1 ≤ width }
    ensures { result ≡ whole width node }
{
    Slice {
        node,
        high: width - 1,
        low: 0,
    }
}

// The word of the least number of a format.
fn least_word(to: Format) -> Word
    requires { IsWidthOf to.signed to.width }
    ensures { result ≡ least_word to }
{
    if to.signed {
        Word::new(1u128 << (to.width - 1), to.width)
    } else {
        Word::new(0, to.width)
    }
}

// The word of the greatest number of a format.
fn greatest_word(to: Format) -> Word
    requires { IsWidthOf to.signed to.width }
    ensures { result ≡ greatest_word to }
{
    Word::new((1u128 << counting(to)) - 1, to.width)
}

// What a number outside becomes: the least number where its sign is 1, and else the greatest.
fn limit(net: &mut Net, node: usize, format: Format, to: Format) -> Result<usize, Memory>
    requires net { IsValid net.old }
    requires formats { AreFormats net.old node format to }
    ensures ok { OnOk result (net.new ≡ (with_limit node format to net.old).net) }
    ensures place { IfOk result (λ n. n ≡ (with_limit node format to net.old).place) }
    ensures valid { IsValid net.new }
{
    if !format.signed {
        return net.constant(greatest_word(to));
    }
    let sign = net.cells(Class::Wire, 1, bit(node, format.width - 1))?;
    let least = net.constant(least_word(to))?;
    let greatest = net.constant(greatest_word(to))?;
    net.choice(sign, whole(to.width, least), whole(to.width, greatest))
}

/// Appends a node whose number is that of another node, modulo two to the power of the width of
/// another format, and answers it.
///
/// It has the lowest bits of the node, and above its highest bit copies of its sign, or zeros. If
/// memory runs out, the net is valid.
pub fn wrap(
    alloc: Global,
    net: &mut Net,
    node: usize,
    format: Format,
    to: Format,
) -> Result<usize, Memory>
    requires net { IsValid net.old }
    requires formats { AreFormats net.old node format to }
    ensures ok { OnOk result (net.new ≡ (with_wrapped node format to net.old).net) }
    ensures place { IfOk result (λ n. n ≡ (with_wrapped node format to net.old).place) }
    ensures valid { IsValid net.new }
    ensures flow { OnOk result (KeepsFlow net.old.nodes net.new.nodes) }
    ensures wraps { IfOk result (Converts Wrap net.old node format to net.new) }
{
    let bits = resized(alloc, node, format, to.width)?;
    let place = net.word(bits.as_slice())?;
    Ok(place)
}

// The nodes of a format that does not hold every number.
fn choose(
    alloc: Global,
    net: &mut Net,
    node: usize,
    format: Format,
    to: Format,
) -> Result<usize, Memory>
    requires net { IsValid net.old }
    requires formats { AreFormats net.old node format to }
    requires narrow { is_wider format to ≡ false }
    ensures ok { OnOk result (net.new ≡ (with_choice node format to net.old).net) }
    ensures place { IfOk result (λ n. n ≡ (with_choice node format to net.old).place) }
    ensures valid { IsValid net.new }
{
    let test = test(alloc, net, node, format, to)?;
    let limit = limit(net, node, format, to)?;
    let low = wrap(alloc, net, node, format, to)?;
    net.choice(test, whole(to.width, limit), whole(to.width, low))
}

// The nodes of the recipe.
fn append(
    alloc: Global,
    net: &mut Net,
    node: usize,
    format: Format,
    to: Format,
) -> Result<usize, Memory>
    requires net { IsValid net.old }
    requires formats { AreFormats net.old node format to }
    ensures ok { OnOk result (net.new ≡ (with_saturated node format to net.old).net) }
    ensures place { IfOk result (λ n. n ≡ (with_saturated node format to net.old).place) }
    ensures valid { IsValid net.new }
{
    if is_wider(format, to) {
        return wrap(alloc, net, node, format, to);
    }
    choose(alloc, net, node, format, to)
}

/// Appends what brings the number of a node into the range of another format, and answers the node
/// of that format.
///
/// Where the other format holds every number, that is the node's bits with copies of its sign above
/// them, or zeros. Elsewhere the bits that are dropped are tested, and where they say that the number
/// lies outside the least or the greatest number is chosen. The test of n bits is a tree of cells that
/// read at most six bits each, at most one deeper than the logarithm of n to base 6, rounded up. If
/// memory runs out, the net is valid.
pub fn saturate(
    alloc: Global,
    net: &mut Net,
    node: usize,
    format: Format,
    to: Format,
) -> Result<usize, Memory>
    requires net { IsValid net.old }
    requires formats { AreFormats net.old node format to }
    ensures ok { OnOk result (net.new ≡ (with_saturated node format to net.old).net) }
    ensures place { IfOk result (λ n. n ≡ (with_saturated node format to net.old).place) }
    ensures valid { IsValid net.new }
    ensures flow { OnOk result (KeepsFlow net.old.nodes net.new.nodes) }
    ensures saturates { IfOk result (Converts Saturate net.old node format to net.new) }
{
    let place = append(alloc, net, node, format, to)?;
    Ok(place)
}
