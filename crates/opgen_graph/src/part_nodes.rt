//! The odd parts of some numbers, and a node of the net for each of them.
ghost use Rattle.std.specs.Prelude.{◌≡◌, ◌↔◌, ℕ, ◌≤◌, pos, [], All, Contains, IfOk, IfSome, IfNone};
ghost use Rattle.opgen_num.specs.declared.limits.TheConstants.{MAX_CONSTANT};
ghost use Rattle.opgen_design.specs.Value.{IsWidth};
ghost use Rattle.opgen_net.specs.Valid.{IsValid};
ghost use Rattle.opgen_ports.specs.Ranges.{IsInput, IsWithin};
ghost use Rattle.opgen_graph.specs.Parts.{HasPart, IsPartOf, parts_of, part_width, part_node, part_multiple, with_parts};
ghost use Rattle.opgen_graph.specs.Placing.{AreMultiples, IsNode, IsPart, factors};
ghost use Rattle.opgen_graph.specs.Recipe.{multiples_in};

use crate::constants::magnitude;
use crate::multiples::Multiple;
use opgen_list::Items;
use opgen_net::Net;
use opgen_num::{Format, Memory};
use opgen_ports::ports::covering;
use opgen_ports::reach::reach_over;
use std::alloc::{AllocError, Global};

// The odd part of a number, its sign aside, unless the number is 0.
fn part(number: i64) -> Option<u32>
    requires { IsWithin MAX_CONSTANT number }
    ensures some { IfSome result (λ x. HasPart x number) }
    ensures none { IfNone result (number ≡ pos 0) }
{
    let size = number.unsigned_abs() as u32;
    if size == 0 {
        return None;
    }
    Some(size >> size.trailing_zeros())
}

// The odd parts of the numbers that are not 0, in their order.
fn parts_in_order(alloc: Global, numbers: &[i64]) -> Result<Vec<u32>, AllocError>
    requires { All (IsWithin MAX_CONSTANT) numbers.now }
    ensures { IfOk result (λ found. (x : ℕ) → Contains found.items x ↔ IsPartOf numbers.now x) }
{
    let mut found = Vec::new(alloc);
    'numbers: for number in numbers {
        if let Some(part) = part(*number) {
            found.push(part)?;
        }
    }
    Ok(found)
}

/// The odd parts of numbers, their signs aside, increasing, each once. That of a power of two is 1.
pub fn parts(alloc: Global, numbers: &[i64]) -> Result<Vec<u32>, Memory>
    requires { All (IsWithin MAX_CONSTANT) numbers.now }
    ensures { IfOk result (λ found. found.items ≡ parts_of numbers.now) }
{
    let mut found = parts_in_order(alloc, numbers)?;
    found.sort_unstable();
    found.dedup();
    Ok(found)
}

// The width that the input times a number needs.
fn width_of_part(input: Format, part: u32) -> u32
    requires input { IsInput input }
    requires small { part ≤ MAX_CONSTANT }
    ensures value { result ≡ part_width input part }
    ensures wide { IsWidth result }
{
    covering(reach_over(input, &[i64::from(part)]), input.lsb).width
}

// Makes the node of an odd part.
fn place_part(
    alloc: Global,
    net: &mut Net,
    input: Format,
    known: &[Multiple],
    part: u32,
) -> Result<Multiple, Memory>
    requires net { IsValid net.old }
    requires input { IsInput input }
    requires nodes { All (IsNode net.old) known.now }
    requires part { IsPart known.now part }
    ensures ok { IfOk result (λ m. net.new ≡ (part_node input known.now net.old part).net) }
    ensures multiple { IfOk result (λ m. m ≡ part_multiple input known.now net.old part) }
    ensures wide { IfOk result (λ m. IsWidth (part_width input part)) }
    ensures valid { IsValid net.new }
{
    let width = width_of_part(input, part);
    let node = magnitude(alloc, net, input.signed, width, known, part)?;
    Ok(Multiple {
        factor: part,
        node,
        width,
    })
}

/// Makes the nodes of odd parts by the nodes of a graph, each as an output of that constant has it.
pub fn place_parts(
    alloc: Global,
    net: &mut Net,
    input: Format,
    known: &[Multiple],
    parts: &[u32],
) -> Result<Items<Multiple>, Memory>
    requires net { IsValid net.old }
    requires input { IsInput input }
    requires known { AreMultiples input net.old known.now }
    requires parts { All (IsPart known.now) parts.now }
    ensures ok { IfOk result (λ made. multiples_in net.new made ≡
        with_parts input known.now (multiples_in net.old []) parts.now) }
    ensures multiples { IfOk result (AreMultiples input net.new) }
    ensures factors { IfOk result (λ made. factors made ≡ parts.now) }
    ensures valid { IfOk result (λ made. IsValid net.new) }
{
    let mut made = Items::new(alloc);
    'parts: for part in parts {
        let multiple = place_part(alloc, net, input, known, *part)?;
        made.push(multiple)?;
    }
    Ok(made)
}
