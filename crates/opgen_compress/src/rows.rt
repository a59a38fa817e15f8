//! The last step of a compressor tree: adds the two rows of bits that are left by one carry-propagate adder.
ghost use Rattle.std.specs.Prelude.{◌≡◌, ◌≤◌, ℕ, ℤ, length, slice_index, IfOk, OnOk};
ghost use Rattle.opgen_net.specs.Grown.{HasGrown};
ghost use Rattle.opgen_net.specs.Valid.{IsValid, widths};
ghost use Rattle.opgen_design.specs.Value.{IsWidth};
ghost use Rattle.opgen_net.specs.declared.net.Net.{Net};
ghost use Rattle.opgen_compress.specs.Recipe.{row as row_of, fullest as fullest_of, finished};
ghost use Rattle.opgen_compress.specs.Adder.{two};
ghost use Rattle.opgen_design.specs.Plain.{plain};
ghost use Rattle.opgen_design.specs.Tree.{name};
ghost use Rattle.opgen_design.specs.declared.expr.Op.TheVariants.{Plus};
ghost use Rattle.opgen_heap.specs.Standing.{AllThere};
ghost use Rattle.opgen_compress.specs.Kept.{IsSumOfColumns};

use crate::passes::fullest;
use crate::queue::Queue;
use opgen_design::{Expr, Op};
use opgen_net::{Class, Net, WordBit};
use opgen_num::Memory;
use std::alloc::{AllocError, Global};

// The bits at a place of each column, 0 where there is none, the highest column first.
fn row(alloc: Global, columns: &[Queue], place: usize) -> Result<Vec<WordBit>, AllocError>
    ensures { IfOk result (λ bits. bits.items ≡ row_of place columns.now) }
{
    let mut bits = Vec::new(alloc);
    for column in columns {
        bits.push(column.bit(place))?;
    }
    bits.reverse();
    Ok(bits)
}

// The sum of two nodes.
fn sum_of(alloc: Global, a: usize, b: usize) -> Result<Expr, AllocError>
    ensures { IfOk result (λ e. plain e ≡ two Plus (name a) (name b)) }
{
    let mut operands = Vec::new(alloc);
    operands.push(Expr::Name(a))?;
    operands.push(Expr::Name(b))?;
    Ok(Expr::Chain(Op::Plus, operands))
}

/// Adds the two rows that are left, and answers the number of the sum's node.
pub fn finish(alloc: Global, width: u32, columns: &[Queue], net: &mut Net) -> Result<usize, Memory>
    requires net { IsValid net.old }
    requires width { IsWidth width }
    requires columns { length columns.now ≡ width }
    requires two { fullest_of columns.now ≤ 2 }
    requires there { AllThere net.old columns.now }
    ensures ok { OnOk result (net.new ≡ (finished width (record { net = net.old; columns = columns.now })).net) }
    ensures place { IfOk result (λ n. n ≡ (finished width (record { net = net.old; columns = columns.now })).place) }
    ensures sum { IfOk result (λ n. IsSumOfColumns net.old columns.now width net.new.nodes n) }
    ensures width { IfOk result (λ n. slice_index (widths net.new.nodes) n ≡ width) }
    ensures grown { OnOk result (HasGrown net.old net.new) }
    ensures valid { IsValid net.new }
{
    let a = net.word(&row(alloc, columns, 0)?)?;
    if fullest(columns) < 2 {
        return Ok(a);
    }
    let b = net.word(&row(alloc, columns, 1)?)?;
    let sum = net.cells(Class::Add, width, sum_of(alloc, a, b)?)?;
    Ok(sum)
}
