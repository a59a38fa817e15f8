//! What a driver asks of the rank of its signal.
ghost use Rattle.std.specs.Prelude.{◌≡◌, slice_index};
ghost use Rattle.opgen_design.specs.Plain.{plain, plain_all};
ghost use Rattle.opgen_sim.specs.Ranks.{highest, highest_of, is_ranked, least_rank};

use opgen_design::{Driver, Expr, Target};

fn rank_at(ranks: &[u32], signal: usize) -> u32
    ensures { result ≡ slice_index ranks.now signal }
{
    ranks.get(signal).copied().unwrap_or(0)
}

// The highest rank of the signals that an expression reads, and 0 if it reads none.
#[cycle(highest)]
fn highest(expr: &Expr, ranks: &[u32]) -> u32
    ensures { result ≡ highest (slice_index ranks.now) (plain expr.now) }
{
    match expr {
        Expr::Name(signal) => rank_at(ranks, *signal),
        Expr::Part(slice) => rank_at(ranks, slice.node),
        Expr::Bits(_) => 0,
        Expr::Port(_) => 0,
        Expr::Not(operand) => highest(operand, ranks),
        Expr::Chain(_, operands) => highest_of(operands, ranks),
    }
}

#[cycle(highest)]
fn highest_of(operands: &[Expr], ranks: &[u32]) -> u32
    ensures { result ≡ highest_of (slice_index ranks.now) (plain_all operands.now) }
{
    let mut most: u32 = 0;
    for operand in operands {
        most = most.max(highest(operand, ranks));
    }
    most
}

/// The least rank that is allowed at what a driver drives.
pub(crate) fn least_rank(driver: &Driver, ranks: &[u32]) -> u64
    ensures { result ≡ least_rank (slice_index ranks.now) driver.now }
{
    match driver {
        Driver::Assign { to: _, expr } | Driver::Output { port: _, expr } => {
            u64::from(highest(expr.expr(), ranks))
        }
        Driver::Choice { to: _, on, yes, no } => {
            let chosen = highest(yes.expr(), ranks).max(highest(no.expr(), ranks));
            u64::from(highest(on.expr(), ranks).max(chosen))
        }
        Driver::Table {
            to: _,
            on,
            rows: _,
            other: _,
        } => u64::from(highest(on.expr(), ranks)),
        Driver::Register { to: _, expr } => u64::from(highest(expr.expr(), ranks)) + 1,
    }
}

/// Whether the signal of a driver has at least the rank that the driver asks for.
pub(crate) fn is_ranked(driver: &Driver, ranks: &[u32]) -> bool
    ensures { result ≡ is_ranked (slice_index ranks.now) driver.now }
{
    match driver.target() {
        Target::Signal(signal) => { least_rank(driver, ranks) <= u64::from(rank_at(ranks, signal)) }
        Target::Port(_) => true,
    }
}
