//! Makes the filter of `workload N`: 8 N taps whose coefficients are drawn from the seed N.
ghost use Rattle.std.specs.Prelude.{◌≡◌, ◌≤◌, IfOk};
ghost use Rattle.opgen_operator.specs.Valid.{IsValidSpec};
ghost use Rattle.opgen_workload.specs.Filter.{coefficient, coefficients, workload_spec, workload_sum};

use opgen_list::{Items, Text};
use opgen_num::{Format, Memory, Mode, Overflow};
use opgen_operator::{Operator, Spec, Sum};
use opgen_ports::Compressor;
use opgen_vec::{drawn, next};
use std::alloc::{AllocError, Global};

fn coefficient(state: u64) -> i64
    ensures { result ≡ coefficient state }
{
    drawn(15, state) as i64 - 16384
}

// So many coefficients, drawn from a seed.
fn coefficients(alloc: Global, seed: u32, taps: u32) -> Result<Items<i64>, AllocError>
    ensures { IfOk result (λ coefs. coefs ≡ coefficients taps seed) }
{
    let mut coefs = Items::new(alloc);
    let mut state = seed as u64;
    let mut left = taps;
    'taps: while left > 0 {
        state = next(state);
        coefs.push(coefficient(state))?;
        left -= 1;
    }
    Ok(coefs)
}

fn workload_sum(alloc: Global, n: u32) -> Result<Sum, AllocError>
    requires { n ≤ 32 }
    ensures { IfOk result (λ sum. sum ≡ workload_sum n) }
{
    Ok(Sum {
        input: Format {
            signed: true,
            width: 12,
            lsb: -11,
        },
        out_lsb: -11,
        coefs: coefficients(alloc, n, 8 * n)?,
        den: 65_536,
        mode: Mode::Faithful,
        compressor: Compressor::Dadda,
        lut: 6,
    })
}

/// A filter of `8 * n` taps for inputs of 12 bits, with coefficients that are drawn from the seed `n`.
pub fn workload_spec(alloc: Global, n: u32) -> Result<Spec, Memory>
    requires { (1 ≤ n) × (n ≤ 32) }
    ensures filter { IfOk result (λ spec. spec ≡ workload_spec n) }
    ensures valid { IfOk result IsValidSpec }
{
    Ok(Spec {
        version: 1,
        name: Text::from_str(alloc, "workload")?,
        op: Operator::Fir(workload_sum(alloc, n)?),
        exact: false,
        rounding: None,
        out_width: None,
        out_signed: None,
        overflow: Overflow::Saturate,
        target: Text::from_str(alloc, "plain")?,
        period: 4000,
        delays: Items::new(alloc),
    })
}
