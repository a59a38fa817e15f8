//! Targets with equal delays for all cells, for tests.
ghost use Rattle.std.specs.Prelude.{◌≡◌, IfOk, vec_len};

use opgen_target::ListTarget;
pub(crate) use opgen_target::plain;
use std::alloc::{AllocError, Global};

fn level(alloc: Global, delay: u32) -> Result<Vec<u32>, AllocError>
    ensures { IfOk result (λ delays. vec_len delays ≡ 768) }
{
    let mut delays = Vec::new(alloc);
    for place in 0..768u32 {
        let _ = place;
        delays.push(delay)?;
    }
    Ok(delays)
}

/// A target that cannot be changed, of one delay for all classes and widths.
pub(crate) fn listed(alloc: Global, name: &str, delay: u32) -> Result<ListTarget, AllocError> {
    let delays = level(alloc, delay)?;
    Ok(ListTarget::new(String::from_str(alloc, name)?, delays))
}
