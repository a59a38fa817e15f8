//! Counts that stop at the largest 64-bit number.
ghost use Rattle.std.specs.Prelude.{◌≡◌};
ghost use Rattle.opgen_io.specs.Counts.{next_count};

/// One more, where there is one.
pub fn raise(count: &mut u64)
    ensures { count.new ≡ next_count count.old }
{
    *count = count.saturating_add(1);
}
