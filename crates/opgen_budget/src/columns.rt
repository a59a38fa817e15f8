//! How many of the lowest columns a truncated multiplier leaves out, and the constant that it adds in their place.
ghost use Rattle.std.specs.Prelude.{◌≡◌, ◌+◌, ◌-◌, ◌^◌, ◌<◌, ◌≤◌};
ghost use Rattle.opgen_budget.specs.Columns.{bits_in_column, IsGreatestCut};

/// The lowest columns of a product that a truncated multiplier leaves out.
#[derive(Clone, Copy, Debug, PartialEq, Eq)]
pub struct Cut {
    /// How many columns are left out.
    pub columns: u32,
    /// What is added in their place. It makes good what they weigh, and rounds.
    pub constant: u128,
}

// Counts the pairs of places that have the column.
fn bits_in_column(m: u32, n: u32, column: u32) -> u32
    requires m_most { m ≤ 64 }
    requires n_most { n ≤ 64 }
    requires below { column < m + n - 1 }
    ensures value { result ≡ bits_in_column m n column }
    ensures some { 1 ≤ m → 1 ≤ n → 1 ≤ result }
    ensures few { result ≤ 64 }
{
    (column + 1).min(m).min(n.min(m + n - 1 - column))
}

/// The columns to leave out of a product of `m` by `n` bits that is cut to the bits from `p` up.
///
/// What the bits of the columns weigh together is at most half a unit of the lowest bit that is kept, and one more column would
/// weigh more, unless no column is left.
pub fn drop_columns(m: u32, n: u32, p: u32) -> Cut
    requires m { (1 ≤ m) × (m ≤ 64) }
    requires n { (1 ≤ n) × (n ≤ 64) }
    requires p { (1 ≤ p) × (p ≤ 64) }
    ensures columns { IsGreatestCut m n p result.columns }
    ensures constant { result.constant ≡ 2 ^ (p - 1) }
{
    let constant = 1 << (p - 1);
    let mut columns = 0;
    let mut weight = 0;
    'columns: while columns < m + n - 1 {
        weight += u128::from(bits_in_column(m, n, columns)) << columns;
        if weight > constant {
            break;
        }
        columns += 1;
    }
    Cut { columns, constant }
}
