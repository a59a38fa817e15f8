//! The cost of a set of adders in bits: the width of each sum, added up.
ghost use Rattle.std.specs.Prelude.{◌≡◌, ◌^◌, ◌<◌, ◌*◌, length};
ghost use Rattle.opgen_graph.specs.SetCost.{adder_cost, set_cost};

// What an adder for `n` costs.
fn adder(n: u32, width: u32) -> u64
    ensures value { result ≡ adder_cost width n }
    ensures small { result < 2 ^ 33 }
{
    u64::from(width) + u64::from(32 - n.leading_zeros())
}

/// What a set costs over an input of a width: for each member the width and the member's bit length.
pub fn cost(set: &[u32], width: u32) -> u64
    requires { length set.now < 2 ^ 31 }
    ensures { result ≡ set_cost width set.now }
{
    let mut total = 0;
    for n in set {
        total += adder(*n, width);
    }
    total
}
