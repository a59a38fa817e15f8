//! Laws of nets and heaps that grow, and of the nets of products, sums of products and polynomials.
ghost use Rattle.opgen_net.specs.Grown.{GrownNetsKeepNodes};
ghost use Rattle.opgen_heap.specs.Standing.{BitsStillStand};
ghost use Rattle.opgen_mult.specs.OneNet.{HasOneNet};
ghost use Rattle.opgen_poly.specs.Recipe.{LeavesOutMost};
ghost use Rattle.opgen_sop.specs.OneNet.{HasOneNetOfSop};

/// A net that has grown keeps the width of each node that it had, and the node's word at each time.
pub fn grown_nets_keep_nodes()
    ensures { GrownNetsKeepNodes }
{}

/// The bits of a heap still stand in a net that has grown.
pub fn bits_still_stand()
    ensures { BitsStillStand }
{}

/// A product leaves one net, so each call of `build` with it answers the same.
pub fn one_net_of_product()
    ensures { HasOneNet }
{}

/// A sum of products leaves one net, so each call of `build` with it answers the same.
pub fn one_net_of_sop()
    ensures { HasOneNetOfSop }
{}

/// The product of a step leaves out the greatest number of its lowest columns that weigh together at
/// most half a unit of the lowest bit that is kept.
pub fn most_are_left_out()
    ensures { LeavesOutMost }
{}
