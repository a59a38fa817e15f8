//! Laws on the nets and circuits of a specification, and on designs that are checked by it.
ghost use Rattle.opgen_laws.specs.Certificates.{GoodOutputsRecall, GoodRowsServe};
ghost use Rattle.opgen_laws.specs.Circuits.{CircuitsAreSound, CircuitsCheckGood, HasOneCircuit, HasOneNet};

use opgen_part_laws::{
    one_adder_set, one_least_graph, one_net_of_product, one_net_of_sop, outputs_show_one_row,
};
use opgen_shared::one_rule_graph;
use opgen_top::circuits_serve;

/// A specification leaves at most one net.
pub fn one_net()
    ensures { HasOneNet }
{
    one_net_of_product();
    one_net_of_sop();
    one_adder_set();
    one_least_graph();
    one_rule_graph();
}

/// A specification leaves at most one circuit for a table of delays: `generate` stores it, and `vectors` runs it.
pub fn one_circuit()
    ensures { HasOneCircuit }
{
    one_net_of_product();
    one_net_of_sop();
    one_adder_set();
    one_least_graph();
    one_rule_graph();
}

/// Each circuit of a valid specification is sound.
pub fn circuits_are_sound()
    ensures { CircuitsAreSound }
{}

/// `check` of a stored circuit without a clock enable, at its latency, finds every row that it judges good, whatever the rows.
pub fn circuits_check_good()
    ensures { CircuitsCheckGood }
{
    circuits_serve();
}

/// Good outputs of a specification, also those of a chosen width, depend on the inputs of the last cycle and of as many before it as
/// the operator remembers.
pub fn good_outputs_recall()
    ensures { GoodOutputsRecall }
{}

/// `check` as a certificate: where the operator has no memory, a sound design with the specification's ports, each of whose outputs
/// shows the one row of inputs the latency before, serves the specification for all inputs, if `check` judges good all rows that it
/// judges of rows with each word of the inputs.
pub fn good_rows_serve()
    ensures { GoodRowsServe }
{
    outputs_show_one_row();
}
