//! Laws on answers: how many there are, what each says, and what leads to each.
ghost use Rattle.opgen_laws.specs.Answers.{HasOneAnswer, HasSomeAnswer, IsForAllWorkers};
ghost use Rattle.opgen_laws.specs.Causes.{AnswersHaveCauses, RefusalsAreDue};
ghost use Rattle.opgen_laws.specs.Lines.{LinesAreFixed};
ghost use Rattle.opgen_laws.specs.Workloads.{WorkloadsAreGood};

use opgen_part_laws::{one_adder_set, one_least_graph, one_net_of_product, one_net_of_sop};
use opgen_shared::{one_rule_graph, some_rule_graph};
use opgen_top::circuits_serve;

/// The words, the targets and the files leave at most one answer: its status, its line and its stores.
pub fn one_answer()
    ensures { HasOneAnswer }
{
    one_net_of_product();
    one_net_of_sop();
    one_adder_set();
    one_least_graph();
    one_rule_graph();
}

/// That the words, the targets and the files leave no answer is impossible. Which one is due is not said, since nothing here
/// computes it: `run` gives it where it answers.
pub fn some_answer()
    ensures { HasSomeAnswer }
{
    some_rule_graph();
    circuits_serve();
}

/// The number of workers changes no answer: `generate` stores the same bytes and prints the same line for each.
pub fn any_workers()
    ensures { IsForAllWorkers }
{}

/// Each status of an answer that is due says what the words, the targets and the files are.
pub fn answers_have_causes()
    ensures { AnswersHaveCauses }
{}

/// Each cause for which a specification is refused makes that refusal the answer that is due.
pub fn refusals_are_due()
    ensures { RefusalsAreDue }
{}

/// The statuses 2, 3 and 9 have one line each.
pub fn lines_are_fixed()
    ensures { LinesAreFixed }
{}

/// In the line of a workload all cycles from the latency on are good.
pub fn workloads_are_good()
    ensures { WorkloadsAreGood }
{
    circuits_serve();
}
