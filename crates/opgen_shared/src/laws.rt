//! Laws of graphs by the rule: numbers have one, which serves them, and no other; it depends on their odd parts alone.
ghost use Rattle.opgen_shared.specs.Rule.{OneRuleGraph, PartsAloneCount, RuleGraphServes, SomeRuleGraph};

/// Numbers of 20 bits have a graph by the rule: that they have none is impossible.
pub fn some_rule_graph()
    ensures { SomeRuleGraph }
{}

/// A graph by the rule of numbers of 20 bits is a shared graph, and it has the odd parts above 1 of all of them.
pub fn rule_graph_serves()
    ensures { RuleGraphServes }
{}

/// Two graphs by the rule for the same numbers are the same.
pub fn one_rule_graph()
    ensures { OneRuleGraph }
{}

/// A graph by the rule for some numbers is one for all numbers that have the same odd parts above 1.
pub fn parts_alone_count()
    ensures { PartsAloneCount }
{}
