//! Examples, each of them a theorem: values, flows and lanes, a leak by each kind of flow, and a run in which much happens.
#![tactic(auto)]

ghost use Rattle.examples.specs.Examples.{Examples};
ghost use Rattle.examples.specs.Leaks.{Leaks};
ghost use Rattle.examples.specs.Lively.{Lively};

/// The examples hold: the values of some expressions, the forbidden flows of some books, and a lane.
pub fn examples_stand() -> bool
    ensures { Examples }
{
    true
}

/// For each kind of flow there is a book with no other forbidden flow, and two runs of it that level 0 should not tell apart, but
/// does.
pub fn every_kind_leaks() -> bool
    ensures { Leaks }
{
    true
}

/// There is an accepted book, and a run of it in which updates of two levels are let in, lost and applied.
pub fn runs_are_lively() -> bool
    ensures { Lively }
{
    true
}
