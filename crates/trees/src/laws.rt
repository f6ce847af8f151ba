// What holds of every policy.

ghost use Rattle.trees.specs.AllVisited.{GreedyOnlyOmitsDuties};
ghost use Rattle.trees.specs.Final.{FinalResponsesStay};

// A policy with greedy sets decides as if they visited all their children; at most it omits duties.
pub fn greedy_keeps_decisions()
    ensures { GreedyOnlyOmitsDuties }
{}

// A further child leaves a set's final response final and its decision alone, and can only add duties at its end.
pub fn final_responses_stay()
    ensures { FinalResponsesStay }
{}
