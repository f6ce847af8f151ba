// The one fold over a set's children, for every algorithm.

ghost use Rattle.std.specs.Prelude.{◌≡◌, ◌+◌, ◌≤◌, [], ◌∷◌, map, length, take};
ghost use Rattle.combining.specs.Combined.{visits, stops as stops_of};

use crate::algorithm::CombiningAlgorithm;
use crate::decided::Decided;
use crate::decision::Decision;
use spelling::algorithm::Strategy;

// The decision, and how many children were visited for it.
#[derive(Clone, Copy)]
pub struct Combined {
    pub decision: Decision,
    pub visited: usize,
}

fn stops(strategy: Strategy, is_final: bool) -> bool
    ensures { result ≡ stops_of strategy is_final }
{
    match strategy {
        Strategy::All => false,
        Strategy::Greedy => is_final,
    }
}

// Combines the decisions of the children `first` and `rest`.
pub fn combine<G: CombiningAlgorithm, C: Decided>(
    algorithm: &G,
    strategy: Strategy,
    first: &C,
    rest: &[C],
) -> Combined
    ensures visits { result.visited ≡ visits (G.wording algorithm.now) strategy (C.decision_of first.now ∷ []) (map C.decision_of rest.now) }
    ensures within { result.visited ≤ length rest.now + 1 }
    ensures visited { result.decision ≡ (G.wording algorithm.now).decision (map C.decision_of (take result.visited (first.now ∷ rest.now))) }
    ensures decides { result.decision ≡ (G.wording algorithm.now).decision (map C.decision_of (first.now ∷ rest.now)) }
{
    let mut state = algorithm.start(first.decision());
    // The index is part of the answer.
    for (i, child) in rest.iter().enumerate() {
        if stops(strategy, algorithm.is_final(state)) {
            return Combined {
                decision: algorithm.decision(state),
                visited: i + 1,
            };
        }
        state = algorithm.step(state, child.decision());
    }
    Combined {
        decision: algorithm.decision(state),
        visited: C::count_with_first(rest),
    }
}
