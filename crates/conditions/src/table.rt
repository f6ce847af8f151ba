// The tables of what an algorithm's running states do.

ghost use Rattle.std.specs.Prelude.{◌≡◌, ℕ, ◌<◌, List, [], ◌∷◌, ◌++◌, slice_index_or};
ghost use Rattle.combining.specs.declared.decision.Decision.{Decision as Decided};
ghost use Rattle.combining.specs.declared.decision.Decision.TheVariants.{Permit};
ghost use Rattle.combining.specs.Table.{place};
ghost use Rattle.conditions.specs.Transitions.{Follows};

use crate::numbered::NumberedStates;
use combining::Decision;

#[derive(Clone, Copy)]
pub struct Transitions {
    // The state after a first child, by its decision.
    pub first: [usize; 4],
    // The state after one child more, by the state before and the child's decision; state 4 stays.
    pub next: [[usize; 4]; 4],
    // What the children come to, by the state.
    pub decisions: [Decision; 5],
}

fn first_state<G: NumberedStates>(algorithm: &G, child: Decision) -> usize
    ensures bound { result < 5 }
    ensures reached { (s : G.State) × (G.number_of s ≡ result) × G.reached algorithm.now s (child ∷ []) }
{
    G::number(algorithm.start(child))
}

fn next_state<G: NumberedStates>(algorithm: &G, number: usize, child: Decision) -> usize
    ensures bound { result < 5 }
    ensures reached { (s : G.State) (ds : List Decided) → G.number_of s ≡ number → G.reached algorithm.now s ds → (q : G.State) × (G.number_of q ≡ result) × G.reached algorithm.now q (ds ++ child ∷ []) }
{
    G::number(algorithm.step(G::numbered(number), child))
}

fn decision_at<G: NumberedStates>(algorithm: &G, number: usize) -> Decision
    ensures { (s : G.State) (ds : List Decided) → G.number_of s ≡ number → G.reached algorithm.now s ds → result ≡ (G.wording algorithm.now).decision ds }
{
    algorithm.decision(G::numbered(number))
}

fn next_row<G: NumberedStates>(algorithm: &G, number: usize) -> [usize; 4]
    ensures bound { (d : Decided) → slice_index_or result (place d) 4 < 5 }
    ensures reached { (s : G.State) (d : Decided) (ds : List Decided) → G.number_of s ≡ number → G.reached algorithm.now s ds → (q : G.State) × (G.number_of q ≡ slice_index_or result (place d) 4) × G.reached algorithm.now q (ds ++ d ∷ []) }
{
    [
        next_state(algorithm, number, Decision::Permit),
        next_state(algorithm, number, Decision::Deny),
        next_state(algorithm, number, Decision::NotApplicable),
        next_state(algorithm, number, Decision::Indeterminate),
    ]
}

fn first_row<G: NumberedStates>(algorithm: &G) -> [usize; 4]
    ensures bound { (d : Decided) → slice_index_or result (place d) 0 < 5 }
    ensures reached { (d : Decided) → (q : G.State) × (G.number_of q ≡ slice_index_or result (place d) 0) × G.reached algorithm.now q (d ∷ []) }
{
    [
        first_state(algorithm, Decision::Permit),
        first_state(algorithm, Decision::Deny),
        first_state(algorithm, Decision::NotApplicable),
        first_state(algorithm, Decision::Indeterminate),
    ]
}

fn decisions<G: NumberedStates>(algorithm: &G) -> [Decision; 5]
    ensures { (s : G.State) (n : ℕ) (ds : List Decided) → n < 5 → G.number_of s ≡ n → G.reached algorithm.now s ds → slice_index_or result n Permit ≡ (G.wording algorithm.now).decision ds }
{
    [
        decision_at(algorithm, 0),
        decision_at(algorithm, 1),
        decision_at(algorithm, 2),
        decision_at(algorithm, 3),
        decision_at(algorithm, 4),
    ]
}

// The tables of an algorithm, from the very steps by which children are combined.
pub fn tabulate<G: NumberedStates>(algorithm: &G) -> Transitions
    ensures { Follows (λ n ds. (s : G.State) × (G.number_of s ≡ n) × G.reached algorithm.now s ds) (G.wording algorithm.now).decision result }
{
    Transitions {
        first: first_row(algorithm),
        next: [
            next_row(algorithm, 0),
            next_row(algorithm, 1),
            next_row(algorithm, 2),
            next_row(algorithm, 3),
        ],
        decisions: decisions(algorithm),
    }
}
