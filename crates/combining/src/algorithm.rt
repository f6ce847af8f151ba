// What a combining algorithm is: a running state over the children, and its meaning in words.

ghost use Rattle.std.specs.Prelude.{◌≡◌, List, [], ◌∷◌, ◌++◌};
ghost use Rattle.combining.specs.declared.decision.Decision.{Decision};
ghost use Rattle.combining.specs.Wording.{Wording, FinalStays};

use crate::decision::Decision;

// `wording` says what the algorithm means, and `reached` which states stand for which children seen so far.
pub trait CombiningAlgorithm {
    type State: Copy;

    ghost wording: { Self → Wording };

    ghost reached: { Self → Self.State → List Decision → Type 0 };

    fn start(&self, first: Decision) -> Self::State
        ensures { reached self.now result (first ∷ []) };

    fn step(&self, state: Self::State, child: Decision) -> Self::State
        ensures { (ds : List Decision) → reached self.now state ds → reached self.now result (ds ++ child ∷ []) };

    fn is_final(&self, state: Self::State) -> bool
        ensures { (ds : List Decision) → reached self.now state ds → result ≡ (wording self.now).is_final ((wording self.now).decision ds) };

    fn decision(&self, state: Self::State) -> Decision
        ensures { (ds : List Decision) → reached self.now state ds → result ≡ (wording self.now).decision ds };

    // Whether the duties of all children with the decision are joined, or only the first such child's are taken.
    fn joins(&self) -> bool
        ensures { result ≡ (wording self.now).joins };

    ghost stays: { (a : Self) → FinalStays (wording a) };
}
