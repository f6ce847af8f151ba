// An algorithm whose running states are numbered.

ghost use Rattle.std.specs.Prelude.{◌≡◌, ℕ, ◌<◌, List, [], ◌∷◌, ◌++◌};
ghost use Rattle.combining.specs.declared.decision.Decision.{Decision as Decided};

use combining::CombiningAlgorithm;

// What an algorithm adds to be compiled: numbers below five for its running states, and back.
// The state with number 4 is kept by every further child.
pub trait NumberedStates: CombiningAlgorithm {
    ghost number_of: { Self.State → ℕ };

    fn number(state: Self::State) -> usize
        ensures value { result ≡ number_of state }
        ensures bound { result < 5 };

    fn numbered(number: usize) -> Self::State
        ensures { (s : Self.State) → number_of s ≡ number → result ≡ s };

    ghost last_stays: { (a : Self) (s : Self.State) (ds : List Decided) (d : Decided) → number_of s ≡ 4 → Self.reached a s ds → Self.reached a s (ds ++ d ∷ []) };
}
