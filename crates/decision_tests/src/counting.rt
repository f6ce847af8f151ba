// An algorithm whose state is a count, beside the eight: nothing of the fold or of them is touched for it.

ghost use Rattle.decision_tests.specs.Counting.{by_two, Counted, stays_by_two};

use combining::combine::combine;
use combining::{CombiningAlgorithm, Decision};
use spelling::algorithm::Strategy;
use std::test::Fail;

// Permits where at least two children permit, and else does not apply.
struct ByTwo;

impl CombiningAlgorithm for ByTwo {
    // How many permits were seen, at most two.
    type State = u8;

    ghost wording = { λ _. by_two };

    ghost reached = { λ _. Counted };

    ghost stays = { λ _. stays_by_two };

    fn start(&self, first: Decision) -> u8 {
        u8::from(first == Decision::Permit)
    }

    fn step(&self, state: u8, child: Decision) -> u8 {
        match child {
            Decision::Permit => state.saturating_add(1).min(2),
            _ => state,
        }
    }

    fn is_final(&self, state: u8) -> bool {
        state >= 2
    }

    fn decision(&self, state: u8) -> Decision {
        if state >= 2 {
            Decision::Permit
        } else {
            Decision::NotApplicable
        }
    }

    fn joins(&self) -> bool {
        true
    }
}

#[test]
fn two_of_four_permit(rt: HostRuntime) -> Result<(), Fail> {
    let rest = [Decision::Deny, Decision::Permit, Decision::Indeterminate];
    let all = combine(&ByTwo, Strategy::All, &Decision::Permit, &rest);
    let greedy = combine(&ByTwo, Strategy::Greedy, &Decision::Permit, &rest);
    let lone = combine(&ByTwo, Strategy::All, &Decision::Permit, &rest[0..1]);
    assert!(rt; all.decision == Decision::Permit && all.visited == 4);
    assert!(rt; greedy.decision == Decision::Permit && greedy.visited == 3);
    assert!(rt; lone.decision == Decision::NotApplicable && lone.visited == 2);
    Ok(())
}
