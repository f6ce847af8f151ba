// Responses that are enforced on a switchboard of a journal and a valve bank.

use crate::duties::duty;
use combining::Decision;
use enforcement::{Bias, enforce};
use policy::Force;
use services::{Journal, PLACES, Switchboard, UNUSED, ValveBank};

// For each bias and decision: the decision where all duties are carried out, and where a must fails.
const SETTLED: [(Bias, Decision, Decision, Decision); 12] = [
    (
        Bias::Base,
        Decision::Permit,
        Decision::Permit,
        Decision::Indeterminate,
    ),
    (
        Bias::Base,
        Decision::Deny,
        Decision::Deny,
        Decision::Indeterminate,
    ),
    (
        Bias::Base,
        Decision::NotApplicable,
        Decision::NotApplicable,
        Decision::NotApplicable,
    ),
    (
        Bias::Base,
        Decision::Indeterminate,
        Decision::Indeterminate,
        Decision::Indeterminate,
    ),
    (
        Bias::DenyBiased,
        Decision::Permit,
        Decision::Permit,
        Decision::Deny,
    ),
    (
        Bias::DenyBiased,
        Decision::Deny,
        Decision::Deny,
        Decision::Deny,
    ),
    (
        Bias::DenyBiased,
        Decision::NotApplicable,
        Decision::Deny,
        Decision::Deny,
    ),
    (
        Bias::DenyBiased,
        Decision::Indeterminate,
        Decision::Deny,
        Decision::Deny,
    ),
    (
        Bias::PermitBiased,
        Decision::Permit,
        Decision::Permit,
        Decision::Permit,
    ),
    (
        Bias::PermitBiased,
        Decision::Deny,
        Decision::Deny,
        Decision::Permit,
    ),
    (
        Bias::PermitBiased,
        Decision::NotApplicable,
        Decision::Permit,
        Decision::Permit,
    ),
    (
        Bias::PermitBiased,
        Decision::Indeterminate,
        Decision::Permit,
        Decision::Permit,
    ),
];

#[test]
fn every_bias_with_every_decision(rt: HostRuntime) -> anyhow::Result<()> {
    let within = [
        duty(Force::Must, 8, 100),
        duty(Force::Must, 0, 8),
        duty(Force::May, 15, 1),
    ];
    let beyond = [
        duty(Force::May, 8, 101),
        duty(Force::Must, 15, -1),
        duty(Force::Must, 0, 15),
    ];
    for (bias, decision, opened, too_far) in SETTLED {
        let mut entries = [UNUSED; PLACES];
        let Ok(journal) = Journal::lay(&mut entries[..]) else {
            anyhow::bail!("64 places were refused");
        };
        let mut board = Switchboard::new(journal, ValveBank::new());
        let (first, carried, failed, skipped) = enforce(bias, decision, &within, &mut board);
        assert!(rt; first == opened);
        assert_eq!(rt; (carried, failed, skipped), (3, 0, 0));
        let (second, carried, failed, skipped) = enforce(bias, decision, &beyond, &mut board);
        assert!(rt; second == too_far);
        assert_eq!(rt; (carried, failed, skipped), (0, 2, 1));
        assert_eq!(rt; board.first().entries().len(), 1);
        let valves = board.second().valves();
        assert_eq!(rt; valves.len(), 8);
        assert_eq!(rt; valves[0].position(), 100);
        assert_eq!(rt; valves[6].position(), 0);
        assert_eq!(rt; valves[7].position(), 1);
    }
    Ok(())
}
