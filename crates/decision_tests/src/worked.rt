// The worked examples, and what missing must not be taken for.

use combining::Decision;
use combining::combine::combine;
use operators::{Operand, Outcome, and, div, not};
use spelling::algorithm::{Algorithm, Strategy};
use std::alloc::Global;
use std::test::Fail;

const LEAST: i32 = -2147483648;

// An outcome in a word; nothing else prints outcomes, so there is no Display for them.
fn word(heap: Global, outcome: Outcome) -> Result<String, Fail> {
    match outcome {
        Outcome::Missing => Ok(String::from_str(heap, "missing")?),
        Outcome::Error => Ok(String::from_str(heap, "error")?),
        Outcome::Bool(truth) => Ok(format!(in heap; "{truth}")?),
        Outcome::Number(x) => Ok(format!(in heap; "{x}")?),
    }
}

#[test]
fn values(rt: HostRuntime) -> Result<(), Fail> {
    let heap = rt.alloc();
    let cases = [
        ("false", and(Operand::Bool(false), Operand::Error)),
        ("missing", and(Operand::Bool(true), Operand::Missing)),
        ("missing", not(Operand::Missing)),
        ("-3", div(Operand::Number(-7), Operand::Number(2))),
        ("error", div(Operand::Number(LEAST), Operand::Number(-1))),
        ("error", div(Operand::Number(1), Operand::Number(0))),
    ];
    for (expected, outcome) in cases {
        let found = word(heap, outcome)?;
        assert!(rt; found.as_str() == expected, "{}", expected);
    }
    Ok(())
}

fn combined(algorithm: Algorithm, first: Decision, second: Decision) -> Decision {
    combine(&algorithm, Strategy::All, &first, &[second]).decision
}

#[test]
fn decisions(rt: HostRuntime) -> Result<(), Fail> {
    let cases = [
        (
            "indet",
            combined(
                Algorithm::PermitOverrides,
                Decision::Deny,
                Decision::Indeterminate,
            ),
        ),
        (
            "indet",
            combined(Algorithm::OneApplicable, Decision::Permit, Decision::Permit),
        ),
        (
            "permit",
            combined(
                Algorithm::WeakConsensus,
                Decision::Permit,
                Decision::NotApplicable,
            ),
        ),
        (
            "indet",
            combined(
                Algorithm::StrongConsensus,
                Decision::Permit,
                Decision::NotApplicable,
            ),
        ),
    ];
    for (expected, decision) in cases {
        let found = format!(in rt.alloc(); "{decision}")?;
        assert!(rt; found.as_str() == expected, "{}", expected);
    }
    Ok(())
}
