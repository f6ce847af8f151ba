// Calls that a gate is given, and the answers that they are to have.

use enforcement::Bias;
use refusals::Rejection;
use runs::{Answer, Call};
use std::alloc::{AllocError, Global};
use std::process::Abort;
use std::test::Fail;

pub const BIASES: [Bias; 3] = [Bias::Base, Bias::DenyBiased, Bias::PermitBiased];

// A call without its source, which is named by its place among those that a test has.
#[derive(Clone, Copy)]
pub enum Step {
    Fit(&'static [u8]),
    Read(usize),
    Decide,
    Quick,
    Enforce,
}

// An answer in words under each bias, in the order of `Bias`.
pub type Words = [&'static str; 3];

// Accepted, for a fit and a read.
pub const DONE: Words = ["done"; 3];

pub const PERMIT: Words = ["permit"; 3];

pub const DENY: Words = ["deny"; 3];

pub const NOT_APPLICABLE: Words = ["not-app"; 3];

pub const INDETERMINATE: Words = ["indet"; 3];

pub const TOO_SMALL: Words = ["refused 11 3 0 0"; 3];

pub const NO_POLICY: Words = ["refused 12 4 0 0"; 3];

pub const NO_READINGS: Words = ["refused 13 4 0 0"; 3];

pub const RESPONSE_WAITS: Words = ["refused 14 4 0 0"; 3];

pub const NONE_WAITS: Words = ["refused 15 4 0 0"; 3];

// What is made of the decisions that have no duties.
pub const NOT_APPLICABLE_ENFORCED: Words = ["not-app 0 0 0", "deny 0 0 0", "permit 0 0 0"];

pub const INDETERMINATE_ENFORCED: Words = ["indet 0 0 0", "deny 0 0 0", "permit 0 0 0"];

impl Step {
    // The call with its source; none where there are fewer sources.
    pub fn call<'a, S>(self, sources: &'a [S]) -> Option<Call<'a, S>> {
        match self {
            Step::Fit(file) => Some(Call::Fit(file)),
            Step::Read(place) => sources.get(place).map(Call::Read),
            Step::Decide => Some(Call::Decide),
            Step::Quick => Some(Call::Quick),
            Step::Enforce => Some(Call::Enforce),
        }
    }
}

// The calls of these steps; those without a source are left out.
pub(crate) fn calls<'a, S>(
    heap: Global,
    sources: &'a [S],
    steps: &[(Step, Words)],
) -> Result<Vec<Call<'a, S>>, AllocError> {
    let mut calls = Vec::new(heap);
    for (step, _) in steps {
        if let Some(call) = step.call(sources) {
            calls.push(call)?;
        }
    }
    Ok(calls)
}

fn done(heap: Global, outcome: Result<(), Rejection>) -> Result<String, AllocError> {
    match outcome {
        Ok(()) => String::from_str(heap, "done"),
        Err(rejection) => format!(in heap; "{rejection}"),
    }
}

// The answer to a step in words: `done`, a decision, an enforced one with its counts, or the line of a refusal.
pub(crate) fn words(heap: Global, step: Step, answer: Answer) -> Result<String, AllocError> {
    match (step, answer) {
        (Step::Fit(_), Answer::Fitted(outcome)) => done(heap, outcome),
        (Step::Read(_), Answer::Taken(outcome)) => done(heap, outcome),
        (Step::Decide, Answer::Decided(Ok(decision))) => format!(in heap; "{decision}"),
        (Step::Decide, Answer::Decided(Err(rejection))) => format!(in heap; "{rejection}"),
        (Step::Quick, Answer::Seen(Ok(decision))) => format!(in heap; "{decision}"),
        (Step::Quick, Answer::Seen(Err(rejection))) => format!(in heap; "{rejection}"),
        (Step::Enforce, Answer::Enforced(Ok((decision, carried, failed, skipped)))) => {
            format!(in heap; "{decision} {carried} {failed} {skipped}")
        }
        (Step::Enforce, Answer::Enforced(Err(rejection))) => format!(in heap; "{rejection}"),
        _ => String::from_str(heap, "the answer to another call"),
    }
}

// Each answer to a list of calls is as expected.
pub(crate) fn check_answers(
    rt: &impl Abort,
    heap: Global,
    bias: Bias,
    steps: &[(Step, Words)],
    answers: &[Answer],
) -> Result<(), Fail> {
    assert_eq!(rt; answers.len(), steps.len());
    for (number, ((step, expected), answer)) in steps.iter().zip(answers).enumerate() {
        let found = words(heap, *step, *answer)?;
        assert_eq!(rt; found.as_str(), expected[bias as usize], "call {number}");
    }
    Ok(())
}
