// Lists of calls on two gates, of which the second visits all children of a set.

use crate::called::Called;
use crate::files::{ALL, GREEDY, MISSPELT, NAMED_TWICE};
use crate::given::{rows, table};
use crate::steps::Step::{Decide, Enforce, Fit, Quick, Read};
use crate::steps::{
    BIASES, DONE, INDETERMINATE, INDETERMINATE_ENFORCED, NO_POLICY, NO_READINGS, NONE_WAITS,
    NOT_APPLICABLE, NOT_APPLICABLE_ENFORCED, PERMIT, RESPONSE_WAITS, Step, TOO_SMALL, Words, calls,
    check_answers,
};
use enforcement::Bias;
use gate::Gate;
use readings::Row;
use rehearsal::rehearse;
use services::{Journal, PLACES, Service, Switchboard, UNUSED, ValveBank};
use std::alloc::{AllocError, Global};
use std::process::Abort;
use std::test::Fail;

// A step with its answer.
type Answered = (Step, Words);

// A step with the answers of both gates.
type Both = (Step, Words, Words);

// A list of calls on two gates of so many places.
#[derive(Clone, Copy)]
struct Rehearsal {
    places: usize,
    list: &'static [Both],
}

const ROWS: &[u8] = b"sub/wants res/valve\ntrue 4\nfalse 4\ntrue -\n";

const WANTED: usize = 0;

const UNWANTED: usize = 1;

const UNPLUGGED: usize = 2;

// Fourteen lines need so many.
const GATE_PLACES: usize = 448;

// The duties of the first child and of the set are carried out.
const TWO_CARRIED: Words = ["permit 2 0 0"; 3];

// The second child's too.
const THREE_CARRIED: Words = ["permit 3 0 0"; 3];

// Between them the second child's fails, which is a must.
const SECOND_FAILED: Words = ["indet 1 1 1", "deny 1 1 1", "permit 1 1 1"];

// With a switchboard for the second gate. A response waits when the list ends.
static WITH_VALVES: Rehearsal = Rehearsal {
    places: GATE_PLACES,
    list: &[
        (Quick, NO_POLICY, NO_POLICY),
        (
            Fit(NAMED_TWICE),
            ["refused 6 2 4 2"; 3],
            ["refused 6 2 4 2"; 3],
        ),
        (Fit(GREEDY), DONE, DONE),
        (Decide, NO_READINGS, NO_READINGS),
        (Read(WANTED), DONE, DONE),
        (Quick, PERMIT, PERMIT),
        (Decide, PERMIT, PERMIT),
        (Fit(ALL), RESPONSE_WAITS, RESPONSE_WAITS),
        (Enforce, TWO_CARRIED, THREE_CARRIED),
        (Enforce, NONE_WAITS, NONE_WAITS),
        (Read(UNWANTED), DONE, DONE),
        (Decide, NOT_APPLICABLE, NOT_APPLICABLE),
        (Enforce, NOT_APPLICABLE_ENFORCED, NOT_APPLICABLE_ENFORCED),
        (Read(UNPLUGGED), DONE, DONE),
        (Quick, INDETERMINATE, INDETERMINATE),
        (
            Fit(MISSPELT),
            ["refused 4 1 2 2"; 3],
            ["refused 4 1 2 2"; 3],
        ),
        (Decide, INDETERMINATE, INDETERMINATE),
        (Enforce, INDETERMINATE_ENFORCED, INDETERMINATE_ENFORCED),
        (Read(WANTED), DONE, DONE),
        (Decide, PERMIT, PERMIT),
    ],
};

// With a journal for the second gate.
static WITHOUT_VALVES: Rehearsal = Rehearsal {
    places: GATE_PLACES,
    list: &[
        (Fit(GREEDY), DONE, DONE),
        (Read(WANTED), DONE, DONE),
        (Decide, PERMIT, PERMIT),
        (Enforce, TWO_CARRIED, SECOND_FAILED),
        (Quick, PERMIT, PERMIT),
        (Decide, PERMIT, PERMIT),
        (Enforce, TWO_CARRIED, SECOND_FAILED),
    ],
};

// The variant has as many lines as the file, so both need as many places.
static TOO_FEW: Rehearsal = Rehearsal {
    places: GATE_PLACES - 1,
    list: &[
        (Fit(GREEDY), TOO_SMALL, TOO_SMALL),
        (Read(WANTED), NO_POLICY, NO_POLICY),
        (Enforce, NONE_WAITS, NONE_WAITS),
    ],
};

// Calls of the first gate after the first list.
static LATER_FIRST: [(Step, Words); 7] = [
    (Read(UNWANTED), RESPONSE_WAITS),
    (Quick, PERMIT),
    (Enforce, TWO_CARRIED),
    (Decide, PERMIT),
    (Enforce, TWO_CARRIED),
    (Fit(ALL), DONE),
    (Quick, NO_READINGS),
];

// Calls of the second gate after the first list. By its own `fit` a gate takes a file as it is.
static LATER_SECOND: [(Step, Words); 9] = [
    (Read(UNWANTED), RESPONSE_WAITS),
    (Quick, PERMIT),
    (Enforce, THREE_CARRIED),
    (Decide, PERMIT),
    (Enforce, THREE_CARRIED),
    (Fit(GREEDY), DONE),
    (Read(WANTED), DONE),
    (Decide, PERMIT),
    (Enforce, TWO_CARRIED),
];

// The steps with the answers of the first gate, and with those of the second.
fn apart(heap: Global, list: &[Both]) -> Result<(Vec<Answered>, Vec<Answered>), AllocError> {
    let mut first = Vec::new(heap);
    let mut second = Vec::new(heap);
    for (step, one, other) in list {
        first.push((*step, *one))?;
        second.push((*step, *other))?;
    }
    Ok((first, second))
}

// Plays a list on two new gates, which are handed back.
fn check<V: Service, W: Service>(
    rt: &impl Abort,
    heap: Global,
    bias: Bias,
    rehearsal: &Rehearsal,
    rows: &[Row<'_>],
    first: &mut V,
    second: &mut W,
) -> Result<(Gate, Gate), Fail> {
    let (one, other) = apart(heap, rehearsal.list)?;
    let calls = calls(heap, rows, one.as_slice())?;
    let (here, there) = rehearse(
        heap,
        bias,
        rehearsal.places,
        first,
        second,
        calls.as_slice(),
    )?;
    check_answers(rt, heap, bias, one.as_slice(), here.answers.as_slice())?;
    check_answers(rt, heap, bias, other.as_slice(), there.answers.as_slice())?;
    Ok((here.gate, there.gate))
}

// The first gate has a journal, the second a switchboard with one.
fn with_valves(rt: &impl Abort, heap: Global, bias: Bias, rows: &[Row<'_>]) -> Result<(), Fail> {
    let mut memory = [UNUSED; PLACES];
    let mut other = [UNUSED; PLACES];
    let (Ok(mut first), Ok(journal)) = (Journal::lay(&mut memory[..]), Journal::lay(&mut other[..]))
    else {
        return Err(Fail::new("64 places were refused"));
    };
    let mut second = Switchboard::new(journal, ValveBank::new());
    let (one, other) = check(rt, heap, bias, &WITH_VALVES, rows, &mut first, &mut second)?;
    let mut one = Called::after(one, bias, GREEDY);
    one.check(rt, heap, &mut first, rows, &LATER_FIRST)?;
    let mut other = Called::after(other, bias, ALL);
    other.check(rt, heap, &mut second, rows, &LATER_SECOND)?;
    assert_eq!(rt; first.entries().len(), 6);
    assert_eq!(rt; second.first().entries().len(), 8);
    Ok(())
}

// Both gates have a journal.
fn without_valves(rt: &impl Abort, heap: Global, bias: Bias, rows: &[Row<'_>]) -> Result<(), Fail> {
    let mut memory = [UNUSED; PLACES];
    let mut other = [UNUSED; PLACES];
    let (Ok(mut first), Ok(mut second)) = (
        Journal::lay(&mut memory[..]),
        Journal::lay(&mut other[..]),
    ) else {
        return Err(Fail::new("64 places were refused"));
    };
    check(
        rt,
        heap,
        bias,
        &WITHOUT_VALVES,
        rows,
        &mut first,
        &mut second,
    )?;
    check(rt, heap, bias, &TOO_FEW, rows, &mut first, &mut second)?;
    assert_eq!(rt; first.entries().len(), 4);
    assert_eq!(rt; second.entries().len(), 2);
    Ok(())
}

#[test]
fn two_gates_under_each_bias(rt: HostRuntime) -> Result<(), Fail> {
    let heap = rt.alloc();
    let readings = table(heap, ROWS)?;
    let (first, second, third) = rows(&readings)?;
    let rows = [first, second, third];
    for bias in BIASES {
        with_valves(&rt, heap, bias, &rows)?;
        without_valves(&rt, heap, bias, &rows)?;
    }
    Ok(())
}
