// Chains of three children, written as condition lines by the tables of an algorithm.

ghost use Rattle.std.specs.Prelude.{◌<◌, List, [], ◌∷◌};
ghost use Rattle.values.specs.declared.value.Value.{Value};
ghost use Rattle.combining.specs.declared.decision.Decision.{Decision as Decided};
ghost use Rattle.combining.specs.Table.{place as place_of};
ghost use Rattle.conditions.specs.Places.{Grows, Roomy};
ghost use Rattle.conditions.specs.States.{AllInside, Only};

use crate::two_permits::TwoPermits;
use combining::Decision;
use combining::combine::combine;
use conditions::table::tabulate;
use conditions::{Condition, NumberedStates, Places, Truth};
use policy::LineNumber;
use spelling::algorithm::{Algorithm, Strategy};
use std::alloc::{AllocError, Global};
use std::process::Abort;
use std::test::Fail;
use values::Value;

const DECISIONS: [Decision; 4] = [
    Decision::Permit,
    Decision::Deny,
    Decision::NotApplicable,
    Decision::Indeterminate,
];

const ALGORITHMS: [Algorithm; 8] = [
    Algorithm::PermitOverrides,
    Algorithm::DenyOverrides,
    Algorithm::DenyUnlessPermit,
    Algorithm::PermitUnlessDeny,
    Algorithm::FirstApplicable,
    Algorithm::OneApplicable,
    Algorithm::WeakConsensus,
    Algorithm::StrongConsensus,
];

// The numbers of the lines that read whether a child's decision is each of the four.
const NUMBERS: [[LineNumber; 4]; 3] = [[1, 2, 3, 4], [5, 6, 7, 8], [9, 10, 11, 12]];

// A child whose decision is known beforehand, and takes no lines.
fn known(decision: Decision) -> [Truth; 4]
    ensures { (p : Places) → AllInside p result }
{
    [
        Truth::Known(decision == Decision::Permit),
        Truth::Known(decision == Decision::Deny),
        Truth::Known(decision == Decision::NotApplicable),
        Truth::Known(decision == Decision::Indeterminate),
    ]
}

// A child whose decision is read: that it is each of the four stands in a line of its own.
fn read(places: &mut Places, numbers: [LineNumber; 4]) -> [Truth; 4]
    requires { Roomy places.old 4 }
    ensures grows { Grows places.old places.new 4 }
    ensures within { AllInside places.new result }
{
    let permit = places.add(Condition::Reading(numbers[0]));
    let deny = places.add(Condition::Reading(numbers[1]));
    let not_applicable = places.add(Condition::Reading(numbers[2]));
    let indeterminate = places.add(Condition::Reading(numbers[3]));
    [
        Truth::At(permit),
        Truth::At(deny),
        Truth::At(not_applicable),
        Truth::At(indeterminate),
    ]
}

// What three children come to, by any algorithm.
fn combined<G: NumberedStates>(
    places: &mut Places,
    algorithm: &G,
    first: [Truth; 4],
    second: [Truth; 4],
    third: [Truth; 4],
) -> [Truth; 4]
    requires room { Roomy places.old 82 }
    requires first { AllInside places.old first }
    requires second { AllInside places.old second }
    requires third { AllInside places.old third }
    ensures grows { Grows places.old places.new 82 }
    ensures within { AllInside places.new result }
    ensures decides { (readings : List Value) (a b c : Decided) → Only places.old readings first (place_of a) → Only places.old readings second (place_of b) → Only places.old readings third (place_of c) → Only places.new readings result (place_of ((G.wording algorithm.now).decision (a ∷ b ∷ c ∷ []))) }
{
    let table = tabulate(algorithm);
    let one = places.first_states(&table, first);
    let two = places.next_states(&table, one, second);
    let three = places.next_states(&table, two, third);
    places.decision_of(&table, three)
}

// Three children, and which of them are known beforehand.
#[derive(Clone, Copy)]
struct Children {
    decisions: [Decision; 3],
    known: [bool; 3],
}

// The truths of child `number`, counted from 0.
fn child(places: &mut Places, children: &Children, number: usize) -> [Truth; 4]
    requires room { Roomy places.old 4 }
    requires number { number < 3 }
    ensures grows { Grows places.old places.new 4 }
    ensures within { AllInside places.new result }
{
    if children.known[number] {
        known(children.decisions[number])
    } else {
        read(places, NUMBERS[number])
    }
}

// What the lines of the children read: true at the number of the line for the decision of each.
fn readings(children: &Children) -> [Value; 12] {
    let [first, second, third] = children.decisions;
    let mut readings = [Value::Bool(false); 12];
    readings[first as usize] = Value::Bool(true);
    readings[4 + second as usize] = Value::Bool(true);
    readings[8 + third as usize] = Value::Bool(true);
    readings
}

// The flat pass over the lines of the children.
fn flat<G: NumberedStates>(
    heap: Global,
    algorithm: &G,
    children: &Children,
) -> Result<Decision, AllocError> {
    let mut places = Places::new(heap, 98)?;
    let first = child(&mut places, children, 0);
    let second = child(&mut places, children, 1);
    let third = child(&mut places, children, 2);
    let decision = combined(&mut places, algorithm, first, second, third);
    let marks = places.mark(decision);
    Ok(places.verdict(&marks, &readings(children)))
}

// The flat pass agrees with the fold, whichever of the children are known beforehand.
fn check_known<G: NumberedStates>(
    rt: &impl Abort,
    heap: Global,
    algorithm: &G,
    decisions: [Decision; 3],
) -> Result<(), Fail> {
    let [first, second, third] = decisions;
    let expected = combine(algorithm, Strategy::All, &first, &[second, third]).decision;
    for a in [false, true] {
        for b in [false, true] {
            for c in [false, true] {
                let known = [a, b, c];
                let found = flat(heap, algorithm, &Children { decisions, known })?;
                assert!(rt;
                    found == expected,
                    "{} {} {}: {}",
                    first,
                    second,
                    third,
                    found
                );
            }
        }
    }
    Ok(())
}

fn check_triples<G: NumberedStates>(
    rt: &impl Abort,
    heap: Global,
    algorithm: &G,
) -> Result<(), Fail> {
    for first in DECISIONS {
        for second in DECISIONS {
            for third in DECISIONS {
                check_known(rt, heap, algorithm, [first, second, third])?;
            }
        }
    }
    Ok(())
}

#[test]
fn nine_algorithms(rt: HostRuntime) -> Result<(), Fail> {
    let heap = rt.alloc();
    for algorithm in ALGORITHMS {
        check_triples(&rt, heap, &algorithm)?;
    }
    check_triples(&rt, heap, &TwoPermits)
}

#[test]
fn two_permits_of_three(rt: HostRuntime) -> Result<(), Fail> {
    let [permit, deny, not_applicable, indeterminate] = DECISIONS;
    let cases = [
        ([permit, not_applicable, not_applicable], not_applicable),
        ([permit, not_applicable, permit], permit),
        ([permit, permit, permit], permit),
        ([permit, permit, indeterminate], indeterminate),
        ([indeterminate, permit, deny], deny),
        ([deny, permit, permit], deny),
        (
            [not_applicable, not_applicable, not_applicable],
            not_applicable,
        ),
    ];
    for (decisions, expected) in cases {
        let known = [false, true, false];
        let found = flat(rt.alloc(), &TwoPermits, &Children { decisions, known })?;
        assert!(rt; found == expected, "{}", found);
    }
    Ok(())
}
