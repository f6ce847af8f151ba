// A list of calls on a new gate, and calls of that gate afterwards.

use crate::called::Called;
use crate::files::{GROWER, NAMED_TWICE, NO_GROWER, TANK};
use crate::given::{rows, table};
use crate::steps::Step::{Decide, Enforce, Fit, Quick, Read};
use crate::steps::{
    BIASES, DENY, DONE, INDETERMINATE, INDETERMINATE_ENFORCED, NO_POLICY, NO_READINGS, NONE_WAITS,
    NOT_APPLICABLE, NOT_APPLICABLE_ENFORCED, PERMIT, RESPONSE_WAITS, Step, Words, calls,
    check_answers,
};
use runs::run;
use services::{Journal, PLACES, UNUSED};
use std::test::Fail;

const ROWS: &[u8] = b"sub/role res/valve\ngrower 4\npicker 4\ngrower -\n";

const WITH_VALVE: usize = 0;

const PICKER: usize = 1;

const UNPLUGGED: usize = 2;

// A response waits when the list ends.
static LIST: [(Step, Words); 24] = [
    (Decide, NO_POLICY),
    (Enforce, NONE_WAITS),
    (Fit(NAMED_TWICE), ["refused 6 2 4 2"; 3]),
    (Fit(TANK), DONE),
    (Fit(GROWER), DONE),
    (Quick, NO_READINGS),
    (Read(WITH_VALVE), DONE),
    (Quick, PERMIT),
    (Decide, PERMIT),
    (Quick, PERMIT),
    (Fit(NO_GROWER), RESPONSE_WAITS),
    (Enforce, ["permit 1 0 0"; 3]),
    (Read(PICKER), DONE),
    (Decide, NOT_APPLICABLE),
    (Enforce, NOT_APPLICABLE_ENFORCED),
    (Read(UNPLUGGED), DONE),
    (Quick, INDETERMINATE),
    (Decide, INDETERMINATE),
    (Enforce, INDETERMINATE_ENFORCED),
    (Read(WITH_VALVE), DONE),
    (Decide, PERMIT),
    (Enforce, ["permit 1 0 0"; 3]),
    (Enforce, NONE_WAITS),
    (Decide, PERMIT),
];

static LATER: [(Step, Words); 7] = [
    (Read(PICKER), RESPONSE_WAITS),
    (Quick, PERMIT),
    (Enforce, ["permit 1 0 0"; 3]),
    (Fit(NO_GROWER), DONE),
    (Quick, NO_READINGS),
    (Read(WITH_VALVE), DONE),
    (Quick, DENY),
];

#[test]
fn a_list_under_each_bias(rt: HostRuntime) -> Result<(), Fail> {
    let heap = rt.alloc();
    let readings = table(heap, ROWS)?;
    let (first, second, third) = rows(&readings)?;
    let rows = [first, second, third];
    let calls = calls(heap, &rows, &LIST)?;
    for bias in BIASES {
        let mut memory = [UNUSED; PLACES];
        let Ok(mut journal) = Journal::lay(&mut memory[..]) else {
            return Err(Fail::new("64 places were refused"));
        };
        let outcome = run(heap, bias, 192, &mut journal, calls.as_slice())?;
        check_answers(&rt, heap, bias, &LIST, outcome.answers.as_slice())?;
        assert_eq!(rt; journal.entries().len(), 2);
        let mut called = Called::after(outcome.gate, bias, GROWER);
        called.check(&rt, heap, &mut journal, &rows, &LATER)?;
        assert_eq!(rt; journal.entries().len(), 3);
    }
    Ok(())
}
