// What a file changes, and in which order a file is refused.

use crate::called::Called;
use crate::files::{COOLING, GROWER, MISSPELT, NO_ACTION, NO_GROWER, TANK};
use crate::given::{rows, table};
use crate::steps::Step::{Decide, Enforce, Fit, Quick, Read};
use crate::steps::{
    DENY, DONE, NO_POLICY, NO_READINGS, NOT_APPLICABLE, NOT_APPLICABLE_ENFORCED, PERMIT,
    RESPONSE_WAITS, Step, TOO_SMALL, Words,
};
use enforcement::Bias;
use services::ValveBank;
use std::test::Fail;

const ROWS: &[u8] = b"sub/role res/valve\ngrower 4\npicker 4\ngrower -\n";

const WITH_VALVE: usize = 0;

const PICKER: usize = 1;

// A valve bank takes no note, which is a must.
const NO_NOTE: Words = ["indet 0 1 0", "deny 0 1 0", "permit 0 1 0"];

// In 192 places six lines are accepted.
static ENOUGH: [(Step, Words); 4] = [
    (Fit(GROWER), DONE),
    (Read(WITH_VALVE), DONE),
    (Quick, PERMIT),
    (Decide, PERMIT),
];

// In 191 they are refused, also where a smaller policy is in force, which stays.
static TOO_FEW: [(Step, Words); 14] = [
    (Fit(GROWER), TOO_SMALL),
    (Read(WITH_VALVE), NO_POLICY),
    (Fit(NO_GROWER), DONE),
    (Fit(GROWER), TOO_SMALL),
    (Decide, NO_READINGS),
    (Read(WITH_VALVE), DONE),
    (Fit(GROWER), TOO_SMALL),
    (Quick, DENY),
    (Decide, DENY),
    (Enforce, ["deny 0 0 0"; 3]),
    (Fit(TANK), TOO_SMALL),
    (Read(PICKER), DONE),
    (Quick, NOT_APPLICABLE),
    (Decide, NOT_APPLICABLE),
];

// A file takes the readings away, also where it is in force already; what is read then is decided by it.
static FORGOTTEN: [(Step, Words); 14] = [
    (Fit(GROWER), DONE),
    (Read(WITH_VALVE), DONE),
    (Fit(GROWER), DONE),
    (Decide, NO_READINGS),
    (Quick, NO_READINGS),
    (Read(WITH_VALVE), DONE),
    (Quick, PERMIT),
    (Fit(NO_GROWER), DONE),
    (Quick, NO_READINGS),
    (Decide, NO_READINGS),
    (Read(WITH_VALVE), DONE),
    (Quick, DENY),
    (Decide, DENY),
    (Quick, DENY),
];

// Enforcing leaves the readings, until others are read.
static KEPT: [(Step, Words); 16] = [
    (Fit(GROWER), DONE),
    (Read(PICKER), DONE),
    (Read(WITH_VALVE), DONE),
    (Decide, PERMIT),
    (Quick, PERMIT),
    (Quick, PERMIT),
    (Enforce, NO_NOTE),
    (Quick, PERMIT),
    (Decide, PERMIT),
    (Enforce, NO_NOTE),
    (Read(PICKER), DONE),
    (Decide, NOT_APPLICABLE),
    (Enforce, NOT_APPLICABLE_ENFORCED),
    (Read(WITH_VALVE), DONE),
    (Decide, PERMIT),
    (Enforce, NO_NOTE),
];

// First whether a response waits, then the file's own faults, then the 191 places.
static IN_ORDER: [(Step, Words); 14] = [
    (Fit(NO_GROWER), DONE),
    (Fit(NO_ACTION), ["refused 4 1 5 2"; 3]),
    (Fit(GROWER), TOO_SMALL),
    (Read(WITH_VALVE), DONE),
    (Fit(NO_ACTION), ["refused 4 1 5 2"; 3]),
    (Fit(COOLING), TOO_SMALL),
    (Decide, DENY),
    (Fit(NO_ACTION), RESPONSE_WAITS),
    (Fit(MISSPELT), RESPONSE_WAITS),
    (Fit(COOLING), RESPONSE_WAITS),
    (Fit(NO_GROWER), RESPONSE_WAITS),
    (Enforce, ["deny 0 0 0"; 3]),
    (Fit(MISSPELT), ["refused 4 1 2 2"; 3]),
    (Decide, DENY),
];

// A gate without places takes no policy.
static NO_PLACES: [(Step, Words); 3] = [
    (Fit(NO_ACTION), ["refused 4 1 5 2"; 3]),
    (Fit(NO_GROWER), TOO_SMALL),
    (Read(WITH_VALVE), NO_POLICY),
];

#[test]
fn lists_on_new_gates(rt: HostRuntime) -> Result<(), Fail> {
    let heap = rt.alloc();
    let readings = table(heap, ROWS)?;
    let (first, second, third) = rows(&readings)?;
    let rows = [first, second, third];
    let lists: [(usize, &[(Step, Words)]); 6] = [
        (192, &ENOUGH),
        (191, &TOO_FEW),
        (192, &FORGOTTEN),
        (192, &KEPT),
        (191, &IN_ORDER),
        (0, &NO_PLACES),
    ];
    for (places, steps) in lists {
        let mut called = Called::new(heap, Bias::Base, places)?;
        called.check(&rt, heap, &mut ValveBank::new(), &rows, steps)?;
    }
    Ok(())
}
