// A gate that is called over rows with a journal, then over sensors with a valve bank, then over rows before sensors with a switchboard.

use crate::called::Called;
use crate::files::{COOLING, GROWER, MISSPELT, NAMED_TWICE, NO_ACTION, NO_LINES, TANK, WARMING};
use crate::given::{bank, rows, sensor, table};
use crate::steps::Step::{Decide, Enforce, Fit, Quick, Read};
use crate::steps::{
    BIASES, DENY, DONE, INDETERMINATE, INDETERMINATE_ENFORCED, NO_POLICY, NO_READINGS, NONE_WAITS,
    NOT_APPLICABLE, NOT_APPLICABLE_ENFORCED, PERMIT, RESPONSE_WAITS, Step, TOO_SMALL, Words,
};
use readings::Readings;
use services::{Journal, PLACES, Switchboard, UNUSED, ValveBank};
use sources::{Before, SensorBank};
use std::alloc::Global;
use std::process::Abort;
use std::test::Fail;
use trees::Duty;
use values::Value;

// Eight lines need so many; nine need more.
const GATE_PLACES: usize = 256;

// A must fails, and a duty after it is skipped.
const MUST_FAILED: Words = ["indet 0 1 1", "deny 0 1 1", "permit 0 1 1"];

// The same without a duty after it.
const DENY_FAILED: Words = ["indet 0 1 0", "deny 0 1 0", "permit 0 1 0"];

const ROWS: &[u8] = b"sub/role res/valve env/tank\n\
      grower 4 12\n\
      picker 4 20\n\
      grower - !\n";

const WITH_VALVE: usize = 0;

const PICKER: usize = 1;

const UNPLUGGED: usize = 2;

// A new gate, before a policy is in force and then before anything is read for it.
static AT_FIRST: [(Step, Words); 16] = [
    (Quick, NO_POLICY),
    (Decide, NO_POLICY),
    (Read(WITH_VALVE), NO_POLICY),
    (Enforce, NONE_WAITS),
    (Fit(b""), ["refused 1 1 0 0"; 3]),
    (Fit(WARMING), TOO_SMALL),
    (Read(WITH_VALVE), NO_POLICY),
    (Decide, NO_POLICY),
    (Fit(GROWER), DONE),
    (Quick, NO_READINGS),
    (Decide, NO_READINGS),
    (Enforce, NONE_WAITS),
    (Fit(NO_LINES), ["refused 7 2 1 0"; 3]),
    (Quick, NO_READINGS),
    (Decide, NO_READINGS),
    (Enforce, NONE_WAITS),
];

// Three rows, and calls that are refused while a response waits and while none does.
static GROWERS: [(Step, Words); 27] = [
    (Read(WITH_VALVE), DONE),
    (Enforce, NONE_WAITS),
    (Quick, PERMIT),
    (Decide, PERMIT),
    (Decide, RESPONSE_WAITS),
    (Read(PICKER), RESPONSE_WAITS),
    (Fit(TANK), RESPONSE_WAITS),
    (Fit(MISSPELT), RESPONSE_WAITS),
    (Fit(WARMING), RESPONSE_WAITS),
    (Quick, PERMIT),
    (Enforce, ["permit 1 0 0"; 3]),
    (Enforce, NONE_WAITS),
    (Fit(MISSPELT), ["refused 4 1 2 2"; 3]),
    (Fit(NAMED_TWICE), ["refused 6 2 4 2"; 3]),
    (Fit(WARMING), TOO_SMALL),
    (Quick, PERMIT),
    (Decide, PERMIT),
    (Enforce, ["permit 1 0 0"; 3]),
    (Read(PICKER), DONE),
    (Quick, NOT_APPLICABLE),
    (Decide, NOT_APPLICABLE),
    (Enforce, NOT_APPLICABLE_ENFORCED),
    (Read(UNPLUGGED), DONE),
    (Quick, INDETERMINATE),
    (Decide, INDETERMINATE),
    (Enforce, INDETERMINATE_ENFORCED),
    (Quick, INDETERMINATE),
];

// A deny whose duty is a valve's, and a tank that cannot be read.
static TANK_BY_ROWS: [(Step, Words); 12] = [
    (Fit(TANK), DONE),
    (Quick, NO_READINGS),
    (Read(WITH_VALVE), DONE),
    (Quick, DENY),
    (Decide, DENY),
    (Quick, DENY),
    (Enforce, DENY_FAILED),
    (Read(UNPLUGGED), DONE),
    (Decide, INDETERMINATE),
    (Fit(NO_ACTION), RESPONSE_WAITS),
    (Enforce, INDETERMINATE_ENFORCED),
    (Fit(NO_ACTION), ["refused 4 1 5 2"; 3]),
];

// The places of four sensor banks: an opening of 50 and one of 101, an absent and a broken sensor of the air.
const HALF: usize = 0;

const TOO_WIDE: usize = 1;

const ABSENT: usize = 2;

const BROKEN: usize = 3;

// The readings of the last list are there at first. A valve bank takes no note; that is a may.
static COOLING_BY_SENSORS: [(Step, Words); 16] = [
    (Quick, INDETERMINATE),
    (Fit(COOLING), DONE),
    (Decide, NO_READINGS),
    (Fit(WARMING), TOO_SMALL),
    (Decide, NO_READINGS),
    (Read(HALF), DONE),
    (Fit(WARMING), TOO_SMALL),
    (Quick, PERMIT),
    (Decide, PERMIT),
    (Read(TOO_WIDE), RESPONSE_WAITS),
    (Enforce, ["permit 1 1 0"; 3]),
    (Read(TOO_WIDE), DONE),
    (Quick, PERMIT),
    (Decide, PERMIT),
    (Enforce, MUST_FAILED),
    (Enforce, NONE_WAITS),
];

static MISSING_AND_BROKEN: [(Step, Words); 15] = [
    (Read(ABSENT), DONE),
    (Quick, NOT_APPLICABLE),
    (Decide, NOT_APPLICABLE),
    (Enforce, NOT_APPLICABLE_ENFORCED),
    (Read(BROKEN), DONE),
    (Decide, INDETERMINATE),
    (Quick, INDETERMINATE),
    (Enforce, INDETERMINATE_ENFORCED),
    (Fit(TANK), DONE),
    (Decide, NO_READINGS),
    (Read(BROKEN), DONE),
    (Decide, DENY),
    (Enforce, ["deny 1 0 0"; 3]),
    (Quick, DENY),
    (Decide, DENY),
];

// Missing cells are the sensors' to give; the broken ones stay broken.
const ROWS_BEFORE: &[u8] = b"sub/role res/valve env/air env/opening env/tank\n\
      grower - - 70 !\n\
      grower - ! 70 20\n\
      grower - - 101 -\n";

const BROKEN_TANK: usize = 0;

const BROKEN_AIR: usize = 1;

const TOO_WIDE_BEFORE: usize = 2;

// The last response of the list before waits at first, whose duty a switchboard takes too.
static ROWS_BEFORE_SENSORS: [(Step, Words); 28] = [
    (Fit(GROWER), RESPONSE_WAITS),
    (Enforce, ["deny 1 0 0"; 3]),
    (Fit(GROWER), DONE),
    (Read(BROKEN_TANK), DONE),
    (Quick, PERMIT),
    (Decide, PERMIT),
    (Enforce, ["permit 1 0 0"; 3]),
    (Fit(COOLING), DONE),
    (Quick, NO_READINGS),
    (Read(BROKEN_TANK), DONE),
    (Quick, PERMIT),
    (Decide, PERMIT),
    (Enforce, ["permit 2 0 0"; 3]),
    (Read(BROKEN_AIR), DONE),
    (Quick, INDETERMINATE),
    (Decide, INDETERMINATE),
    (Enforce, INDETERMINATE_ENFORCED),
    (Read(TOO_WIDE_BEFORE), DONE),
    (Decide, PERMIT),
    (Enforce, MUST_FAILED),
    (Fit(TANK), DONE),
    (Read(BROKEN_TANK), DONE),
    (Decide, INDETERMINATE),
    (Enforce, INDETERMINATE_ENFORCED),
    (Read(TOO_WIDE_BEFORE), DONE),
    (Quick, DENY),
    (Decide, DENY),
    (Enforce, ["deny 1 0 0"; 3]),
];

// The action and the number of an entry; -1 where it has no number.
fn entry(duty: &Duty) -> (u8, i32) {
    match duty.argument {
        Value::Number(number) => (duty.action, number),
        _ => (duty.action, -1),
    }
}

// The entries are these two.
fn check_entries(rt: &impl Abort, journal: &Journal, expected: [(u8, i32); 2]) -> Result<(), Fail> {
    match journal.entries() {
        [first, second] => {
            assert_eq!(rt; [entry(first), entry(second)], expected);
            Ok(())
        }
        _ => Err(Fail::new("the entries are not two")),
    }
}

// The second of the valves was opened, the first and the last were not.
fn check_valves(rt: &impl Abort, bank: &ValveBank, opened: u8) {
    let valves = bank.valves();
    assert_eq!(rt; valves.len(), 8);
    assert_eq!(rt; valves[0].position(), 0);
    assert_eq!(rt; valves[1].position(), opened);
    assert_eq!(rt; valves[7].position(), 0);
}

fn with_rows(rt: &impl Abort, heap: Global, called: &mut Called) -> Result<(), Fail> {
    let readings = table(heap, ROWS)?;
    let (first, second, third) = rows(&readings)?;
    let rows = [first, second, third];
    let mut memory = [UNUSED; PLACES];
    let Ok(mut journal) = Journal::lay(&mut memory[..]) else {
        return Err(Fail::new("64 places were refused"));
    };
    called.check(rt, heap, &mut journal, &rows, &AT_FIRST)?;
    called.check(rt, heap, &mut journal, &rows, &GROWERS)?;
    called.check(rt, heap, &mut journal, &rows, &TANK_BY_ROWS)?;
    check_entries(rt, &journal, [(1, 4), (1, 4)])
}

// Sensors of the air, of which the status is given, of a valve's number, of what it is to be opened to, and of the tank.
fn sensors(status: u8, opening: i32) -> Result<SensorBank, Fail> {
    Ok(bank([
        sensor(b"env/air", 36, status)?,
        sensor(b"res/valve", 4, 0)?,
        sensor(b"env/opening", opening, 0)?,
        sensor(b"env/tank", 12, 0)?,
    ]))
}

fn with_sensors(rt: &impl Abort, heap: Global, called: &mut Called) -> Result<(), Fail> {
    let banks = [
        sensors(0, 50)?,
        sensors(0, 101)?,
        sensors(2, 50)?,
        sensors(1, 50)?,
    ];
    let mut valves = ValveBank::new();
    called.check(rt, heap, &mut valves, &banks, &COOLING_BY_SENSORS)?;
    called.check(rt, heap, &mut valves, &banks, &MISSING_AND_BROKEN)?;
    check_valves(rt, &valves, 50);
    Ok(())
}

fn with_both(rt: &impl Abort, heap: Global, called: &mut Called) -> Result<(), Fail> {
    let readings = table(heap, ROWS_BEFORE)?;
    let second = sensors(0, 150)?;
    let (one, two, three) = rows(&readings)?;
    let both = [one, two, three].map(|first| Before { first, second });
    let mut memory = [UNUSED; PLACES];
    let Ok(journal) = Journal::lay(&mut memory[..]) else {
        return Err(Fail::new("64 places were refused"));
    };
    let mut board = Switchboard::new(journal, ValveBank::new());
    called.check(rt, heap, &mut board, &both, &ROWS_BEFORE_SENSORS)?;
    check_valves(rt, board.second(), 70);
    check_entries(rt, board.first(), [(1, 4), (0, -1)])
}

#[test]
fn each_source_and_service_under_each_bias(rt: HostRuntime) -> Result<(), Fail> {
    let heap = rt.alloc();
    for bias in BIASES {
        let mut called = Called::new(heap, bias, GATE_PLACES)?;
        with_rows(&rt, heap, &mut called)?;
        with_sensors(&rt, heap, &mut called)?;
        with_both(&rt, heap, &mut called)?;
    }
    Ok(())
}
