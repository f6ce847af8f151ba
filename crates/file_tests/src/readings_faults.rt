// Each fault of a readings file that has a short file, at its first and at its last possible place.

use crate::case::{Case, POLICY, Refusal, check_cases};
use std::test::Fail;

// Line 0 of a readings file has 1 to 64 names, no two alike, and ends with byte 10; else it is refused with 8.
// The field is that of the first name that is misspelt or stands there already, and 0 where no one name is at fault.
const NAMES: [Case; 7] = [
    Case {
        title: "an empty file",
        policy: POLICY,
        readings: b"",
        expected: Err(Refusal(8, 1, 0, 0)),
    },
    Case {
        title: "names without byte 10",
        policy: POLICY,
        readings: b"valve flow",
        expected: Err(Refusal(8, 1, 0, 0)),
    },
    Case {
        title: "byte 10 alone, which is one name of no byte",
        policy: POLICY,
        readings: b"\n",
        expected: Err(Refusal(8, 1, 0, 1)),
    },
    Case {
        title: "the first name begins with no letter",
        policy: POLICY,
        readings: b"1valve flow\n4 5\n",
        expected: Err(Refusal(8, 1, 0, 1)),
    },
    Case {
        title: "two spaces in a row",
        policy: POLICY,
        readings: b"valve  flow\n4 5\n",
        expected: Err(Refusal(8, 1, 0, 2)),
    },
    Case {
        title: "the second name is the first",
        policy: POLICY,
        readings: b"valve valve\n4 5\n",
        expected: Err(Refusal(8, 1, 0, 2)),
    },
    Case {
        title: "the last name is one before it",
        policy: POLICY,
        readings: b"valve flow rain flow\n4 5 6 7\n",
        expected: Err(Refusal(8, 1, 0, 4)),
    },
];

// A row has one cell for each name and ends with byte 10; else it is refused with 9, and no field is at fault.
const ROWS: [Case; 5] = [
    Case {
        title: "row 1 without byte 10",
        policy: POLICY,
        readings: b"valve flow\n4 5",
        expected: Err(Refusal(9, 1, 1, 0)),
    },
    Case {
        title: "row 1 with a cell too few",
        policy: POLICY,
        readings: b"valve flow\n4\n4 5\n",
        expected: Err(Refusal(9, 1, 1, 0)),
    },
    Case {
        title: "row 1 with a cell too many",
        policy: POLICY,
        readings: b"valve flow\n4 5 6\n",
        expected: Err(Refusal(9, 1, 1, 0)),
    },
    Case {
        title: "the last row has no byte, which is one cell",
        policy: POLICY,
        readings: b"valve flow\n4 5\n\n",
        expected: Err(Refusal(9, 1, 2, 0)),
    },
    Case {
        title: "the last row without byte 10",
        policy: POLICY,
        readings: b"valve flow\n4 5\n4 5\n4 5",
        expected: Err(Refusal(9, 1, 3, 0)),
    },
];

// A cell that is misspelt is refused with 10.
const CELLS: [Case; 4] = [
    Case {
        title: "the first cell of row 1",
        policy: POLICY,
        readings: b"valve flow\n04 5\n",
        expected: Err(Refusal(10, 1, 1, 1)),
    },
    Case {
        title: "the last cell of row 1",
        policy: POLICY,
        readings: b"valve flow\n4 Off\n",
        expected: Err(Refusal(10, 1, 1, 2)),
    },
    Case {
        title: "the last cell of the last row",
        policy: POLICY,
        readings: b"valve flow\n4 5\n- !\ntrue 1,\n",
        expected: Err(Refusal(10, 1, 3, 2)),
    },
    Case {
        title: "a cell of no byte under one name",
        policy: POLICY,
        readings: b"valve\n\n",
        expected: Err(Refusal(10, 1, 1, 1)),
    },
];

#[test]
fn faults_of_names(runtime: HostRuntime) -> Result<(), Fail> {
    check_cases(&runtime, runtime.alloc(), &NAMES)
}

#[test]
fn faults_of_rows(runtime: HostRuntime) -> Result<(), Fail> {
    check_cases(&runtime, runtime.alloc(), &ROWS)?;
    check_cases(&runtime, runtime.alloc(), &CELLS)
}
