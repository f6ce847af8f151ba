// Files with more than one fault: which is reported.

use crate::case::{Case, POLICY, READINGS, Refusal, check_cases};
use std::test::Fail;

// Of faults in two lines the upper one is reported.
// Only after every line come the lowest line that is never named and then the family of the last line.
const LINES: [Case; 6] = [
    Case {
        title: "a misspelt number above an unknown kind",
        policy: b"kind a b c d e\nnum 01 - - - -\nnon 1 - - - -\n",
        readings: READINGS,
        expected: Err(Refusal(4, 1, 1, 2)),
    },
    Case {
        title: "an unknown kind above a line of four spaces",
        policy: b"kind a b c d e\nnon - - - - -\ntrue - - - -\n",
        readings: READINGS,
        expected: Err(Refusal(3, 1, 1, 1)),
    },
    Case {
        title: "a line of four spaces below a line that is never named",
        policy: b"kind a b c d e\ntrue - - - - -\ntrue - - - - -\npermit 2 - - -\n",
        readings: READINGS,
        expected: Err(Refusal(2, 1, 3, 0)),
    },
    Case {
        title: "a line that is not above, below a line that is never named",
        policy: b"kind a b c d e\ntrue - - - - -\ntrue - - - - -\npermit 3 - - - -\n",
        readings: READINGS,
        expected: Err(Refusal(5, 2, 3, 2)),
    },
    Case {
        title: "two lines that are never named",
        policy: b"kind a b c d e\ntrue - - - - -\ntrue - - - - -\ntrue - - - - -\npermit 3 - - - -\n",
        readings: READINGS,
        expected: Err(Refusal(6, 2, 1, 0)),
    },
    Case {
        title: "a line that is never named above a last line that is no policy",
        policy: b"kind a b c d e\ntrue - - - - -\ntrue - - - - -\n",
        readings: READINGS,
        expected: Err(Refusal(6, 2, 1, 0)),
    },
];

// In a line its shape comes first, and then the fields from the left.
const FIELDS: [Case; 5] = [
    Case {
        title: "an unknown kind in a line of four spaces",
        policy: b"kind a b c d e\nnon - - - -\npermit 1 - - - -\n",
        readings: READINGS,
        expected: Err(Refusal(2, 1, 1, 0)),
    },
    Case {
        title: "an unknown kind before a misspelt field",
        policy: b"kind a b c d e\nnon 01 - - - -\npermit 1 - - - -\n",
        readings: READINGS,
        expected: Err(Refusal(3, 1, 1, 1)),
    },
    Case {
        title: "a misspelt name before a field that has to be unused",
        policy: b"kind a b c d e\nattr Role - - - x\npermit 1 - - - -\n",
        readings: READINGS,
        expected: Err(Refusal(4, 1, 1, 2)),
    },
    Case {
        title: "a line that is not above before a misspelt field",
        policy: b"kind a b c d e\nequal 9 01 - - -\npermit 1 - - - -\n",
        readings: READINGS,
        expected: Err(Refusal(5, 2, 1, 2)),
    },
    Case {
        title: "a second naming before a line that is not above",
        policy: b"kind a b c d e\ntrue - - - - -\nnot 1 - - - -\nequal 1 9 - - -\n",
        readings: READINGS,
        expected: Err(Refusal(6, 2, 3, 2)),
    },
];

// In a field its spelling comes first, then whether the line named is above and of the right family, then whether it is
// named already.
const CAUSES: [Case; 3] = [
    Case {
        title: "a misspelt number of a line that is not above",
        policy: b"kind a b c d e\nnot 07 - - - -\npermit 1 - - - -\n",
        readings: READINGS,
        expected: Err(Refusal(4, 1, 1, 2)),
    },
    Case {
        title: "a misspelt number of a line that is named already",
        policy: b"kind a b c d e\ntrue - - - - -\nequal 1 01 - - -\npermit 2 - - - -\n",
        readings: READINGS,
        expected: Err(Refusal(4, 1, 2, 3)),
    },
    Case {
        title: "a line of another family that is named already",
        policy: b"kind a b c d e\n\
                  true - - - - -\n\
                  permit 1 - - - -\n\
                  item 2 - - - -\n\
                  not 2 - - - -\n",
        readings: READINGS,
        expected: Err(Refusal(5, 2, 4, 2)),
    },
];

// In a readings file the names come before the rows, of the names first byte 10, then each name from the left; in a row
// first its shape, then the cells from the left.
const TABLE: [Case; 7] = [
    Case {
        title: "a misspelt name in a line without byte 10",
        policy: POLICY,
        readings: b"Valve flow",
        expected: Err(Refusal(8, 1, 0, 0)),
    },
    Case {
        title: "a repeated name before a misspelt one",
        policy: POLICY,
        readings: b"valve valve Flow\n4 5 6\n",
        expected: Err(Refusal(8, 1, 0, 2)),
    },
    Case {
        title: "a misspelt name before a repeated one",
        policy: POLICY,
        readings: b"valve Flow valve\n4 5 6\n",
        expected: Err(Refusal(8, 1, 0, 2)),
    },
    Case {
        title: "a misspelt name above a row of another width",
        policy: POLICY,
        readings: b"valve Flow\n4\n",
        expected: Err(Refusal(8, 1, 0, 2)),
    },
    Case {
        title: "a misspelt cell above a row without byte 10",
        policy: POLICY,
        readings: b"valve flow\n4 05\n4 5",
        expected: Err(Refusal(10, 1, 1, 2)),
    },
    Case {
        title: "a misspelt cell in a row of another width",
        policy: POLICY,
        readings: b"valve flow\n04 5 6\n",
        expected: Err(Refusal(9, 1, 1, 0)),
    },
    Case {
        title: "two misspelt cells",
        policy: POLICY,
        readings: b"valve flow\n04 05\n",
        expected: Err(Refusal(10, 1, 1, 1)),
    },
];

// The policy file comes before the readings file.
const FILES: [Case; 3] = [
    Case {
        title: "two empty files",
        policy: b"",
        readings: b"",
        expected: Err(Refusal(1, 1, 0, 0)),
    },
    Case {
        title: "a misspelt field and a misspelt name",
        policy: b"kind a b c d e\nnum -0 - - - -\npermit 1 - - - -\n",
        readings: b"Valve\n4\n",
        expected: Err(Refusal(4, 1, 1, 2)),
    },
    Case {
        title: "a last line that is no policy and a misspelt cell",
        policy: b"kind a b c d e\ntrue - - - - -\nnot 1 - - - -\n",
        readings: b"valve\n04\n",
        expected: Err(Refusal(6, 2, 2, 0)),
    },
];

#[test]
fn first_fault_of_a_policy(runtime: HostRuntime) -> Result<(), Fail> {
    check_cases(&runtime, runtime.alloc(), &LINES)?;
    check_cases(&runtime, runtime.alloc(), &FIELDS)?;
    check_cases(&runtime, runtime.alloc(), &CAUSES)
}

#[test]
fn first_fault_of_a_pair(runtime: HostRuntime) -> Result<(), Fail> {
    check_cases(&runtime, runtime.alloc(), &TABLE)?;
    check_cases(&runtime, runtime.alloc(), &FILES)
}
