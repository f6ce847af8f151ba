// Each fault of a policy file that has a short file, at its first and at its last possible place.

use crate::case::{Case, READINGS, Refusal, check_cases};
use std::test::Fail;

// The file begins with the line `kind a b c d e`, ended by byte 10. Where it is absent, differs or is cut short, the file is refused with 1 at line 0.
const LINE_ZERO: [Case; 4] = [
    Case {
        title: "an empty file",
        policy: b"",
        readings: READINGS,
        expected: Err(Refusal(1, 1, 0, 0)),
    },
    Case {
        title: "line 0 without byte 10",
        policy: b"kind a b c d e",
        readings: READINGS,
        expected: Err(Refusal(1, 1, 0, 0)),
    },
    Case {
        title: "line 0 with another letter",
        policy: b"kind a b c d f\ntrue - - - - -\npermit 1 - - - -\n",
        readings: READINGS,
        expected: Err(Refusal(1, 1, 0, 0)),
    },
    Case {
        title: "line 0 with a space at its end",
        policy: b"kind a b c d e \ntrue - - - - -\npermit 1 - - - -\n",
        readings: READINGS,
        expected: Err(Refusal(1, 1, 0, 0)),
    },
];

// A line ends with byte 10 and has exactly five spaces; else it is refused with 2, and no field is at fault.
const SHAPE: [Case; 5] = [
    Case {
        title: "line 1 with four spaces",
        policy: b"kind a b c d e\ntrue - - - -\npermit 1 - - - -\n",
        readings: READINGS,
        expected: Err(Refusal(2, 1, 1, 0)),
    },
    Case {
        title: "line 1 with six spaces",
        policy: b"kind a b c d e\ntrue - - - - - \npermit 1 - - - -\n",
        readings: READINGS,
        expected: Err(Refusal(2, 1, 1, 0)),
    },
    Case {
        title: "line 1 without a byte",
        policy: b"kind a b c d e\n\n",
        readings: READINGS,
        expected: Err(Refusal(2, 1, 1, 0)),
    },
    Case {
        title: "line 1 without byte 10",
        policy: b"kind a b c d e\ntrue - - - - -",
        readings: READINGS,
        expected: Err(Refusal(2, 1, 1, 0)),
    },
    Case {
        title: "the last line without byte 10",
        policy: b"kind a b c d e\ntrue - - - - -\nnot 1 - - - -\npermit 2 - - - -",
        readings: READINGS,
        expected: Err(Refusal(2, 1, 3, 0)),
    },
];

// The first field is one of the 21 kinds; the second of a set is one of the eight algorithms, a point and `all` or `greedy`.
// Anything else there is refused with 3.
const WORDS: [Case; 6] = [
    Case {
        title: "an unknown kind in line 1",
        policy: b"kind a b c d e\ntruth - - - - -\npermit 1 - - - -\n",
        readings: READINGS,
        expected: Err(Refusal(3, 1, 1, 1)),
    },
    Case {
        title: "a kind of no byte",
        policy: b"kind a b c d e\n - - - - -\n",
        readings: READINGS,
        expected: Err(Refusal(3, 1, 1, 1)),
    },
    Case {
        title: "an unknown kind in the last line",
        policy: b"kind a b c d e\ntrue - - - - -\nPermit 1 - - - -\n",
        readings: READINGS,
        expected: Err(Refusal(3, 1, 2, 1)),
    },
    Case {
        title: "an algorithm of no name",
        policy: b"kind a b c d e\nset .all - - - -\n",
        readings: READINGS,
        expected: Err(Refusal(3, 1, 1, 2)),
    },
    Case {
        title: "an algorithm without all or greedy",
        policy: b"kind a b c d e\n\
                  true - - - - -\n\
                  permit 1 - - - -\n\
                  item 2 - - - -\n\
                  true - - - - -\n\
                  set p-over 4 3 - -\n",
        readings: READINGS,
        expected: Err(Refusal(3, 1, 5, 2)),
    },
    Case {
        title: "an algorithm with another word after the point",
        policy: b"kind a b c d e\n\
                  true - - - - -\n\
                  permit 1 - - - -\n\
                  item 2 - - - -\n\
                  true - - - - -\n\
                  set d-over.every 4 3 - -\n",
        readings: READINGS,
        expected: Err(Refusal(3, 1, 5, 2)),
    },
];

// Every other field that is misspelt is refused with 4: names, texts, numbers, actions, line numbers, and what has to be `-`.
const FIELDS: [Case; 4] = [
    Case {
        title: "a misspelt name in line 1",
        policy: b"kind a b c d e\nattr Role - - - -\npermit 1 - - - -\n",
        readings: READINGS,
        expected: Err(Refusal(4, 1, 1, 2)),
    },
    Case {
        title: "the last field of a line that does not use it",
        policy: b"kind a b c d e\ntrue - - - - 1\npermit 1 - - - -\n",
        readings: READINGS,
        expected: Err(Refusal(4, 1, 1, 6)),
    },
    Case {
        title: "an item that a set lacks",
        policy: b"kind a b c d e\ntrue - - - - -\nset p-over.all 1 - - -\n",
        readings: READINGS,
        expected: Err(Refusal(4, 1, 2, 4)),
    },
    Case {
        title: "the last field of a set",
        policy: b"kind a b c d e\n\
                  true - - - - -\n\
                  permit 1 - - - -\n\
                  item 2 - - - -\n\
                  true - - - - -\n\
                  set p-over.all 4 3 - 01\n",
        readings: READINGS,
        expected: Err(Refusal(4, 1, 5, 6)),
    },
];

// A line names only lines above it, each of the family that its place asks for; else the field is refused with 5.
const NAMING: [Case; 8] = [
    Case {
        title: "line 1 names itself",
        policy: b"kind a b c d e\nnot 1 - - - -\npermit 1 - - - -\n",
        readings: READINGS,
        expected: Err(Refusal(5, 2, 1, 2)),
    },
    Case {
        title: "line 1 names a line below it",
        policy: b"kind a b c d e\nnot 2 - - - -\ntrue - - - - -\npermit 1 - - - -\n",
        readings: READINGS,
        expected: Err(Refusal(5, 2, 1, 2)),
    },
    Case {
        title: "line 0 is no line above",
        policy: b"kind a b c d e\ntrue - - - - -\npermit 0 - - - -\n",
        readings: READINGS,
        expected: Err(Refusal(5, 2, 2, 2)),
    },
    Case {
        title: "a line number below 0",
        policy: b"kind a b c d e\ntrue - - - - -\npermit -3 - - - -\n",
        readings: READINGS,
        expected: Err(Refusal(5, 2, 2, 2)),
    },
    Case {
        title: "a policy in the place of an expression",
        policy: b"kind a b c d e\ntrue - - - - -\npermit 1 - - - -\nnot 2 - - - -\n",
        readings: READINGS,
        expected: Err(Refusal(5, 2, 3, 2)),
    },
    Case {
        title: "an expression in the place of a duty",
        policy: b"kind a b c d e\ntrue - - - - -\ntrue - - - - -\npermit 1 2 - - -\n",
        readings: READINGS,
        expected: Err(Refusal(5, 2, 3, 3)),
    },
    Case {
        title: "a line that is not above, in the last field of a set",
        policy: b"kind a b c d e\n\
                  true - - - - -\n\
                  permit 1 - - - -\n\
                  item 2 - - - -\n\
                  true - - - - -\n\
                  set p-over.all 4 3 - 5\n",
        readings: READINGS,
        expected: Err(Refusal(5, 2, 5, 6)),
    },
    Case {
        title: "an expression in the last field of a set",
        policy: b"kind a b c d e\n\
                  true - - - - -\n\
                  permit 1 - - - -\n\
                  item 2 - - - -\n\
                  true - - - - -\n\
                  true - - - - -\n\
                  set p-over.all 4 3 - 5\n",
        readings: READINGS,
        expected: Err(Refusal(5, 2, 6, 6)),
    },
];

// One field, and one only, names each line above the last: 6 at the field that names it again, or at the line that none names.
// The last line is a policy: else 6 at that line.
const ONCE: [Case; 7] = [
    Case {
        title: "a line that is named twice in a line",
        policy: b"kind a b c d e\ntrue - - - - -\nequal 1 1 - - -\npermit 2 - - - -\n",
        readings: READINGS,
        expected: Err(Refusal(6, 2, 2, 3)),
    },
    Case {
        title: "a line that is named by two lines",
        policy: b"kind a b c d e\ntrue - - - - -\nnot 1 - - - -\nand 2 1 - - -\npermit 3 - - - -\n",
        readings: READINGS,
        expected: Err(Refusal(6, 2, 3, 3)),
    },
    Case {
        title: "a duty that a set names in both of its last fields",
        policy: b"kind a b c d e\n\
                  true - - - - -\n\
                  permit 1 - - - -\n\
                  item 2 - - - -\n\
                  true - - - - -\n\
                  num 7 - - - -\n\
                  must 0 5 - - -\n\
                  set p-over.all 4 3 6 6\n",
        readings: READINGS,
        expected: Err(Refusal(6, 2, 7, 6)),
    },
    Case {
        title: "line 1 is never named",
        policy: b"kind a b c d e\ntrue - - - - -\ntrue - - - - -\npermit 2 - - - -\n",
        readings: READINGS,
        expected: Err(Refusal(6, 2, 1, 0)),
    },
    Case {
        title: "the line above the last is never named",
        policy: b"kind a b c d e\ntrue - - - - -\ntrue - - - - -\npermit 1 - - - -\n",
        readings: READINGS,
        expected: Err(Refusal(6, 2, 2, 0)),
    },
    Case {
        title: "an expression alone",
        policy: b"kind a b c d e\ntrue - - - - -\n",
        readings: READINGS,
        expected: Err(Refusal(6, 2, 1, 0)),
    },
    Case {
        title: "the last line is an item",
        policy: b"kind a b c d e\ntrue - - - - -\npermit 1 - - - -\nitem 2 - - - -\n",
        readings: READINGS,
        expected: Err(Refusal(6, 2, 3, 0)),
    },
];

// At least one line follows line 0; else the file is refused with 7 at line 1, where it should stand.
const COUNT: [Case; 1] = [Case {
    title: "line 0 alone",
    policy: b"kind a b c d e\n",
    readings: READINGS,
    expected: Err(Refusal(7, 2, 1, 0)),
}];

#[test]
fn faults_of_spelling(runtime: HostRuntime) -> Result<(), Fail> {
    check_cases(&runtime, runtime.alloc(), &LINE_ZERO)?;
    check_cases(&runtime, runtime.alloc(), &SHAPE)?;
    check_cases(&runtime, runtime.alloc(), &WORDS)?;
    check_cases(&runtime, runtime.alloc(), &FIELDS)
}

#[test]
fn faults_of_the_tree(runtime: HostRuntime) -> Result<(), Fail> {
    check_cases(&runtime, runtime.alloc(), &NAMING)?;
    check_cases(&runtime, runtime.alloc(), &ONCE)?;
    check_cases(&runtime, runtime.alloc(), &COUNT)
}
