// Policies of the most lines, and readings of the most names.

use crate::built::{chain, names, wide_row};
use crate::case::{Case, Counts, POLICY, READINGS, Refusal, check};
use std::alloc::Global;
use std::process::Abort;
use std::test::Fail;

// A chain of lines as in `built::chain`, and what it is refused with.
struct Chain {
    first: &'static str,
    count: usize,
    last: &'static str,
    refusal: Refusal,
}

// At most 256 lines follow line 0. The last of 256 is checked as any other is.
const ENDINGS: [Chain; 8] = [
    Chain {
        first: "true - - - - -",
        count: 255,
        last: "permit 255 - - - -",
        refusal: Refusal(2, 1, 256, 0),
    },
    Chain {
        first: "true - - - - -",
        count: 255,
        last: "allow 255 - - - -\n",
        refusal: Refusal(3, 1, 256, 1),
    },
    Chain {
        first: "true - - - - -",
        count: 255,
        last: "set one-app.first 255 1 - -\n",
        refusal: Refusal(3, 1, 256, 2),
    },
    Chain {
        first: "true - - - - -",
        count: 255,
        last: "permit 255 - - - 0\n",
        refusal: Refusal(4, 1, 256, 6),
    },
    Chain {
        first: "true - - - - -",
        count: 255,
        last: "permit 256 - - - -\n",
        refusal: Refusal(5, 2, 256, 2),
    },
    Chain {
        first: "true - - - - -",
        count: 255,
        last: "permit 254 - - - -\n",
        refusal: Refusal(6, 2, 256, 2),
    },
    Chain {
        first: "true - - - - -",
        count: 255,
        last: "not 255 - - - -\n",
        refusal: Refusal(6, 2, 256, 0),
    },
    Chain {
        first: "true - - - - -",
        count: 255,
        last: "true - - - - -\n",
        refusal: Refusal(6, 2, 255, 0),
    },
];

// Any byte after 256 lines begins a 257th, which is refused with 7 before it is looked at. A fault in a line above it is
// reported in its place, and a line that is never named is not.
const LINES_TOO_MANY: [Chain; 6] = [
    Chain {
        first: "true - - - - -",
        count: 256,
        last: "permit 256 - - - -\n",
        refusal: Refusal(7, 2, 257, 0),
    },
    Chain {
        first: "true - - - - -",
        count: 255,
        last: "permit 255 - - - -\nx",
        refusal: Refusal(7, 2, 257, 0),
    },
    Chain {
        first: "true - - - - -",
        count: 255,
        last: "permit 255 - - - -\n\n",
        refusal: Refusal(7, 2, 257, 0),
    },
    Chain {
        first: "true - - - - -",
        count: 255,
        last: "true - - - - -\npermit 256 - - - -\n",
        refusal: Refusal(7, 2, 257, 0),
    },
    Chain {
        first: "num 01 - - - -",
        count: 256,
        last: "permit 256 - - - -\n",
        refusal: Refusal(4, 1, 1, 2),
    },
    Chain {
        first: "true - - - - -",
        count: 255,
        last: "allow 255 - - - -\nx",
        refusal: Refusal(3, 1, 256, 1),
    },
];

// A number of names or cells, how the file ends after them, and what it is refused with.
// The tests of both have a loop each, since they build their files by another function.
struct Wide {
    count: usize,
    rest: &'static str,
    refusal: Refusal,
}

// A line of names without byte 10 or of more than 64 names is refused as a whole, before any of its names is looked at.
const NAMES: [Wide; 6] = [
    Wide {
        count: 63,
        rest: "n1",
        refusal: Refusal(8, 1, 0, 0),
    },
    Wide {
        count: 64,
        rest: "n65\n",
        refusal: Refusal(8, 1, 0, 0),
    },
    Wide {
        count: 64,
        rest: "n1\n",
        refusal: Refusal(8, 1, 0, 0),
    },
    Wide {
        count: 63,
        rest: "n1\n",
        refusal: Refusal(8, 1, 0, 64),
    },
    Wide {
        count: 63,
        rest: "n63\n",
        refusal: Refusal(8, 1, 0, 64),
    },
    Wide {
        count: 63,
        rest: "N64\n",
        refusal: Refusal(8, 1, 0, 64),
    },
];

// A row under 64 names has 64 cells, and that is seen before a cell is read.
const CELLS: [Wide; 5] = [
    Wide {
        count: 62,
        rest: "-\n",
        refusal: Refusal(9, 1, 1, 0),
    },
    Wide {
        count: 64,
        rest: "-\n",
        refusal: Refusal(9, 1, 1, 0),
    },
    Wide {
        count: 64,
        rest: "05\n",
        refusal: Refusal(9, 1, 1, 0),
    },
    Wide {
        count: 63,
        rest: "-",
        refusal: Refusal(9, 1, 1, 0),
    },
    Wide {
        count: 63,
        rest: "05\n",
        refusal: Refusal(10, 1, 1, 64),
    },
];

fn check_chains(rt: &impl Abort, heap: Global, cases: &[Chain]) -> Result<(), Fail> {
    for case in cases {
        let file = chain(heap, case.first, case.count, case.last)?;
        check(
            rt,
            heap,
            &Case {
                title: case.last,
                policy: file.as_slice(),
                readings: READINGS,
                expected: Err(case.refusal),
            },
        )?;
    }
    Ok(())
}

#[test]
fn most_lines(runtime: HostRuntime) -> Result<(), Fail> {
    let heap = runtime.alloc();
    let file = chain(heap, "true - - - - -", 255, "permit 255 - - - -\n")?;
    let expected = Counts {
        lines: 256,
        names: 1,
        rows: 1,
    };
    check(
        &runtime,
        heap,
        &Case {
            title: "256 lines",
            policy: file.as_slice(),
            readings: READINGS,
            expected: Ok(expected),
        },
    )?;
    check_chains(&runtime, heap, &ENDINGS)
}

#[test]
fn lines_too_many(runtime: HostRuntime) -> Result<(), Fail> {
    check_chains(&runtime, runtime.alloc(), &LINES_TOO_MANY)
}

#[test]
fn most_names(runtime: HostRuntime) -> Result<(), Fail> {
    let heap = runtime.alloc();
    let file = wide_row(heap, 63, "-\n")?;
    let expected = Counts {
        lines: 2,
        names: 64,
        rows: 1,
    };
    check(
        &runtime,
        heap,
        &Case {
            title: "64 names",
            policy: POLICY,
            readings: file.as_slice(),
            expected: Ok(expected),
        },
    )?;
    for case in &NAMES {
        let line = names(heap, case.count, case.rest)?;
        check(
            &runtime,
            heap,
            &Case {
                title: case.rest,
                policy: POLICY,
                readings: line.as_slice(),
                expected: Err(case.refusal),
            },
        )?;
    }
    Ok(())
}

#[test]
fn cells_under_most_names(runtime: HostRuntime) -> Result<(), Fail> {
    let heap = runtime.alloc();
    for case in &CELLS {
        let file = wide_row(heap, case.count, case.rest)?;
        check(
            &runtime,
            heap,
            &Case {
                title: case.rest,
                policy: POLICY,
                readings: file.as_slice(),
                expected: Err(case.refusal),
            },
        )?;
    }
    Ok(())
}
