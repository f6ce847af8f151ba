// What spells a field or a cell, and what does not.

use crate::case::{Case, Counts, POLICY, READINGS, Refusal, check};
use std::alloc::Global;
use std::process::Abort;
use std::test::Fail;

// A name is a letter and up to 23 letters, digits, slashes and hyphens. A text is a letter and up to 15 letters, digits and
// hyphens, but not the word of a boolean. A number has 32 bits, no zero before another digit and no `-0`.
const LINES: [&str; 14] = [
    "attr a - - - -",
    "attr a/-9 - - - -",
    "attr true - - - -",
    "attr abcdefghijklmnopqrstuvwx - - - -",
    "text a - - - -",
    "text z-9- - - - -",
    "text truer - - - -",
    "text abcdefghijklmnop - - - -",
    "num 0 - - - -",
    "num -1 - - - -",
    "num 2147483647 - - - -",
    "num -2147483648 - - - -",
    "true - - - - -",
    "false - - - - -",
];

// Line numbers are spelled as numbers are; an action is a number from 0 to 15; what is not used is `-`.
const LINES_MISSPELT: [&str; 30] = [
    "attr  - - - -",
    "attr - - - - -",
    "attr 1role - - - -",
    "attr /role - - - -",
    "attr sub/Role - - - -",
    "attr sub.role - - - -",
    "attr abcdefghijklmnopqrstuvwxy - - - -",
    "text - - - - -",
    "text true - - - -",
    "text false - - - -",
    "text 7 - - - -",
    "text a/b - - - -",
    "text abcdefghijklmnopq - - - -",
    "num - - - - -",
    "num 00 - - - -",
    "num -0 - - - -",
    "num 07 - - - -",
    "num +7 - - - -",
    "num 7a - - - -",
    "num 2147483648 - - - -",
    "num -2147483649 - - - -",
    "not - - - - -",
    "not 01 - - - -",
    "not 4294967297 - - - -",
    "must - 1 - - -",
    "must -1 1 - - -",
    "must 16 1 - - -",
    "must 256 1 - - -",
    "item 01 - - - -",
    "true 1 - - - -",
];

// A cell is one of the two marks, a boolean, a single number or text, or between two and eight members of one sort with
// commas between them.
const CELLS: [&str; 16] = [
    "-",
    "!",
    "true",
    "false",
    "0",
    "-1",
    "2147483647",
    "-2147483648",
    "z-9-",
    "truer",
    "abcdefghijklmnop",
    "1,-1",
    "7,7",
    "1,2,3,4,5,6,7,8",
    "a,a",
    "a,b,c,d,e,f,g,h",
];

const CELLS_MISSPELT: [&str; 28] = [
    "",
    "--",
    "-!",
    "!!",
    "!-",
    "-,-",
    "!,!",
    ",",
    "00",
    "-0",
    "07",
    "7a",
    "2147483648",
    "-2147483649",
    "Open",
    "a/b",
    "abcdefghijklmnopq",
    "1,",
    ",1",
    "1,,2",
    "1,-",
    "1,a",
    "a,1",
    "a,",
    "true,a",
    "a,false",
    "1,2,3,4,5,6,7,8,9",
    "a,b,c,d,e,f,g,h,i",
];

// Each line stands above a rule that names it.
fn check_lines(
    rt: &impl Abort,
    heap: Global,
    lines: &[&str],
    expected: Result<Counts, Refusal>,
) -> Result<(), Fail> {
    for line in lines {
        let file = format!(in heap; "kind a b c d e\n{line}\npermit 1 - - - -\n")?;
        let case = Case {
            title: line,
            policy: file.as_bytes(),
            readings: READINGS,
            expected,
        };
        check(rt, heap, &case)?;
    }
    Ok(())
}

#[test]
fn well_spelt_fields(runtime: HostRuntime) -> Result<(), Fail> {
    let expected = Counts {
        lines: 2,
        names: 1,
        rows: 1,
    };
    check_lines(&runtime, runtime.alloc(), &LINES, Ok(expected))
}

#[test]
fn misspelt_fields(runtime: HostRuntime) -> Result<(), Fail> {
    let expected = Refusal(4, 1, 1, 2);
    check_lines(&runtime, runtime.alloc(), &LINES_MISSPELT, Err(expected))
}

// Each cell stands between two others. A function beside the one for lines, since the text of a `format!` is fixed.
fn check_cells(
    rt: &impl Abort,
    heap: Global,
    cells: &[&str],
    expected: Result<Counts, Refusal>,
) -> Result<(), Fail> {
    for cell in cells {
        let file = format!(in heap; "valve flow rain\n- {cell} -\n")?;
        let case = Case {
            title: cell,
            policy: POLICY,
            readings: file.as_bytes(),
            expected,
        };
        check(rt, heap, &case)?;
    }
    Ok(())
}

#[test]
fn well_spelt_cells(runtime: HostRuntime) -> Result<(), Fail> {
    let expected = Counts {
        lines: 2,
        names: 3,
        rows: 1,
    };
    check_cells(&runtime, runtime.alloc(), &CELLS, Ok(expected))
}

#[test]
fn misspelt_cells(runtime: HostRuntime) -> Result<(), Fail> {
    let expected = Refusal(10, 1, 1, 2);
    check_cells(&runtime, runtime.alloc(), &CELLS_MISSPELT, Err(expected))
}
