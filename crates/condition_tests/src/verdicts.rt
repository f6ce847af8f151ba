// The decisions of the flat pass beside those of the tree.

use crate::files::{GROWER, fitted, wide};
use combining::Decision;
use deciding::{Answer, Evaluator};
use readings::{Readings, TableRoom};
use spelling::cell::cell;
use std::alloc::Global;
use std::io;
use std::io::Write;
use std::process::Abort;
use std::test::Fail;
use values::Value;

// A value of each class, and both truths.
const CELLS: [&str; 8] = ["-", "!", "false", "true", "7", "t", "1,2", "t,u"];

const PERMIT: &[u8] = b"kind a b c d e\n\
      attr x - - - -\n\
      attr y - - - -\n\
      must 1 2 - - -\n\
      permit 1 3 - - -\n";

const DENY: &[u8] = b"kind a b c d e\n\
      attr x - - - -\n\
      attr y - - - -\n\
      must 1 2 - - -\n\
      deny 1 3 - - -\n";

// A rule in a set that has a duty on a permit, which is always fulfilled, and one on a deny.
const DENIES_UNLESS: &[u8] = b"kind a b c d e\n\
      attr y - - - -\n\
      permit 1 - - - -\n\
      item 2 - - - -\n\
      num 7 - - - -\n\
      must 3 4 - - -\n\
      attr x - - - -\n\
      attr y - - - -\n\
      may 4 7 - - -\n\
      set d-unless-p.all 6 3 5 8\n";

// The same, but that the duty on a deny is the one that is always fulfilled.
const PERMITS_UNLESS: &[u8] = b"kind a b c d e\n\
      attr y - - - -\n\
      deny 1 - - - -\n\
      item 2 - - - -\n\
      attr y - - - -\n\
      must 3 4 - - -\n\
      attr x - - - -\n\
      num 7 - - - -\n\
      may 4 7 - - -\n\
      set p-unless-d.all 6 3 5 8\n";

// A set in a set.
const SETS: &[u8] = b"kind a b c d e\n\
      attr x - - - -\n\
      permit 1 - - - -\n\
      item 2 - - - -\n\
      attr y - - - -\n\
      deny 4 - - - -\n\
      item 5 3 - - -\n\
      true - - - - -\n\
      set d-over.greedy 7 6 - -\n\
      item 8 - - - -\n\
      attr x - - - -\n\
      permit 10 - - - -\n\
      item 11 9 - - -\n\
      true - - - - -\n\
      set p-over.all 13 12 - -\n";

// A readings file with a row for each pair of values.
fn every_pair(heap: Global) -> io::Result<Vec<u8>> {
    let mut file = Vec::new(heap);
    write!(file, "x y\n")?;
    for first in CELLS {
        for second in CELLS {
            write!(file, "{first} {second}\n")?;
        }
    }
    Ok(file)
}

fn table(heap: Global, file: &[u8]) -> Result<Readings, Fail> {
    match TableRoom::new(heap)?.check(file) {
        Ok(readings) => Ok(readings),
        Err(_) => Err(Fail::new("the readings were not accepted")),
    }
}

// How many rows the flat pass permits, denies, finds not to apply and cannot settle; the tree decides each row alike.
fn counts(
    rt: &impl Abort,
    heap: Global,
    file: &[u8],
    readings: &Readings,
) -> Result<[u32; 4], Fail> {
    let fitted = fitted(heap, file)?;
    let mut evaluator = Evaluator::new(heap)?;
    let mut answer = Answer::new(heap)?;
    let mut counts = [0u32; 4];
    for row in readings.rows() {
        let decision = fitted.respond_to_row(&row, &mut evaluator, &mut answer);
        assert!(rt; decision == answer.decision());
        let count = &mut counts[decision as usize];
        *count = count.saturating_add(1);
    }
    Ok(counts)
}

#[test]
fn rows_of_every_class(rt: HostRuntime) -> Result<(), Fail> {
    let heap = rt.alloc();
    let readings = table(heap, every_pair(heap)?.as_slice())?;
    let cases = [
        ("permit", PERMIT, [4, 0, 16, 44]),
        ("deny", DENY, [0, 4, 16, 44]),
        ("deny unless permit", DENIES_UNLESS, [1, 3, 16, 44]),
        ("permit unless deny", PERMITS_UNLESS, [3, 1, 16, 44]),
        ("sets", SETS, [8, 2, 4, 50]),
    ];
    for (title, file, expected) in cases {
        let found = counts(&rt, heap, file, &readings)?;
        assert_eq!(rt; found, expected, "{title}");
    }
    Ok(())
}

// Policies of many condition lines, for which the pass takes longer arrays.
#[test]
fn passes_of_each_length(rt: HostRuntime) -> Result<(), Fail> {
    let heap = rt.alloc();
    let rows = b"x y z\ntrue true true\ntrue false true\n- - true\n7 - true\ntrue true false\n";
    let readings = table(heap, rows)?;
    for (rules, least) in [(2, 1), (30, 257), (84, 1025)] {
        let file = wide(heap, rules)?;
        let written = fitted(heap, file.as_slice())?.conditions().lines().len();
        assert!(rt; written >= least, "{} written", written);
        let found = counts(&rt, heap, file.as_slice(), &readings)?;
        assert_eq!(rt; found, [1, 1, 2, 1], "{rules} rules");
    }
    Ok(())
}

fn text(bytes: &[u8]) -> Result<Value, Fail> {
    match cell(bytes) {
        Some(value) => Ok(value),
        None => Err(Fail::new("a text was not read")),
    }
}

// The attr lines are lines 1 and 4: what is given for another line is not read, and what is not given is missing.
#[test]
fn readings_by_line(rt: HostRuntime) -> Result<(), Fail> {
    let fitted = fitted(rt.alloc(), GROWER)?;
    let mut readings = [Value::Error; 7];
    readings[0] = text(b"grower")?;
    readings[3] = Value::Number(4);
    assert!(rt; fitted.verdict(&readings) == Decision::Permit);
    assert!(rt; fitted.verdict(&readings[..3]) == Decision::Indeterminate);
    assert!(rt; fitted.verdict(&readings[..0]) == Decision::NotApplicable);
    readings[0] = text(b"picker")?;
    assert!(rt; fitted.verdict(&readings) == Decision::NotApplicable);
    Ok(())
}
