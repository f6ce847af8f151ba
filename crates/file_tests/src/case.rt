// A pair of files, and what the check of the pair has to say.

use pair::check_pair;
use policy::Room;
use readings::TableRoom;
use std::alloc::Global;
use std::process::Abort;
use std::test::Fail;

// A policy file and a readings file without fault.
pub const POLICY: &[u8] = b"kind a b c d e\ntrue - - - - -\npermit 1 - - - -\n";

pub const READINGS: &[u8] = b"valve\n4\n";

// The four numbers of a refusal, in the order in which they are printed: its number and its layer, then the line and the field
// where the fault lies, 0 where none applies. Numbers as printed, so that the tests hold to them and not to the enum.
#[derive(Clone, Copy, PartialEq, Eq, Debug)]
pub struct Refusal(pub u8, pub u8, pub usize, pub usize);

// How many lines follow line 0 of a policy file, and how many names and rows a readings file has.
#[derive(Clone, Copy, PartialEq, Eq, Debug)]
pub struct Counts {
    pub lines: usize,
    pub names: usize,
    pub rows: usize,
}

// A pair of files, and how much of it is accepted or why it is refused.
#[derive(Clone, Copy)]
pub struct Case<'a> {
    pub title: &'a str,
    pub policy: &'a [u8],
    pub readings: &'a [u8],
    pub expected: Result<Counts, Refusal>,
}

pub(crate) fn check(rt: &impl Abort, heap: Global, case: &Case) -> Result<(), Fail> {
    let room = Room::new(heap)?;
    let table = TableRoom::new(heap)?;
    let found = check_pair(room, table, case.policy, case.readings)
        .map(|pair| Counts {
            lines: pair.policy.lines().len(),
            names: pair.readings.names().len(),
            rows: pair.readings.row_count(),
        })
        .map_err(|rejection| {
            Refusal(
                u8::from(rejection.cause),
                u8::from(rejection.cause.layer()),
                rejection.line,
                rejection.field,
            )
        });
    let title = case.title;
    assert_eq!(rt; found, case.expected, "{title}");
    Ok(())
}

pub(crate) fn check_cases(rt: &impl Abort, heap: Global, cases: &[Case]) -> Result<(), Fail> {
    for case in cases {
        check(rt, heap, case)?;
    }
    Ok(())
}
