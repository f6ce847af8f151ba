// Policy files, and what reads them.

use compiling::{CONDITION_PLACES, Conditions, Fitted};
use policy::{Policy, Room};
use std::alloc::Global;
use std::io;
use std::io::Write;
use std::test::Fail;

// Six lines.
pub const GROWER: &[u8] = b"kind a b c d e\n\
      attr sub/role - - - -\n\
      text grower - - - -\n\
      equal 1 2 - - -\n\
      attr res/valve - - - -\n\
      must 1 4 - - -\n\
      permit 3 5 - - -\n";

// A policy file of `lines` lines: a `not` of the line above, as often as there is room, and a permit.
pub(crate) fn long(heap: Global, lines: usize) -> io::Result<Vec<u8>> {
    let mut file = Vec::new(heap);
    write!(file, "kind a b c d e\nattr x - - - -\n")?;
    let last = lines.saturating_sub(1);
    for above in 1..last {
        write!(file, "not {above} - - - -\n")?;
    }
    write!(file, "permit {last} - - - -\n")?;
    Ok(file)
}

// A policy file of three lines for each rule and two more: a set of so many rules that each read a name, the first a permit.
pub(crate) fn wide(heap: Global, rules: u8) -> io::Result<Vec<u8>> {
    let mut file = Vec::new(heap);
    write!(
        file,
        "kind a b c d e\nattr x - - - -\npermit 1 - - - -\nitem 2 - - - -\n"
    )?;
    for child in 1..u16::from(rules) {
        let earlier = child * 3;
        let target = earlier + 1;
        let rule = earlier + 2;
        write!(
            file,
            "attr y - - - -\ndeny {target} - - - -\nitem {rule} {earlier} - - -\n"
        )?;
    }
    let items = u16::from(rules) * 3;
    let target = items + 1;
    write!(
        file,
        "attr z - - - -\nset d-over.all {target} {items} - -\n"
    )?;
    Ok(file)
}

pub(crate) fn accepted(heap: Global, file: &[u8]) -> Result<Policy, Fail> {
    match Room::new(heap)?.check(file) {
        Ok(policy) => Ok(policy),
        Err(_) => Err(Fail::new("the policy was not accepted")),
    }
}

// A policy that is fitted into enough places.
pub(crate) fn fitted(heap: Global, file: &[u8]) -> Result<Fitted, Fail> {
    match Conditions::new(heap, CONDITION_PLACES)?.fit(accepted(heap, file)?) {
        Ok(fitted) => Ok(fitted),
        Err(_) => Err(Fail::new("the policy was not fitted")),
    }
}
