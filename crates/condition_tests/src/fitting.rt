// How many places a policy needs, and what comes back where there are fewer.

use crate::files::{GROWER, accepted, fitted, long, wide};
use combining::Decision;
use compiling::{Conditions, Unfitted};
use policy::Policy;
use std::alloc::Global;
use std::process::Abort;
use std::test::Fail;
use writing::write_back;

const DENIES: &[u8] = b"kind a b c d e\ntrue - - - - -\ndeny 1 - - - -\n";

// The numbers of the refusal of a policy in so many places, as they are printed; none where it is fitted.
fn refusal(heap: Global, file: &[u8], places: usize) -> Result<String, Fail> {
    match Conditions::new(heap, places)?.fit(accepted(heap, file)?) {
        Ok(_) => Ok(String::new(heap)),
        Err(unfitted) => {
            let rejection = unfitted.rejection;
            Ok(format!(in heap; "{rejection}")?)
        }
    }
}

fn check_need(rt: &impl Abort, heap: Global, file: &[u8], need: usize) -> Result<(), Fail> {
    let enough = refusal(heap, file, need)?;
    assert!(rt; enough.as_str() == "", "{}", need);
    let few = refusal(heap, file, need.saturating_sub(1))?;
    assert!(rt; few.as_str() == "refused 11 3 0 0", "{}", need);
    Ok(())
}

#[test]
fn a_line_needs_32_places(rt: HostRuntime) -> Result<(), Fail> {
    let heap = rt.alloc();
    check_need(&rt, heap, GROWER, 192)?;
    for (lines, need) in [(2, 64), (3, 96), (128, 4096), (256, 8192)] {
        check_need(&rt, heap, long(heap, lines)?.as_slice(), need)?;
    }
    check_need(&rt, heap, wide(heap, 84)?.as_slice(), 8128)
}

// Whether writing the policy gives the file.
fn is_written(heap: Global, policy: &Policy, file: &[u8]) -> Result<bool, Fail> {
    let mut bytes = Vec::from_slice(heap, file)?;
    let out = bytes.as_mut_slice();
    out.fill(0);
    let length = write_back(policy, out).ok();
    Ok(length == Some(file.len()) && *out == *file)
}

// Those conditions still decide by the policy that was compiled before.
#[test]
fn what_was_handed_in_comes_back(rt: HostRuntime) -> Result<(), Fail> {
    let heap = rt.alloc();
    let mut conditions = Conditions::new(heap, 191)?;
    assert!(rt; conditions.compile(&accepted(heap, DENIES)?).is_ok());
    let lines = conditions.lines().len();
    match conditions.fit(accepted(heap, GROWER)?) {
        Ok(_) => Err(Fail::new("191 places are too few")),
        Err(unfitted) => {
            let Unfitted {
                policy,
                conditions,
                ..
            } = unfitted;
            assert!(rt; is_written(heap, &policy, GROWER)?);
            assert!(rt; conditions.lines().len() == lines);
            assert!(rt; conditions.verdict(&[]) == Decision::Deny);
            Ok(())
        }
    }
}

#[test]
fn at_most_32_lines_are_written_for_each(rt: HostRuntime) -> Result<(), Fail> {
    let heap = rt.alloc();
    let long = long(heap, 256)?;
    let wide = wide(heap, 84)?;
    for file in [GROWER, DENIES, long.as_slice(), wide.as_slice()] {
        let fitted = fitted(heap, file)?;
        let lines = fitted.policy().lines().len();
        let written = fitted.conditions().lines().len();
        assert!(rt; written.div_ceil(32) <= lines, "{} for {}", written, lines);
    }
    Ok(())
}
