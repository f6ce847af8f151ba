// The file in force, written into memory that the caller has.

use crate::files::{COOLING, GROWER, MISSPELT};
use crate::given::{rows, table};
use enforcement::Bias;
use gate::Gate;
use refusals::Rejection;
use std::alloc::Global;
use std::process::Abort;
use std::test::Fail;

// What the memory holds before.
const BEFORE: u8 = b'#';

// The file stands at the front, and the memory beyond it is as before.
fn check_written(
    rt: &impl Abort,
    gate: &mut Gate,
    file: &[u8],
    memory: &mut [u8],
) -> Result<(), Fail> {
    match gate.write_back(memory) {
        Ok(length) => {
            assert_eq!(rt; length, file.len());
            assert!(rt; memory.starts_with(file), "the file");
            for byte in memory.iter().skip(length) {
                assert_eq!(rt; *byte, BEFORE, "beyond the file");
            }
            Ok(())
        }
        Err(_) => Err(Fail::new("the file was refused")),
    }
}

// Writing is refused, and all of the memory is as before.
fn check_refused(
    rt: &impl Abort,
    heap: Global,
    gate: &mut Gate,
    memory: &mut [u8],
    expected: &str,
) -> Result<(), Fail> {
    match gate.write_back(memory) {
        Ok(_) => Err(Fail::new("a file was written")),
        Err(rejection) => {
            let line = format!(in heap; "{rejection}")?;
            assert_eq!(rt; line.as_str(), expected);
            for byte in memory.iter() {
                assert_eq!(rt; *byte, BEFORE, "written after all");
            }
            Ok(())
        }
    }
}

fn accepted(outcome: Result<(), Rejection>) -> Result<(), Fail> {
    outcome.map_err(|_| Fail::new("a call was refused"))
}

// Before a policy is in force that is asked for first, and then the memory.
#[test]
fn without_a_policy(rt: HostRuntime) -> Result<(), Fail> {
    let heap = rt.alloc();
    let mut gate = Gate::new(heap, Bias::Base, 256)?;
    check_refused(&rt, heap, &mut gate, &mut [], "refused 12 4 0 0")?;
    check_refused(&rt, heap, &mut gate, &mut [BEFORE; 512], "refused 12 4 0 0")?;
    assert!(rt; gate.fit(MISSPELT).is_err());
    check_refused(&rt, heap, &mut gate, &mut [BEFORE; 512], "refused 12 4 0 0")?;
    accepted(gate.fit(GROWER))?;
    check_refused(&rt, heap, &mut gate, &mut [], "refused 11 3 0 0")
}

#[test]
fn just_enough_and_one_byte_too_few(rt: HostRuntime) -> Result<(), Fail> {
    let heap = rt.alloc();
    let mut gate = Gate::new(heap, Bias::Base, 256)?;
    accepted(gate.fit(GROWER))?;
    let mut enough = vec![in heap; BEFORE; GROWER.len()]?;
    check_written(&rt, &mut gate, GROWER, enough.as_mut_slice())?;
    let mut few = vec![in heap; BEFORE; GROWER.len() - 1]?;
    check_refused(&rt, heap, &mut gate, few.as_mut_slice(), "refused 11 3 0 0")?;
    check_written(&rt, &mut gate, GROWER, &mut [BEFORE; 512])
}

// Neither a longer file before nor a refused one after is seen, and it does not matter how far the gate has come.
#[test]
fn the_file_in_force(rt: HostRuntime) -> Result<(), Fail> {
    let heap = rt.alloc();
    let readings = table(heap, b"sub/role\ngrower\npicker\n-\n")?;
    let (grower, _, _) = rows(&readings)?;
    let mut gate = Gate::new(heap, Bias::DenyBiased, 256)?;
    accepted(gate.fit(COOLING))?;
    check_written(&rt, &mut gate, COOLING, &mut [BEFORE; 512])?;
    accepted(gate.fit(GROWER))?;
    check_written(&rt, &mut gate, GROWER, &mut [BEFORE; 512])?;
    assert!(rt; gate.fit(MISSPELT).is_err());
    check_written(&rt, &mut gate, GROWER, &mut [BEFORE; 512])?;
    accepted(gate.read(&grower))?;
    check_written(&rt, &mut gate, GROWER, &mut [BEFORE; 512])?;
    assert!(rt; gate.decide().is_ok());
    check_written(&rt, &mut gate, GROWER, &mut [BEFORE; 512])?;
    check_refused(&rt, heap, &mut gate, &mut [BEFORE; 16], "refused 11 3 0 0")
}
