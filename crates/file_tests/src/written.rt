// Writing an accepted policy back.

use crate::built::chain;
use policy::{Policy, Room};
use std::alloc::Global;
use std::process::Abort;
use std::test::Fail;
use writing::write_back;

// A policy with every kind, every algorithm and both `all` and `greedy`, the longest name and text and the extreme numbers.
const EVERY_KIND: &[u8] = b"kind a b c d e\n\
      attr sub/role - - - -\n\
      text grower - - - -\n\
      equal 1 2 - - -\n\
      attr abcdefghijklmnopqrstuvwx - - - -\n\
      attr res/open-valves - - - -\n\
      in 4 5 - - -\n\
      and 3 6 - - -\n\
      num -2147483648 - - - -\n\
      num 2147483647 - - - -\n\
      add 8 9 - - -\n\
      num 0 - - - -\n\
      sub 10 11 - - -\n\
      num 10 - - - -\n\
      mul 12 13 - - -\n\
      num -7 - - - -\n\
      div 14 15 - - -\n\
      num 100 - - - -\n\
      greater 16 17 - - -\n\
      not 18 - - - -\n\
      or 7 19 - - -\n\
      text abcdefghijklmnop - - - -\n\
      must 0 21 - - -\n\
      num 50 - - - -\n\
      may 15 23 22 - -\n\
      permit 20 24 - - -\n\
      false - - - - -\n\
      deny 26 - - - -\n\
      item 25 - - - -\n\
      item 27 28 - - -\n\
      true - - - - -\n\
      set p-over.all 30 29 - -\n\
      item 31 - - - -\n\
      true - - - - -\n\
      set d-over.greedy 33 32 - -\n\
      item 34 - - - -\n\
      true - - - - -\n\
      set d-unless-p.all 36 35 - -\n\
      item 37 - - - -\n\
      true - - - - -\n\
      set p-unless-d.greedy 39 38 - -\n\
      item 40 - - - -\n\
      true - - - - -\n\
      set first-app.all 42 41 - -\n\
      item 43 - - - -\n\
      true - - - - -\n\
      set one-app.greedy 45 44 - -\n\
      item 46 - - - -\n\
      true - - - - -\n\
      set weak-con.all 48 47 - -\n\
      item 49 - - - -\n\
      true - - - - -\n\
      num 1 - - - -\n\
      must 7 52 - - -\n\
      text done - - - -\n\
      may 8 54 - - -\n\
      set strong-con.greedy 51 50 53 55\n";

// What the buffers hold before a policy is written.
const BEFORE: u8 = b'#';

fn accepted(heap: Global, file: &[u8]) -> Result<Policy, Fail> {
    Room::new(heap)?
        .check(file)
        .map_err(|_| Fail::new("the policy was not accepted"))
}

// Writing puts the very file that was checked at the front of the buffer and says how long it is; the rest of the buffer stays.
fn check_written(
    rt: &impl Abort,
    policy: &Policy,
    file: &[u8],
    buffer: &mut [u8],
) -> Result<(), Fail> {
    match write_back(policy, buffer) {
        Ok(length) => {
            assert_eq!(rt; length, file.len());
            assert!(rt; buffer.starts_with(file), "the file");
            for byte in buffer.iter().skip(length) {
                assert_eq!(rt; *byte, BEFORE, "beyond the file");
            }
            Ok(())
        }
        Err(_) => Err(Fail::new("the file did not fit")),
    }
}

// Where the file has more bytes than the buffer, writing is refused with 11, which has no place, and nothing is written.
fn check_not_written(rt: &impl Abort, policy: &Policy, buffer: &mut [u8]) -> Result<(), Fail> {
    match write_back(policy, buffer) {
        Ok(_) => Err(Fail::new("the file was written")),
        Err(rejection) => {
            assert_eq!(rt;
                (u8::from(rejection.cause), u8::from(rejection.cause.layer())),
                (11, 3)
            );
            assert_eq!(rt; (rejection.line, rejection.field), (0, 0));
            for byte in buffer.iter() {
                assert_eq!(rt; *byte, BEFORE, "written after all");
            }
            Ok(())
        }
    }
}

#[test]
fn every_kind(runtime: HostRuntime) -> Result<(), Fail> {
    let policy = accepted(runtime.alloc(), EVERY_KIND)?;
    check_written(&runtime, &policy, EVERY_KIND, &mut [BEFORE; 2048])
}

#[test]
fn just_enough_room(runtime: HostRuntime) -> Result<(), Fail> {
    let heap = runtime.alloc();
    let policy = accepted(heap, EVERY_KIND)?;
    let mut buffer = vec![in heap; BEFORE; EVERY_KIND.len()]?;
    check_written(&runtime, &policy, EVERY_KIND, buffer.as_mut_slice())
}

#[test]
fn too_little_room(runtime: HostRuntime) -> Result<(), Fail> {
    let heap = runtime.alloc();
    let policy = accepted(heap, EVERY_KIND)?;
    let mut buffer = vec![in heap; BEFORE; EVERY_KIND.len() - 1]?;
    check_not_written(&runtime, &policy, buffer.as_mut_slice())?;
    check_not_written(&runtime, &policy, &mut [])
}

#[test]
fn most_lines(runtime: HostRuntime) -> Result<(), Fail> {
    let heap = runtime.alloc();
    let file = chain(heap, "true - - - - -", 255, "permit 255 - - - -\n")?;
    let policy = accepted(heap, file.as_slice())?;
    check_written(&runtime, &policy, file.as_slice(), &mut [BEFORE; 8192])
}
