// Plays cases through the library, to be compared with what another evaluator says:
// for two files a line that says what was read, and a line for each row; for devices a line for each response or name, and what services hold in the end;
// for calls on a gate a line for each call, and what the service holds in the end.
//
// A case on standard input is a line with the lengths of a policy file and of a readings file, then the bytes of both, then byte 10;
// or a line with one length, then so many bytes that are the lines of a case about devices, then byte 10;
// or a line with the word `calls` and a length, then so many bytes that are a list of calls, then byte 10.

#![tactic(auto)]

mod calls;
mod cases;
mod describe;
mod devices;
mod lookups;
mod words;

use cases::{Case, Cases};
use std::io::Read;

fn main(rt: HostRuntime) -> anyhow::Result<()> {
    let mut input = Vec::new(rt.alloc());
    rt.stdin().read_to_end(&mut input)?;
    for case in Cases(input.as_slice()) {
        let lines = match case {
            Case::Files { policy, readings } => describe::answer(rt.alloc(), policy, readings)?,
            Case::Devices(lines) => devices::answer(rt.alloc(), lines)?,
            Case::Calls(list) => calls::answer(rt.alloc(), list)?,
        };
        println!(rt; "{lines}")?;
    }
    Ok(())
}
