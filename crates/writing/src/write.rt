// Writing a policy back.

ghost use Rattle.std.specs.Prelude.{◌≡◌, ℕ, ◌+◌, ◌*◌, ◌≤◌, List, length, true, Ok, IsOk, nat_le};
ghost use Rattle.policy.specs.Accepted.{lines_of};
ghost use Rattle.policy.specs.Check.{check_of};
ghost use Rattle.policy.specs.Spelt.{rows, spelt};
ghost use Rattle.writing.specs.Put.{Puts};
ghost use Rattle.writing.specs.Written.{Written};

use crate::put::put;
use crate::row::{line_length, put_line};
use policy::{Line, Policy};
use refusals::{Cause, Rejection};

const HEADER: &[u8] = b"kind a b c d e\n";

// No file of up to 256 lines has more bytes, line 0 included; a line has at most 150.
pub const MOST_BYTES: usize = 38_415;

// Whether the lines have at most `room` bytes. It stops at the first line that does not fit.
fn fit(lines: &[Line], room: usize) -> bool
    ensures value { result ≡ nat_le (length (rows lines.now)) room }
    ensures enough { 150 * length lines.now ≤ room → result ≡ true }
{
    let mut left = room;
    for line in lines {
        let size = line_length(line);
        if size > left {
            return false;
        }
        left -= size;
    }
    true
}

// Puts the lines from place `start` on, and answers where they end.
fn put_lines(lines: &[Line], out: &mut [u8], start: usize) -> usize
    requires { start + length (rows lines.now) ≤ length out.old }
    ensures { Puts out.old start (rows lines.now) out.new result }
{
    let mut place = start;
    for line in lines {
        place = put_line(line, out, place);
    }
    place
}

// Writes the file of these lines into `out` and answers its length; bytes beyond it stay. Where it does not fit nothing is written.
pub fn write_lines(lines: &[Line], out: &mut [u8]) -> Result<usize, Rejection>
    requires { length lines.now ≤ 256 }
    ensures written { Written (spelt lines.now) out.old out.new result }
    ensures enough { MOST_BYTES ≤ length out.old → IsOk result }
{
    if out.len() < HEADER.len() || !fit(lines, out.len() - HEADER.len()) {
        return Err(Rejection::of_file(Cause::TooSmall));
    }
    let place = put(out, 0, HEADER);
    Ok(put_lines(lines, out, place))
}

// Writes the policy's file into `out` in the same way.
pub fn write_back(policy: &Policy, out: &mut [u8]) -> Result<usize, Rejection>
    ensures lines { Written (spelt (lines_of policy.now)) out.old out.new result }
    ensures file { (f : List ℕ) → check_of f ≡ Ok (lines_of policy.now) → Written f out.old out.new result }
{
    write_lines(policy.lines(), out)
}
