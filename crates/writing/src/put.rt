// Putting bytes into given memory, one part after the other.
// By places in the caller's memory, since a Vec would allocate and an `io::Write` may fail.

ghost use Rattle.std.specs.Prelude.{◌+◌, ◌≤◌, length};
ghost use Rattle.writing.specs.Put.{Puts};

// Puts `s` from `place` on, and answers where it ends.
pub(crate) fn put(out: &mut [u8], place: usize, s: &[u8]) -> usize
    requires { place + length s.now ≤ length out.old }
    ensures { Puts out.old place s.now out.new result }
{
    let end = place + s.len();
    out[place..end].copy_from_slice(s);
    end
}
