// The parts that spaces leave of a line.

ghost use Rattle.std.specs.Prelude.{◌≡◌, ◌+◌, ◌≤◌, length, vec_len, vec_capacity};
ghost use Rattle.spelling.specs.Cuts.{parts};
ghost use Rattle.readings.specs.Read.{ReadInTurn};

use refusals::place::at_field;
use refusals::{Cause, LineFault};
use spelling::cut::cut;

// How many parts there are: one more than spaces. By a plain loop, since `split` and `filter` take up to five times as long on a line of single bytes.
pub(crate) fn count_parts(line: &[u8]) -> usize
    ensures { result ≡ length (parts 32 line.now) }
{
    let mut spaces: usize = 0;
    for byte in line {
        if *byte == b' ' {
            spaces += 1;
        }
    }
    spaces + 1
}

// Reads the parts of `rest` from `field` on, each with `read`, which also sees the items before it.
// By recursion, since a `for` over `split` that needs an invariant gets no proof in a generic function.
// That the capacity stays is said here and at each caller, since public contracts promise that the very capacity stays.
pub(crate) fn read_parts<T: Drop, F: Fn(&[u8], &[T]) -> Result<T, Cause>>(
    rest: &[u8],
    field: usize,
    items: &mut Vec<T>,
    read: &F,
) -> Result<(), LineFault>
    requires callable { F.IsAlwaysCallable read.now }
    requires room { vec_len items.old + length (parts 32 rest.now) ≤ vec_capacity items.old }
    requires few { field + length (parts 32 rest.now) ≤ 1000 }
    ensures capacity { vec_capacity items.new ≡ vec_capacity items.old }
    ensures len { vec_len items.new ≤ vec_len items.old + length (parts 32 rest.now) }
    ensures value { ReadInTurn (F.post read.now) field items.old.items (parts 32 rest.now) result items.new.items }
{
    match cut(rest, b' ') {
        None => {
            let last = at_field(read(rest, items.as_slice()), field)?;
            items.push_reserved(last);
            Ok(())
        }
        Some((first, others)) => {
            let next = at_field(read(first, items.as_slice()), field)?;
            items.push_reserved(next);
            read_parts(others, field + 1, items, read)
        }
    }
}
