// Files that are too long to write out.

use std::alloc::Global;
use std::io;
use std::io::Write;

// The bytes of `start` and then those of `part`, as often as is asked.
pub(crate) fn repeated(
    heap: Global,
    start: &[u8],
    part: &[u8],
    times: usize,
) -> io::Result<Vec<u8>> {
    let mut file = Vec::new(heap);
    file.write_all(start)?;
    for _ in 0..times {
        file.write_all(part)?;
    }
    Ok(file)
}

// A policy file of `count` lines, each a `not` of the one above it but the first, and then `last`.
pub(crate) fn chain(heap: Global, first: &str, count: usize, last: &str) -> io::Result<Vec<u8>> {
    let mut file = Vec::new(heap);
    write!(file, "kind a b c d e\n{first}\n")?;
    for above in 1..count {
        write!(file, "not {above} - - - -\n")?;
    }
    write!(file, "{last}")?;
    Ok(file)
}

// A readings file that begins with `count` names, `n1`, `n2` and so on, each with a space after it, and then has `rest`.
pub(crate) fn names(heap: Global, count: usize, rest: &str) -> io::Result<Vec<u8>> {
    let mut file = Vec::new(heap);
    for number in 1..=count {
        write!(file, "n{number} ")?;
    }
    write!(file, "{rest}")?;
    Ok(file)
}

// A readings file of 64 names and a row of `count` cells, each with a space after it, that ends with `rest`.
pub(crate) fn wide_row(heap: Global, count: usize, rest: &str) -> io::Result<Vec<u8>> {
    let mut file = names(heap, 63, "n64\n")?;
    for _ in 0..count {
        write!(file, "- ")?;
    }
    write!(file, "{rest}")?;
    Ok(file)
}
