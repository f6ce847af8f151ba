// The framing of the cases.

ghost use Rattle.std.specs.Prelude.{◌<◌, length, IfSome};
ghost use Rattle.std.specs.Iterator.{at_most};

use spelling::cut::cut;
use spelling::number::number;

// A policy file with a readings file, the lines of a case about devices, or a list of calls on a gate.
#[derive(Clone, Copy)]
pub(crate) enum Case<'a> {
    Files {
        policy: &'a [u8],
        readings: &'a [u8],
    },
    Devices(&'a [u8]),
    Calls(&'a [u8]),
}

// The cases in the bytes that are left.
#[derive(Clone, Copy)]
pub(crate) struct Cases<'a>(pub &'a [u8]);

impl<'a> Iterator for Cases<'a> {
    type Item = Case<'a>;

    ghost remaining = { λ s. at_most (length s.0.now) };

    fn next(&mut self) -> Option<Case<'a>> {
        let (case, after) = next_case(self.0)?;
        self.0 = after;
        Some(case)
    }
}

pub(crate) fn length(field: &[u8]) -> Option<usize> {
    usize::try_from(number(field)?).ok()
}

// As many bytes as `size` says, and what follows the byte behind them.
pub(crate) fn framed<'a>(rest: &'a [u8], size: &[u8]) -> Option<(&'a [u8], &'a [u8])>
    ensures { IfSome result (λ p. length p.1.now < length rest.now) }
{
    let (bytes, rest) = rest.split_at_checked(length(size)?)?;
    let (_, after) = rest.split_at_checked(1)?;
    Some((bytes, after))
}

// The first case of `rest`, and what follows it: two lengths frame two files, one length the lines of a case about devices,
// and one after the word `calls` a list of calls.
fn next_case<'a>(rest: &'a [u8]) -> Option<(Case<'a>, &'a [u8])>
    ensures { IfSome result (λ p. length p.1.now < length rest.now) }
{
    let (header, body) = cut(rest, b'\n')?;
    match cut(header, b' ') {
        Some((b"calls", size)) => {
            let (list, after) = framed(body, size)?;
            Some((Case::Calls(list), after))
        }
        Some((first, second)) => {
            let (policy, body) = body.split_at_checked(length(first)?)?;
            let (readings, after) = framed(body, second)?;
            Some((Case::Files { policy, readings }, after))
        }
        None => {
            let (lines, after) = framed(body, header)?;
            Some((Case::Devices(lines), after))
        }
    }
}
