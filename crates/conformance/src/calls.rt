// Cases about the gate: a list of calls on a new gate, with one service for the whole list.

ghost use Rattle.std.specs.Prelude.{◌<◌, length, IfSome};
ghost use Rattle.std.specs.Iterator.{at_most};

use crate::cases::{framed, length};
use crate::devices::{add_entries, add_latest, add_valves, bias};
use crate::lookups::{bank, spelled};
use crate::words::parts;
use enforcement::Bias;
use gate::Gate;
use readings::Row;
use refusals::Rejection;
use services::{Journal, PLACES, Service, Switchboard, UNUSED, ValveBank};
use sources::{Before, SENSORS, Sensor, SensorBank};
use spelling::cell::cell;
use spelling::cut::cut;
use spelling::word::name;
use std::alloc::{AllocError, Global};
use std::fmt::Display;

// A call, with the bytes of its file or the lines of its source.
#[derive(Clone, Copy)]
enum Call<'a> {
    Fit(&'a [u8]),
    Read { form: &'a [u8], lines: &'a [u8] },
    Decide,
    Quick,
    Enforce,
    // Into so many bytes.
    WriteBack(usize),
}

// The calls in the bytes that are left.
#[derive(Clone, Copy)]
struct Calls<'a>(&'a [u8]);

impl<'a> Iterator for Calls<'a> {
    type Item = Call<'a>;

    ghost remaining = { λ s. at_most (length s.0.now) };

    fn next(&mut self) -> Option<Call<'a>> {
        let (call, after) = next_call(self.0)?;
        self.0 = after;
        Some(call)
    }
}

// The first call of `rest`, and what follows it.
fn next_call<'a>(rest: &'a [u8]) -> Option<(Call<'a>, &'a [u8])>
    ensures { IfSome result (λ p. length p.1.now < length rest.now) }
{
    let (header, body) = cut(rest, b'\n')?;
    let (word, argument) = cut(header, b' ').unwrap_or((header, header));
    match word {
        b"fit" => {
            let (file, after) = framed(body, argument)?;
            Some((Call::Fit(file), after))
        }
        b"read" => {
            let (form, size) = cut(argument, b' ')?;
            let (lines, after) = framed(body, size)?;
            Some((Call::Read { form, lines }, after))
        }
        b"decide" => Some((Call::Decide, body)),
        b"quick" => Some((Call::Quick, body)),
        b"enforce" => Some((Call::Enforce, body)),
        b"write" => Some((Call::WriteBack(length(argument)?), body)),
        _ => None,
    }
}

// What a call answers, or its refusal.
fn told<T: Display + Drop>(
    heap: Global,
    answer: Result<T, Rejection>,
) -> Result<String, AllocError> {
    match answer {
        Ok(answer) => format!(in heap; "{answer}"),
        Err(rejection) => format!(in heap; "{rejection}"),
    }
}

// Reads a row, alone or with a bank of sensors.
fn read_row(
    heap: Global,
    gate: &mut Gate,
    form: &[u8],
    lines: &[&[u8]],
) -> Result<Option<Result<(), Rejection>>, AllocError> {
    let [first, second, rest @ ..] = lines else {
        return Ok(None);
    };
    let (Some(names), Some(cells)) = (spelled(heap, first, name)?, spelled(heap, second, cell)?)
    else {
        return Ok(None);
    };
    let row = Row {
        names: names.as_slice(),
        cells: cells.as_slice(),
    };
    match (form, bank(heap, rest)?) {
        (b"row", _) => Ok(Some(gate.read(&row))),
        (b"row-first", Some(bank)) => Ok(Some(gate.read(&Before {
            first: row,
            second: bank,
        }))),
        (b"sensors-first", Some(bank)) => Ok(Some(gate.read(&Before {
            first: bank,
            second: row,
        }))),
        _ => Ok(None),
    }
}

// Reads a bank of sensors.
fn read_sensors(
    heap: Global,
    gate: &mut Gate,
    lines: &[&[u8]],
) -> Result<Option<Result<(), Rejection>>, AllocError> {
    let Some(bank) = bank(heap, lines)? else {
        return Ok(None);
    };
    // The type is named, or this function could not be proved.
    let sensors: [Sensor; SENSORS] = bank.sensors;
    Ok(Some(gate.read(&SensorBank { sensors })))
}

// Reads a source of this form; none if it is misspelt.
fn read(
    heap: Global,
    gate: &mut Gate,
    form: &[u8],
    lines: &[u8],
) -> Result<Option<Result<(), Rejection>>, AllocError> {
    let lines = parts(heap, lines, b'\n')?;
    match form {
        b"sensors" => read_sensors(heap, gate, lines.as_slice()),
        _ => read_row(heap, gate, form, lines.as_slice()),
    }
}

// So many bytes with the letters in their order, again and again.
fn blank(heap: Global, size: usize) -> Result<Vec<u8>, AllocError> {
    let mut bytes = Vec::new(heap);
    let mut letter = b'a';
    for _ in 0..size {
        bytes.push(letter)?;
        letter = if letter == b'z' {
            b'a'
        } else {
            letter.saturating_add(1)
        };
    }
    Ok(bytes)
}

// Each byte as often as its place says, counted from 1.
fn sum(bytes: &[u8]) -> u64 {
    let mut place = 0u64;
    let mut sum = 0u64;
    for byte in bytes {
        place = place.wrapping_add(1);
        sum = sum.wrapping_add(place.wrapping_mul(u64::from(*byte)));
    }
    sum
}

// What is answered, and the sum of the bytes afterwards.
fn written(heap: Global, gate: &mut Gate, size: usize) -> Result<String, AllocError> {
    let mut bytes = blank(heap, size)?;
    let out = bytes.as_mut_slice();
    let answer = told(heap, gate.write_back(out))?;
    let sum = sum(out);
    format!(in heap; "{answer} {sum}")
}

// Makes one call.
fn reply<S: Service>(
    heap: Global,
    gate: &mut Gate,
    service: &mut S,
    call: Call<'_>,
) -> Result<String, AllocError> {
    match call {
        Call::Fit(file) => told(heap, gate.fit(file).map(|()| "fitted")),
        Call::Read { form, lines } => match read(heap, gate, form, lines)? {
            Some(answer) => told(heap, answer.map(|()| "read")),
            None => String::from_str(heap, "malformed"),
        },
        Call::Decide => told(heap, gate.decide()),
        Call::Quick => told(heap, gate.quick()),
        Call::Enforce => match gate.enforce(service) {
            Ok((decision, carried, failed, skipped)) => {
                format!(in heap; "{decision} {carried} {failed} {skipped}")
            }
            Err(rejection) => format!(in heap; "{rejection}"),
        },
        Call::WriteBack(size) => written(heap, gate, size),
    }
}

// Adds a line with the answer to each call.
fn play<S: Service>(
    heap: Global,
    gate: &mut Gate,
    service: &mut S,
    calls: Calls<'_>,
    out: &mut String,
) -> Result<(), AllocError> {
    for call in calls {
        let answer = reply(heap, gate, service, call)?;
        out.push_str(answer.as_str())?;
        out.push('\n')?;
    }
    Ok(())
}

fn on_journal(
    heap: Global,
    gate: &mut Gate,
    calls: Calls<'_>,
    out: &mut String,
) -> Result<(), AllocError> {
    let mut entries = [UNUSED; PLACES];
    let Ok(mut journal) = Journal::lay(&mut entries[..]) else {
        return out.push_str("no journal");
    };
    play(heap, gate, &mut journal, calls, out)?;
    add_entries(heap, &journal, out)?;
    add_latest(heap, journal.entries().last().copied(), out)
}

fn on_bank(
    heap: Global,
    gate: &mut Gate,
    calls: Calls<'_>,
    out: &mut String,
) -> Result<(), AllocError> {
    let mut bank = ValveBank::new();
    play(heap, gate, &mut bank, calls, out)?;
    add_valves(heap, &bank, out)?;
    add_latest(heap, bank.latest(), out)
}

// A switchboard of a journal and a valve bank.
fn on_board(
    heap: Global,
    gate: &mut Gate,
    calls: Calls<'_>,
    out: &mut String,
) -> Result<(), AllocError> {
    let mut entries = [UNUSED; PLACES];
    let Ok(journal) = Journal::lay(&mut entries[..]) else {
        return out.push_str("no journal");
    };
    let mut board = Switchboard::new(journal, ValveBank::new());
    play(heap, gate, &mut board, calls, out)?;
    add_entries(heap, board.first(), out)?;
    add_valves(heap, board.second(), out)?;
    add_latest(heap, board.latest(), out)
}

// The bias, the places and the service of a list's first line.
fn setting<'a>(line: &'a [u8]) -> Option<(Bias, usize, &'a [u8])> {
    let (first, rest) = cut(line, b' ')?;
    let (places, service) = cut(rest, b' ')?;
    Some((bias(first)?, length(places)?, service))
}

// What is answered to the calls of a list, and what the service holds in the end.
pub(crate) fn answer(heap: Global, list: &[u8]) -> Result<String, AllocError> {
    let mut out = String::new(heap);
    let Some((first, calls)) = cut(list, b'\n') else {
        return Ok(out);
    };
    let Some((bias, places, service)) = setting(first) else {
        return Ok(out);
    };
    let mut gate = Gate::new(heap, bias, places)?;
    let calls = Calls(calls);
    match service {
        b"journal" => on_journal(heap, &mut gate, calls, &mut out)?,
        b"bank" => on_bank(heap, &mut gate, calls, &mut out)?,
        b"board" => on_board(heap, &mut gate, calls, &mut out)?,
        _ => out.push_str("malformed")?,
    }
    Ok(out)
}
