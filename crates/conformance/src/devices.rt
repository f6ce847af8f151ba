// Cases about services and sources.

use crate::lookups::{before, sensors};
use crate::words::{add_duties, parts};
use combining::Decision;
use enforcement::{Bias, enforce};
use policy::Force;
use services::{Journal, PLACES, Service, Switchboard, UNUSED, ValveBank};
use spelling::cell::cell;
use spelling::number::action;
use std::alloc::{AllocError, Global};
use trees::Duty;
use values::Value;

// A response that is to be enforced.
#[derive(Drop)]
struct Call {
    bias: Bias,
    decision: Decision,
    duties: Vec<Duty>,
}

pub(crate) fn bias(word: &[u8]) -> Option<Bias> {
    match word {
        b"base" => Some(Bias::Base),
        b"deny-biased" => Some(Bias::DenyBiased),
        b"permit-biased" => Some(Bias::PermitBiased),
        _ => None,
    }
}

fn decision(word: &[u8]) -> Option<Decision> {
    match word {
        b"permit" => Some(Decision::Permit),
        b"deny" => Some(Decision::Deny),
        b"not-app" => Some(Decision::NotApplicable),
        b"indet" => Some(Decision::Indeterminate),
        _ => None,
    }
}

fn force(word: &[u8]) -> Option<Force> {
    match word {
        b"must" => Some(Force::Must),
        b"may" => Some(Force::May),
        _ => None,
    }
}

// A duty in three words.
fn duty(words: &[&[u8]]) -> Option<Duty> {
    let [first, second, third] = *words else {
        return None;
    };
    Some(Duty {
        force: force(first)?,
        action: action(second)?,
        argument: cell(third)?,
    })
}

// The duties of a line, three words for each.
fn duties(heap: Global, words: &[&[u8]]) -> Result<Option<Vec<Duty>>, AllocError> {
    let mut duties = Vec::new(heap);
    for three in words.chunks(3) {
        let Some(read) = duty(three) else {
            return Ok(None);
        };
        // The type is named, or this function could not be proved.
        let argument: Value = read.argument;
        duties.push(Duty { argument, ..read })?;
    }
    Ok(Some(duties))
}

fn read_call(heap: Global, line: &[u8]) -> Result<Option<Call>, AllocError> {
    let words = parts(heap, line, b' ')?;
    let [first, second, rest @ ..] = words.as_slice() else {
        return Ok(None);
    };
    let (Some(bias), Some(decision)) = (bias(first), decision(second)) else {
        return Ok(None);
    };
    match duties(heap, rest)? {
        Some(duties) => Ok(Some(Call {
            bias,
            decision,
            duties,
        })),
        None => Ok(None),
    }
}

// Adds a line with the results of each call.
fn play<S: Service>(
    heap: Global,
    lines: &[&[u8]],
    service: &mut S,
    out: &mut String,
) -> Result<(), AllocError> {
    for line in lines {
        match read_call(heap, line)? {
            Some(call) => {
                let (decision, carried, failed, skipped) = enforce(
                    call.bias,
                    call.decision,
                    call.duties.as_slice(),
                    service,
                );
                let results = format!(in heap; "{decision} {carried} {failed} {skipped}\n")?;
                out.push_str(results.as_str())?;
            }
            None => out.push_str("malformed\n")?,
        }
    }
    Ok(())
}

// Adds a line with the entries in order.
pub(crate) fn add_entries(
    heap: Global,
    journal: &Journal,
    out: &mut String,
) -> Result<(), AllocError> {
    out.push_str("entries")?;
    add_duties(heap, journal.entries(), out)?;
    out.push('\n')
}

// Adds a line with the positions in order.
pub(crate) fn add_valves(
    heap: Global,
    bank: &ValveBank,
    out: &mut String,
) -> Result<(), AllocError> {
    out.push_str("valves")?;
    for valve in bank.valves() {
        let position = valve.position();
        out.push_str(format!(in heap; " {position}")?.as_str())?;
    }
    out.push('\n')
}

// Adds the last line: the latest duty.
pub(crate) fn add_latest(
    heap: Global,
    latest: Option<Duty>,
    out: &mut String,
) -> Result<(), AllocError> {
    out.push_str("latest")?;
    match latest {
        Some(duty) => add_duties(heap, &[duty], out),
        None => out.push_str(" -"),
    }
}

// A journal over memory of its own; its last entry is its latest duty.
fn on_journal(heap: Global, lines: &[&[u8]], out: &mut String) -> Result<(), AllocError> {
    let mut entries = [UNUSED; PLACES];
    let Ok(mut journal) = Journal::lay(&mut entries[..]) else {
        return out.push_str("no journal");
    };
    play(heap, lines, &mut journal, out)?;
    add_entries(heap, &journal, out)?;
    add_latest(heap, journal.entries().last().copied(), out)
}

fn on_bank(heap: Global, lines: &[&[u8]], out: &mut String) -> Result<(), AllocError> {
    let mut bank = ValveBank::new();
    play(heap, lines, &mut bank, out)?;
    add_valves(heap, &bank, out)?;
    add_latest(heap, bank.latest(), out)
}

// A switchboard of a journal and a valve bank.
fn on_board(heap: Global, lines: &[&[u8]], out: &mut String) -> Result<(), AllocError> {
    let mut entries = [UNUSED; PLACES];
    let Ok(journal) = Journal::lay(&mut entries[..]) else {
        return out.push_str("no journal");
    };
    let mut board = Switchboard::new(journal, ValveBank::new());
    play(heap, lines, &mut board, out)?;
    add_entries(heap, board.first(), out)?;
    add_valves(heap, board.second(), out)?;
    add_latest(heap, board.latest(), out)
}

// A switchboard of such a switchboard and a valve bank.
fn on_boards(heap: Global, lines: &[&[u8]], out: &mut String) -> Result<(), AllocError> {
    let mut entries = [UNUSED; PLACES];
    let Ok(journal) = Journal::lay(&mut entries[..]) else {
        return out.push_str("no journal");
    };
    let inner = Switchboard::new(journal, ValveBank::new());
    let mut board = Switchboard::new(inner, ValveBank::new());
    play(heap, lines, &mut board, out)?;
    add_entries(heap, board.first().first(), out)?;
    add_valves(heap, board.first().second(), out)?;
    add_valves(heap, board.second(), out)?;
    add_latest(heap, board.latest(), out)
}

// A switchboard of a valve bank and a journal, which take none of what is sent to them.
fn exchanged(heap: Global, lines: &[&[u8]], out: &mut String) -> Result<(), AllocError> {
    let mut entries = [UNUSED; PLACES];
    let Ok(journal) = Journal::lay(&mut entries[..]) else {
        return out.push_str("no journal");
    };
    let mut board = Switchboard::new(ValveBank::new(), journal);
    play(heap, lines, &mut board, out)?;
    add_entries(heap, board.second(), out)?;
    add_valves(heap, board.first(), out)?;
    add_latest(heap, board.latest(), out)
}

// What the devices of a case answer and hold in the end.
pub(crate) fn answer(heap: Global, case: &[u8]) -> Result<String, AllocError> {
    let lines = parts(heap, case, b'\n')?;
    let mut out = String::new(heap);
    let [name, lines @ ..] = lines.as_slice() else {
        return Ok(out);
    };
    match *name {
        b"journal" => on_journal(heap, lines, &mut out)?,
        b"bank" => on_bank(heap, lines, &mut out)?,
        b"board" => on_board(heap, lines, &mut out)?,
        b"boards" => on_boards(heap, lines, &mut out)?,
        b"exchanged" => exchanged(heap, lines, &mut out)?,
        b"sensors" => sensors(heap, lines, &mut out)?,
        b"before" => before(heap, lines, &mut out)?,
        _ => out.push_str("malformed")?,
    }
    Ok(out)
}
