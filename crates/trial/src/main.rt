// The trial program: decides every row of `readings.txt` by the policy in `policy.txt`, both in its folder, and enforces each response.

#![tactic(auto)]

use compiling::CONDITION_PLACES;
use enforcement::Bias;
use pair::check_pair;
use policy::Room;
use readings::{Readings, Row, TableRoom};
use runs::{Answer, Call, run};
use services::{Journal, PLACES, UNUSED};
use std::fs;
use std::rt::Files;

// The calls for a row, in the order in which they are answered.
const CALLS_OF_ROW: usize = 4;

// The bytes of a file, none where it cannot be opened.
fn file_bytes(rt: &HostRuntime, path: &str) -> Vec<u8> {
    fs::read(rt, path).unwrap_or_else(|_| Vec::new(rt.alloc()))
}

// The policy is fitted, and then each row is read, decided twice, by the tree and by the conditions, and enforced.
fn calls<'a>(
    rt: &HostRuntime,
    policy: &'a [u8],
    rows: &'a [Row<'a>],
) -> anyhow::Result<Vec<Call<'a, Row<'a>>>> {
    let mut calls = Vec::new(rt.alloc());
    calls.push(Call::Fit(policy))?;
    for row in rows {
        calls.push(Call::Read(row))?;
        calls.push(Call::Decide)?;
        calls.push(Call::Quick)?;
        calls.push(Call::Enforce)?;
    }
    Ok(calls)
}

// A row's line: the decision printed is that of the conditions, and the response enforced is the tree's.
fn print_row(rt: &HostRuntime, number: usize, answers: &[Answer]) -> anyhow::Result<()> {
    match answers {
        [
            _,
            _,
            Answer::Seen(Ok(decision)),
            Answer::Enforced(Ok((enforced, carried, failed, skipped))),
        ] => { println!(rt; "{number} {decision} {enforced} {carried} {failed} {skipped}")? }
        // Never, since none of these calls is refused; it is here since a list may have other calls.
        _ => (),
    }
    Ok(())
}

// The names of the columns, and a line for each row.
fn print_rows(rt: &HostRuntime, answers: &[Answer]) -> anyhow::Result<()> {
    println!(rt; "row decision enforced carried failed skipped")?;
    for (index, row) in answers.chunks_exact(CALLS_OF_ROW).enumerate() {
        print_row(rt, index + 1, row)?;
    }
    Ok(())
}

// Plays all calls on one gate, whose duties go to one journal.
fn decide(rt: &HostRuntime, policy: &[u8], readings: &Readings) -> anyhow::Result<()> {
    let mut rows = Vec::new(rt.alloc());
    for row in readings.rows() {
        rows.push(row)?;
    }
    let calls = calls(rt, policy, rows.as_slice())?;
    let mut entries = [UNUSED; PLACES];
    let mut journal = Journal::over(&mut entries[..]);
    let outcome = run(
        rt.alloc(),
        Bias::Base,
        CONDITION_PLACES,
        &mut journal,
        calls.as_slice(),
    )?;
    match outcome.answers.as_slice() {
        [Answer::Fitted(Ok(())), rows @ ..] => print_rows(rt, rows),
        // Never with a policy that was checked and so many places; it is here since a list may begin with any call.
        [Answer::Fitted(Err(rejection)), ..] => {
            println!(rt; "{rejection}")?;
            Ok(())
        }
        _ => Ok(()),
    }
}

fn main(rt: HostRuntime) -> anyhow::Result<()> {
    let policy = file_bytes(&rt, "policy.txt");
    let readings = file_bytes(&rt, "readings.txt");
    let room = Room::new(rt.alloc())?;
    let table = TableRoom::new(rt.alloc())?;
    match check_pair(room, table, policy.as_slice(), readings.as_slice()) {
        Ok(pair) => decide(&rt, policy.as_slice(), &pair.readings)?,
        Err(rejection) => println!(rt; "{rejection}")?,
    }
    Ok(())
}
