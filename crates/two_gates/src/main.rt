// Two gates beside one another: the same calls, where the second's files have `.all` for `.greedy`. Each has a journal of its own.

#![tactic(auto)]

use compiling::CONDITION_PLACES;
use enforcement::Bias;
use readings::{Readings, Row, TableRoom};
use refusals::Rejection;
use rehearsal::rehearse;
use runs::{Answer, Call};
use services::{Journal, PLACES, UNUSED};

// A grower gets two duties, of which the greedy set leaves one out; everybody else gets one.
const POLICY: &[u8] = b"kind a b c d e
attr sub/role - - - -
text grower - - - -
equal 1 2 - - -
num 5 - - - -
must 1 4 - - -
permit 3 5 - - -
item 6 - - - -
true - - - - -
num 7 - - - -
may 2 9 - - -
permit 8 10 - - -
item 11 7 - - -
true - - - - -
set p-over.greedy 13 12 - -
";

// Its target is misspelt.
const DAMAGED: &[u8] = b"kind a b c d e
true - - - - -
deny one - - - -
";

const READINGS: &[u8] = b"sub/role
grower
picker
";

fn print_fault(rt: &HostRuntime, call: &str, answer: Result<(), Rejection>) -> anyhow::Result<()> {
    match answer {
        Ok(()) => println!(rt; "{call} done")?,
        Err(rejection) => println!(rt; "{call} {rejection}")?,
    }
    Ok(())
}

// A line for an answer.
fn print_answer(rt: &HostRuntime, answer: &Answer) -> anyhow::Result<()> {
    match *answer {
        Answer::Fitted(fitted) => print_fault(rt, "fit", fitted)?,
        Answer::Taken(taken) => print_fault(rt, "read", taken)?,
        Answer::Decided(Ok(decision)) => println!(rt; "decide {decision}")?,
        Answer::Decided(Err(rejection)) => println!(rt; "decide {rejection}")?,
        Answer::Seen(Ok(decision)) => println!(rt; "quick {decision}")?,
        Answer::Seen(Err(rejection)) => println!(rt; "quick {rejection}")?,
        Answer::Enforced(Ok((decision, carried, failed, skipped))) => {
            println!(rt; "enforce {decision} {carried} {failed} {skipped}")?
        }
        Answer::Enforced(Err(rejection)) => println!(rt; "enforce {rejection}")?,
    }
    Ok(())
}

fn print_answers(rt: &HostRuntime, name: &str, answers: &[Answer]) -> anyhow::Result<()> {
    println!(rt; "{name}")?;
    for answer in answers {
        print_answer(rt, answer)?;
    }
    Ok(())
}

// A decide, a fit and a quick; then each row is read, decided and enforced, with a fit while its response waits; a damaged file, and an enforce too many.
fn calls<'a>(
    rt: &HostRuntime,
    policy: &'a [u8],
    damaged: &'a [u8],
    rows: &'a [Row<'a>],
) -> anyhow::Result<Vec<Call<'a, Row<'a>>>> {
    let mut calls: Vec<Call<'a, Row<'a>>> = Vec::new(rt.alloc());
    calls.push(Call::Decide)?;
    calls.push(Call::Fit(policy))?;
    calls.push(Call::Quick)?;
    for row in rows {
        calls.push(Call::Read(row))?;
        calls.push(Call::Quick)?;
        calls.push(Call::Decide)?;
        calls.push(Call::Fit(damaged))?;
        calls.push(Call::Enforce)?;
    }
    calls.push(Call::Fit(damaged))?;
    calls.push(Call::Enforce)?;
    Ok(calls)
}

// Plays the calls on both gates and prints all answers.
fn print_both(rt: &HostRuntime, readings: &Readings) -> anyhow::Result<()> {
    let mut rows = Vec::new(rt.alloc());
    for row in readings.rows() {
        rows.push(row)?;
    }
    let calls = calls(rt, POLICY, DAMAGED, rows.as_slice())?;
    let mut first_entries = [UNUSED; PLACES];
    let mut second_entries = [UNUSED; PLACES];
    let mut first = Journal::over(&mut first_entries[..]);
    let mut second = Journal::over(&mut second_entries[..]);
    let (greedy, all) = rehearse(
        rt.alloc(),
        Bias::DenyBiased,
        CONDITION_PLACES,
        &mut first,
        &mut second,
        calls.as_slice(),
    )?;
    print_answers(rt, "the first gate", greedy.answers.as_slice())?;
    print_answers(rt, "the second gate", all.answers.as_slice())
}

fn main(rt: HostRuntime) -> anyhow::Result<()> {
    let room = TableRoom::new(rt.alloc())?;
    match room.check(READINGS) {
        Ok(readings) => print_both(&rt, &readings)?,
        // Never with these readings; it is here since a room is for any file.
        Err(refused) => {
            let rejection = refused.rejection;
            println!(rt; "{rejection}")?;
        }
    }
    Ok(())
}
