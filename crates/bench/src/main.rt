// A stopwatch. Each job but the last two prints the nanoseconds of all rounds, and a size:
// `bench check FILE ROUNDS`, the check of a policy file, and its length;
// `bench decide FILE READINGS ROUNDS`, the answer to the first row, and the number of policy lines;
// `bench walk FILE READINGS ROUNDS`, the same with the row's readings looked up beforehand;
// `bench quick FILE READINGS ROUNDS`, the flat pass over these readings;
// `bench gate-fit FILE READINGS ROUNDS`, a gate's fitting of the file;
// `bench gate-turn FILE READINGS ROUNDS`, its decision by these readings and the enforcement of what waits then;
// `bench gate-quick FILE READINGS ROUNDS`, its flat pass over them;
// `bench enforce DUTIES ROUNDS`, the enforcement of a response on a switchboard, and the number of its duties.
// `bench conditions FILE READINGS` prints the condition lines of a policy, for a pass by another program.
// `bench play FILE READINGS PAIRS ROUNDS` plays rounds of all calls on so many pairs of gates, and prints how many were answered and refused.
// With fewer than three arguments it does nothing.

#![tactic(auto)]

mod rounds;

use combining::Decision;
use compiling::{CONDITION_PLACES, Conditions, Fitted};
use conditions::pass::Marks;
use conditions::{Condition, Test};
use deciding::{Answer, Evaluator};
use enforcement::{Bias, enforce};
use pair::{Pair, check_pair};
use policy::{Force, Operator, Room};
use readings::{Row, TableRoom};
use services::{Journal, PLACES, Switchboard, UNUSED, Valve, ValveBank};
use std::alloc::{AllocError, Global};
use std::time::Instant;
use std::{env, fs};
use trees::Duty;
use values::{Text, Value};

// Checks the file once, and gives the memory back.
fn check_once(room: Room, file: &[u8]) -> Room {
    match room.check(file) {
        Ok(policy) => policy.into_room(),
        Err(refused) => refused.room,
    }
}

fn check_often(room: Room, file: &[u8], rounds: u32) {
    let mut room = room;
    for _ in 0..rounds {
        room = check_once(room, file);
    }
}

fn time_check(rt: &HostRuntime, path: &str, rounds: u32) -> anyhow::Result<()> {
    let bytes = fs::read(rt, path)?;
    let room = Room::new(rt.alloc())?;
    let start = Instant::now(rt)?;
    check_often(room, bytes.as_slice(), rounds);
    let nanos = start.elapsed(rt)?.as_nanos();
    let length = bytes.len();
    println!(rt; "{nanos} {length}")?;
    Ok(())
}

fn decide_often(
    evaluator: &mut Evaluator,
    pair: &Pair,
    row: &Row,
    answer: &mut Answer,
    rounds: u32,
) {
    for _ in 0..rounds {
        evaluator.respond_to_row(&pair.policy, row, answer);
    }
}

fn time_row(rt: &HostRuntime, pair: &Pair, rounds: u32) -> anyhow::Result<()> {
    let Some(row) = pair.readings.row(0) else {
        anyhow::bail!("the readings have no row");
    };
    let mut evaluator = Evaluator::new(rt.alloc())?;
    let mut answer = Answer::new(rt.alloc())?;
    let start = Instant::now(rt)?;
    decide_often(&mut evaluator, pair, &row, &mut answer, rounds);
    let nanos = start.elapsed(rt)?.as_nanos();
    let lines = pair.policy.lines().len();
    println!(rt; "{nanos} {lines}")?;
    Ok(())
}

fn time_decide(rt: &HostRuntime, path: &str, readings: &str, rounds: u32) -> anyhow::Result<()> {
    let policy_file = fs::read(rt, path)?;
    let readings_file = fs::read(rt, readings)?;
    let room = Room::new(rt.alloc())?;
    let table = TableRoom::new(rt.alloc())?;
    match check_pair(
        room,
        table,
        policy_file.as_slice(),
        readings_file.as_slice(),
    ) {
        Ok(pair) => time_row(rt, &pair, rounds),
        Err(rejection) => anyhow::bail!("{rejection}"),
    }
}

// A policy with its conditions, and the evaluator that read the first row.
#[derive(Drop)]
struct Prepared {
    fitted: Fitted,
    evaluator: Evaluator,
    answer: Answer,
}

fn fit(rt: &HostRuntime, path: &str, readings: &str) -> anyhow::Result<Prepared> {
    let policy_file = fs::read(rt, path)?;
    let readings_file = fs::read(rt, readings)?;
    let room = Room::new(rt.alloc())?;
    let table = TableRoom::new(rt.alloc())?;
    let pair = match check_pair(
        room,
        table,
        policy_file.as_slice(),
        readings_file.as_slice(),
    ) {
        Ok(pair) => pair,
        Err(rejection) => anyhow::bail!("{rejection}"),
    };
    let Pair { policy, readings } = pair;
    let conditions = Conditions::new(rt.alloc(), CONDITION_PLACES)?;
    let fitted = match conditions.fit(policy) {
        Ok(fitted) => fitted,
        Err(unfitted) => {
            let rejection = unfitted.rejection;
            anyhow::bail!("{rejection}")
        }
    };
    let Some(row) = readings.row(0) else {
        anyhow::bail!("the readings have no row");
    };
    let mut evaluator = Evaluator::new(rt.alloc())?;
    let mut answer = Answer::new(rt.alloc())?;
    fitted.respond_to_row(&row, &mut evaluator, &mut answer);
    Ok(Prepared {
        fitted,
        evaluator,
        answer,
    })
}

fn operator_word(operator: Operator) -> &'static str {
    match operator {
        Operator::And => "and",
        Operator::Or => "or",
        Operator::Equal => "equal",
        Operator::In => "in",
        Operator::Greater => "greater",
        Operator::Add => "add",
        Operator::Sub => "sub",
        Operator::Mul => "mul",
        Operator::Div => "div",
    }
}

fn test_word(test: Test) -> &'static str {
    match test {
        Test::True => "true",
        Test::Absent => "absent",
        Test::Other => "other",
        Test::Fulfilled => "fulfilled",
    }
}

fn text_string(heap: Global, text: Text) -> Result<String, AllocError> {
    let mut string = String::new(heap);
    for byte in text.as_bytes() {
        string.push(char::from(*byte))?;
    }
    Ok(string)
}

fn print_condition(rt: &HostRuntime, condition: Condition) -> anyhow::Result<()> {
    match condition {
        Condition::Truth(truth) => println!(rt; "truth {truth}")?,
        Condition::Reading(number) => println!(rt; "reading {number}")?,
        Condition::Number(number) => println!(rt; "number {number}")?,
        Condition::Text(text) => {
            let text = text_string(rt.alloc(), text)?;
            println!(rt; "text {text}")?
        }
        Condition::Not(j) => println!(rt; "not {j}")?,
        Condition::Binary(operator, j, k) => {
            let word = operator_word(operator);
            println!(rt; "{word} {j} {k}")?
        }
        Condition::Test(test, j) => {
            let word = test_word(test);
            println!(rt; "test {word} {j}")?
        }
        Condition::Negation(j) => println!(rt; "negation {j}")?,
        Condition::Both(j, k) => println!(rt; "both {j} {k}")?,
        Condition::Either(j, k) => println!(rt; "either {j} {k}")?,
    }
    Ok(())
}

// The conditions of a policy, a line for each, and the marks, for a pass of another program.
fn print_conditions(rt: &HostRuntime, path: &str, readings: &str) -> anyhow::Result<()> {
    let prepared = fit(rt, path, readings)?;
    let conditions = prepared.fitted.conditions();
    for condition in conditions.lines() {
        print_condition(rt, *condition)?;
    }
    let Marks {
        permit,
        deny,
        not_applicable,
        indeterminate,
    } = conditions.marks();
    println!(rt; "marks {permit} {deny} {not_applicable} {indeterminate}")?;
    Ok(())
}

// Two copies of the readings in turn, so that no pass can be left out.
fn quick_often(fitted: &Fitted, first: &[Value], second: &[Value], rounds: u32) -> u32 {
    let mut permits = 0u32;
    for round in 0..rounds {
        let readings = if round % 2 == 0 { first } else { second };
        if fitted.verdict(readings) == Decision::Permit {
            permits = permits.wrapping_add(1);
        }
    }
    permits
}

fn time_quick(rt: &HostRuntime, path: &str, readings: &str, rounds: u32) -> anyhow::Result<()> {
    let prepared = fit(rt, path, readings)?;
    let first = Vec::from_slice(rt.alloc(), prepared.evaluator.readings())?;
    let second = Vec::from_slice(rt.alloc(), prepared.evaluator.readings())?;
    let start = Instant::now(rt)?;
    let permits = quick_often(
        &prepared.fitted,
        first.as_slice(),
        second.as_slice(),
        rounds,
    );
    let nanos = start.elapsed(rt)?.as_nanos();
    if permits > rounds {
        anyhow::bail!("more permits than passes");
    }
    let lines = prepared.fitted.policy().lines().len();
    println!(rt; "{nanos} {lines}")?;
    Ok(())
}

fn walk_often(
    fitted: &Fitted,
    readings: &[Value],
    evaluator: &mut Evaluator,
    answer: &mut Answer,
    rounds: u32,
) {
    for _ in 0..rounds {
        evaluator.respond(fitted.policy(), readings, answer);
    }
}

fn time_walk(rt: &HostRuntime, path: &str, readings: &str, rounds: u32) -> anyhow::Result<()> {
    let mut prepared = fit(rt, path, readings)?;
    let readings = Vec::from_slice(rt.alloc(), prepared.evaluator.readings())?;
    let start = Instant::now(rt)?;
    walk_often(
        &prepared.fitted,
        readings.as_slice(),
        &mut prepared.evaluator,
        &mut prepared.answer,
        rounds,
    );
    let nanos = start.elapsed(rt)?.as_nanos();
    let lines = prepared.fitted.policy().lines().len();
    println!(rt; "{nanos} {lines}")?;
    Ok(())
}

// `may` duties, of all actions in turn.
fn many_duties(rt: &HostRuntime, count: u32) -> anyhow::Result<Vec<Duty>> {
    let mut duties = Vec::new(rt.alloc());
    for place in 0..count {
        duties.push(Duty {
            force: Force::May,
            action: (place % 16) as u8,
            argument: Value::Number((place % 100) as i32 + 1),
        })?;
    }
    Ok(duties)
}

// The number of an entry, or 0 where there is none.
fn number_at(entries: &[Duty], place: usize) -> i32 {
    match entries.get(place) {
        Some(duty) => match duty.argument {
            Value::Number(number) => number,
            _ => 0,
        },
        None => 0,
    }
}

fn position_at(valves: &[Valve], place: usize) -> i32 {
    valves
        .get(place)
        .map_or(0, |valve| i32::from(valve.position()))
}

// Never inlined, or the compiler would leave out the latest duties, which nobody reads afterwards.
#[inline(never)]
fn enforce_duties(
    duties: &[Duty],
    board: &mut Switchboard<Journal<'_>, ValveBank>,
) -> (Decision, usize, usize, usize) {
    enforce(Bias::Base, Decision::Permit, duties, board)
}

// Each round has a new journal and a new valve bank. An entry and a valve are read in each, others in the next, so that none of the writing can be left out.
fn enforce_often(duties: &[Duty], entries: &mut [Duty], rounds: u32) -> i32 {
    let mut sum = 0i32;
    for round in 0..rounds {
        if let Ok(journal) = Journal::lay(&mut *entries) {
            let mut board = Switchboard::new(journal, ValveBank::new());
            enforce_duties(duties, &mut board);
            let entries = board.first().entries();
            let place = round as usize % entries.len().max(1);
            sum = sum.wrapping_add(number_at(entries, place));
            sum = sum.wrapping_add(position_at(board.second().valves(), round as usize % 8));
        }
    }
    sum
}

fn time_enforce(rt: &HostRuntime, count: u32, rounds: u32) -> anyhow::Result<()> {
    let duties = many_duties(rt, count)?;
    let mut entries = [UNUSED; PLACES];
    let start = Instant::now(rt)?;
    let sum = enforce_often(duties.as_slice(), &mut entries[..], rounds);
    let nanos = start.elapsed(rt)?.as_nanos();
    if sum == 0 {
        anyhow::bail!("the numbers that were read add up to 0");
    }
    println!(rt; "{nanos} {count}")?;
    Ok(())
}

fn usage() -> anyhow::Result<()> {
    anyhow::bail!(
        "usage: bench check FILE ROUNDS, bench decide, walk, quick, gate-fit, gate-turn or gate-quick FILE READINGS ROUNDS, bench enforce DUTIES ROUNDS, bench conditions FILE READINGS or bench play FILE READINGS PAIRS ROUNDS"
    )
}

// The jobs on a policy file and a readings file.
fn time_pair(
    rt: &HostRuntime,
    job: &str,
    path: &str,
    readings: &str,
    rounds: u32,
) -> anyhow::Result<()> {
    match job {
        "decide" => time_decide(rt, path, readings, rounds),
        "walk" => time_walk(rt, path, readings, rounds),
        "quick" => time_quick(rt, path, readings, rounds),
        "gate-fit" => rounds::time_fit(rt, path, readings, rounds),
        "gate-turn" => rounds::time_turn(rt, path, readings, rounds),
        "gate-quick" => rounds::time_quick(rt, path, readings, rounds),
        _ => usage(),
    }
}

fn main(rt: HostRuntime) -> anyhow::Result<()> {
    let mut args = env::args(&rt)?;
    let _ = args.next();
    let (Some(job), Some(first), Some(second)) = (args.next(), args.next(), args.next()) else {
        return Ok(());
    };
    let (job, first, second) = (job.as_str(), first.as_str(), second.as_str());
    match (args.next(), args.next()) {
        (None, _) => match job {
            "check" => time_check(&rt, first, second.parse::<u32>()?),
            "conditions" => print_conditions(&rt, first, second),
            "enforce" => time_enforce(&rt, first.parse::<u32>()?, second.parse::<u32>()?),
            _ => usage(),
        },
        (Some(rounds), None) => {
            let rounds = rounds.as_str().parse::<u32>()?;
            time_pair(&rt, job, first, second, rounds)
        }
        (Some(pairs), Some(rounds)) if job == "play" => rounds::play(
            &rt,
            first,
            second,
            pairs.as_str().parse::<u32>()?,
            rounds.as_str().parse::<u32>()?,
        ),
        _ => usage(),
    }
}
