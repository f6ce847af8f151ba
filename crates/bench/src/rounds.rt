// Rounds of a gate's calls. Each call that is measured stands in a function of its own which is never inlined, so that a profiler finds it by its name.

use combining::Decision;
use compiling::CONDITION_PLACES;
use enforcement::Bias;
use gate::Gate;
use readings::{Readings, Row, TableRoom};
use refusals::Rejection;
use services::{Journal, PLACES, Switchboard, UNUSED, ValveBank};
use std::fs;
use std::time::Instant;
use trees::Duty;
use writing::MOST_BYTES;

// Too few for any policy of three lines or more.
const FEW_PLACES: usize = 64;

type Board<'a> = Switchboard<Journal<'a>, ValveBank>;

#[inline(never)]
fn fit_once(gate: &mut Gate, file: &[u8]) -> Result<(), Rejection> {
    gate.fit(file)
}

#[inline(never)]
fn decide_once(gate: &mut Gate) -> Result<Decision, Rejection> {
    gate.decide()
}

#[inline(never)]
fn quick_once(gate: &mut Gate) -> Result<Decision, Rejection> {
    gate.quick()
}

#[inline(never)]
fn enforce_once(
    gate: &mut Gate,
    board: &mut Board<'_>,
) -> Result<(Decision, usize, usize, usize), Rejection> {
    gate.enforce(board)
}

// A policy file, and a table with at least one row.
#[derive(Drop)]
struct Input {
    file: Vec<u8>,
    readings: Readings,
}

impl Input {
    fn read(rt: &HostRuntime, path: &str, readings: &str) -> anyhow::Result<Input> {
        let file = fs::read(rt, path)?;
        let readings_file = fs::read(rt, readings)?;
        match TableRoom::new(rt.alloc())?.check(readings_file.as_slice()) {
            Ok(readings) => Ok(Input { file, readings }),
            Err(refused) => {
                let rejection = refused.rejection;
                anyhow::bail!("{rejection}")
            }
        }
    }

    fn row(&self) -> anyhow::Result<Row<'_>> {
        match self.readings.row(0) {
            Some(row) => Ok(row),
            None => anyhow::bail!("the readings have no row"),
        }
    }
}

// A gate that has fitted the file and read the first row.
fn ready(rt: &HostRuntime, input: &Input) -> anyhow::Result<Gate> {
    let row = input.row()?;
    let mut gate = Gate::new(rt.alloc(), Bias::Base, CONDITION_PLACES)?;
    if let Err(rejection) = gate.fit(input.file.as_slice()) {
        anyhow::bail!("{rejection}");
    }
    if let Err(rejection) = gate.read(&row) {
        anyhow::bail!("{rejection}");
    }
    Ok(gate)
}

// How many lines a policy file has after line 0.
fn lines_in(file: &[u8]) -> usize {
    let ends = file.iter().filter(|byte| **byte == b'\n').count();
    ends.saturating_sub(1)
}

fn print_time(rt: &HostRuntime, start: &Instant, input: &Input) -> anyhow::Result<()> {
    let nanos = start.elapsed(rt)?.as_nanos();
    let lines = lines_in(input.file.as_slice());
    println!(rt; "{nanos} {lines}")?;
    Ok(())
}

fn fit_often(gate: &mut Gate, file: &[u8], rounds: u32) -> u32 {
    let mut fitted = 0u32;
    for _ in 0..rounds {
        if fit_once(gate, file).is_ok() {
            fitted = fitted.wrapping_add(1);
        }
    }
    fitted
}

pub fn time_fit(rt: &HostRuntime, path: &str, readings: &str, rounds: u32) -> anyhow::Result<()> {
    let input = Input::read(rt, path, readings)?;
    let mut gate = ready(rt, &input)?;
    let start = Instant::now(rt)?;
    let fitted = fit_often(&mut gate, input.file.as_slice(), rounds);
    print_time(rt, &start, &input)?;
    if fitted != rounds {
        anyhow::bail!("a file was refused");
    }
    Ok(())
}

// Two gates in turn, so that no pass can be left out.
fn quick_often(first: &mut Gate, second: &mut Gate, rounds: u32) -> u32 {
    let mut permits = 0u32;
    for round in 0..rounds {
        let quick = if round % 2 == 0 {
            quick_once(first)
        } else {
            quick_once(second)
        };
        if quick == Ok(Decision::Permit) {
            permits = permits.wrapping_add(1);
        }
    }
    permits
}

pub fn time_quick(rt: &HostRuntime, path: &str, readings: &str, rounds: u32) -> anyhow::Result<()> {
    let input = Input::read(rt, path, readings)?;
    let mut first = ready(rt, &input)?;
    let mut second = ready(rt, &input)?;
    let start = Instant::now(rt)?;
    let permits = quick_often(&mut first, &mut second, rounds);
    print_time(rt, &start, &input)?;
    if permits != rounds {
        anyhow::bail!("a pass did not permit");
    }
    Ok(())
}

// Each round has a new journal and a new valve bank, which take every duty of the policies that are measured.
fn turn_often(gate: &mut Gate, entries: &mut [Duty], rounds: u32) -> usize {
    let mut carried = 0usize;
    for _ in 0..rounds {
        let decided = decide_once(gate);
        if let Ok(journal) = Journal::lay(&mut *entries) {
            let mut board = Switchboard::new(journal, ValveBank::new());
            let enforced = enforce_once(gate, &mut board);
            if let (Ok(Decision::Permit), Ok((_, count, _, _))) = (decided, enforced) {
                carried = carried.wrapping_add(count);
            }
        }
    }
    carried
}

pub fn time_turn(rt: &HostRuntime, path: &str, readings: &str, rounds: u32) -> anyhow::Result<()> {
    let input = Input::read(rt, path, readings)?;
    let mut gate = ready(rt, &input)?;
    let mut entries = [UNUSED; PLACES];
    let start = Instant::now(rt)?;
    let carried = turn_often(&mut gate, &mut entries[..], rounds);
    print_time(rt, &start, &input)?;
    if carried < rounds as usize {
        anyhow::bail!("a turn carried out no duty");
    }
    Ok(())
}

// How many calls of a round were answered, and how many were refused.
#[derive(Clone, Copy)]
struct Count {
    answered: usize,
    refused: usize,
}

impl Count {
    fn add(&mut self, is_answered: bool) {
        if is_answered {
            self.answered = self.answered.wrapping_add(1);
        } else {
            self.refused = self.refused.wrapping_add(1);
        }
    }
}

// What the rounds of all calls are given.
#[derive(Clone, Copy)]
struct Given<'a> {
    files: [&'a [u8]; 3],
    row: Row<'a>,
    rounds: u32,
}

// Every call of a gate, in turn and out of turn, with files good, damaged and cut off.
fn play_once(
    gate: &mut Gate,
    given: &Given<'_>,
    entries: &mut [Duty],
    out: &mut [u8],
    count: &mut Count,
) {
    for file in given.files {
        count.add(gate.fit(file).is_ok());
        count.add(gate.quick().is_ok());
        count.add(gate.read(&given.row).is_ok());
        count.add(gate.decide().is_ok());
        count.add(gate.fit(file).is_ok());
        count.add(gate.quick().is_ok());
        if let Ok(journal) = Journal::lay(&mut *entries) {
            let mut board = Switchboard::new(journal, ValveBank::new());
            count.add(gate.enforce(&mut board).is_ok());
            count.add(gate.enforce(&mut board).is_ok());
        }
        count.add(gate.write_back(&mut *out).is_ok());
        count.add(gate.write_back(&mut []).is_ok());
    }
}

// Makes so many pairs of gates, one of each with places for any policy and one with too few, and plays the rounds on each.
fn play_pairs(rt: &HostRuntime, given: &Given<'_>, pairs: u32) -> anyhow::Result<Count> {
    let mut out = Vec::from_elem(rt.alloc(), 0u8, MOST_BYTES)?;
    let mut entries = [UNUSED; PLACES];
    let mut count = Count {
        answered: 0,
        refused: 0,
    };
    for _ in 0..pairs {
        for places in [CONDITION_PLACES, FEW_PLACES] {
            let mut gate = Gate::new(rt.alloc(), Bias::Base, places)?;
            for _ in 0..given.rounds {
                let out = out.as_mut_slice();
                play_once(&mut gate, given, &mut entries[..], out, &mut count);
            }
        }
    }
    Ok(count)
}

pub fn play(
    rt: &HostRuntime,
    path: &str,
    readings: &str,
    pairs: u32,
    rounds: u32,
) -> anyhow::Result<()> {
    let input = Input::read(rt, path, readings)?;
    let row = input.row()?;
    let file = input.file.as_slice();
    let mut damaged = Vec::from_slice(rt.alloc(), file)?;
    if let Some(byte) = damaged.as_mut_slice().last_mut() {
        *byte = b'-';
    }
    let half = file.split_at(file.len() / 2).0;
    let given = Given {
        files: [damaged.as_slice(), file, half],
        row,
        rounds,
    };
    let Count { answered, refused } = play_pairs(rt, &given, pairs)?;
    println!(rt; "{answered} answered, {refused} refused")?;
    Ok(())
}
