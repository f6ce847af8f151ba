// A line that says what was read, and a line with the response to each row and what enforcing it comes to.

use crate::words::add_duties;
use combining::Decision;
use compiling::{CONDITION_PLACES, Conditions, Fitted};
use deciding::{Answer, Evaluator};
use enforcement::{Bias, enforce};
use pair::{Pair, check_pair};
use policy::{Family, Line, Policy, Room};
use readings::{Readings, TableRoom};
use services::{Journal, PLACES, UNUSED};
use std::alloc::{AllocError, Global};
use values::Value;
use writing::write_back;

// The letters are this program's own, as its answers have them.
fn family_letter(line: Line) -> char {
    match line.family() {
        Family::Expression => 'e',
        Family::Duty => 'd',
        Family::Item => 'i',
        Family::Policy => 'p',
    }
}

fn value_letter(value: Value) -> char {
    match value {
        Value::Missing => 'm',
        Value::Error => 'x',
        Value::Bool(_) => 'b',
        Value::Number(_) => 'n',
        Value::Text(_) => 't',
        Value::Numbers(_) => 'N',
        Value::Texts(_) => 'T',
    }
}

fn line_sum(line: Line) -> i64 {
    match line {
        Line::Number(x) => i64::from(x),
        _ => 0,
    }
}

fn value_sum(value: Value) -> i64 {
    match value {
        Value::Number(x) => i64::from(x),
        Value::Numbers(set) => set
            .as_slice()
            .iter()
            .fold(0i64, |sum, x| sum.saturating_add(i64::from(*x))),
        _ => 0,
    }
}

// Whether writing the policy back gives the file that was checked.
fn comes_back(heap: Global, policy: &Policy, file: &[u8]) -> Result<bool, AllocError> {
    let mut bytes = Vec::from_slice(heap, file)?;
    let out = bytes.as_mut_slice();
    out.fill(0);
    let length = write_back(policy, out).ok();
    Ok(length == Some(file.len()) && *out == *file)
}

fn accepted(heap: Global, pair: &Pair) -> Result<String, AllocError> {
    let mut families = String::new(heap);
    let mut cells = String::new(heap);
    let mut sum = 0i64;
    for line in pair.policy.lines() {
        families.push(family_letter(*line))?;
        sum = sum.saturating_add(line_sum(*line));
    }
    for value in pair.readings.cells() {
        cells.push(value_letter(*value))?;
        sum = sum.saturating_add(value_sum(*value));
    }
    if cells.is_empty() {
        cells.push('-')?;
    }
    let lines = pair.policy.lines().len();
    let names = pair.readings.names().len();
    let rows = pair.readings.row_count();
    format!(in heap; "accepted {lines} {names} {rows} {families} {cells} {sum}")
}

// A row's number, the decisions of the tree and of the flat pass, what the trial program prints of enforcing, and the duties.
fn responded(
    heap: Global,
    number: usize,
    flat: Decision,
    answer: &Answer,
    journal: &mut Journal,
) -> Result<String, AllocError> {
    let decision = answer.decision();
    let (enforced, carried, failed, skipped) = enforce(
        Bias::Base,
        decision,
        answer.duties(),
        journal,
    );
    let mut line = format!(in heap;
        "{number} {decision} {flat} {enforced} {carried} {failed} {skipped}"
    )?;
    add_duties(heap, answer.duties(), &mut line)?;
    Ok(line)
}

// Adds a line for each row. One journal takes the duties of all rows.
fn add_responses(
    heap: Global,
    fitted: &Fitted,
    readings: &Readings,
    lines: &mut String,
) -> Result<(), AllocError> {
    let mut evaluator = Evaluator::new(heap)?;
    let mut answer = Answer::new(heap)?;
    let mut entries = [UNUSED; PLACES];
    let Ok(mut journal) = Journal::lay(&mut entries[..]) else {
        return lines.push_str("\nno journal");
    };
    for (number, row) in (1..=readings.row_count()).zip(readings.rows()) {
        let flat = fitted.respond_to_row(&row, &mut evaluator, &mut answer);
        lines.push('\n')?;
        lines.push_str(responded(heap, number, flat, &answer, &mut journal)?.as_str())?;
    }
    Ok(())
}

// What was accepted, and a line for each row.
fn described(heap: Global, pair: Pair) -> Result<String, AllocError> {
    let mut lines = accepted(heap, &pair)?;
    let Pair { policy, readings } = pair;
    match Conditions::new(heap, CONDITION_PLACES)?.fit(policy) {
        Ok(fitted) => add_responses(heap, &fitted, &readings, &mut lines)?,
        Err(_) => lines.push_str("\nno places")?,
    }
    Ok(lines)
}

// The answer to a pair of files.
pub(crate) fn answer(heap: Global, policy: &[u8], readings: &[u8]) -> Result<String, AllocError> {
    let room = Room::new(heap)?;
    let table = TableRoom::new(heap)?;
    match check_pair(room, table, policy, readings) {
        Ok(pair) => {
            if comes_back(heap, &pair.policy, policy)? {
                described(heap, pair)
            } else {
                String::from_str(heap, "does not come back")
            }
        }
        Err(rejection) => format!(in heap; "{rejection}"),
    }
}
