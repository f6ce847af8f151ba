// Words: bytes cut at separators, and duties and values in words, a value as a readings file's cell spells it.

use policy::Force;
use std::alloc::{AllocError, Global};
use trees::Duty;
use values::{NumberSet, TextSet, Value};

// The parts of bytes between separators.
pub(crate) fn parts<'a>(
    heap: Global,
    bytes: &'a [u8],
    separator: u8,
) -> Result<Vec<&'a [u8]>, AllocError> {
    let mut parts = Vec::new(heap);
    for part in bytes.split(|byte| *byte == separator) {
        parts.push(part)?;
    }
    Ok(parts)
}

fn add_bytes(bytes: &[u8], line: &mut String) -> Result<(), AllocError> {
    for byte in bytes {
        line.push(char::from(*byte))?;
    }
    Ok(())
}

fn add_number(heap: Global, number: i32, line: &mut String) -> Result<(), AllocError> {
    line.push_str(format!(in heap; "{number}")?.as_str())
}

fn add_numbers(heap: Global, set: NumberSet, line: &mut String) -> Result<(), AllocError> {
    for (place, number) in set.as_slice().iter().enumerate() {
        if place > 0 {
            line.push(',')?;
        }
        add_number(heap, *number, line)?;
    }
    Ok(())
}

fn add_texts(set: TextSet, line: &mut String) -> Result<(), AllocError> {
    for (place, text) in set.as_slice().iter().enumerate() {
        if place > 0 {
            line.push(',')?;
        }
        add_bytes(text.as_bytes(), line)?;
    }
    Ok(())
}

// Adds the value as a cell spells it.
pub(crate) fn add_value(heap: Global, value: Value, line: &mut String) -> Result<(), AllocError> {
    match value {
        Value::Missing => line.push('-'),
        Value::Error => line.push('!'),
        Value::Bool(truth) => line.push_str(if truth { "true" } else { "false" }),
        Value::Number(number) => add_number(heap, number, line),
        Value::Text(text) => add_bytes(text.as_bytes(), line),
        Value::Numbers(set) => add_numbers(heap, set, line),
        Value::Texts(set) => add_texts(set, line),
    }
}

// Adds each duty as ` FORCE ACTION VALUE`.
pub(crate) fn add_duties(
    heap: Global,
    duties: &[Duty],
    line: &mut String,
) -> Result<(), AllocError> {
    for duty in duties {
        let force = match duty.force {
            Force::Must => "must",
            Force::May => "may",
        };
        let action = duty.action;
        line.push_str(format!(in heap; " {force} {action} ")?.as_str())?;
        add_value(heap, duty.argument, line)?;
    }
    Ok(())
}
