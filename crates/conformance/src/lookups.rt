// Cases about sources: names that are looked up.

use crate::words::{add_value, parts};
use readings::Row;
use sources::{Before, SENSORS, Sensor, SensorBank, Source, Status};
use spelling::cell::cell;
use spelling::number::number;
use spelling::word::name;
use std::alloc::{AllocError, Global};

// A line `NAME NUMBER STATUS`.
fn sensor(heap: Global, line: &[u8]) -> Result<Option<Sensor>, AllocError> {
    let words = parts(heap, line, b' ')?;
    let [first, second, third] = *words.as_slice() else {
        return Ok(None);
    };
    let (Some(name), Some(number), Some(code)) = (name(first), number(second), number(third)) else {
        return Ok(None);
    };
    Ok(
        u8::try_from(code).ok().map(|code| Sensor {
            name,
            number,
            status: Status::from(code),
        }),
    )
}

// A bank of sensors, one for each of the first lines.
pub(crate) fn bank(heap: Global, lines: &[&[u8]]) -> Result<Option<SensorBank>, AllocError> {
    let Some(first) = lines.first() else {
        return Ok(None);
    };
    let Some(first) = sensor(heap, first)? else {
        return Ok(None);
    };
    let mut sensors = [first; SENSORS];
    for place in 1..SENSORS {
        let Some(line) = lines.get(place) else {
            return Ok(None);
        };
        match sensor(heap, line)? {
            Some(sensor) => sensors[place] = sensor,
            None => return Ok(None),
        }
    }
    Ok(Some(SensorBank { sensors }))
}

// Adds the value that a source has for a name.
fn add_found<S: Source>(
    heap: Global,
    source: &S,
    name: &[u8],
    out: &mut String,
) -> Result<(), AllocError> {
    add_value(heap, source.look_up(name), out)
}

// Adds a line with the bank's value for each name.
pub(crate) fn sensors(heap: Global, lines: &[&[u8]], out: &mut String) -> Result<(), AllocError> {
    let Some(bank) = bank(heap, lines)? else {
        return out.push_str("malformed");
    };
    // The type is named, or this function could not be proved.
    let sensors: [Sensor; SENSORS] = bank.sensors;
    let bank = SensorBank { sensors };
    for (place, name) in lines.iter().skip(SENSORS).enumerate() {
        if place > 0 {
            out.push('\n')?;
        }
        add_found(heap, &bank, name, out)?;
    }
    Ok(())
}

// What each word of a line spells; none if one of them is misspelt.
pub(crate) fn spelled<T: Drop, F: Fn(&[u8]) -> Option<T>>(
    heap: Global,
    line: &[u8],
    read: F,
) -> Result<Option<Vec<T>>, AllocError>
    requires { F.IsAlwaysCallable read }
{
    let mut all = Vec::new(heap);
    for word in parts(heap, line, b' ')? {
        match read(word) {
            Some(one) => all.push(one)?,
            None => return Ok(None),
        }
    }
    Ok(Some(all))
}

// Adds a line for each name: the value with a row before the bank, and with the bank before the row.
pub(crate) fn before(heap: Global, lines: &[&[u8]], out: &mut String) -> Result<(), AllocError> {
    let [first, second, lines @ ..] = lines else {
        return out.push_str("malformed");
    };
    let (Some(names), Some(cells)) = (spelled(heap, first, name)?, spelled(heap, second, cell)?)
    else {
        return out.push_str("malformed");
    };
    let Some(bank) = bank(heap, lines)? else {
        return out.push_str("malformed");
    };
    let row = Row {
        names: names.as_slice(),
        cells: cells.as_slice(),
    };
    let row_first = Before {
        first: row,
        second: bank,
    };
    let bank_first = Before {
        first: bank,
        second: row,
    };
    for (place, name) in lines.iter().skip(SENSORS).enumerate() {
        if place > 0 {
            out.push('\n')?;
        }
        add_found(heap, &row_first, name, out)?;
        out.push(' ')?;
        add_found(heap, &bank_first, name, out)?;
    }
    Ok(())
}
