// Rows and sensors that are given to a gate.

use readings::{Readings, Row, TableRoom};
use sources::{SENSORS, Sensor, SensorBank, Status};
use std::alloc::Global;
use std::test::Fail;
use values::Name;

pub(crate) fn table(heap: Global, file: &[u8]) -> Result<Readings, Fail> {
    match TableRoom::new(heap)?.check(file) {
        Ok(readings) => Ok(readings),
        Err(_) => Err(Fail::new("the readings were not accepted")),
    }
}

// The three rows of a table.
pub(crate) fn rows(readings: &Readings) -> Result<(Row<'_>, Row<'_>, Row<'_>), Fail> {
    match (readings.row(0), readings.row(1), readings.row(2)) {
        (Some(first), Some(second), Some(third)) => Ok((first, second, third)),
        _ => Err(Fail::new("there are fewer than three rows")),
    }
}

// A sensor's name, its number and its status.
pub(crate) fn sensor(name: &[u8], number: i32, status: u8) -> Result<Sensor, Fail> {
    match Name::new(name) {
        Some(name) => Ok(Sensor {
            name,
            number,
            status: Status::from(status),
        }),
        None => Err(Fail::new("a name is too long")),
    }
}

// A bank with these sensors in front; the places after them repeat the first.
pub(crate) fn bank(front: [Sensor; 4]) -> SensorBank {
    let [first, second, third, fourth] = front;
    let mut sensors = [first; SENSORS];
    sensors[1] = second;
    sensors[2] = third;
    sensors[3] = fourth;
    SensorBank { sensors }
}
