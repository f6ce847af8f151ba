// The sensor bank: sixteen sensors, found by their names.

ghost use Rattle.std.specs.Prelude.{◌≡◌};
ghost use Rattle.sources.specs.Sensors.{status_of, sensor_value, bank_map};

use crate::source::Source;
use values::{Name, Value};

// How many sensors a bank has.
pub const SENSORS: usize = 16;

// The state of a sensor.
#[derive(Clone, Copy, PartialEq, Eq)]
pub enum Status {
    Good,
    Broken,
    Absent,
}

// What a status code stands for.
impl From<u8> for Status {
    ghost from_gives = { λ code status. status ≡ status_of code };

    fn from(code: u8) -> Status {
        match code {
            0 => Status::Good,
            2 => Status::Absent,
            _ => Status::Broken,
        }
    }
}

#[derive(Clone, Copy)]
pub struct Sensor {
    pub name: Name,
    pub number: i32,
    pub status: Status,
}

#[derive(Clone, Copy)]
pub struct SensorBank {
    pub sensors: [Sensor; SENSORS],
}

impl Sensor {
    // What the sensor reads.
    pub fn value(&self) -> Value
        ensures { result ≡ sensor_value self.now }
    {
        match self.status {
            Status::Good => Value::Number(self.number),
            Status::Broken => Value::Error,
            Status::Absent => Value::Missing,
        }
    }
}

// Of several sensors with the name, the one in the lowest place gives the value.
impl Source for SensorBank {
    ghost means = { bank_map };

    fn look_up(&self, name: &[u8]) -> Value {
        match self.sensors.iter().find(|s| s.name.as_bytes() == name) {
            Some(sensor) => sensor.value(),
            None => Value::Missing,
        }
    }
}
