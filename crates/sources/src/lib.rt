// Sources: where readings come from.

#![tactic(auto)]

pub mod before;
pub mod row;
pub mod sensor_bank;
pub mod source;

pub use before::Before;
pub use sensor_bank::{SENSORS, Sensor, SensorBank, Status};
pub use source::Source;
