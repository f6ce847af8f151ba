// A policy's answer.

ghost use Rattle.std.specs.Prelude.{◌≤◌, vec_capacity};

use combining::Decision;
use trees::Duty;

// A decision with its duties, in memory that has room for those of any policy.
#[derive(Drop)]
pub struct Answer {
    pub(crate) decision: Decision,
    pub(crate) duties: Vec<Duty>,
    ghost room: { 256 ≤ vec_capacity duties },
}
