// Services: what carries duties out.

#![tactic(auto)]

pub mod journal;
pub mod service;
pub mod switchboard;
pub mod valve_bank;

pub use journal::{Journal, PLACES, RefusedMemory, UNUSED, has_places};
pub use service::{Reply, Service};
pub use switchboard::Switchboard;
pub use valve_bank::{Valve, ValveBank};
