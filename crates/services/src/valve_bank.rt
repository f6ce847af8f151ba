// The valve bank: eight valves, each with a position.

ghost use Rattle.std.specs.Prelude.{◌≡◌, None};
ghost use Rattle.services.specs.ValveBank.{position_of, bank_meaning, all_shut};

use crate::service::{Reply, Service};
use trees::Duty;
use values::Value;

// The action of the first valve.
const FIRST_ACTION: u8 = 8;

// The action of the last valve.
const LAST_ACTION: u8 = 15;

// The position of a valve that is open as far as it can be.
const FULLY_OPEN: i32 = 100;

// A valve; a bank sets its position to a number from 0 to 100.
#[derive(Clone, Copy)]
pub struct Valve {
    position: u8,
}

#[derive(Drop)]
pub struct ValveBank {
    valves: [Valve; 8],
    count: u32,
    latest: Option<Duty>,
}

// The position that a value stands for.
fn position(value: &Value) -> Option<u8>
    ensures { result ≡ position_of value.now }
{
    match *value {
        Value::Number(x) if (0..=FULLY_OPEN).contains(&x) => u8::try_from(x).ok(),
        _ => None,
    }
}

impl Valve {
    pub fn position(&self) -> u8
        ensures { result ≡ self.now.position }
    {
        self.position
    }

    fn move_to(&mut self, position: u8)
        ensures { self.new ≡ record { position = position } }
    {
        self.position = position;
    }
}

impl ValveBank {
    // All positions and the count are 0, and no duty is the latest.
    pub fn new() -> ValveBank
        ensures { result ≡ record { valves = all_shut; count = 0; latest = None } }
    {
        ValveBank {
            valves: [Valve { position: 0 }; 8],
            count: 0,
            latest: None,
        }
    }

    pub fn valves(&self) -> &[Valve]
        ensures { result.now ≡ self.now.valves }
    {
        &self.valves[..]
    }

    pub fn latest(&self) -> Option<Duty>
        ensures { result ≡ self.now.latest }
    {
        self.latest
    }
}

impl Service for ValveBank {
    ghost meaning = { bank_meaning };

    fn perform(&mut self, duty: &Duty) -> Reply {
        let Some(position) = position(&duty.argument) else {
            return Reply::NotReady;
        };
        let is_valve = (FIRST_ACTION..=LAST_ACTION).contains(&duty.action);
        if !is_valve || self.count == u32::MAX {
            return Reply::NotReady;
        }
        // One valve is lent to be moved; the others stay.
        let valve = &mut self.valves[usize::from(duty.action - FIRST_ACTION)];
        valve.move_to(position);
        self.count += 1;
        self.latest = Some(*duty);
        Reply::Done
    }
}

#[cfg(test)]
mod tests {
    use super::ValveBank;
    use crate::service::{Reply, Service};
    use policy::Force;
    use trees::Duty;
    use values::Value;

    // Inside the crate, since no caller can bring a bank to this count in a test's time.
    #[test]
    fn last_count(rt: HostRuntime) {
        let mut bank = ValveBank::new();
        bank.count = 4_294_967_294;
        let half = Duty {
            force: Force::Must,
            action: 15,
            argument: Value::Number(50),
        };
        let shut = Duty {
            force: Force::Must,
            action: 15,
            argument: Value::Number(0),
        };
        assert!(rt; bank.perform(&half) == Reply::Done);
        assert!(rt; bank.perform(&shut) == Reply::NotReady);
        assert!(rt; bank.latest().is_some());
        assert_eq!(rt; bank.count, 4_294_967_295);
        assert_eq!(rt; bank.valves[7].position, 50);
    }
}
