// The switchboard: two services as one.

ghost use Rattle.std.specs.Prelude.{◌≡◌, None};
ghost use Rattle.services.specs.Switchboard.{board_meaning};

use crate::service::{Reply, Service};
use trees::Duty;

// The last action of the first service; those after it are the second's.
const LAST_OF_FIRST: u8 = 7;

// `latest` is the last duty that was carried out through this board.
#[derive(Drop)]
pub struct Switchboard<P, Q> {
    first: P,
    second: Q,
    latest: Option<Duty>,
}

impl<P, Q> Switchboard<P, Q> {
    pub fn new(first: P, second: Q) -> Switchboard<P, Q>
        ensures { result ≡ record { first = first; second = second; latest = None } }
    {
        Switchboard {
            first,
            second,
            latest: None,
        }
    }

    pub fn first(&self) -> &P
        ensures { result.now ≡ self.now.first }
    {
        &self.first
    }

    pub fn second(&self) -> &Q
        ensures { result.now ≡ self.now.second }
    {
        &self.second
    }

    pub fn latest(&self) -> Option<Duty>
        ensures { result ≡ self.now.latest }
    {
        self.latest
    }
}

impl<P: Service, Q: Service> Service for Switchboard<P, Q> {
    ghost meaning = { board_meaning P.meaning Q.meaning };

    fn perform(&mut self, duty: &Duty) -> Reply {
        let reply = if duty.action <= LAST_OF_FIRST {
            self.first.perform(duty)
        } else {
            self.second.perform(duty)
        };
        if reply == Reply::Done {
            self.latest = Some(*duty);
        }
        reply
    }
}
