// Trying duties on a service.

ghost use Rattle.std.specs.Prelude.{◌≡◌, ◌+◌, length};
ghost use Rattle.enforcement.specs.Enforced.{Enforced};
ghost use Rattle.enforcement.specs.Tried.{Tried};

use crate::bias::Bias;
use crate::tally::Tally;
use combining::Decision;
use policy::Force;
use services::{Reply, Service};
use trees::Duty;

// Tries the duties in order, up to the first that must be carried out and fails.
fn try_duties<S: Service>(duties: &[Duty], service: &mut S) -> Tally
    ensures { Tried S.meaning service.old duties.now result service.new }
{
    let mut carried = 0;
    let mut failed = 0;
    for (tried, duty) in duties.iter().enumerate() {
        match service.perform(duty) {
            Reply::Done => carried += 1,
            Reply::NotReady => {
                failed += 1;
                if duty.force == Force::Must {
                    return Tally {
                        carried,
                        failed,
                        skipped: duties.len() - tried - 1,
                        must_failed: true,
                    };
                }
            }
        }
    }
    Tally {
        carried,
        failed,
        skipped: 0,
        must_failed: false,
    }
}

// The enforced decision, and how many duties were carried out, failed and were skipped.
pub fn enforce<S: Service>(
    bias: Bias,
    decision: Decision,
    duties: &[Duty],
    service: &mut S,
) -> (Decision, usize, usize, usize)
    ensures enforced { Enforced S.meaning bias decision duties.now service.old result service.new }
    ensures sum { result.1 + result.2 + result.3 ≡ length duties.now }
    ensures counted { S.meaning.count service.new ≡ S.meaning.count service.old + result.1 }
    ensures same_memory { S.meaning.lent service.new ≡ S.meaning.lent service.old }
{
    let tally = try_duties(duties, service);
    let enforced = bias.settle(decision, tally.must_failed);
    (enforced, tally.carried, tally.failed, tally.skipped)
}
