// The two files in the order in which their faults are reported.

ghost use Rattle.pair.specs.Pairs.{pair_of, Admits};

use policy::{Policy, Room};
use readings::{Readings, TableRoom};
use refusals::Rejection;
use refusals::limit::within_limit;

// Two accepted files.
#[derive(Drop)]
pub struct Pair {
    pub policy: Policy,
    pub readings: Readings,
}

// Checks the policy file and then the readings file; the first fault counts.
// The memory is the caller's: no function here reserves and checks in one.
pub fn check_pair(
    room: Room,
    table: TableRoom,
    policy_file: &[u8],
    readings_file: &[u8],
) -> Result<Pair, Rejection>
    ensures { Admits (pair_of policy_file.now readings_file.now) result }
{
    within_limit(policy_file)?;
    let policy = room.check(policy_file)?;
    let readings = table.check(readings_file)?;
    Ok(Pair { policy, readings })
}
