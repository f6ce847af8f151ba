// Duties with numbers.

use policy::Force;
use trees::Duty;
use values::Value;

pub(crate) fn duty(force: Force, action: u8, number: i32) -> Duty {
    Duty {
        force,
        action,
        argument: Value::Number(number),
    }
}
