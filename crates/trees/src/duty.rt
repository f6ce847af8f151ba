// A duty of a response.

use policy::Force;
use values::Value;

// An action with its argument's value.
#[derive(Clone, Copy)]
pub struct Duty {
    pub force: Force,
    pub action: u8,
    pub argument: Value,
}
