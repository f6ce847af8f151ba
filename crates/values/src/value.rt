// A value, as a reading gives it or an expression takes it.

use crate::few::{NumberSet, TextSet};
use crate::short::Text;

#[derive(Clone, Copy)]
pub enum Value {
    Missing,
    Error,
    Bool(bool),
    Number(i32),
    Text(Text),
    Numbers(NumberSet),
    Texts(TextSet),
}
