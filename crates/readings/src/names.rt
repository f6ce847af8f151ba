// The line of names.

ghost use Rattle.std.specs.Prelude.{◌≡◌, ◌≤◌, [], vec_len, vec_capacity};
ghost use Rattle.readings.specs.Table.{among, fresh_name, names_of};
ghost use Rattle.readings.specs.Read.{items_as};

use crate::line::{count_parts, read_parts};
use refusals::{Cause, LineFault};
use spelling::word::name;
use values::Name;

fn has_name(names: &[Name], s: &[u8]) -> bool
    ensures { result ≡ among s.now names.now }
{
    names.iter().any(|x| x.as_bytes() == s)
}

// A name that is spelled well and new.
fn fresh_name(s: &[u8], names: &[Name]) -> Result<Name, Cause>
    ensures { result ≡ fresh_name names.now s.now }
{
    let x = name(s).ok_or(Cause::NameMisspelt)?;
    if has_name(names, x.as_bytes()) {
        return Err(Cause::NameRepeated);
    }
    Ok(x)
}

// The line of names, into empty memory reserved for 64.
pub(crate) fn names_line(line: &[u8], names: &mut Vec<Name>) -> Result<(), LineFault>
    requires room { 64 ≤ vec_capacity names.old }
    requires empty { names.old.items ≡ [] }
    ensures capacity { vec_capacity names.new ≡ vec_capacity names.old }
    ensures few { vec_len names.new ≤ 64 }
    ensures value { items_as result names.new.items ≡ names_of line.now }
{
    if count_parts(line) > 64 {
        return Err(LineFault::from(Cause::TooManyNames));
    }
    read_parts(line, 1, names, &fresh_name)
}
