// Numbers, line numbers and actions.

ghost use Rattle.std.specs.Prelude.{◌≡◌};
ghost use Rattle.spelling.specs.Numbers.{is_digit, digits_after, natural_of, at_most, positive, negative, number_of, line_number_of, action_of};

fn is_digit(b: u8) -> bool
    ensures { result ≡ is_digit b }
{
    b.is_ascii_digit()
}

// The number that the digits `s` spell, where it is at most `limit`.
fn digits(s: &[u8], limit: u32) -> Option<u32>
    ensures { result ≡ at_most limit (digits_after 0 s.now) }
{
    let mut n: u32 = 0;
    for b in s {
        if !is_digit(*b) {
            return None;
        }
        // In 64 bits one comparison with the limit is the whole test, and the cast loses nothing; 32-bit steps would need three tests.
        let longer = u64::from(n) * 10 + u64::from(*b - b'0');
        if longer > u64::from(limit) {
            return None;
        }
        n = longer as u32;
    }
    Some(n)
}

// The same with no zero in front of another digit.
fn natural(s: &[u8], limit: u32) -> Option<u32>
    ensures { result ≡ at_most limit (natural_of s.now) }
{
    match s {
        [] => None,
        [b'0', _, ..] => None,
        _ => digits(s, limit),
    }
}

fn below_zero(s: &[u8]) -> Option<i32>
    ensures { result ≡ negative (at_most 2147483648 (natural_of s.now)) }
{
    match natural(s, 2147483648)? {
        0 => None,
        n => i32::try_from(-i64::from(n)).ok(),
    }
}

fn from_zero(s: &[u8]) -> Option<i32>
    ensures { result ≡ positive (at_most 2147483647 (natural_of s.now)) }
{
    i32::try_from(natural(s, 2147483647)?).ok()
}

// A number of 32 bits, with no zero in front of another digit and no `-0`.
pub fn number(s: &[u8]) -> Option<i32>
    ensures { result ≡ number_of s.now }
{
    match s {
        [b'-', rest @ ..] => below_zero(rest),
        _ => from_zero(s),
    }
}

// A line number is spelled as any number is; a name of its own, as the rules of the file have one.
pub fn line_number(s: &[u8]) -> Option<i32>
    ensures { result ≡ line_number_of s.now }
{
    number(s)
}

// A number from 0 to 15.
pub fn action(field: &[u8]) -> Option<u8>
    ensures { result ≡ action_of field.now }
{
    u8::try_from(number(field)?).ok().filter(|n| *n <= 15)
}
