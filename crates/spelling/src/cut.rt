// Cutting bytes at a separator.

ghost use Rattle.std.specs.Prelude.{◌≡◌, ◌<◌, ◌==◌, length, IfSome};
ghost use Rattle.std.specs.List.{position};
ghost use Rattle.values.specs.Options.{each};
ghost use Rattle.spelling.specs.Cuts.{cut_of, parts, six_of};
ghost use Rattle.spelling.specs.Fields.{seen};

// The six fields of a line of a policy file, by the names that the definitions have for them.
#[derive(Clone, Copy)]
pub struct Fields<'a> {
    pub kind: &'a [u8],
    pub a: &'a [u8],
    pub b: &'a [u8],
    pub c: &'a [u8],
    pub d: &'a [u8],
    pub e: &'a [u8],
}

// How many bytes stand before the first `b`, if there is one.
pub fn position(s: &[u8], b: u8) -> Option<usize>
    ensures value { result ≡ position (λ x. x == b) s.now }
    ensures bound { IfSome result (λ i. i < length s.now) }
{
    s.iter().position(|x| *x == b)
}

// What stands before the first `b` and after it.
pub fn cut<'a>(s: &'a [u8], b: u8) -> Option<(&'a [u8], &'a [u8])>
    ensures { each (λ p. (p.0.now, p.1.now)) result ≡ cut_of b s.now }
{
    let i = position(s, b)?;
    Some((&s[..i], &s[i + 1..]))
}

// The fields of a line that has exactly five spaces. By `cut`, since six times `next()?` of one `split` would be no shorter.
#[tactic(auto, using(crate::proofs::Cuts::six_by_cuts))]
pub fn split<'a>(s: &'a [u8]) -> Option<Fields<'a>>
    ensures { each seen result ≡ six_of (parts 32 s.now) }
{
    let (kind, after_kind) = cut(s, b' ')?;
    let (a, after_a) = cut(after_kind, b' ')?;
    let (b, after_b) = cut(after_a, b' ')?;
    let (c, after_c) = cut(after_b, b' ')?;
    let (d, e) = cut(after_c, b' ')?;
    if position(e, b' ').is_some() {
        return None;
    }
    Some(Fields {
        kind,
        a,
        b,
        c,
        d,
        e,
    })
}
