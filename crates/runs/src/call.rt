// A gate's calls and their answers as values.

use combining::Decision;
use refusals::Rejection;

#[derive_where(Clone, Copy)]
pub enum Call<'a, S> {
    Fit(&'a [u8]),
    Read(&'a S),
    Decide,
    Quick,
    Enforce,
}

// What a call was answered, one variant for each call.
#[derive(Clone, Copy)]
pub enum Answer {
    Fitted(Result<(), Rejection>),
    Taken(Result<(), Rejection>),
    Decided(Result<Decision, Rejection>),
    Seen(Result<Decision, Rejection>),
    Enforced(Result<(Decision, usize, usize, usize), Rejection>),
}
