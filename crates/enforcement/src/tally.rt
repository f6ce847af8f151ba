// What became of a response's duties.

#[derive(Clone, Copy)]
pub struct Tally {
    pub carried: usize,
    pub failed: usize,
    pub skipped: usize,
    pub must_failed: bool,
}
