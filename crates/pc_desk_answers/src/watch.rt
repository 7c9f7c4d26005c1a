/// Is told how far a run has come that gives many answers.
pub trait Watch {
    /// So many of all answers are there.
    fn saw(&mut self, done: usize, all: usize);
}

/// Watches nothing.
#[derive(Clone, Copy, Debug)]
pub struct Unwatched;

impl Watch for Unwatched {
    fn saw(&mut self, _done: usize, _all: usize) {}
}
