use crate::fractional::Fractional;

/// What an average is asked over: a sum to be divided by a number of rows, a number that no row's is above, and how many
/// nodes a search may have.
#[derive(Clone, Copy, Debug)]
pub(crate) struct Average<'a> {
    pub fraction: &'a Fractional,
    pub outermost: i128,
    pub nodes: u32,
}
