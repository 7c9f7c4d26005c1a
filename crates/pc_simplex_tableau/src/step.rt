/// A step of a relaxation: the column that enters, and the one whose limit decides.
#[derive(Clone, Copy, Debug, PartialEq, Eq)]
pub struct Step {
    pub enters: u32,
    pub leaves: u32,
}
