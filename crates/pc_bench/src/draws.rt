/// Numbers of a fixed generator, the same in each run.
#[derive(Drop)]
pub(crate) struct Draws {
    state: u64,
}

impl Draws {
    pub(crate) fn new() -> Draws {
        Draws { state: 1 }
    }

    /// The next number from 0 to a greatest one.
    pub(crate) fn up_to(&mut self, greatest: u32) -> u32 {
        self.state = self
            .state
            .wrapping_mul(6364136223846793005)
            .wrapping_add(1442695040888963407);
        ((self.state >> 33) % (u64::from(greatest) + 1)) as u32
    }

    /// Two numbers from 0 to a greatest one, in order.
    pub(crate) fn span(&mut self, greatest: u32) -> (u32, u32) {
        let (one, other) = (self.up_to(greatest), self.up_to(greatest));
        (one.min(other), one.max(other))
    }
}
