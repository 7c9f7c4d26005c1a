ghost use Rattle.std.specs.Prelude.{◌≡◌, ◌<◌};
ghost use Rattle.pc_gen.specs.Draws.{after, draw, next_state};

/// Numbers drawn one after the other. Each state follows from the one before it.
#[derive(Drop)]
pub(crate) struct Draws {
    pub(crate) state: u64,
}

impl Draws {
    /// The next number below `k`.
    #[tactic(auto, unfolding(crate::specs::Draws::after, crate::specs::Draws::draw))]
    pub(crate) fn draw(&mut self, k: u32) -> u32
        requires { 0 < k }
        ensures drawn { result ≡ draw k self.old.state }
        ensures below { result < k }
        ensures state { self.new.state ≡ after 1 self.old.state }
    {
        self.state = next_state(self.state);
        ((self.state >> 33) % u64::from(k)) as u32
    }
}

#[tactic(auto, unfolding(crate::specs::Draws::next_state))]
fn next_state(state: u64) -> u64
    ensures { result ≡ next_state state }
{
    state
        .wrapping_mul(6_364_136_223_846_793_005)
        .wrapping_add(1_442_695_040_888_963_407)
}
