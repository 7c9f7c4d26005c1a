ghost use Rattle.std.specs.Prelude.{◌≡◌, ◌<◌, ◌⊎◌, ℕ, Some};
ghost use Rattle.pc_model.specs.Places.{has_bit};
ghost use Rattle.pc_cells_tree.specs.Knowing.{told, nothing, is_open};

/// What is known of a box from one that it is a part of, bit j for constraint j: that the constraint speaks of all of
/// its rows and has them in its values, or that it speaks of none.
#[derive(Clone, Copy, Debug, PartialEq, Eq)]
pub(crate) struct Known {
    pub all: u32,
    pub none: u32,
}

impl Known {
    pub(crate) fn nothing() -> Known
        ensures { result ≡ nothing }
    {
        Known { all: 0, none: 0 }
    }

    /// Whether a constraint speaks of all rows or of none, where it is known.
    #[inline(always)]
    pub(crate) fn told(self, place: usize) -> Option<bool>
        requires { place < 32 }
        ensures { result ≡ told self place }
    {
        if has_bit(self.all, place) {
            return Some(true);
        }
        if has_bit(self.none, place) {
            return Some(false);
        }
        None
    }

    /// Whether a constraint speaks of all rows or of none is still to be asked.
    #[inline(always)]
    pub(crate) fn is_open(self, place: usize) -> bool
        requires { place < 32 }
        ensures { result ≡ is_open self place }
    {
        !has_bit(self.all | self.none, place)
    }

    /// With what a constraint says.
    #[inline(always)]
    #[tactic(auto, using(crate::proofs::Knowing::steps))]
    pub(crate) fn with(self, place: usize, bit: bool) -> Known
        requires { place < 32 }
        ensures { (k : ℕ) → (told result k ≡ told self k) ⊎ ((k ≡ place) × (told result k ≡ Some bit)) }
    {
        if bit {
            return Known {
                all: self.all | 1 << place,
                none: self.none,
            };
        }
        Known {
            all: self.all,
            none: self.none | 1 << place,
        }
    }
}

#[inline(always)]
#[tactic(auto, using(crate::proofs::Knowing::bits))]
fn has_bit(bits: u32, place: usize) -> bool
    requires { place < 32 }
    ensures { result ≡ has_bit bits place }
{
    bits >> place & 1 == 1
}
