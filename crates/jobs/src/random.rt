//! Numbers that look random.

ghost use Rattle.std.specs.Prelude.{◌<◌};

/// Makes numbers of 64 bits one after the other, for each seed its own ones (SplitMix64).
#[derive(Clone, Copy, Debug)]
pub struct Random {
    state: u64,
}

impl Random {
    /// The numbers of a seed, of which each input has others.
    pub fn new(seed: u64, input: u8) -> Random {
        let own = u64::from(input) << 32;
        Random {
            state: seed.wrapping_add(own).wrapping_mul(0x2545_F491_4F6C_DD1D),
        }
    }

    /// The next number.
    pub fn next(&mut self) -> u64 {
        self.state = self.state.wrapping_add(0x9E37_79B9_7F4A_7C15);
        let once = (self.state ^ (self.state >> 30)).wrapping_mul(0xBF58_476D_1CE4_E5B9);
        let twice = (once ^ (once >> 27)).wrapping_mul(0x94D0_49BB_1331_11EB);
        twice ^ (twice >> 31)
    }

    /// The next number below a bound.
    pub fn below(&mut self, bound: u64) -> u64
        requires { 0 < bound }
        ensures { result < bound }
    {
        self.next() % bound
    }
}
