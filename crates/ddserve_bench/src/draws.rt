//! Numbers drawn from a seed.
ghost use Rattle.std.specs.Prelude.{◌<◌};

/// Draws by SplitMix64 (Steele, Lea and Flood, 2014).
#[derive(Drop)]
pub(crate) struct Draws {
    state: u64,
}

impl Draws {
    pub(crate) fn new(seed: u32) -> Draws {
        Draws {
            state: u64::from(seed),
        }
    }

    fn next(&mut self) -> u64 {
        self.state = self.state.wrapping_add(0x9e37_79b9_7f4a_7c15);
        let mixed = (self.state ^ (self.state >> 30)).wrapping_mul(0xbf58_476d_1ce4_e5b9);
        let mixed = (mixed ^ (mixed >> 27)).wrapping_mul(0x94d0_49bb_1331_11eb);
        mixed ^ (mixed >> 31)
    }

    /// A number below the count.
    pub(crate) fn below(&mut self, count: usize) -> usize
        requires { 0 < count }
        ensures { result < count }
    {
        (self.next() >> 33) as usize % count
    }
}
