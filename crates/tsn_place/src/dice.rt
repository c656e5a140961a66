//! Numbers that look random, the same at each run: by Marsaglia's shifts.

/// Where they are.
#[derive(Clone, Copy, Drop)]
pub struct Dice {
    state: u64,
}

impl Dice {
    /// The first ones.
    pub fn new() -> Dice {
        Dice {
            state: 88_172_645_463_325_252,
        }
    }

    /// A number below `count`, of which no more than the last 31 bits count; 0 where there is none.
    pub fn below(&mut self, count: usize) -> usize {
        let mut x = self.state;
        x ^= x << 13;
        x ^= x >> 7;
        x ^= x << 17;
        self.state = x;
        let drawn = (x.wrapping_mul(0x2545_F491_4F6C_DD1D) >> 33) as usize;
        drawn.wrapping_mul(count & 0x7FFF_FFFF) >> 31
    }
}
