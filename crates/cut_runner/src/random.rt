//! Numbers that look random, the same ones in each run.
ghost use Rattle.std.specs.Prelude.{◌<◌};

/// A source of numbers.
#[derive(Drop)]
pub struct Random {
    state: u64,
}

impl Random {
    pub fn new(seed: u64) -> Random {
        Random {
            state: seed.wrapping_mul(0x9e37_79b9_7f4a_7c15) | 1,
        }
    }

    pub fn number(&mut self) -> u64 {
        self.state ^= self.state << 13;
        self.state ^= self.state >> 7;
        self.state ^= self.state << 17;
        self.state >> 8
    }

    /// A number below this one, 0 where that is 0.
    pub fn below(&mut self, count: u64) -> u64
        ensures { 0 < count → result < count }
    {
        let number = self.number();
        if count == 0 { 0 } else { number % count }
    }
}
