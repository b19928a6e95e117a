// Numbers that look random.
ghost use Rattle.std.specs.Prelude.{◌<◌};

/// A generator of 64 bits (xorshift64*).
#[derive(Clone, Copy)]
pub struct Random {
    state: u64,
}

impl Random {
    /// Of a seed and a number under it. The state is never 0.
    pub fn new(seed: u64, number: u64) -> Random {
        let mut random = Random {
            state: seed.wrapping_mul(0x9e37_79b9_7f4a_7c15)
                ^ number.wrapping_mul(0xd1b5_4a32_d192_ed03)
                | 1,
        };
        random.next();
        random.next();
        random
    }

    /// The next number.
    pub fn next(&mut self) -> u64 {
        let mut x = self.state;
        x ^= x >> 12;
        x ^= x << 25;
        x ^= x >> 27;
        self.state = x;
        x.wrapping_mul(0x2545_f491_4f6c_dd1d) >> 8
    }

    /// A number below the limit, or 0 where that is 0.
    pub fn below(&mut self, limit: u64) -> u64
        ensures { 0 < limit → result < limit }
    {
        let number = self.next();
        if limit == 0 { 0 } else { number % limit }
    }

    /// The same of a byte.
    pub fn byte_below(&mut self, limit: u8) -> u8
        ensures { 0 < limit → result < limit }
    {
        let number = (self.next() % 65_521 % 256) as u8;
        if limit == 0 { 0 } else { number % limit }
    }

    /// Any byte.
    pub fn any_byte(&mut self) -> u8 {
        (self.next() % 256) as u8
    }

    /// Whether it comes up, once in so many.
    pub fn once_in(&mut self, many: u64) -> bool {
        self.below(many) == 0
    }
}

impl world_mem::Choice for Random {
    fn byte(&mut self) -> u8 {
        self.any_byte()
    }
}
