// Numbers drawn at random.
ghost use Rattle.std.specs.Prelude.{◌<◌};

// A sequence of them, after Park and Miller's minimal standard, and where it stands.
#[derive(Clone, Copy)]
pub struct Drawing {
    seed: u32,
    ghost below: { seed < 2147483647 },
}

impl Drawing {
    pub const START: Drawing = Drawing { seed: 1 };

    // The next number.
    pub fn next(&mut self) -> u32
        ensures { result < 2147483647 }
    {
        self.seed = (u64::from(self.seed) * 48271 % 2147483647) as u32;
        self.seed
    }
}
