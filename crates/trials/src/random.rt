//! Pseudo-random numbers, the same on every machine.
ghost use Rattle.std.specs.Prelude.{◌<◌};

/// The generator SplitMix64: a counter with an odd step, each of its values mixed.
#[derive(Drop)]
pub(crate) struct Random {
    state: u64,
}

impl Random {
    /// The generator that begins with a seed.
    pub(crate) fn new(seed: u64) -> Random {
        Random { state: seed }
    }

    /// The next number.
    pub(crate) fn next(&mut self) -> u64 {
        self.state = self.state.wrapping_add(0x9E37_79B9_7F4A_7C15);
        let mut mixed = self.state;
        mixed = (mixed ^ (mixed >> 30)).wrapping_mul(0xBF58_476D_1CE4_E5B9);
        mixed = (mixed ^ (mixed >> 27)).wrapping_mul(0x94D0_49BB_1331_11EB);
        mixed ^ (mixed >> 31)
    }

    /// A number below the end; 0 if the end is 0.
    pub(crate) fn below(&mut self, end: u16) -> u16
        ensures { 0 < end → result < end }
    {
        if end == 0 {
            return 0;
        }
        (self.next() % u64::from(end)) as u16
    }

    /// A byte below the end; 0 if the end is 0.
    pub(crate) fn byte_below(&mut self, end: u8) -> u8
        ensures { 0 < end → result < end }
    {
        if end == 0 {
            return 0;
        }
        (self.next() % u64::from(end)) as u8
    }

    /// Any byte.
    pub(crate) fn byte(&mut self) -> u8 {
        (self.next() & 0xff) as u8
    }

    /// An index of a slice of this length, as a place to begin a search at.
    pub(crate) fn index(&mut self, length: usize) -> usize {
        if length == 0 {
            return 0;
        }
        (self.next() % (length as u64)) as usize
    }

    /// Whether what happens in so many of a hundred cases happens now.
    pub(crate) fn in_hundred(&mut self, cases: u16) -> bool {
        self.below(100) < cases
    }
}
