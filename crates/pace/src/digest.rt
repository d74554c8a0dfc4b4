//! A number that tells runs apart.

/// What was answered so far, as one number: it depends on each answer and on their order.
#[derive(Clone, Copy, Debug, PartialEq, Eq)]
pub(crate) struct Digest {
    value: u64,
}

impl Digest {
    pub(crate) fn new() -> Digest {
        Digest { value: 0 }
    }

    pub(crate) fn value(&self) -> u64 {
        self.value
    }

    /// One more number.
    pub(crate) fn add(&mut self, number: u64) {
        self.value = (self.value ^ number).wrapping_mul(0x0000_0100_0000_01b3);
    }

    /// One more number after the other.
    pub(crate) fn add_bytes(&mut self, bytes: &[u8]) {
        for byte in bytes {
            self.add(u64::from(*byte));
        }
    }
}
