//! What became of a frame.
ghost use Rattle.std.specs.Prelude.{◌≡◌};
ghost use Rattle.delivery.specs.Delivery.{number};

/// What became of a frame that was delivered.
#[derive(Clone, Copy, Debug, PartialEq, Eq)]
pub enum Delivery {
    /// It met no condition, and nothing changed.
    Ignored = 0,
    /// Its receiver took it.
    Handled = 1,
    /// Its receiver took it, and its operation is answered.
    Answered = 2,
}

impl Delivery {
    /// The number that stands for it: `Delivery::Answered.number()` is 2.
    pub fn number(self) -> u8
        ensures { result ≡ number self }
    {
        self as u8
    }
}
