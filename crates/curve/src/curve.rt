//! Curves: how they are made, written and read.
ghost use Rattle.std.specs.Prelude.{◌^◌, ◌<◌};
ghost use Rattle.std.specs.Int.Signed.{mag};

use content::{Content, WIDEST};
use std::fmt;

/// A rate, in the smallest unit of rates; it may be negative.
#[derive(Clone, Copy, Debug, PartialEq, Eq)]
pub struct Rate {
    pub value: i32,
    // what the type i32 keeps anyway, said for the laws; `mag` of a number n and of -n - 1 is n
    ghost fits: { mag value < 2 ^ 31 },
}

impl From<i32> for Rate {
    ghost use Rattle.std.specs.Prelude.{◌≡◌};

    ghost from_gives = { λ value rate. rate.value ≡ value };

    fn from(value: i32) -> Rate {
        Rate { value }
    }
}

impl fmt::Display for Rate {
    ghost use Rattle.std.specs.Prelude.{Some};
    ghost use Rattle.std.specs.Fmt.{signed_decimal};

    ghost output = { λ rate. Some (signed_decimal rate.value) };

    fn fmt<W: fmt::Write>(&self, f: &mut fmt::Formatter<W>) -> fmt::Result {
        write!(f, "{}", self.value)
    }
}

/// Four rates, in the order in which they are written.
#[derive(Clone, Copy, Debug, PartialEq, Eq)]
pub struct Curve {
    pub first: Rate,
    pub second: Rate,
    pub third: Rate,
    pub fourth: Rate,
}

impl Curve {
    ghost use Rattle.std.specs.Prelude.{◌≡◌, [], ◌∷◌};
    ghost use Rattle.curve.specs.Curve.{rates};

    /// The curve of four rates, as `Curve::new(-25, 10, 130, 275)`.
    pub fn new(first: i32, second: i32, third: i32, fourth: i32) -> Curve
        ensures { rates result ≡ first ∷ second ∷ third ∷ fourth ∷ [] }
    {
        Curve {
            first: Rate::from(first),
            second: Rate::from(second),
            third: Rate::from(third),
            fourth: Rate::from(fourth),
        }
    }
}

impl Content for Curve {
    ghost use Rattle.curve.specs.Curve.{curve_bytes, curve_read};
    ghost use Rattle.curve.specs.CurveLaws.{curve_reads_written, curve_writes_read};
    ghost use Rattle.std.proofs.Common.{rules};

    ghost width = { 16 };

    ghost meaning = { curve_bytes };

    ghost reads = { curve_read };

    ghost width_positive = { Prim.search rules };

    ghost width_bounded = { Prim.search rules };

    ghost meaning_fills_width = { Prim.search rules };

    ghost meaning_is_bytes = { Prim.search rules };

    ghost reads_written = { curve_reads_written };

    ghost writes_read = { curve_writes_read };

    fn width() -> usize {
        16
    }

    fn to_bytes(&self) -> [u8; WIDEST] {
        let mut bytes = [0; WIDEST];
        bytes[..4].copy_from_slice(&self.first.value.to_be_bytes());
        bytes[4..8].copy_from_slice(&self.second.value.to_be_bytes());
        bytes[8..12].copy_from_slice(&self.third.value.to_be_bytes());
        bytes[12..].copy_from_slice(&self.fourth.value.to_be_bytes());
        bytes
    }

    fn from_bytes(bytes: &[u8]) -> Option<Curve> {
        let ([first, second, third, fourth], []) = bytes.as_chunks::<4>() else {
            return None;
        };
        Some(Curve::new(
            i32::from_be_bytes(*first),
            i32::from_be_bytes(*second),
            i32::from_be_bytes(*third),
            i32::from_be_bytes(*fourth),
        ))
    }
}

impl fmt::Display for Curve {
    ghost use Rattle.std.specs.Prelude.{Some};
    ghost use Rattle.curve.specs.Curve.{shown_curve};

    ghost output = { λ curve. Some (shown_curve curve) };

    fn fmt<W: fmt::Write>(&self, f: &mut fmt::Formatter<W>) -> fmt::Result {
        write!(
            f,
            "{} {} {} {}",
            self.first, self.second, self.third, self.fourth
        )
    }
}
