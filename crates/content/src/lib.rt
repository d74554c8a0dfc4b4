//! What a price sheet may hold: the interface that a kind of content keeps.
#![tactic(auto)]

ghost use Rattle.std.specs.Prelude.{◌≡◌, ℕ, ◌≤◌, List, length, Some, Option};
ghost use Rattle.std.specs.Option.{option_map};
ghost use Rattle.content.specs.Bytes.{AllBytes, padded, widest};

/// The most bytes that a content may take.
pub const WIDEST: usize = 16;

/// A kind of content. A value is known by its bytes: `meaning` says which these are, `reads` which value bytes stand for.
/// Both ways are methods, and no `From` or `TryFrom`, so that a kind implements one trait with the laws of both.
pub trait Content: Sized + Drop {
    /// How many bytes each value takes.
    ghost width: { ℕ };

    /// The bytes of a value.
    ghost meaning: { Self → List ℕ };

    /// The value that bytes stand for, or none.
    ghost reads: { List ℕ → Option Self };

    /// How many bytes each value of this kind takes: `Quote::width()` is 8.
    fn width() -> usize
        ensures { result ≡ width };

    /// The bytes of this value, then zeros up to 16: so contents of all kinds fit one place. The bytes alone are `&content.to_bytes()[..C::width()]`.
    fn to_bytes(&self) -> [u8; WIDEST]
        ensures { result ≡ padded (meaning self.now) };

    /// The value that these bytes stand for, or none: `Quote::from_bytes(&[0, 0, 0, 2, 0, 0, 0, 1])` is none.
    fn from_bytes(bytes: &[u8]) -> Option<Self>
        ensures { result ≡ reads bytes.now };

    /// A value takes at least one byte,
    ghost width_positive: { 1 ≤ width };

    /// and at most 16.
    ghost width_bounded: { width ≤ widest };

    /// A value is written in exactly as many bytes as the kind is wide,
    ghost meaning_fills_width: { (content : Self) → length (meaning content) ≡ width };

    /// and each of them is a byte.
    ghost meaning_is_bytes: { (content : Self) → AllBytes (meaning content) };

    /// Reading what was written gives it back.
    ghost reads_written: { (content : Self) → reads (meaning content) ≡ Some content };

    /// Writing what was read gives those bytes.
    ghost writes_read: { (bytes : List ℕ) (content : Self) → AllBytes bytes → reads bytes ≡ Some content → meaning content ≡ bytes };
}

/// Writes a content and reads it again: every kind gives the content back.
pub fn read_back<C: Content>(content: &C) -> Option<C>
    ensures { result ≡ Some content.now }
{
    let bytes = content.to_bytes();
    C::from_bytes(&bytes[..C::width()])
}

/// Reads bytes and writes again what they stand for: the same bytes, then zeros up to 16; none if they are not of this kind.
pub fn write_back<C: Content>(bytes: &[u8]) -> Option<[u8; WIDEST]>
    ensures { result ≡ option_map (λ _. padded bytes.now) (C.reads bytes.now) }
{
    let content = C::from_bytes(bytes)?;
    Some(content.to_bytes())
}
