//! Copies of a sheet.
ghost use Rattle.std.specs.Prelude.{◌≡◌};
ghost use Rattle.tables.specs.Copies.{is_higher, copy_of, newer};

use content::WIDEST;
use frame::Tag;

/// One copy of a sheet: a content, and the tag of the write that it comes from. The content lies here as its bytes, then zeros.
#[derive(Clone, Copy, Debug, PartialEq, Eq)]
pub struct SheetCopy {
    pub tag: Tag,
    pub content: [u8; WIDEST],
}

impl SheetCopy {
    /// The copy with this tag and this content: its bytes, then zeros up to 16. Bytes behind the sixteenth have no place.
    pub fn new(tag: Tag, content: &[u8]) -> SheetCopy
        ensures { result ≡ copy_of tag content.now }
    {
        let mut bytes = [0; WIDEST];
        let length = content.len().min(WIDEST);
        bytes[..length].copy_from_slice(&content[..length]);
        SheetCopy {
            tag,
            content: bytes,
        }
    }

    /// The newer of the two: the other where its tag is higher, else this one.
    pub fn newer(self, other: SheetCopy) -> SheetCopy
        ensures { result ≡ newer self other }
    {
        if other.tag > self.tag { other } else { self }
    }
}
