//! Sets of bytes that stand round a text, or between the words or items in it: `trims` and `parts`
//! leave them out.

ghost use Rattle.std.specs.Prelude.{◌≡◌};
ghost use Rattle.rr_bytes.specs.ByteSets.{is_in};

/// A set of bytes that stand round a text, or between the words or items in it (RFC 2622, 2; CR:
/// profile).
#[derive(Clone, Copy, Debug, PartialEq, Eq)]
pub enum ByteSet {
    /// Spaces, tabs and CRs: the blanks inside a line, between words.
    Blanks,
    /// Spaces, tabs, CRs and LFs: the blanks round a line.
    BlanksAndLineFeeds,
    /// Spaces, tabs, CRs and commas, between the items of a list.
    BlanksAndCommas,
}

impl ByteSet {
    /// Whether the byte is one of the set.
    #[inline]
    pub fn has(self, byte: u8) -> bool
        ensures { result ≡ is_in self byte }
    {
        let is_blank = (byte == b' ') | (byte == b'\t') | (byte == b'\r');
        match self {
            ByteSet::Blanks => is_blank,
            ByteSet::BlanksAndLineFeeds => is_blank | (byte == b'\n'),
            ByteSet::BlanksAndCommas => is_blank | (byte == b','),
        }
    }
}
