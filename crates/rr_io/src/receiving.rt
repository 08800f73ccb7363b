//! The limits on the reading of a text, and how a reading ends: for `Paragraphs` of `rr_text`, and
//! for `rr_submission`. `rr_http` reads bodies by `READ_SIZE`. After a reply `rr_listener` makes at
//! most 512 reads of that size, which are 2 MiB: if `READ_SIZE` changes, so does this limit, and no
//! proof notes it.
ghost use Rattle.std.specs.Prelude.{◌≡◌, IsTrue, ◌↔◌};

/// How many reads the reading of a text makes at most (profile). Messages of `rr_commands` have the
/// number in their words.
pub const READ_LIMIT: u32 = 16_777_216;

/// How many bytes a read of a text asks for at most (profile).
pub const READ_SIZE: usize = 4_096;

/// How a reading ended.
#[derive(Clone, Copy, Debug, PartialEq, Eq)]
pub enum ReadEnd {
    /// At the end of the reader.
    Whole,
    /// By a failed read.
    Broken,
    /// After 16,777,216 reads without an end and without a fault.
    Endless,
}

impl ReadEnd {
    /// Whether it is `Whole`: the reader came to its end.
    pub fn is_whole(self) -> bool
        ensures { IsTrue result ↔ (self ≡ ReadEnd.Whole) }
    {
        matches!(self, ReadEnd::Whole)
    }
}
