//! Readers and writers as contracts see them: what every function that reads or writes takes. The
//! clauses here bind `Counted`, `Joined` and `Cut`, and the readers and writers of `rr_commands`,
//! of `rr_http` and of tests.
ghost use Rattle.std.specs.Prelude.{◌≡◌};
ghost use Rattle.rr_io.specs.Told.{Told, beside};
ghost use Rattle.rr_io.specs.Sending.{WritesOnce};
ghost use Rattle.rr_io.specs.Receiving.{ReadsOnce};

use std::io;

/// A reader. An error of any kind is a fault, and leaves what there is to read as it was.
pub trait Reader {
    // The bytes that are left to read, where the reader tells them, and what stands beside the
    // reader. Also the counts of the reads that failed, and of those that did not.
    ghost told: { Self → Told };

    /// Reads the next bytes into the beginning of `buf` and says how many: none only at the end, or
    /// into an empty `buf`. This counts as one read, and as no fault. The error is that the read
    /// failed: no byte was read, and this counts as one fault, and as no read. Either count stays
    /// at 2^64 - 1 once it is there, and what stands beside the reader stays. Of the reader's bytes
    /// this is said where `told` tells them; of what else is in `buf` no clause says anything.
    fn read(&mut self, buf: &mut [u8]) -> io::Result<usize>
        ensures { ReadsOnce (told self.old) (told self.new) buf.new result };

    /// How many reads failed, up to `u64::MAX`: the faults that `told` counts.
    fn failed_reads(&self) -> u64
        ensures { result ≡ (told self.now).faults };
}

/// A writer. An error of any kind is a fault, and so is a write of at least one byte that takes
/// none.
pub trait Writer {
    // The bytes that were taken, where the writer tells them, the count of failed writes, and what
    // stands beside the writer.
    ghost told: { Self → Told };

    /// Takes bytes from the beginning of `bytes`, after those taken before, and says how many: none
    /// only of no bytes. This counts as no fault. The error is that the write failed: no byte was
    /// taken, and this counts as one fault, up to 2^64 - 1. Either way no read is counted, and what
    /// stands beside the writer stays. Of the bytes taken this is said where `told` tells them.
    fn write(&mut self, bytes: &[u8]) -> io::Result<usize>
        ensures { WritesOnce (told self.old) (told self.new) bytes.now result };

    /// How many writes failed, up to `u64::MAX`: the faults that `told` counts, apart from the
    /// failed reads of a reader in the same value.
    fn failed_writes(&self) -> u64
        ensures { result ≡ (told self.now).faults };
}

/// A reader and a writer in one value. What stands beside each is what the other tells, so that the
/// calls of each leave the other alone.
pub trait Connection: Reader + Writer {
    ghost read_leaves_writer: { (c : Self)
        → (Self.Reader.told c).aside ≡ beside (Self.Writer.told c) };

    ghost write_leaves_reader: { (c : Self)
        → (Self.Writer.told c).aside ≡ beside (Self.Reader.told c) };
}
