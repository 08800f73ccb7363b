//! A reader or a writer that is cut short, for tests.
ghost use Rattle.std.specs.Prelude.{◌≡◌, ◌<◌, min};
ghost use Rattle.rr_io.specs.Sending.{WritesOnce};
ghost use Rattle.rr_io.specs.Receiving.{ReadsOnce};

use super::{Reader, Writer};
use crate::counting::count_one;
use std::io;
use std::io::ErrorKind;

/// A reader or a writer for tests: it passes at most `step` bytes in a call, and fails in each call
/// once `left` bytes have passed. Before that it fails only where what is inside does.
#[derive(Drop)]
pub struct Cut<T> {
    inner: T,
    step: usize,
    left: usize,
    failed_reads: u64,
    failed_writes: u64,
    ghost moves: { 0 < step },
}

impl<T> Cut<T> {
    ghost use Rattle.rr_io.specs.Cut.{cut_inner, cut_left, cut_step, reads_cut, writes_cut};

    /// `inner`, cut after `left` bytes, at most `step` of them in a call; `step` must be at least
    /// one. No call has failed at the cut so far.
    pub fn new(inner: T, step: usize, left: usize) -> Self
        requires { 0 < step }
        ensures inner { cut_inner result ≡ inner }
        ensures failed_reads { reads_cut result ≡ 0 }
        ensures failed_writes { writes_cut result ≡ 0 }
        ensures step { cut_step result ≡ step }
        ensures left { cut_left result ≡ left }
    {
        Cut {
            inner,
            step,
            left,
            failed_reads: 0,
            failed_writes: 0,
        }
    }

    /// The reader or writer inside.
    pub fn into_inner(self) -> T
        ensures { result ≡ cut_inner self }
    {
        let Cut { inner, .. } = self;
        inner
    }

    /// How many bytes a call over `room` bytes may pass: none only where `room` or `left` is 0.
    fn passing(&self, room: usize) -> usize
        ensures value { result ≡ min (min room self.now.step) self.now.left }
        ensures some { 0 < self.now.left → 0 < room → 0 < result }
    {
        room.min(self.step).min(self.left)
    }
}

impl<T: Reader> Reader for Cut<T> {
    ghost use Rattle.rr_io.specs.Cut.{cut_told, reads_cut, PassesUntilCut};

    ghost told = { cut_told T.told reads_cut };

    /// Reads as `Reader::read` says, at most `step` bytes, and so many fewer are left to pass;
    /// `step` stays. Where none is left, it fails, and what is inside stays as it is; before that
    /// it fails only where the read of what is inside does. A failure is counted only where it
    /// happens, and leaves what may still pass.
    fn read(&mut self, buf: &mut [u8]) -> io::Result<usize>
        ensures reads { ReadsOnce (cut_told T.told reads_cut self.old)
            (cut_told T.told reads_cut self.new) buf.new result }
        ensures cut { PassesUntilCut T.told reads_cut self.old self.new result }
    {
        if self.left == 0 {
            count_one(&mut self.failed_reads);
            return Err(io::Error::from(ErrorKind::BrokenPipe));
        }
        let passing = self.passing(buf.len());
        let count = self.inner.read(&mut buf[..passing])?;
        self.left -= count;
        Ok(count)
    }

    fn failed_reads(&self) -> u64 {
        self.inner.failed_reads().saturating_add(self.failed_reads)
    }
}

impl<T: Writer> Writer for Cut<T> {
    ghost use Rattle.rr_io.specs.Cut.{cut_told, writes_cut, PassesUntilCut};

    ghost told = { cut_told T.told writes_cut };

    /// Takes bytes as `Writer::write` says, at most `step`, and so many fewer are left to pass;
    /// `step` stays. Where none is left, it fails, and what is inside stays as it is; before that
    /// it fails only where the write to what is inside does. A failure is counted only where it
    /// happens, and leaves what may still pass.
    fn write(&mut self, bytes: &[u8]) -> io::Result<usize>
        ensures writes { WritesOnce (cut_told T.told writes_cut self.old)
            (cut_told T.told writes_cut self.new) bytes.now result }
        ensures cut { PassesUntilCut T.told writes_cut self.old self.new result }
    {
        if self.left == 0 {
            count_one(&mut self.failed_writes);
            return Err(io::Error::from(ErrorKind::BrokenPipe));
        }
        let passing = self.passing(bytes.len());
        let count = self.inner.write(&bytes[..passing])?;
        self.left -= count;
        Ok(count)
    }

    fn failed_writes(&self) -> u64 {
        self.inner
            .failed_writes()
            .saturating_add(self.failed_writes)
    }
}
