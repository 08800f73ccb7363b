//! The standard streams, of which some may be closed as the program starts: `main` fills these.

ghost use Rattle.std.specs.Fd.{file_raw_fd};
ghost use Rattle.std.specs.Prelude.{◌≡◌, IfSome};

use std::fs::File;
use std::io;
use std::io::{Read, Stdin};
use std::os::fd::{AsRawFd, RawFd};

/// Linux's number for a closed stream.
const EBADF: i32 = 9;

/// Fills the place of each standard stream that is closed, in order, because what is opened gets
/// the lowest free number. For each stream it returns the file in its place; `None` if the stream
/// is open, or if its place could not be filled. While the caller keeps these files, no other file
/// and no socket gets the number of a stream whose place is filled. So nothing that is meant for
/// the stream goes into another file, as a line of standard error into a reply. No clause says any
/// of this.
pub fn fill_closed(rt: &HostRuntime) -> [Option<File>; 3] {
    [fill(rt, 0), fill(rt, 1), fill(rt, 2)]
}

/// Fills the place of the stream of this number: what is returned has that number. `None` if the
/// stream is open, or if it cannot be filled, and then the program goes on without. It is filled by
/// the root folder. A write to that fails with error 9, as one to a closed stream does. Neither it
/// nor what opens the stream by name, as `/dev/stdin`, can be read, so no text is taken for an
/// empty one.
fn fill(rt: &HostRuntime, number: RawFd) -> Option<File>
    ensures { IfSome result (λ file. file_raw_fd file ≡ number) }
{
    match File::open(rt, "/") {
        Ok(file) if file.as_raw_fd() == number => Some(file),
        _ => None,
    }
}

/// Standard input, whose reads fail if it was closed: those of what fills its place would have
/// another cause.
#[derive(Drop)]
pub struct StandardInput {
    stdin: Stdin,
    is_closed: bool,
}

impl StandardInput {
    /// Standard input, closed if `is_closed`, which is that its place was filled.
    pub fn new(rt: &HostRuntime, is_closed: bool) -> StandardInput
        ensures { result.is_closed ≡ is_closed }
    {
        StandardInput {
            stdin: rt.stdin(),
            is_closed,
        }
    }
}

impl Read for StandardInput {
    /// Reads some bytes. If it is closed, this fails with error 9. No clause says so.
    fn read(&mut self, buf: &mut [u8]) -> io::Result<usize> {
        if self.is_closed {
            Err(io::Error::from_raw_os_error(EBADF))
        } else {
            self.stdin.read(buf)
        }
    }
}
