//! Readers and writers that fail, which no clause can make.
use rr_io::*;
use std::io;
use std::io::{ErrorKind, Read, Write};
use std::process::Abort;

/// Gives `ab`, is interrupted, and would give `ab` again.
#[derive(Drop)]
struct Interrupted {
    calls: u8,
}

impl Read for Interrupted {
    fn read(&mut self, buf: &mut [u8]) -> io::Result<usize> {
        if self.calls == 1 || buf.len() < 2 {
            return Err(io::Error::from(ErrorKind::Interrupted));
        }
        self.calls = 1;
        buf[0] = b'a';
        buf[1] = b'b';
        Ok(2)
    }
}

/// Takes nothing.
#[derive(Drop)]
struct Full;

impl Write for Full {
    fn write(&mut self, _buf: &[u8]) -> io::Result<usize> {
        Ok(0)
    }

    fn flush(&mut self) -> io::Result<()> {
        Ok(())
    }
}

/// Asserts that a read gives these bytes.
fn expect_read<S: Reader, R: Abort>(rt: &R, reader: &mut S, wanted: &[u8]) {
    let mut block = [0u8; 8];
    match reader.read(&mut block) {
        Ok(count) => assert!(rt; &block[..count] == wanted),
        Err(_) => panic!(rt; "a read fails"),
    }
}

/// Asserts that a read fails, as the last of so many.
fn expect_no_read<S: Reader, R: Abort>(rt: &R, reader: &mut S, failed: u64) {
    let mut block = [0u8; 8];
    assert!(rt; reader.read(&mut block).is_err());
    assert_eq!(rt; reader.failed_reads(), failed);
}

/// Asserts whether these pieces are written, and how many writes have failed by then.
fn expect_written<S: Writer, R: Abort>(
    rt: &R,
    sink: &mut S,
    pieces: &[&[u8]],
    is_ok: bool,
    failed: u64,
) {
    assert_eq!(rt; write_pieces(sink, pieces).is_ok(), is_ok);
    assert_eq!(rt; sink.failed_writes(), failed);
}

#[test]
fn writes_whole_texts(rt: HostRuntime) {
    let mut sink = Cut::new(Counted::new(Vec::new(rt.alloc())), 4, 100);
    assert!(rt; write_all(&mut sink, b"ab").is_ok());
    expect_written(&rt, &mut sink, &[b"cdefg", b"", b"h"], true, 0);
    assert_eq!(rt; sink.into_inner().into_inner().as_slice(), &b"abcdefgh"[..]);
}

#[test]
fn a_read_fails_after_the_bytes_that_pass(rt: HostRuntime) {
    let mut reader = Cut::new(Counted::new(&b"abcdef"[..]), 3, 4);
    expect_read(&rt, &mut reader, b"abc");
    expect_read(&rt, &mut reader, b"d");
    expect_no_read(&rt, &mut reader, 1);
    let counted = reader.into_inner();
    assert_eq!(rt; counted.failed_reads(), 0);
    assert_eq!(rt; counted.into_inner(), &b"ef"[..]);
}

#[test]
fn an_interrupted_read_is_a_fault(rt: HostRuntime) {
    let mut reader = Counted::new(Interrupted { calls: 0 });
    expect_read(&rt, &mut reader, b"ab");
    expect_no_read(&rt, &mut reader, 1);
}

#[test]
fn a_failed_write_leaves_a_prefix(rt: HostRuntime) {
    let mut sink = Cut::new(Counted::new(Vec::new(rt.alloc())), 2, 5);
    expect_written(&rt, &mut sink, &[b"ab", b"cdef", b"gh"], false, 1);
    expect_written(&rt, &mut sink, &[b"x"], false, 2);
    assert_eq!(rt; sink.into_inner().into_inner().as_slice(), &b"abcde"[..]);
}

#[test]
fn a_write_that_takes_nothing_is_a_fault(rt: HostRuntime) {
    let mut sink = Counted::new(Full);
    assert!(rt; sink.write(b"").is_ok());
    expect_written(&rt, &mut sink, &[b"a"], false, 1);
}

#[test]
fn a_connection_counts_the_faults_of_its_sides_apart(rt: HostRuntime) {
    let reader = Cut::new(Counted::new(&b"abc"[..]), 2, 2);
    let writer = Cut::new(Counted::new(Vec::new(rt.alloc())), 2, 3);
    let mut connection = Joined::new(reader, writer);
    expect_read(&rt, &mut connection, b"ab");
    expect_written(&rt, &mut connection, &[b"ab"], true, 0);
    expect_no_read(&rt, &mut connection, 1);
    expect_no_read(&rt, &mut connection, 2);
    expect_written(&rt, &mut connection, &[b"cd"], false, 1);
    assert_eq!(rt; connection.failed_reads(), 2);
    let (_, writer) = connection.into_parts();
    assert_eq!(rt; writer.into_inner().into_inner().as_slice(), &b"abc"[..]);
}
