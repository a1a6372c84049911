//! Readers and writers that fail, or do less than they are asked for.

use std::alloc::Global;
use std::io;
use std::io::{Read, Write};
use tk_input::{FileFault, PutFailed, put_all, take_all};

/// A reader that fails at once.
#[derive(Drop)]
struct Broken {
    kind: io::ErrorKind,
}

impl Read for Broken {
    fn read(&mut self, _buf: &mut [u8]) -> io::Result<usize> {
        Err(io::Error::from(self.kind))
    }
}

/// A reader that gives one byte at a time, and so many of them.
#[derive(Drop)]
struct Trickle {
    left: usize,
}

impl Read for Trickle {
    fn read(&mut self, buf: &mut [u8]) -> io::Result<usize> {
        if self.left == 0 || buf.is_empty() {
            return Ok(0);
        }
        self.left -= 1;
        buf[0] = b'a';
        Ok(1)
    }
}

/// What comes of taking all from some bytes and an error behind them.
fn taken(alloc: Global, kind: io::ErrorKind) -> Result<(), FileFault> {
    let mut bytes = Vec::new(alloc);
    take_all(b"a,1\n".as_slice().chain(Broken { kind }), &mut bytes)
}

#[test]
fn a_read_error_is_no_end(rt: HostRuntime) {
    let alloc = rt.alloc();
    let taken = [
        taken(alloc, io::ErrorKind::Other),
        taken(alloc, io::ErrorKind::UnexpectedEof),
        taken(alloc, io::ErrorKind::OutOfMemory),
    ];
    let failed = Err(FileFault::Failed);
    assert!(rt; taken == [failed, failed, Err(FileFault::NoMemory)]);
}

#[test]
fn a_short_read_is_no_end(rt: HostRuntime) {
    let mut bytes = Vec::new(rt.alloc());
    let outcome = take_all(Trickle { left: 100 }, &mut bytes);
    let many = bytes.len();
    drop(bytes);
    assert!(rt; outcome == Ok(()) && many == 100);
}

/// A writer that takes one byte at a time, until it has no room.
#[derive(Drop)]
struct Narrow {
    room: usize,
    taken: usize,
}

impl Write for Narrow {
    fn write(&mut self, buf: &[u8]) -> io::Result<usize> {
        if self.taken >= self.room || buf.is_empty() {
            return Ok(0);
        }
        self.taken += 1;
        Ok(1)
    }

    fn flush(&mut self) -> io::Result<()> {
        Ok(())
    }
}

/// What comes of writing five bytes where there is so much room, and how many were taken.
fn written(room: usize) -> (Result<(), PutFailed>, usize) {
    let mut to = Narrow { room, taken: 0 };
    let outcome = put_all(&mut to, b"set 1");
    (outcome, to.taken)
}

#[test]
fn a_short_write_is_gone_on_with(rt: HostRuntime) {
    let written = [written(8), written(5), written(4)];
    assert!(rt; written == [(Ok(()), 5), (Ok(()), 5), (Err(PutFailed), 4)]);
}
