//! What no contract can say: what a device leaves that fails in the middle, and names that no file has. Real files are
//! read and written by the stored runs of the program.
use super::press::put_on_screen;
use super::reading::read_whole;
use super::writing::put_into;
use super::*;
use fx_num::Text;
use outside::{FetchRefusal, Press, PutRefusal, Shelf};
use std::cell::RefCell;
use std::fmt::Display;
use std::io;
use std::io::{ErrorKind, Read, Write};
use std::test::Fail;

#[test]
fn no_file_has_a_name_that_is_no_text(rt: HostRuntime) -> Result<(), Fail> {
    let name = Text::from_bytes(rt.alloc(), b"\xff")?;
    let mut shelf = FileShelf::new(&rt);
    let fetched = shelf.fetch(rt.alloc(), &name).err();
    assert_eq!(rt; fetched, Some(FetchRefusal::Missing));
    let mut press = FilePress::new(&rt);
    let put = press.put(rt.alloc(), &name, true, b"Step");
    assert_eq!(rt; put, Err(PutRefusal::Faulted));
    Ok(())
}

/// Ten thousand bytes: 23 letters over and over, so that a part that is lost or comes twice is seen.
fn long_piece() -> [u8; 10_000] {
    let mut bytes = [b'x'; 10_000];
    let mut next = b'a';
    for byte in &mut bytes {
        *byte = next;
        next = if next < b'w' { next + 1 } else { b'a' };
    }
    bytes
}

/// A standard output that keeps what is written to it.
#[derive(Drop)]
struct Paper {
    written: RefCell<Vec<u8>>,
}

impl Print for Paper {
    fn print<D: Display + Drop>(&self, _value: D) -> io::Result<()> {
        Err(io::Error::from(ErrorKind::Unsupported))
    }

    fn println<D: Display + Drop>(&self, _value: D) -> io::Result<()> {
        Err(io::Error::from(ErrorKind::Unsupported))
    }

    fn write_all(&self, bytes: &[u8]) -> io::Result<()> {
        match self.written.try_borrow_mut() {
            Ok(mut written) => written.write_all(bytes),
            Err(_) => Err(io::Error::from(ErrorKind::ResourceBusy)),
        }
    }
}

#[test]
fn a_long_piece_is_put_on_the_screen_whole(rt: HostRuntime) -> Result<(), Fail> {
    let piece = long_piece();
    let paper = Paper {
        written: RefCell::new(Vec::new(rt.alloc())),
    };
    let mut faults = 0;
    put_on_screen(&mut faults, &paper, &piece)?;
    put_on_screen(&mut faults, &paper, b"Step")?;
    match paper.written.try_borrow() {
        Ok(written) => {
            assert!(rt; written.starts_with(&piece));
            assert_eq!(rt; &written[10_000..], b"Step".as_slice());
        }
        Err(_) => panic!(rt; "the paper is in use"),
    }
    Ok(())
}

/// A writer that takes two bytes at a time, and fails when it has no room left, or at its flush.
#[derive(Drop)]
struct Narrow {
    room: usize,
    flushes: bool,
}

impl Narrow {
    /// A writer of this room.
    fn of(room: usize) -> Narrow {
        let flushes = true;
        Narrow { room, flushes }
    }
}

impl Write for Narrow {
    fn write(&mut self, buf: &[u8]) -> io::Result<usize> {
        if self.room == 0 {
            return Err(io::Error::from(ErrorKind::WriteZero));
        }
        let taken = buf.len().min(self.room).min(2);
        self.room -= taken;
        Ok(taken)
    }

    fn flush(&mut self) -> io::Result<()> {
        if self.flushes {
            Ok(())
        } else {
            Err(io::Error::from(ErrorKind::StorageFull))
        }
    }
}

#[test]
fn a_put_that_fails_in_the_middle_is_counted(rt: HostRuntime) -> Result<(), Fail> {
    let faulted = Err(PutRefusal::Faulted);
    let unopened = |kind| Err(io::Error::from(kind));
    let unflushed = Narrow {
        room: 9,
        flushes: false,
    };
    let mut faults = 0;
    for (mut opened, want, count) in [
        (Ok(Narrow::of(9)), Ok(()), 0),
        (Ok(Narrow::of(8)), faulted, 1),
        (Ok(Narrow::of(0)), faulted, 2),
        (
            unopened(ErrorKind::OutOfMemory),
            Err(PutRefusal::NoMemory),
            2,
        ),
        (unopened(ErrorKind::PermissionDenied), faulted, 3),
        (Ok(unflushed), faulted, 4),
    ] {
        let answer = put_into(&mut faults, &mut opened, b"Step Temp");
        assert_eq!(rt; answer, want);
        assert_eq!(rt; faults, count);
    }
    Ok(())
}

#[test]
fn pieces_are_written_as_a_whole_and_in_turn(rt: HostRuntime) -> Result<(), Fail> {
    let mut faults = 0;
    let mut opened = Ok(Vec::new(rt.alloc()));
    put_into(&mut faults, &mut opened, b"Step ")?;
    put_into(&mut faults, &mut opened, b"Temp")?;
    assert_eq!(rt; opened?.as_slice(), b"Step Temp".as_slice());
    Ok(())
}

/// A reader of `run 10` that gives three bytes, is interrupted, and then gives the others or fails.
#[derive(Drop)]
struct InParts {
    calls: u32,
    fails: bool,
}

impl Read for InParts {
    fn read(&mut self, buf: &mut [u8]) -> io::Result<usize> {
        self.calls = self.calls.saturating_add(1);
        let part: &[u8] = match self.calls {
            1 => b"run",
            2 => return Err(io::Error::from(ErrorKind::Interrupted)),
            3 if self.fails => return Err(io::Error::from(ErrorKind::UnexpectedEof)),
            3 => b" 10",
            _ => b"",
        };
        let count = part.len().min(buf.len());
        buf[..count].copy_from_slice(&part[..count]);
        Ok(count)
    }
}

#[test]
fn a_read_that_fails_in_the_middle_is_no_end(rt: HostRuntime) -> Result<(), Fail> {
    let mut whole = InParts {
        calls: 0,
        fails: false,
    };
    assert_eq!(rt;
        read_whole(rt.alloc(), &mut whole)?.as_bytes(),
        b"run 10".as_slice()
    );
    let mut broken = InParts {
        calls: 0,
        fails: true,
    };
    match read_whole(rt.alloc(), &mut broken) {
        Ok(_) => panic!(rt; "a front was taken for the whole"),
        Err(refusal) => assert_eq!(rt; refusal, FetchRefusal::Faulted),
    }
    Ok(())
}
