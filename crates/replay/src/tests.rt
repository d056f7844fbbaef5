// What no clause says of a list on a runtime's input: which cases are counted and which are wrong, and that a failure is told.
use crate::{Tally, replay};
use replay_fields::{Fault, Fields};
use std::alloc::{AllocError, Allocator};
use std::fmt::Display;
use std::io::{self, BufRead, ErrorKind, Lines, Read};

// A list as the input, whose `read` may fail behind its last byte, and an output to which a line can be written or not.
#[derive(Clone, Copy)]
struct List<'a> {
    bytes: &'a [u8],
    is_broken: bool,
    is_closed: bool,
}

impl Read for List<'_> {
    fn read(&mut self, buf: &mut [u8]) -> io::Result<usize> {
        if self.is_broken && self.bytes.is_empty() {
            return Err(ErrorKind::Other.into());
        }
        self.bytes.read(buf)
    }
}

impl BufRead for List<'_> {
    fn fill_buf(&mut self) -> io::Result<&[u8]> {
        Ok(self.bytes)
    }

    fn consume(&mut self, amount: usize) {
        self.bytes = self.bytes.get(amount..).unwrap_or(b"");
    }
}

impl<'a> Input for List<'a> {
    type Reader = List<'a>;

    fn read_line<A: Allocator + Clone>(&self, buf: &mut String<A>) -> io::Result<usize> {
        BufRead::read_line(&mut self.reader(), buf)
    }

    fn lines<A: Allocator>(&self, alloc: A) -> Lines<List<'a>, A> {
        BufRead::lines(self.reader(), alloc)
    }

    fn reader(&self) -> List<'a> {
        *self
    }
}

impl Print for List<'_> {
    fn print<D: Display + Drop>(&self, _value: D) -> io::Result<()> {
        self.write_all(b"")
    }

    fn println<D: Display + Drop>(&self, _value: D) -> io::Result<()> {
        self.write_all(b"")
    }

    fn write_all(&self, _bytes: &[u8]) -> io::Result<()> {
        if self.is_closed {
            return Err(ErrorKind::BrokenPipe.into());
        }
        Ok(())
    }
}

// The kind 1, of cases that are right where their flag is 1. For the kind 2 memory has run out.
#[derive(Drop)]
struct Flag;

impl TryFrom<u16> for Flag {
    type Error = Fault;

    fn try_from(kind: u16) -> Result<Flag, Fault> {
        match kind {
            1 => Ok(Flag),
            2 => Err(Fault::OutOfMemory(AllocError)),
            _ => Err(Fault::Malformed),
        }
    }
}

fn is_right(_kind: Flag, fields: &mut Fields<'_>) -> Result<bool, Fault> {
    Ok(fields.read()?)
}

fn replayed(bytes: &[u8], is_closed: bool) -> io::Result<Tally> {
    let list = List {
        bytes,
        is_broken: false,
        is_closed,
    };
    replay(&list, is_right)
}

// A right case, a wrong one, one of no kind, one without its flag, one with a byte too many, and the beginning of one.
const CASES: [u8; 37] = [
    1, 0, 1, 0, 0, 0, 1, 1, 0, 1, 0, 0, 0, 0, 3, 0, 1, 0, 0, 0, 1, 1, 0, 0, 0, 0, 0, 1, 0, 2, 0, 0,
    0, 1, 0, 1, 0,
];

#[test]
fn each_case_is_counted(rt: HostRuntime) -> io::Result<()> {
    let tally = replayed(&CASES, false)?;
    assert_eq!(rt; tally.cases, 5);
    assert_eq!(rt; tally.wrong, 4);
    Ok(())
}

#[test]
fn a_line_that_cannot_be_written_is_told(rt: HostRuntime) {
    assert!(rt; replayed(&CASES, true).is_err());
    assert!(rt; replayed(&CASES[..7], true).is_ok());
    assert!(rt; replayed(&CASES[..5], true).is_err());
}

#[test]
fn memory_that_ran_out_is_told(rt: HostRuntime) {
    assert!(rt; replayed(&[2, 0, 0, 0, 0, 0], false).is_err());
}

// Behind a right case, within a case and within a head, and behind a head that is none.
#[test]
fn a_read_that_fails_is_told(rt: HostRuntime) {
    for count in [7, 34, 37] {
        let list = List {
            bytes: &CASES[..count],
            is_broken: true,
            is_closed: false,
        };
        assert!(rt; replay(&list, is_right).is_err());
    }
    let list = List {
        bytes: &[0, 0, 1, 0, 1, 0],
        is_broken: true,
        is_closed: false,
    };
    assert!(rt; replay(&list, is_right).is_err());
}
