// The driver for a list on a runtime's input, whose answer says where reading, writing a line or the memory of a call failed. Cases before a failed read
// have been replayed by then.
ghost use Rattle.std.specs.Prelude.{IfOk, IsTrue};

use crate::{MOST, Tally};
use replay_fields::{Fault, Fields, LONGEST, Malformed};
use std::io::{self, Read};

// Reads to the start of the buffer until it is full or the input ends, and says how many bytes.
fn read_full(reader: &mut impl Read, buffer: &mut [u8]) -> io::Result<usize> {
    let mut read = 0usize;
    for _ in 0..u64::MAX {
        let Some(rest) = buffer.get_mut(read..) else {
            break;
        };
        if rest.is_empty() {
            break;
        }
        match reader.read(rest) {
            Ok(0) => break,
            Ok(more) => read = read.saturating_add(more),
            Err(error) if error.kind() == io::ErrorKind::Interrupted => {}
            Err(error) => return Err(error),
        }
    }
    Ok(read)
}

// Reads the next case: its kind, and its fields to the start of the room. There is none where the list has ended; where no whole case is left, it is
// no list any more.
fn next_case<'a>(
    reader: &mut impl Read,
    room: &'a mut [u8; LONGEST],
) -> io::Result<Option<Result<(u16, Fields<'a>), Malformed>>> {
    let mut head = [0u8; 6];
    let read = read_full(reader, &mut head)?;
    if read == 0 {
        return Ok(None);
    }
    let numbers: Result<(u16, u32), Malformed> = Fields::new(&head).read();
    let (Ok((kind, length)), 6) = (numbers, read) else {
        return Ok(Some(Err(Malformed)));
    };
    let Some(bytes) = room.get_mut(..length as usize) else {
        return Ok(Some(Err(Malformed)));
    };
    if read_full(reader, bytes)? < bytes.len() {
        return Ok(Some(Err(Malformed)));
    }
    Ok(Some(Ok((kind, Fields::new(bytes)))))
}

// Reads what is left of the input, so that a failure there is told too, and says whether anything was.
fn read_rest(reader: &mut impl Read, room: &mut [u8; LONGEST]) -> io::Result<bool> {
    let mut is_any = false;
    for _ in 0..u64::MAX {
        if read_full(reader, room)? == 0 {
            break;
        }
        is_any = true;
    }
    Ok(is_any)
}

// Whether a case is right: its call, which reads its fields, finds it so, and nothing is left of them.
fn is_case_right<K: TryFrom<u16, Error = Fault>, F: Fn(K, &mut Fields<'_>) -> Result<bool, Fault>>(
    kind: u16,
    fields: &mut Fields<'_>,
    is_right: &F,
) -> Result<bool, Fault>
    requires { F.IsAlwaysCallable is_right.now }
{
    Ok(is_right(K::try_from(kind)?, fields)? && fields.is_empty())
}

// Replays the list on the runtime's input, whose cases are of the kinds K. A list that does not end behind its last case is cut off. A longest case may end
// with a number here.
pub fn replay<
    R: Input + Print,
    K: TryFrom<u16, Error = Fault>,
    F: Fn(K, &mut Fields<'_>) -> Result<bool, Fault>,
>(rt: &R, is_right: F) -> io::Result<Tally>
    requires { F.IsAlwaysCallable is_right }
    ensures { IfOk result (λ tally. IsTrue tally.ended) }
{
    let mut reader = rt.reader();
    let mut room = [0; LONGEST];
    let mut tally = Tally::default();
    let mut is_whole = false;
    let mut is_cut_off = false;
    for _ in 0..MOST {
        match next_case(&mut reader, &mut room)? {
            Some(Ok((kind, mut fields))) => {
                let right = match is_case_right(kind, &mut fields, &is_right) {
                    Ok(right) => right,
                    Err(Fault::Malformed) => false,
                    Err(Fault::OutOfMemory(error)) => return Err(error.into()),
                };
                tally.count(rt, right)?;
            }
            Some(Err(Malformed)) => {
                is_cut_off = true;
                break;
            }
            None => {
                is_whole = true;
                break;
            }
        }
    }
    if !is_whole && (read_rest(&mut reader, &mut room)? || is_cut_off) {
        println!(rt; "the list is cut off")?;
    }
    tally.ended = true;
    Ok(tally)
}
