// Replays a stored list of test cases, from standard input (`kernel::replay`) or a runtime's. lists/README.md has the format: each case is its kind in
// 2 bytes, the length of the rest in 4, and that many bytes of fields; all numbers are little-endian.
// `replay_fields` reads what a case holds, and `replay_answers` compares it with what a call answered and wrote.
#![tactic(auto)]

ghost use Rattle.std.specs.Prelude.{◌≡◌, IsTrue};

use replay_fields::{Fields, LONGEST, Malformed};
use std::fmt;

pub mod kernel;

pub use kernel::input::replay;

#[cfg(test)]
mod tests;

const STDIN_FILENO: i32 = 0;

// The most cases that a list has.
const MOST: u64 = 1_000_000;

// Reads the next case of the list: its kind, and its fields to the start of the room. There is none where the list has ended; where no whole case
// is left, it is no list any more. By the crate `io`, whose calls end a failed read as the end of the input.
fn next_case<'a>(room: &'a mut [u8; LONGEST]) -> Result<Option<(u16, Fields<'a>)>, Malformed> {
    let mut head = [0u8; 6];
    let read = io::read_full(STDIN_FILENO, &mut head);
    if read == 0 {
        return Ok(None);
    }
    if read < 6 {
        return Err(Malformed);
    }
    let mut head = Fields::new(&head);
    let kind: u16 = head.read()?;
    let length: u32 = head.read()?;
    let fields = room.get_mut(..length as usize).ok_or(Malformed)?;
    if io::read_full(STDIN_FILENO, fields) < fields.len() {
        return Err(Malformed);
    }
    Ok(Some((kind, Fields::of_case(fields))))
}

// How many cases were replayed, how many of them were wrong, and whether the list has ended or is no list any more.
#[derive(Clone, Copy, Default)]
pub struct Tally {
    pub cases: u64,
    pub wrong: u64,
    pub ended: bool,
}

impl Tally {
    // One case more of a list, right or wrong, with which it has not ended; a list has at most a million. A wrong one is named on a line of its own. A line
    // that cannot be written is left out, here and where the programs print their last one: what was found is the same.
    pub fn count_case(&mut self, rt: &impl Print, right: bool) {
        if MOST <= self.cases || MOST <= self.wrong {
            self.stop(rt, false);
            return;
        }
        self.cases = self.cases.saturating_add(1);
        self.ended = false;
        if !right {
            self.wrong = self.wrong.saturating_add(1);
            let case = self.cases;
            let _ = println!(rt; "wrong: case {case}");
        }
    }

    // One case more, right or wrong, however many there were. A wrong one is named on a line of its own, and where that cannot be written the answer says so.
    pub fn count(&mut self, rt: &impl Print, right: bool) -> std::io::Result<()>
        ensures { IsTrue right → (self.new.wrong ≡ self.old.wrong) }
    {
        let case = self.cases.saturating_add(1);
        self.cases = case;
        self.ended = false;
        if !right {
            self.wrong = self.wrong.saturating_add(1);
            println!(rt; "wrong: case {case}")?;
        }
        Ok(())
    }

    // The list has ended, or what follows is no list, or too much of one, which is said.
    pub fn stop(&mut self, rt: &impl Print, whole: bool) {
        self.ended = true;
        if !whole {
            let _ = println!(rt; "the list is cut off");
        }
    }
}

impl fmt::Display for Tally {
    fn fmt<W: fmt::Write>(&self, f: &mut fmt::Formatter<W>) -> fmt::Result {
        let cases = self.cases;
        let wrong = self.wrong;
        write!(f, "{cases} cases, {wrong} wrong")
    }
}
