// Whether a call answered and wrote what its case says.
#![tactic(auto)]

ghost use Rattle.std.specs.Prelude.{◌≡◌, length, IsTrue};

use error::Refusal;
use float_bits::{from_bits, has_bits};
use kernel::is_answer;
use refusal_rows::{Row, row_of};
use replay_fields::parts::Refused;
use replay_fields::{Fields, Malformed};

pub mod kernel;
#[cfg(test)]
mod tests;
pub mod texts;

// Whether a refusal is the expected one: its row of the table, with its values.
pub fn is_refusal(refusal: Refusal, expected: &Refused) -> bool {
    match (row_of(refusal), expected) {
        (Row::Count(number, count), Refused::One(row, value)) => {
            number == *row as u64 && count as u64 == *value
        }
        (Row::Real(number, x), Refused::One(row, bits)) => {
            number == *row as u64 && has_bits(x, *bits)
        }
        (Row::Reals(number, x, y), Refused::Two(row, x_bits, y_bits)) => {
            number == *row as u64 && has_bits(x, *x_bits) && has_bits(y, *y_bits)
        }
        _ => false,
    }
}

// Whether what a call that gives no value answered is expected.
pub fn is_checked<E>(answered: Result<(), Refusal>, expected: &Result<E, Refused>) -> bool {
    is_answer(answered, expected, |_, _| true)
}

// Whether the values are the reals of so many bit patterns. Any NaN matches any NaN.
pub fn are_reals(values: &[f64], bits: &[u64]) -> bool
    ensures { IsTrue result → (length values.now ≡ length bits.now) }
{
    values.len() == bits.len() && values.iter().zip(bits).all(|(x, bits)| has_bits(*x, *bits))
}

// Whether a call that writes to a lent slice answered and wrote what stands next in its case: its answer, and what is in the slice then.
pub fn is_written(answered: Result<(), Refusal>, written: &[f64], fields: &mut Fields<'_>) -> bool {
    let Ok(expected) = fields.read::<Result<(), Refused>>() else {
        return false;
    };
    is_checked(answered, &expected) && fields.are_reals(written)
}

// The work slice of a step or a run before the call: its length, and the bits of each element.
#[derive(Clone, Copy)]
pub struct Work {
    pub length: usize,
    pub bits: u64,
}

impl Work {
    // Reads the length, and then the bits.
    pub fn read(fields: &mut Fields<'_>) -> Result<Work, Malformed> {
        let length: usize = fields.read()?;
        let bits: u64 = fields.read()?;
        Ok(Work { length, bits })
    }

    // Its elements, made at the start of the room.
    pub fn elements<'r>(self, room: &'r mut [f64]) -> Result<&'r mut [f64], Malformed> {
        let elements = room.get_mut(..self.length).ok_or(Malformed)?;
        elements.fill(from_bits(self.bits));
        Ok(elements)
    }

    // Whether so many of the elements, at the start, are +0 after the call, and each other one is as it was before.
    pub fn is_cleared(self, elements: &[f64], cleared: usize) -> bool {
        let (start, rest) = elements.split_at(cleared.min(elements.len()));
        start.iter().all(|x| has_bits(*x, 0)) && rest.iter().all(|x| has_bits(*x, self.bits))
    }
}
