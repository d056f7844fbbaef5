// The fields of a case, read one after the other (lists/README.md has the format). All numbers are little-endian. A slice is read to room that
// is lent for it, as a program that replays a list has no heap: it takes no more memory for a longer list, and cannot run out of it.
#![tactic(auto)]

ghost use Rattle.std.specs.Prelude.{◌≡◌, ◌≤◌, ◌↔◌, length, true, false};
ghost use Rattle.std.specs.declared.alloc.AllocError.{AllocError};
ghost use Rattle.replay_fields.specs.declared.Fault.{Fault};

use float_bits::{from_bits, has_bits};
use std::alloc::{AllocError, AllocFailed};
use std::num::TryFromIntError;

pub mod parts;
#[cfg(test)]
mod tests;

// The most bytes of fields that a case has.
pub const LONGEST: usize = 65536;

// The bytes of a case are none of its kind, or there is no room for what they hold.
#[derive(Clone, Copy, Debug)]
pub struct Malformed;

// A number that is too large for where it is used.
impl From<TryFromIntError> for Malformed {
    fn from(_error: TryFromIntError) -> Malformed {
        Malformed
    }
}

// Why a case cannot be replayed, for callers that allocate what it holds. Nothing here does.
#[derive(Debug, Drop)]
pub enum Fault {
    // The bytes are no case of its kind.
    Malformed,
    OutOfMemory(AllocError),
}

impl From<Malformed> for Fault {
    ghost from_gives = { λ _ fault. fault ≡ Fault.Malformed };

    fn from(_error: Malformed) -> Fault {
        Fault::Malformed
    }
}

impl From<AllocError> for Fault {
    ghost from_gives = { λ error fault. fault ≡ Fault.OutOfMemory error };

    fn from(error: AllocError) -> Fault {
        Fault::OutOfMemory(error)
    }
}

impl<T: Drop> From<AllocFailed<T>> for Fault {
    ghost from_gives = { λ _ fault. (error : AllocError) × (fault ≡ Fault.OutOfMemory error) };

    fn from(failed: AllocFailed<T>) -> Fault {
        Fault::OutOfMemory(AllocError::from(failed))
    }
}

// A number that is too large for where it is used.
impl From<TryFromIntError> for Fault {
    ghost from_gives = { λ _ fault. fault ≡ Fault.Malformed };

    fn from(error: TryFromIntError) -> Fault {
        Fault::from(Malformed::from(error))
    }
}

// The fields of a case that are still to be read.
#[derive(Clone, Copy)]
pub struct Fields<'a> {
    rest: &'a [u8],
    is_longest: bool,
}

impl<'a> Fields<'a> {
    // Fields in any bytes.
    pub fn new(bytes: &'a [u8]) -> Fields<'a>
        ensures { result.is_longest ≡ false }
    {
        Fields {
            rest: bytes,
            is_longest: false,
        }
    }

    // The fields of a case. One of the most bytes that a case has, or more, does not end with a number.
    pub fn of_case(bytes: &'a [u8]) -> Fields<'a>
        ensures { (result.is_longest ≡ true) ↔ (65536 ≤ length bytes.now) }
    {
        Fields {
            rest: bytes,
            is_longest: LONGEST <= bytes.len(),
        }
    }

    // Whether every field has been read.
    pub fn is_empty(&self) -> bool {
        self.rest.is_empty()
    }

    // So many bytes.
    pub fn bytes(&mut self, count: usize) -> Result<&'a [u8], Malformed> {
        let (bytes, rest) = self.rest.split_at_checked(count).ok_or(Malformed)?;
        self.rest = rest;
        Ok(bytes)
    }

    // The bytes of a number.
    fn array<const N: usize>(&mut self) -> Result<[u8; N], Malformed> {
        let (bytes, rest) = self.rest.split_first_chunk::<N>().ok_or(Malformed)?;
        if self.is_longest && rest.is_empty() {
            return Err(Malformed);
        }
        self.rest = rest;
        Ok(*bytes)
    }

    // The next field.
    pub fn read<T: Field>(&mut self) -> Result<T, Malformed> {
        T::read(self)
    }

    // A slice, to the start of its room: the count of its elements, then the elements.
    pub fn slice<'r, T: Field>(&mut self, room: &'r mut [T]) -> Result<&'r mut [T], Malformed> {
        let count: u32 = self.read()?;
        let slice = room.get_mut(..count as usize).ok_or(Malformed)?;
        for element in slice.iter_mut() {
            *element = self.read()?;
        }
        Ok(slice)
    }

    // Whether a slice of these reals stands there, in every bit. Any NaN matches any NaN.
    pub fn are_reals(&mut self, values: &[f64]) -> bool {
        let Ok(count) = self.read::<u32>() else {
            return false;
        };
        if count as usize != values.len() {
            return false;
        }
        for x in values {
            let Ok(bits) = self.read() else {
                return false;
            };
            if !has_bits(*x, bits) {
                return false;
            }
        }
        true
    }

    // A slice of bytes.
    pub fn byte_slice(&mut self) -> Result<&'a [u8], Malformed> {
        let count: u32 = self.read()?;
        self.bytes(count as usize)
    }
}

// What a case can hold as a field, or as several that belong together.
pub trait Field: Drop {
    fn read(fields: &mut Fields<'_>) -> Result<Self, Malformed>;

    // Whether it stands in a case as one number of 8 bytes, a word: a slice of words can be passed over without reading them, and `replay_rules` has a
    // rule of its own for one without elements.
    const IS_WORD: bool = false;
}

// The numbers have an impl each, which differ in the type: no trait has `from_le_bytes` of all four, so a generic impl would need one with as
// many impls, and `rt verdict` refuses those that a macro of the repository writes.
impl Field for u16 {
    fn read(fields: &mut Fields<'_>) -> Result<u16, Malformed> {
        Ok(u16::from_le_bytes(fields.array()?))
    }
}

impl Field for u32 {
    fn read(fields: &mut Fields<'_>) -> Result<u32, Malformed> {
        Ok(u32::from_le_bytes(fields.array()?))
    }
}

impl Field for u64 {
    const IS_WORD: bool = true;

    fn read(fields: &mut Fields<'_>) -> Result<u64, Malformed> {
        Ok(u64::from_le_bytes(fields.array()?))
    }
}

impl Field for usize {
    const IS_WORD: bool = true;

    fn read(fields: &mut Fields<'_>) -> Result<usize, Malformed> {
        Ok(usize::from_le_bytes(fields.array()?))
    }
}

// A real, stored as its bit pattern.
impl Field for f64 {
    const IS_WORD: bool = true;

    fn read(fields: &mut Fields<'_>) -> Result<f64, Malformed> {
        Ok(from_bits(fields.read()?))
    }
}

// A law, stored as a count.
impl Field for u8 {
    const IS_WORD: bool = true;

    fn read(fields: &mut Fields<'_>) -> Result<u8, Malformed> {
        let count: u64 = fields.read()?;
        Ok(u8::try_from(count)?)
    }
}

// A flag.
impl Field for bool {
    fn read(fields: &mut Fields<'_>) -> Result<bool, Malformed> {
        Ok(fields.array()? == [1])
    }
}

// Two that stand one behind the other.
impl<A: Field, B: Field> Field for (A, B) {
    fn read(fields: &mut Fields<'_>) -> Result<(A, B), Malformed> {
        Ok((fields.read()?, fields.read()?))
    }
}

// Nothing.
impl Field for () {
    fn read(_fields: &mut Fields<'_>) -> Result<(), Malformed> {
        Ok(())
    }
}
