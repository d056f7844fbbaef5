// What the cases of several kinds hold.
ghost use Rattle.std.specs.Prelude.{◌≡◌, ◌<◌, length, IfOk, IfErr};

use crate::{Field, Fields, Malformed};
use graph_checks::CsrParts;
use magnus_graph_checks::SpectralBound;

// Room for the slices of a Laplacian: so many row starts, columns and values.
#[derive(Drop)]
pub struct Room<const R: usize, const C: usize, const V: usize> {
    row_ptr: [usize; R],
    col_idx: [u32; C],
    vals: [f64; V],
}

impl<const R: usize, const C: usize, const V: usize> Room<R, C, V> {
    pub fn new() -> Self {
        Room {
            row_ptr: [0; R],
            col_idx: [0; C],
            vals: [0.0; V],
        }
    }

    // Reads the parts of a Laplacian, each slice to the start of its room.
    pub fn read<'r>(&'r mut self, fields: &mut Fields<'_>) -> Result<CsrParts<'r>, Malformed> {
        Ok(CsrParts {
            n: fields.read()?,
            row_ptr: fields.slice(&mut self.row_ptr)?,
            col_idx: fields.slice(&mut self.col_idx)?,
            vals: fields.slice(&mut self.vals)?,
        })
    }
}

impl Field for SpectralBound {
    fn read(fields: &mut Fields<'_>) -> Result<SpectralBound, Malformed> {
        Ok(SpectralBound {
            rho_bar_max: fields.read()?,
            convergence_radius_check: fields.read()?,
        })
    }
}

// A refusal that is expected: its row of document 01's table, and its values, one or two, a count as a number and a real as its bits. It is no
// `Refusal`: which of its cases a row is would be written out a second time here, and a NaN in one is equal to nothing, so that bits are compared
// in any case.
#[derive(Clone, Copy)]
pub enum Refused {
    One(u16, u64),
    Two(u16, u64, u64),
}

impl Refused {
    // Its row.
    pub fn number(&self) -> u16 {
        match self {
            Refused::One(number, _) | Refused::Two(number, _, _) => *number,
        }
    }
}

// An answer, and what stands behind one that accepts. Its number is 0 for an acceptance, which has no values, and else the row.
impl<T: Field> Field for Result<T, Refused> {
    fn read(fields: &mut Fields<'_>) -> Result<Result<T, Refused>, Malformed> {
        let number: u16 = fields.read()?;
        let count: u16 = fields.read()?;
        match (number, count) {
            (0, 0) => Ok(Ok(fields.read()?)),
            (_, 1) => Ok(Err(Refused::One(number, fields.read()?))),
            (_, 2) => Ok(Err(Refused::Two(number, fields.read()?, fields.read()?))),
            _ => Err(Malformed),
        }
    }
}

impl Fields<'_> {
    // An answer with any number of values, where a `Refused` has one or two: a refusal is its row, and as many values as stand there, which are read
    // to the start of the room.
    pub fn answer<'r, T: Field>(
        &mut self,
        room: &'r mut [u64],
    ) -> Result<Result<T, (u16, &'r [u64])>, Malformed>
        ensures { IfOk result (λ answer. IfErr answer (λ refused. (refused.0 ≡ 0 → ⊥) × (length refused.1.now < 65536))) }
    {
        let number: u16 = self.read()?;
        let count: u16 = self.read()?;
        let values = room.get_mut(..count as usize).ok_or(Malformed)?;
        for value in values.iter_mut() {
            *value = self.read()?;
        }
        if number != 0 {
            return Ok(Err((number, &*values)));
        }
        if count != 0 {
            return Err(Malformed);
        }
        Ok(Ok(self.read()?))
    }
}
