// Tests of a job's bytes (01, "The job program"): whether a map is allowed, and the byte count that row 21 carries.
#![tactic(auto)]

ghost use Rattle.std.specs.Prelude.{◌≡◌, min};
ghost use Rattle.job_checks.specs.Map.{stands, required, allowed};
ghost use Rattle.job_checks.specs.Bits.{bit_of};

use kernel::stands_in;

pub mod kernel;

// The most bytes that a job has.
pub const MOST_BYTES: usize = 16384;

// The fields of a job, in the order of the map's bits.
#[derive(Clone, Copy)]
pub enum Field {
    // n, m, the row starts and the columns.
    Pattern,
    // The values of the three samples. The third selects order 6.
    Values1,
    Values2,
    Values3,
    Tau,
    // The spectral bound, which turns the check of the radius on.
    Bound,
    // The root bound and the weights of two samples, which select the weighted step.
    Weights,
    Signal,
    // No bytes: it selects the adjoint step.
    Adjoint,
}

impl Field {
    // Every field, in the order of the bits.
    pub const ALL: [Field; 9] = [
        Field::Pattern,
        Field::Values1,
        Field::Values2,
        Field::Values3,
        Field::Tau,
        Field::Bound,
        Field::Weights,
        Field::Signal,
        Field::Adjoint,
    ];

    // The map's bit for the field.
    pub fn bit(self) -> u64
        ensures { result ≡ bit_of self }
    {
        self as u64
    }
}

// The map of a job: which fields it has.
#[derive(Clone, Copy)]
pub struct Map {
    pub bits: u64,
}

impl Map {
    // Whether the job has a field.
    pub fn has(self, field: Field) -> bool
        ensures { result ≡ stands self.bits (bit_of field) }
    {
        stands_in(self.bits, field.bit())
    }

    // Whether it has the fields that no job lacks.
    #[tactic(auto, unfolding(crate::specs::Map::required))]
    fn has_required(self) -> bool
        ensures { result ≡ required self.bits }
    {
        self.has(Field::Pattern)
            && self.has(Field::Values1)
            && self.has(Field::Values2)
            && self.has(Field::Tau)
            && self.has(Field::Signal)
    }

    // Whether the map is allowed.
    #[tactic(auto, unfolding(crate::specs::Map::allowed))]
    pub fn is_allowed(self) -> bool
        ensures { result ≡ allowed self.bits }
    {
        let order6 = self.has(Field::Values3);
        let weighted = self.has(Field::Weights);
        let adjoint = self.has(Field::Adjoint);
        self.bits < 512 && self.has_required() && !(order6 && (weighted || adjoint))
    }
}

// The byte count that row 21 carries: 16,385 for anything longer.
pub fn byte_count(bytes: usize) -> usize
    ensures { result ≡ min bytes 16385 }
{
    bytes.min(MOST_BYTES + 1)
}
