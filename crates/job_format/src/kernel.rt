// A job, and what its bytes say. Past the end of its bytes they read 0.
ghost use Rattle.std.specs.Prelude.{◌≡◌, ◌+◌, ◌*◌, ◌^◌, ◌≤◌, ◌<◌, length, get_or};
ghost use Rattle.job_checks.specs.Bits.{bit_of};
ghost use Rattle.job_format.specs.JobFormat.{field_sizes, word16, real, job_map, job_nodes, job_entries, job_has, job_field};

use float_bits::from_bits;
use job_checks::kernel::stands_in;
use job_checks::{Field, Map};
use little_endian::kernel::{word16, word64};
use std::marker::Model;

mod lists;
mod numbers;

// With what a job starts: the map, n and m.
#[derive(Clone, Copy)]
pub struct Head {
    pub map: Map,
    pub nodes: usize,
    pub entries: usize,
}

// The head of a job with these bytes.
#[tactic(auto, unfolding(crate::specs::JobFormat::job_map, crate::specs::JobFormat::job_nodes, crate::specs::JobFormat::job_entries))]
pub fn head_of(bytes: &[u8]) -> Head
    ensures map_value { (result.map.bits ≡ job_map bytes.now) × (result.map.bits < 65536) }
    ensures nodes_value { (result.nodes ≡ job_nodes bytes.now) × (result.nodes < 65536) }
    ensures entries_value { (result.entries ≡ job_entries bytes.now) × (result.entries < 65536) }
{
    Head {
        map: Map {
            bits: number_at(bytes, 0),
        },
        nodes: number_at(bytes, 2) as usize,
        entries: number_at(bytes, 4) as usize,
    }
}

// The bytes of a job, and their head. A contract sees it as the list of its bytes.
#[derive(Clone, Drop)]
pub struct Job<'a> {
    bytes: &'a [u8],
    head: Head,
}

impl<'a> Model for Job<'a> {
    ghost use Rattle.std.specs.Prelude.{ℕ, List};
    ghost use Rattle.job_format.specs.Head.{Head};

    ghost Value = { List ℕ };

    ghost view = { λ j. j.bytes.now };

    ghost invariant = { λ j. Head j.bytes.now j.head.map.bits j.head.nodes j.head.entries };
}

impl<'a> Job<'a> {
    // The job with these bytes.
    pub fn new(bytes: &'a [u8]) -> Self
        ensures { result ≡ bytes.now }
    {
        Job {
            bytes,
            head: head_of(bytes),
        }
    }

    // How many bytes it has.
    pub fn len(&self) -> usize
        ensures { result ≡ length self.now }
    {
        self.bytes.len()
    }

    // Which fields it has.
    pub fn map(&self) -> Map
        ensures { (result.bits ≡ job_map self.now) × (result.bits < 65536) }
    {
        self.head.map
    }

    // Whether a bit of its map stands. By its number: a map may have bits that are no field's.
    #[tactic(auto, unfolding(crate::specs::JobFormat::job_has))]
    pub fn has_bit(&self, bit: u64) -> bool
        requires { bit < 64 }
        ensures { result ≡ job_has self.now bit }
    {
        stands_in(self.head.map.bits, bit)
    }

    // Whether it has a field.
    pub fn has(&self, field: Field) -> bool
        ensures { result ≡ job_has self.now (bit_of field) }
    {
        self.has_bit(field.bit())
    }

    // n.
    pub fn nodes(&self) -> usize
        ensures { (result ≡ job_nodes self.now) × (result < 65536) }
    {
        self.head.nodes
    }

    // m.
    pub fn entries(&self) -> usize
        ensures { (result ≡ job_entries self.now) × (result < 65536) }
    {
        self.head.entries
    }

    // How many bytes a field has.
    #[tactic(auto, unfolding(crate::specs::JobFormat::field_sizes))]
    fn size(&self, field: Field) -> usize
        ensures { (result ≡ get_or (field_sizes (job_nodes self.now) (job_entries self.now)) (bit_of field) 0) × (result ≤ 1048576) }
    {
        let n = self.nodes();
        let m = self.entries();
        match field {
            Field::Pattern => 4 + 2 * (n + 1) + 2 * m,
            Field::Values1 | Field::Values2 | Field::Values3 => 8 * m,
            Field::Tau | Field::Bound => 8,
            Field::Weights => 8 + 8 * n + 8 * n,
            Field::Signal => 8 * n,
            Field::Adjoint => 0,
        }
    }

    // Where the field of a bit starts.
    fn start_of_bit(&self, bit: usize) -> usize
        requires { bit ≤ 9 }
        ensures { (result ≡ job_field self.now bit) × (result < 2 ^ 32) }
    {
        let mut at = 2;
        for field in &Field::ALL[..bit] {
            if self.has(*field) {
                at += self.size(*field);
            }
        }
        at
    }

    // Where a field starts.
    pub fn start(&self, field: Field) -> usize
        ensures { (result ≡ job_field self.now (bit_of field)) × (result < 2 ^ 32) }
    {
        self.start_of_bit(field.bit() as usize)
    }

    // Where the job ends.
    pub fn end(&self) -> usize
        ensures { (result ≡ job_field self.now 9) × (result < 2 ^ 32) }
    {
        self.start_of_bit(9)
    }
}

// The number of 16 bits at a place.
#[tactic(auto, unfolding(crate::specs::JobFormat::word16))]
fn number_at(bytes: &[u8], at: usize) -> u64
    requires { at + 2 < 2 ^ 64 }
    ensures { (result ≡ word16 bytes.now at) × (result < 65536) }
{
    word16(bytes, at)
}

// The real at a place.
#[tactic(auto, unfolding(crate::specs::JobFormat::real))]
pub fn real_at(bytes: &[u8], at: usize) -> f64
    requires { at + 8 < 2 ^ 64 }
    ensures { result ≡ real bytes.now at }
{
    from_bits(word64(bytes, at))
}
