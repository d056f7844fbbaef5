// The lists of a job, each read to a slice of its length.
ghost use Rattle.std.specs.Prelude.{◌≡◌, ℕ, List, ◌+◌, ◌*◌, ◌^◌, ◌≤◌, ◌<◌, length};
ghost use Rattle.arithmetic.specs.Vector.{tabulate};
ghost use Rattle.job_checks.specs.Bits.{bit_of};
ghost use Rattle.job_format.specs.JobFormat.{word16, real, job_nodes, job_entries, job_row_starts, job_columns};
ghost use Rattle.job_format.specs.JobFormat.{job_values, job_weights1, job_weights2, job_signal};

use super::{Job, number_at, real_at};
use job_checks::Field;

// An element of a list: what it is at place i of the list that starts at `at`. Counts and columns have an impl each: one for every type that a
// number of 16 bits converts to would be one for f64 as well.
trait Element: Copy {
    ghost value: { List ℕ → ℕ → ℕ → Self };

    fn read(bytes: &[u8], at: usize, i: usize) -> Self
        requires { (at < 2 ^ 33) × (i < 65536) }
        ensures { result ≡ value bytes.now at i };
}

impl Element for usize {
    ghost value = { λ bytes at i. word16 bytes (at + 2 * i) };

    fn read(bytes: &[u8], at: usize, i: usize) -> usize {
        number_at(bytes, at + 2 * i) as usize
    }
}

impl Element for u32 {
    ghost value = { λ bytes at i. word16 bytes (at + 2 * i) };

    fn read(bytes: &[u8], at: usize, i: usize) -> u32 {
        number_at(bytes, at + 2 * i) as u32
    }
}

impl Element for f64 {
    ghost value = { λ bytes at i. real bytes (at + 8 * i) };

    fn read(bytes: &[u8], at: usize, i: usize) -> f64 {
        real_at(bytes, at + 8 * i)
    }
}

// Reads elements, one after the other from `at` on.
fn read_list<T: Element>(bytes: &[u8], at: usize, target: &mut [T])
    requires { (at < 2 ^ 33) × (length target.old ≤ 65536) }
    ensures { target.new ≡ tabulate (T.value bytes.now at) (length target.old) }
{
    for (i, x) in target.iter_mut().enumerate() {
        *x = T::read(bytes, at, i);
    }
}

// Each list is read to a slice of its length. A struct of a slice with that fact would be made at each of these calls, for that call alone.
impl<'a> Job<'a> {
    // The row starts.
    #[tactic(auto, unfolding(crate::specs::JobFormat::job_row_starts, crate::specs::JobFormat::words16))]
    pub fn read_row_starts(&self, target: &mut [usize])
        requires { length target.old ≡ job_nodes self.now + 1 }
        ensures { target.new ≡ job_row_starts self.now }
    {
        read_list(self.bytes, self.start(Field::Pattern) + 4, target);
    }

    // The columns, after the row starts.
    #[tactic(auto, unfolding(crate::specs::JobFormat::job_columns, crate::specs::JobFormat::words16))]
    pub fn read_columns(&self, target: &mut [u32])
        requires { length target.old ≡ job_entries self.now }
        ensures { target.new ≡ job_columns self.now }
    {
        let at = self.start(Field::Pattern) + 4 + 2 * (self.nodes() + 1);
        read_list(self.bytes, at, target);
    }

    // As many reals as there are entries, from where the field of a bit starts. Behind bit 8 the last field has ended.
    #[tactic(auto, unfolding(crate::specs::JobFormat::job_values, crate::specs::JobFormat::reals))]
    pub fn read_values_of_bit(&self, bit: usize, target: &mut [f64])
        requires { (bit ≤ 9) × (length target.old ≡ job_entries self.now) }
        ensures { target.new ≡ job_values self.now bit }
    {
        read_list(self.bytes, self.start_of_bit(bit), target);
    }

    // The values of a sample.
    pub fn read_values(&self, sample: Field, target: &mut [f64])
        requires { length target.old ≡ job_entries self.now }
        ensures { target.new ≡ job_values self.now (bit_of sample) }
    {
        self.read_values_of_bit(sample.bit() as usize, target);
    }

    // The weights for the first sample, after the root bound.
    #[tactic(auto, unfolding(crate::specs::JobFormat::job_weights1, crate::specs::JobFormat::reals))]
    pub fn read_weights1(&self, target: &mut [f64])
        requires { length target.old ≡ job_nodes self.now }
        ensures { target.new ≡ job_weights1 self.now }
    {
        read_list(self.bytes, self.start(Field::Weights) + 8, target);
    }

    // The weights for the second sample, after those for the first.
    #[tactic(auto, unfolding(crate::specs::JobFormat::job_weights2, crate::specs::JobFormat::reals))]
    pub fn read_weights2(&self, target: &mut [f64])
        requires { length target.old ≡ job_nodes self.now }
        ensures { target.new ≡ job_weights2 self.now }
    {
        let at = self.start(Field::Weights) + 8 + 8 * self.nodes();
        read_list(self.bytes, at, target);
    }

    // The weights of both samples.
    pub fn read_weights(&self, first: &mut [f64], second: &mut [f64])
        requires first_value { length first.old ≡ job_nodes self.now }
        requires second_value { length second.old ≡ job_nodes self.now }
        ensures first_value { first.new ≡ job_weights1 self.now }
        ensures second_value { second.new ≡ job_weights2 self.now }
    {
        self.read_weights1(first);
        self.read_weights2(second);
    }

    // The signal.
    #[tactic(auto, unfolding(crate::specs::JobFormat::job_signal, crate::specs::JobFormat::reals))]
    pub fn read_signal(&self, target: &mut [f64])
        requires { length target.old ≡ job_nodes self.now }
        ensures { target.new ≡ job_signal self.now }
    {
        read_list(self.bytes, self.start(Field::Signal), target);
    }
}
