// Multiples of the vectors within a work slice added to others, for callers that keep the vectors within it, and apart where one is read while
// another is written.
ghost use Rattle.std.specs.Prelude.{◌≡◌, ◌+◌, ◌≤◌, length};
ghost use Rattle.std.specs.Float.{binary64};
ghost use Rattle.arithmetic.specs.Arithmetic.{ieee};
ghost use Rattle.arithmetic.specs.Product.{plus_scaled};
ghost use Rattle.scratch.specs.Parts.{part, put, Apart};

use scratch::kernel::combine_within;

// To the vector at `target`, scale times the one at `source` is added.
pub fn add_scaled(work: &mut [f64], n: usize, scale: f64, source: usize, target: usize)
    requires { (source + n ≤ length work.old) × (target + n ≤ length work.old) × Apart n source target }
    ensures { let w = work.old in
        work.new ≡ put target (plus_scaled (ieee binary64) n (part target n w) scale (part source n w)) w }
{
    combine_within(work, n, target, source, target, |a, b| a + scale * b);
}

// To out, scale times the vector at `at` is added.
pub fn add_scaled_to(work: &[f64], at: usize, scale: f64, out: &mut [f64])
    requires { at + length out.old ≤ length work.now }
    ensures { let n = length out.old in
        out.new ≡ plus_scaled (ieee binary64) n out.old scale (part at n work.now) }
{
    // By `enumerate`: in a loop over `out.iter_mut().zip(..)` an invariant has each element as it was lent, and not as it was left.
    for (i, y) in out.iter_mut().enumerate() {
        *y = *y + scale * work[at + i];
    }
}
