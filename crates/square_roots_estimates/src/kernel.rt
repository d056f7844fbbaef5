// Estimates of the square roots of a vector, promising nothing, and its square roots from any guesses at them.
ghost use Rattle.std.specs.Prelude.{◌≡◌, map, ◌+◌, ◌≤◌, length};
ghost use Rattle.std.specs.Float.{binary64};
ghost use Rattle.ieee_square_root.specs.SquareRoot.{square_root};
ghost use Rattle.square_roots_estimates.specs.Overwritten.{Overwritten};

use square_root::kernel::{inverse_root, root_near};
use square_root_bits::kernel::bits_or_zero;

// 2^27, the weight of the last of the 26 leading digits.
const LAST: u64 = 0x800_0000;

// A value near the square root of x, if x is above zero and not subnormal: but for a few of a million, the square root itself. Nothing is
// promised of it.
pub fn estimate(x: f64) -> f64 {
    // √x = y·x·(1 − e)^(−1/2), with 1 − e = y·x·y, by two terms of the series: within 1 part in 1,000,000,000,000.
    let y = inverse_root(x);
    let root = x * y;
    let e = 1.0 - root * y;
    let near = root + root * (0.5 * e);
    // The leading 26 digits of that have a square of no more than 52 digits, so that x − leading² is not rounded. √x is
    // leading + (x − leading²) / (leading + √x), and the quotient is so small that its errors seldom reach the last digit of the sum.
    let digits = bits_or_zero(near);
    let leading = f64::from_bits(digits - digits % LAST);
    leading + (x - leading * leading) / (leading + near)
}

// Estimates of the square roots of src's elements, to dst. Nothing is promised of them.
pub fn estimate_into_slice(src: &[f64], dst: &mut [f64])
    requires { length dst.old ≡ length src.now }
{
    for (y, x) in dst.iter_mut().zip(src) {
        *y = estimate(*x);
    }
}

// The vector at `target` becomes estimates of the square roots of what stands at `source`, and nothing else is written. Nothing is promised of them.
pub fn estimate_within(work: &mut [f64], count: usize, source: usize, target: usize)
    requires { (source + count ≤ length work.old) × (target + count ≤ length work.old) }
    ensures { Overwritten count target work.old work.new }
{
    // By index: both vectors lie in one slice, and may overlap.
    for i in 0..count {
        work[target + i] = estimate(work[source + i]);
    }
}

// The square roots of src's elements, to dst, from any guesses at them in dst.
pub fn settle_into_slice(src: &[f64], dst: &mut [f64])
    requires { length dst.old ≡ length src.now }
    ensures { dst.new ≡ map (square_root binary64) src.now }
{
    // By `enumerate`: in a loop over `dst.iter_mut().zip(src)` an invariant has each element as it was lent, and not as it was left.
    for (i, y) in dst.iter_mut().enumerate() {
        *y = root_near(src[i], *y);
    }
}
