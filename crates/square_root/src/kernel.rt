// The square root of any value: of a zero, a negative value, an infinity and a NaN at once, of any other from its bits and a guess.
ghost use Rattle.std.specs.Prelude.{◌≡◌};
ghost use Rattle.std.specs.Float.{binary64};
ghost use Rattle.ieee_square_root.specs.SquareRoot.{square_root};

use square_root_bits::kernel::{PositiveFinite, bits_or_zero};
use square_root_digits::kernel::{SIGN, Significand};

// The bits of the infinity.
const INFINITY: u64 = 0x7FF0_0000_0000_0000;

// The square root of x from any guess at it. The guess only decides how soon the root is found.
pub fn root_near(x: f64, guess: f64) -> f64
    ensures { result ≡ square_root binary64 x }
{
    if x.is_nan() {
        return x;
    }
    match f64::to_bits(x) {
        0 => 0.0,
        bits @ 1..INFINITY => {
            PositiveFinite { bits }.root(Significand::from_bits(bits_or_zero(guess)))
        }
        INFINITY..SIGN => x,
        SIGN => -0.0,
        _ => f64::NAN,
    }
}

// A value near 1 / √x, if x is above zero and not subnormal. Nothing is promised of it.
pub fn inverse_root(x: f64) -> f64 {
    // From the bits within 4 parts in 100, after one step within 7 in 10,000, after two within 7 in 10,000,000.
    let bits = bits_or_zero(x) % SIGN;
    let seed = f64::from_bits(0x5FE3_FFFF_2000_0000 - bits / 2);
    let first = seed * 0.703952253 * (2.38924456 - x * seed * seed);
    first * (1.5 - 0.5 * x * first * first)
}

// A value near the square root of x, if x is above zero and not subnormal. Nothing is promised of it.
pub fn estimate(x: f64) -> f64 {
    // √x = y·x·(1 − e)^(−1/2), with 1 − e = y·x·y, by three terms of the series.
    let y = inverse_root(x);
    let root = x * y;
    let e = 1.0 - root * y;
    root + root * (e * (0.5 + 0.375 * e))
}
