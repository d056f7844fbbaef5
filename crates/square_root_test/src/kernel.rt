// The test of a square root in whole numbers, for vectors of which several values are tested at once. A value x above zero is
// radicand · 2^(2·half − 52), and its root's digits are the whole number r nearest to the root of radicand · 2^52.
ghost use Rattle.std.specs.Prelude.{◌≡◌, ◌^◌, ◌≤◌};
ghost use Rattle.std.specs.Float.{binary64};
ghost use Rattle.ieee_square_root.specs.SquareRoot.{square_root};

use square_root_bits::kernel::bits_or_zero;
use square_root_digits::kernel::{HIDDEN, SIGN, Significand};
use square_root_digits_test::kernel::digits_test;

// Whether y is the square root of x, said by the sign bit of the result, as `digits_test` says it. It is clear too for an x that is not above zero, is
// subnormal or infinite. There is no branch, so that several values are tested at once.
pub fn root_test(x: f64, y: f64) -> u64
    ensures { 2 ^ 63 ≤ result → y ≡ square_root binary64 x }
{
    let bits = bits_or_zero(x);
    let field = bits / HIDDEN;
    let significand = Significand::from_bits(bits).digits;
    // An odd exponent leaves a factor 2 for the digits. The exponent is the field less 1023.
    let odd = (field + 1) % 2;
    let radicand = significand + (significand & (SIGN - odd));
    let root = bits_or_zero(y);
    let r = Significand::from_bits(root);
    // Half of the rest is y's exponent.
    let half = SIGN - ((root / HIDDEN + odd) ^ (field / 2 + 512));
    digits_test(radicand, r) & (SIGN + field - 1) & (SIGN + 2046 - field) & half
}
