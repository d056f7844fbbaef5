// The test of a square root's digits in whole numbers, without a branch.
ghost use Rattle.std.specs.Prelude.{◌^◌, ◌≤◌, ◌<◌};
ghost use Rattle.ieee_square_root.specs.Steps.{RootDigits};

use square_root_digits::kernel::{HIDDEN, SIGN, SPLIT, Significand};

// Whether root's digits r are the whole number nearest to the root of radicand·2^52, said by the sign bit of the result: it is that of two
// differences, so that no comparison is made, and words of many values are joined by `&`. r·r = high·2^52 + low, in parts of 26 digits. Of the
// radicand it asks the upper bound alone, less than a `Radicand` has.
pub fn digits_test(radicand: u64, root: Significand) -> u64
    requires radicand_bound { radicand < 2 ^ 54 }
    ensures { 2 ^ 63 ≤ result → RootDigits radicand root.digits }
{
    let r = root.digits;
    let a = r / SPLIT;
    let b = r % SPLIT;
    let middle = 2 * (a * b);
    let low = middle % SPLIT * SPLIT + b * b;
    let high = a * a + middle / SPLIT;
    let upper = SIGN + (high + (low + r) / HIDDEN) - radicand;
    let lower = SIGN + (radicand + 1) - (high + (low + (2 * HIDDEN - r)) / HIDDEN);
    upper & lower
}
