// The root of a value above zero, from its bits. Such an x is significand · 2^(exponent − 52), and after halving the exponent
// x = radicand · 2^(2·half − 52). With N = radicand · 2^52 the root of x is the root of N times 2^(half − 52). The crate square_root_digits
// finds the root's digits, the whole number nearest to the root of N.
ghost use Rattle.std.specs.Prelude.{◌≡◌, ℕ, ◌+◌, ◌-◌, ◌*◌, ◌^◌, ◌≤◌, ◌<◌, T, ℤ, pos, negsuc};
ghost use Rattle.std.specs.Int.Signed.{le_z};
ghost use Rattle.std.specs.Float.{binary64};
ghost use Rattle.std.specs.Float.Ieee.{of_bits};
ghost use Rattle.ieee_square_root.specs.SquareRoot.{square_root};
ghost use Rattle.ieee_square_root.specs.Steps.{half_down, Normalized, Scaled as IsScaled, PatternOf};

use square_root_digits::kernel::{HIDDEN, Radicand, Significand};

// A value above zero: significand · 2^(exponent − 52).
#[derive(Clone, Copy)]
pub struct Normal {
    pub significand: Significand,
    pub exponent: i64,
}

// A value above zero with its exponent halved: radicand · 2^(2·half − 52).
#[derive(Clone, Copy)]
pub struct Scaled {
    pub radicand: Radicand,
    pub half: i64,
}

// The bits of a value above zero that is not infinite.
#[derive(Clone, Copy)]
pub struct PositiveFinite {
    pub bits: u64,
    pub ghost in_range: { (0 < bits) × (bits < 0x7FF0_0000_0000_0000) },
}

impl PositiveFinite {
    // The value with these bits. A subnormal value has no hidden digit, and is shifted.
    pub fn normalized(self) -> Normal
        ensures { Normalized self.bits result.significand.digits result.exponent }
    {
        let field = self.bits / HIDDEN;
        if field == 0 {
            let shift = u64::leading_zeros(self.bits) - 11;
            return Normal {
                significand: Significand {
                    digits: self.bits << shift,
                },
                exponent: -1022 - (shift as i64),
            };
        }
        Normal {
            significand: Significand::from_bits(self.bits),
            exponent: (field as i64) - 1023,
        }
    }

    // The value with these bits, its exponent halved. An odd exponent leaves a factor 2 for the digits.
    pub fn scaled(self) -> Scaled
        ensures { IsScaled self.bits result.radicand.digits result.half }
    {
        let x = self.normalized();
        let significand = x.significand.digits;
        let half = floor_half(x.exponent);
        let digits = if x.exponent - half == half {
            significand
        } else {
            2 * significand
        };
        Scaled {
            radicand: Radicand { digits },
            half,
        }
    }

    // The root of the value with these bits, from a guess at its digits.
    pub fn root(self, guess: Significand) -> f64
        ensures { result ≡ square_root binary64 (of_bits binary64 self.bits) }
    {
        let x = self.scaled();
        let digits = x.radicand.settled(guess);
        let place = (x.half + 1022) as u64;
        f64::from_bits(place * HIDDEN + digits)
    }
}

// Half of an exponent, toward minus infinity: an odd one below zero too.
pub fn floor_half(exponent: i64) -> i64
    requires { T (le_z (negsuc 1073) exponent) }
    ensures { result ≡ half_down exponent }
{
    exponent >> 1
}

// The bits of x, and 0 for a NaN, whose bits the language leaves open.
pub fn bits_or_zero(x: f64) -> u64
    ensures { PatternOf x result }
{
    if x.is_nan() { 0 } else { f64::to_bits(x) }
}
