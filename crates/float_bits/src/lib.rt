// Bit patterns of floats. The language's own conversions are not defined at a NaN and its patterns; these are.
#![tactic(auto)]

ghost use Rattle.std.specs.Prelude.{◌≡◌, true};
ghost use Rattle.std.specs.Float.{binary64};
ghost use Rattle.std.specs.Float.Ieee.{of_bits, nan_bits};

// Whether a bit pattern is a NaN's: with the sign cleared it lies above the infinity's.
pub fn is_nan_pattern(bits: u64) -> bool
    ensures { result ≡ nan_bits binary64 bits }
{
    0x7FF0_0000_0000_0000 < bits % 0x8000_0000_0000_0000
}

// The value of a bit pattern. Every NaN's pattern gives a NaN.
pub fn from_bits(bits: u64) -> f64
    ensures { result ≡ of_bits binary64 bits }
{
    if is_nan_pattern(bits) {
        0.0 / 0.0
    } else {
        f64::from_bits(bits)
    }
}

// Whether x is the value of a bit pattern, to the sign of a zero. Any NaN matches any NaN.
pub fn has_bits(x: f64, bits: u64) -> bool
    ensures { (result ≡ true → x ≡ of_bits binary64 bits) × (x ≡ of_bits binary64 bits → result ≡ true) }
{
    if x.is_nan() {
        return is_nan_pattern(bits);
    }
    if is_nan_pattern(bits) {
        return false;
    }
    f64::to_bits(x) == bits
}
