// The digits of a number: how many there are in decimal, each of them, and the bit pattern that a real is printed as.
ghost use Rattle.std.specs.Prelude.{◌≡◌, ◌<◌};
ghost use Rattle.std.specs.Float.{binary64};
ghost use Rattle.std.specs.Float.Ieee.{of_bits};
ghost use Rattle.job_text_digits.specs.Numbers.{digit as Text·digit};
ghost use Rattle.job_text_digits.specs.Numbers.{places as Text·places};

// A bit pattern of x. Every NaN is printed as one and the same; the contract only says that it is a NaN's. `bits_or_zero` of square_root_bits differs:
// it gives a NaN 0, which is no NaN's pattern.
pub fn pattern(x: f64) -> u64
    ensures { of_bits binary64 result ≡ x }
{
    if x.is_nan() {
        0x7FF8_0000_0000_0000
    } else {
        f64::to_bits(x)
    }
}

// How many decimal digits n has. Of `checked_ilog10` the result would be one less, and None for 0, which has a digit: it takes a case for each.
pub fn places(n: usize) -> usize
    ensures { result ≡ Text·places n }
{
    if n < 10 { 1 } else { places(n / 10) + 1 }
}

// The digit of a number below 16. `char::from_digit` would give an Option of a char, which a text of bytes has to take apart.
pub fn digit(d: u64) -> u8
    requires { d < 16 }
    ensures { result ≡ Text·digit d }
{
    if d < 10 {
        b'0' + d as u8
    } else {
        b'a' + (d - 10) as u8
    }
}
