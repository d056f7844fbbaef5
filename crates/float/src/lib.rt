// Small predicates on floats (float.rs).
#![tactic(auto)]

ghost use Rattle.std.specs.Prelude.{◌≡◌, ◌&&◌};
ghost use Rattle.std.specs.Float.Ieee.Scale.{finite};
ghost use Rattle.float.specs.All.{all};

// Whether x is neither an infinity nor a NaN.
pub fn is_finite(x: f64) -> bool
    ensures { result ≡ finite x }
{
    x.is_finite()
}

// Whether x and y are both finite, by one comparison: of a finite value the difference from itself is +0, and of any other a NaN, which equals
// nothing.
pub fn both_finite(x: f64, y: f64) -> bool
    ensures { result ≡ (finite x && finite y) }
{
    x - x == y - y
}

// Whether every value is finite. The walk goes over both halves at once, which share the middle value of an odd number, and does not stop at
// a value that is not, so that several pairs are tested at once.
pub fn all_finite(values: &[f64]) -> bool
    ensures { result ≡ all finite values.now }
{
    let second = values.len() / 2;
    let half = values.len() - second;
    values[..half]
        .iter()
        .zip(values[second..].iter())
        .fold(true, |passed, (x, y)| passed & both_finite(*x, *y))
}
