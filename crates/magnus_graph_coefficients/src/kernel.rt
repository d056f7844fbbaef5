// The coefficients of a Taylor sum, for callers that keep their number within those that a step takes.
ghost use Rattle.std.specs.Prelude.{◌≡◌, ◌≤◌};
ghost use Rattle.std.specs.Float.{binary64};
ghost use Rattle.magnus.specs.Coefficients.{reciprocal_factorial};

// The coefficient 1 / k! of a Taylor sum, one rounded division, for k from 1 to 6.
pub fn reciprocal_factorial(k: usize) -> f64
    requires { (1 ≤ k) × (k ≤ 6) }
    ensures { result ≡ reciprocal_factorial binary64 k }
{
    match k {
        1 => 1.0 / 1.0,
        2 => 1.0 / 2.0,
        3 => 1.0 / 6.0,
        4 => 1.0 / 24.0,
        5 => 1.0 / 120.0,
        _ => 1.0 / 720.0,
    }
}
