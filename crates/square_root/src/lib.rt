// The square root of an f64, as IEEE 754 has it: to nearest, ties to even (01, part 4). It is worked out from the bits.
#![tactic(auto)]

ghost use Rattle.std.specs.Prelude.{◌≡◌};
ghost use Rattle.std.specs.Float.{binary64};
ghost use Rattle.ieee_square_root.specs.SquareRoot.{square_root};

use kernel::{estimate, root_near};

pub mod kernel;

// The square root of x. A NaN and a negative x give a NaN, −0 gives −0.
pub fn sqrt(x: f64) -> f64
    ensures { result ≡ square_root binary64 x }
{
    root_near(x, estimate(x))
}
