// The test of the square roots of a vector, several at once.
ghost use Rattle.std.specs.Prelude.{◌≡◌, true, map, length};
ghost use Rattle.std.specs.Float.{binary64};
ghost use Rattle.ieee_square_root.specs.SquareRoot.{square_root};

use square_root_digits::kernel::SIGN;
use square_root_test::kernel::root_test;

// Whether `roots` are the square roots of src's elements, all of them. A yes is sure; a no may come from a value that the test leaves out.
pub fn all_roots(src: &[f64], roots: &[f64]) -> bool
    requires { length roots.now ≡ length src.now }
    ensures { result ≡ true → roots.now ≡ map (square_root binary64) src.now }
{
    let mut passed = SIGN;
    // By `enumerate`, which compares once a turn: a `zip` of slices that the compiler does not know to be of one length compares twice.
    for (i, x) in src.iter().enumerate() {
        passed = passed & root_test(*x, roots[i]);
    }
    passed >= SIGN
}
