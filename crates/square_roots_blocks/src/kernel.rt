// The square roots of one block. One pass estimates all roots of the block, promising nothing, and a second tests whether each estimate is the
// root. Both take several values at once. Only where one is not, which is rare, a third pass finds each root of the block for itself.
ghost use Rattle.std.specs.Prelude.{◌≡◌, map, length};
ghost use Rattle.std.specs.Float.{binary64};
ghost use Rattle.ieee_square_root.specs.SquareRoot.{square_root};

use square_roots_estimates::kernel::{estimate_into_slice, settle_into_slice};
use square_roots_test::kernel::all_roots;

// The square roots of src's elements, to dst, in one block.
pub fn block_into_slice(src: &[f64], dst: &mut [f64])
    requires { length dst.old ≡ length src.now }
    ensures { dst.new ≡ map (square_root binary64) src.now }
{
    estimate_into_slice(src, dst);
    if !all_roots(src, dst) {
        settle_into_slice(src, dst);
    }
}
