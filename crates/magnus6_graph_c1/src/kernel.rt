// C1 of order 6 at a vector (01, part 9; `apply_omega6` of the Rust), for callers whose checks have accepted the samples. Where a vector
// lies, src/kernel.rt of the crate magnus6_graph_parts tells.
ghost use Rattle.magnus6_graph_parts.specs.Omega6Parts.{C1Formed};
ghost use Rattle.magnus6_graph_parts.specs.WorkSlice.{Room, LiesBefore, Leaves};

use graph_scratch::kernel::product_in;
use graph_two_products::kernel::two_products_in;
use magnus6_graph_parts::kernel::{SQRT15_OVER_3, Samples6};
use scratch_multiples::kernel::{scaled_difference, scaled_less};

// B1 x, B2 x and B3 x, and C1 x = B1 B2 x - B2 y.
pub fn form_c1(samples: &Samples6<'_>, work: &mut [f64], x: usize)
    requires room { Room samples.now work.old }
    requires x_in_bounds { LiesBefore samples.now x 6 }
    ensures { Leaves C1Formed samples.now x work.old work.new }
{
    let n = samples.outer.first.pattern.n;
    samples.form_b(work, x);
    // L2 B2 x, L1 y, L3 y
    product_in(samples.second, work, 10 * n, 6 * n);
    two_products_in(samples.outer, work, 9 * n, 7 * n, 8 * n);
    // B2 y, C1 x
    scaled_difference(work, n, samples.tau * SQRT15_OVER_3, 7 * n, 8 * n, 12 * n);
    scaled_less(work, n, -samples.tau, 6 * n, 12 * n, 13 * n);
}
