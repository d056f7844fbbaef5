// C2 of order 6 at a vector (01, part 9; `apply_omega6` of the Rust), for callers whose checks have accepted the samples. Where a vector
// lies, src/kernel.rt of the crate magnus6_graph_parts tells.
ghost use Rattle.magnus6_graph_parts.specs.Omega6Parts.{C2Formed};
ghost use Rattle.magnus6_graph_parts.specs.WorkSlice.{Room, LiesBefore, Leaves};

use graph_scratch::kernel::product_in;
use graph_two_products::kernel::two_products_in;
use magnus6_graph_c1::kernel::form_c1;
use magnus6_graph_c2_sums::kernel::{c2_sum, w_sum};
use magnus6_graph_parts::kernel::Samples6;

// B1 x, B2 x, B3 x and C1 x, and C2 x.
pub fn form_c2(samples: &Samples6<'_>, work: &mut [f64], x: usize)
    requires room { Room samples.now work.old }
    requires x_in_bounds { LiesBefore samples.now x 6 }
    ensures { Leaves C2Formed samples.now x work.old work.new }
{
    let n = samples.outer.first.pattern.n;
    form_c1(samples, work, x);
    w_sum(work, n);
    // L2 W x, L2 y, L2 B2 y, L1 L2 y, L3 L2 y
    product_in(samples.second, work, 14 * n, 15 * n);
    product_in(samples.second, work, 9 * n, 16 * n);
    product_in(samples.second, work, 12 * n, 17 * n);
    two_products_in(samples.outer, work, 16 * n, 18 * n, 19 * n);
    c2_sum(work, n, samples.tau);
}
