// The two operators of the last commutator of order 6 at a vector, and what is formed of v itself (01, part 9; `apply_omega6` of the
// Rust), for callers whose checks have accepted the samples. Where a vector lies, src/kernel.rt of the crate magnus6_graph_parts tells.
ghost use Rattle.magnus6_graph_parts.specs.Omega6Parts.{LopFormed, RopFormed, AtVFormed};
ghost use Rattle.magnus6_graph_parts.specs.WorkSlice.{Room, LiesBefore, Leaves};

use magnus6_graph_c1::kernel::form_c1;
use magnus6_graph_c2::kernel::form_c2;
use magnus6_graph_parts::kernel::Samples6;
use scratch::kernel::copy_within;
use scratch_multiples::kernel::scaled_less;
use scratch_scaled_sums::kernel::add_scaled;
use scratch_sums::kernel::add;

// Constants of magnus6_graph.rs and magnus6_graph_helpers.rs; their values are those of constants6 in the crate magnus.
const ONE_OVER_12: f64 = 1.0 / 12.0;

const MINUS_TWENTY: f64 = -20.0;

// (-20 B1 - B3 + C1) x, at 5n.
pub fn form_lop(samples: &Samples6<'_>, work: &mut [f64], x: usize)
    requires room { Room samples.now work.old }
    requires x_in_bounds { LiesBefore samples.now x 5 }
    ensures { Leaves LopFormed samples.now x work.old work.new }
{
    let n = samples.outer.first.pattern.n;
    form_c1(samples, work, x);
    scaled_less(work, n, MINUS_TWENTY, 9 * n, 11 * n, 14 * n);
    add(work, n, 14 * n, 13 * n, 5 * n);
}

// (B2 + C2) x, at 21n.
pub fn form_rop(samples: &Samples6<'_>, work: &mut [f64], x: usize)
    requires room { Room samples.now work.old }
    requires x_in_bounds { LiesBefore samples.now x 6 }
    ensures { Leaves RopFormed samples.now x work.old work.new }
{
    let n = samples.outer.first.pattern.n;
    form_c2(samples, work, x);
    add(work, n, 10 * n, 20 * n, 21 * n);
}

// B1 v + B3 v / 12, l and r.
pub fn form_at_v(samples: &Samples6<'_>, work: &mut [f64])
    requires room { Room samples.now work.old }
    ensures { Leaves AtVFormed samples.now samples.now.outer.first.pattern.n work.old work.new }
{
    let n = samples.outer.first.pattern.n;
    form_c2(samples, work, n);
    // B1 v + B3 v / 12
    copy_within(work, n, 9 * n, 2 * n);
    add_scaled(work, n, ONE_OVER_12, 11 * n, 2 * n);
    // l, r: the sums of `form_lop` and of `form_rop`, whose contract, with what they leave of the work slice, would be longer than the calls
    scaled_less(work, n, MINUS_TWENTY, 9 * n, 11 * n, 14 * n);
    add(work, n, 14 * n, 13 * n, 3 * n);
    add(work, n, 10 * n, 20 * n, 4 * n);
}
