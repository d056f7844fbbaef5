// The step of order 6 (01, part 9) for callers whose checks have accepted the samples. L1, L2 and L3 are the products with the three
// samples. The step's vectors of n places lie one after the other in the work slice: at 0 the sum so far, at first the
// signal and at last the answer; at n v, the signal and then its images under Ω; from 2n on those of the crate
// magnus6_graph_parts (src/kernel.rt). Whether the first and the third sample have one pattern is found out once a step.
ghost use Rattle.std.specs.Prelude.{◌≡◌, ◌*◌, ◌≤◌, length};
ghost use Rattle.std.specs.Float.{binary64};
ghost use Rattle.scratch.specs.Parts.{put, zeros};
ghost use Rattle.graph_rows.specs.Product.{product_of};
ghost use Rattle.magnus6_graph_helpers.specs.Omega6Step.{exp_omega6};

use graph_rows::kernel::Sample;
use graph_same_pattern::same_pattern;
use graph_two_products::kernel::TwoSamples;
use magnus_graph_taylor::kernel::taylor_sum;
use magnus6_graph_parts::kernel::Samples6;
use magnus6_graph_term::kernel::Omega6;
use scratch::kernel::{clear, load, store};

// One step of order 6 (01, part 9; `apply_exp_omega6_kernel` of the Rust): dst becomes the step's answer for the signal src, from a Taylor sum of six
// terms (`accumulate_taylor6` of the Rust), and the first 22n elements of work become +0. Why the last four calls are no function that all steps share,
// `magnus_graph_step::kernel::step4` tells.
pub fn step6<'a>(
    first: Sample<'a>,
    second: Sample<'a>,
    third: Sample<'a>,
    tau: f64,
    src: &[f64],
    dst: &mut [f64],
    work: &mut [f64],
)
    requires second_nodes { second.pattern.n ≡ first.pattern.n }
    requires third_nodes { third.pattern.n ≡ first.pattern.n }
    requires src_len { length src.now ≡ first.pattern.n }
    requires dst_len { length dst.old ≡ first.pattern.n }
    requires room { 22 * first.pattern.n ≤ length work.old }
    ensures { let n = first.entry.pattern.n in
        (dst.new ≡ exp_omega6 binary64 n tau (product_of first.entry) (product_of second.entry) (product_of third.entry) src.now)
        × (work.new ≡ put 0 (zeros (22 * n)) work.old) }
{
    let shared = same_pattern(
        first.pattern.row_ptr,
        first.pattern.col_idx,
        third.pattern.row_ptr,
        third.pattern.col_idx,
    );
    let omega = Omega6 {
        samples: Samples6 {
            outer: TwoSamples {
                first,
                second: third,
                shared,
            },
            second,
            tau,
        },
    };
    load(work, 0, src);
    taylor_sum(&omega, 6, work);
    store(work, 0, dst);
    clear(work, 22 * first.pattern.n);
}
