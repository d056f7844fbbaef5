// The step of order 4 (01, part 6) for callers that have checked its arguments. L1 and L2 are the products with the two
// samples. Where the step's vectors lie in the work slice, the tables in src/kernel.rt of the crates magnus_graph_term and
// magnus_graph_pairs tell.
ghost use Rattle.std.specs.Prelude.{◌≡◌, ◌*◌, ◌≤◌, length};
ghost use Rattle.std.specs.Float.{binary64};
ghost use Rattle.arithmetic.specs.Arithmetic.{ieee};
ghost use Rattle.scratch.specs.Parts.{put, zeros};
ghost use Rattle.graph_rows.specs.Product.{product_of};
ghost use Rattle.magnus.specs.Coefficients.{reciprocal_factorial};
ghost use Rattle.magnus_graph_helpers.specs.Factors.{omega4_with};
ghost use Rattle.magnus_graph_helpers.specs.Terms.{TermsAdded};
ghost use Rattle.magnus_graph_step.specs.Omega4.{exp_omega4};

use graph_pairs::paired::Lists;
use graph_same_pattern::same_pattern;
use magnus_graph_helpers::factors::Factors;
use magnus_graph_pairs::kernel::SharedOmega4;
use magnus_graph_taylor::kernel::taylor_sum;
use magnus_graph_term::kernel::Omega4;
use scratch::kernel::{clear, load, store};

// The Taylor sum of four terms (`compute_taylor4` of the Rust): the vector at 0, the signal, becomes the step's answer. Where the samples
// have one pattern, a walk over it serves both.
fn taylor4(omega: Omega4<'_>, work: &mut [f64])
    requires room { 5 * omega.first.pattern.n ≤ length work.old }
    ensures { let o = omega.entry in
        let n = o.first.pattern.n in
        TermsAdded (ieee binary64) n (5 * n) (reciprocal_factorial binary64) 4
        (omega4_with o.factors n (product_of o.first) (product_of o.second)) work.old work.new }
{
    let first = omega.first.pattern;
    let second = omega.second.pattern;
    if same_pattern(first.row_ptr, first.col_idx, second.row_ptr, second.col_idx) {
        let shared = SharedOmega4 {
            pattern: first,
            vals: Lists {
                first: omega.first.vals,
                second: omega.second.vals,
            },
            factors: omega.factors,
        };
        taylor_sum(&shared, 4, work);
    } else {
        taylor_sum(&omega, 4, work);
    }
}

// One step of order 4 (01, part 6; `apply_exp_omega4_kernel` of the Rust): dst becomes the step's answer for the signal
// src, and the first 5n elements of work become +0. The signal is loaded, and the answer stored and the slice cleared, as in the other steps. No function
// does that for all: between these calls stands another sum in each, here one of two, and in the weighted step one in a part of the slice, beside the
// roots.
pub fn step4(omega: Omega4<'_>, src: &[f64], dst: &mut [f64], work: &mut [f64])
    requires src_len { length src.now ≡ omega.first.pattern.n }
    requires dst_len { length dst.old ≡ omega.first.pattern.n }
    requires room { 5 * omega.first.pattern.n ≤ length work.old }
    ensures { let o = omega.entry in
        let n = o.first.pattern.n in
        (dst.new ≡ exp_omega4 binary64 n o.factors.s o.factors.sign o.factors.tau (product_of o.first) (product_of o.second) src.now)
        × (work.new ≡ put 0 (zeros (5 * n)) work.old) }
{
    load(work, 0, src);
    taylor4(omega, work);
    store(work, 0, dst);
    clear(work, 5 * omega.first.pattern.n);
}
