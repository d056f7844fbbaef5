// The weighted step of order 4 (01, part 7) for callers that have checked its arguments. Where the step's first six vectors lie in the work slice, the
// table in src/kernel.rt of the crate varcoef_magnus_graph_taylor_term tells; at 6n and 7n lie the roots of the weights of the two samples.
ghost use Rattle.std.specs.Prelude.{◌≡◌, map, ◌*◌, ◌≤◌, length};
ghost use Rattle.std.specs.Float.{binary64};
ghost use Rattle.arithmetic.specs.Arithmetic.{ieee};
ghost use Rattle.scratch.specs.Parts.{put, zeros};
ghost use Rattle.ieee_square_root.specs.SquareRoot.{square_root};
ghost use Rattle.graph_rows.specs.Product.{product_of};
ghost use Rattle.magnus.specs.Operators.{weighted};
ghost use Rattle.magnus_graph_step.specs.Omega4.{exp_omega4};

use graph_rows::kernel::Sample;
use magnus_graph_helpers::factors::Factors;
use magnus_graph_taylor::kernel::taylor_sum;
use scratch::kernel::{clear, load, store};
use square_roots::kernel::sqrt_into_slice;
use varcoef_magnus_graph_products::kernel::WeightedSample;
use varcoef_magnus_graph_taylor_term::kernel::WeightedOmega4;

// One weighted step of order 4 (01, part 7): dst becomes the step's answer for the signal src, and the first 9n elements
// of work become +0. Why the calls about the sum are no function that all steps share, `magnus_graph_step::kernel::step4` tells.
pub fn step4_la<'a>(
    first: Sample<'a>,
    second: Sample<'a>,
    weights1: &[f64],
    weights2: &[f64],
    factors: Factors,
    src: &[f64],
    dst: &mut [f64],
    work: &mut [f64],
)
    requires same_nodes { second.pattern.n ≡ first.pattern.n }
    requires weights1_len { length weights1.now ≡ first.pattern.n }
    requires weights2_len { length weights2.now ≡ first.pattern.n }
    requires src_len { length src.now ≡ first.pattern.n }
    requires dst_len { length dst.old ≡ first.pattern.n }
    requires room { 9 * first.pattern.n ≤ length work.old }
    ensures { let A = ieee binary64 in
        let n = first.entry.pattern.n in
        let P1 = weighted A n (map (square_root binary64) weights1.now) (product_of first.entry) in
        let P2 = weighted A n (map (square_root binary64) weights2.now) (product_of second.entry) in
        (dst.new ≡ exp_omega4 binary64 n factors.s factors.sign factors.tau P1 P2 src.now)
        × (work.new ≡ put 0 (zeros (9 * n)) work.old) }
{
    let n = first.pattern.n;
    let (vectors, roots) = work.split_at_mut(6 * n);
    load(vectors, 0, src);
    sqrt_into_slice(weights1, &mut roots[..n]);
    sqrt_into_slice(weights2, &mut roots[n..2 * n]);
    let roots = &roots[..];
    let omega = WeightedOmega4 {
        first: WeightedSample {
            sample: first,
            roots: &roots[..n],
        },
        second: WeightedSample {
            sample: second,
            roots: &roots[n..2 * n],
        },
        factors,
    };
    taylor_sum(&omega, 4, vectors);
    store(vectors, 0, dst);
    clear(work, 9 * n);
}
