// A step of the weighted adjoint run with samples of law 2 (01, parts 7, 8 and 10), for callers that have checked its arguments. P1 and P2
// are the weighted products with the two samples. The vectors lie one after the other in the work slice:
//   0    the sum so far, at first the held signal and at last its successor
//   2n   pairs of a = P1 v and b = P2 v, where v is the held signal and then its images under Ω
//   4n   the weights of the two samples as pairs, and then v as pairs, scaled by the roots
//   6n   pairs of b and a, scaled by the roots
//   8n   the roots of the weights as pairs
//   11n  pairs of the two samples' values, as many as columns
ghost use Rattle.std.specs.Prelude.{◌≡◌, map, ◌+◌, ◌*◌, ◌≤◌, length};
ghost use Rattle.std.specs.Float.{binary64};
ghost use Rattle.rounding.specs.StepLength.{minus_half};
ghost use Rattle.arithmetic.specs.Arithmetic.{ieee};
ghost use Rattle.scratch.specs.Parts.{part, put};
ghost use Rattle.ieee_square_root.specs.SquareRoot.{square_root};
ghost use Rattle.graph_rows.specs.RowProduct.{row_product64};
ghost use Rattle.graph_pairs.specs.Pairs.{firsts, seconds};
ghost use Rattle.magnus.specs.Coefficients.{reciprocal_factorial};
ghost use Rattle.varcoef_magnus_graph_taylor_term.specs.WeightedOmega4.{weighted_omega4};
ghost use Rattle.graph_traj_laws.specs.Laws.{law_values};
ghost use Rattle.varcoef_magnus_graph_traj_step.specs.SignalScaled.{ScaledTermAdded, SumFormed};
ghost use Rattle.varcoef_magnus_graph_traj_step.specs.StepTaken.{StepTaken};

use error::Refusal;
use graph_pairs::paired::{Pair, Pairs};
use graph_rows::kernel::Pattern;
use graph_traj_laws::kernel::EndLists;
use graph_traj_samples::kernel::sample;
use graph_traj_weights::kernel::sample_weights;
use magnus_graph_coefficients::kernel::reciprocal_factorial;
use magnus_graph_helpers::factors::Factors;
use square_roots::kernel::roots_in;
use varcoef_magnus_graph::SQRT3_OVER_12_F64;
use varcoef_magnus_graph_pairs::kernel::{WeightedPairs, scale_by_roots};

// One term of the Taylor sum, by two walks over the pattern that serve both samples: of v, whose pairs `scaled` are scaled by the roots, they
// form Ωv in its place, scaled too, and add coefficient · Ωv to the sum. Not inlined, so that the loops of the walks have all registers. The lists
// of pairs are parameters, as `WeightedPairs::rooted_products` says.
#[inline(never)]
fn sampled_term(
    samples: WeightedPairs<'_, '_, '_>,
    factors: Factors,
    coefficient: f64,
    sum: &mut [f64],
    products: &mut [f64],
    scaled: &mut [f64],
    next: &mut [f64],
)
    requires sum_len { length sum.old ≡ samples.pattern.n }
    requires products_len { length products.old ≡ 2 * samples.pattern.n }
    requires scaled_len { length scaled.old ≡ 2 * samples.pattern.n }
    requires next_len { length next.old ≡ 2 * samples.pattern.n }
    ensures { let A = ieee binary64 in
        let p = samples.entry.pattern in
        let n = p.n in
        let m = length p.col_idx.now in
        let L = row_product64 n p.row_ptr.now p.col_idx.now in
        let x = samples.entry.vals.values.now in
        let r = samples.entry.roots.values.now in
        let P = weighted_omega4 A n minus_half factors.s factors.sign factors.tau in
        let W = P (L (firsts A m x)) (L (seconds A m x)) (firsts A n r) (seconds A n r) in
        ScaledTermAdded n r W coefficient sum.old scaled.old sum.new scaled.new }
{
    let scale = factors.scale();
    let comm_scale = factors.comm_scale();
    samples.rooted_products(scaled, products, next);
    samples.add_rooted_term(products, next, scale, comm_scale, coefficient, sum, scaled);
}

// The Taylor sum of four terms: the vector at 0, the held signal, becomes its successor. The work slice is split into the vectors that the terms
// write, and the roots and the values behind them. It is no sum of an `Omega`, whose terms find v at n: here a term takes v as pairs that are scaled
// by the roots, at 4n, and leaves its image so. Each term is a call of its own, so that the walks are compiled once and by themselves, with all
// registers for their loops.
fn sampled_taylor4(pattern: Pattern<'_>, factors: Factors, work: &mut [f64])
    requires { 11 * pattern.n + 2 * length pattern.col_idx.now ≤ length work.old }
    ensures { let A = ieee binary64 in
        let w = work.old in
        let p = pattern.entry in
        let n = p.n in
        let m = length p.col_idx.now in
        let L = row_product64 n p.row_ptr.now p.col_idx.now in
        let x = part (11 * n) (2 * m) w in
        let r = part (8 * n) (2 * n) w in
        let P = weighted_omega4 A n minus_half factors.s factors.sign factors.tau in
        let W = P (L (firsts A m x)) (L (seconds A m x)) (firsts A n r) (seconds A n r) in
        SumFormed n (reciprocal_factorial binary64) 4 W w work.new }
{
    let n = pattern.n;
    let m = pattern.col_idx.len();
    let (sum, from_n) = work.split_at_mut(n);
    let (_, from_2n) = from_n.split_at_mut(n);
    let (products, from_4n) = from_2n.split_at_mut(2 * n);
    let (scaled, from_6n) = from_4n.split_at_mut(2 * n);
    let (next, from_8n) = from_6n.split_at_mut(2 * n);
    let (roots, values) = from_8n.split_at_mut(3 * n);
    let samples = WeightedPairs {
        pattern,
        vals: Pairs {
            count: m,
            values: &values[..2 * m],
        },
        roots: Pairs {
            count: n,
            values: &roots[..2 * n],
        },
    };
    let first = reciprocal_factorial(1);
    let second = reciprocal_factorial(2);
    let third = reciprocal_factorial(3);
    let fourth = reciprocal_factorial(4);
    scale_by_roots(samples.roots, sum, scaled);
    sampled_term(samples, factors, first, sum, products, scaled, next);
    sampled_term(samples, factors, second, sum, products, scaled, next);
    sampled_term(samples, factors, third, sum, products, scaled, next);
    sampled_term(samples, factors, fourth, sum, products, scaled, next);
}

// The pairs at 8n become the roots of those at 4n. Two calls take them, for the same reason.
fn weight_roots(work: &mut [f64], n: usize)
    requires { 10 * n ≤ length work.old }
    ensures { let w = work.old in
        work.new ≡ put (8 * n) (map (square_root binary64) (part (4 * n) (2 * n) w)) w }
{
    roots_in(work, n, 4 * n, 8 * n);
    roots_in(work, n, 5 * n, 9 * n);
}

// What a step takes in a segment of law 2: the pattern, and the start and end lists of the values and of the weights.
#[derive(Clone, Copy)]
pub struct SegmentLists<'a> {
    pub pattern: Pattern<'a>,
    pub values: EndLists<'a>,
    pub weights: EndLists<'a>,
    pub ghost values_len: { length values.start.now ≡ length pattern.col_idx.now },
    pub ghost weights_len: { length weights.start.now ≡ pattern.n },
}

// One step with samples of law 2 at two fractions of the way through the segment. Row 20 is checked for the first sample, then for the
// second, and then row 11 for the weights of the first and of the second.
pub fn sampled_step(
    lists: SegmentLists<'_>,
    tau: f64,
    fractions: Pair,
    work: &mut [f64],
) -> Result<(), Refusal>
    requires { 11 * lists.pattern.n + 2 * length lists.pattern.col_idx.now ≤ length work.old }
    ensures { let p = lists.entry.pattern in
        let v = lists.entry.values in
        let a = lists.entry.weights in
        let m = length v.start.now in
        let k = length a.start.now in
        StepTaken p.n p.row_ptr.now p.col_idx.now tau
        (law_values m fractions.first v.start.now v.end.now)
        (law_values m fractions.second v.start.now v.end.now)
        (law_values k fractions.first a.start.now a.end.now)
        (law_values k fractions.second a.start.now a.end.now)
        result work.old work.new }
{
    let n = lists.pattern.n;
    sample(lists.values, fractions, work, 11 * n)?;
    sample_weights(lists.weights, fractions, work, 4 * n)?;
    weight_roots(work, n);
    let factors = Factors {
        tau,
        sign: -1.0,
        s: SQRT3_OVER_12_F64,
    };
    sampled_taylor4(lists.pattern, factors, work);
    Ok(())
}
