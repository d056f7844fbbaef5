// The Taylor sum of one step of an unweighted run along a trajectory (01, parts 6 and 10), for callers that have checked its arguments. L1 and
// L2 are the products with the two samples. The step's vectors lie one after the other in the work slice:
//   0       the sum so far, at first the held signal and at last its successor
//   n       v, the held signal and then its images under Ω; while Ωv is formed of one list, d = L a
//   2n      a = L v where both samples are one list; under law 2 pairs of b = L2 v and a = L1 v
//   7n      under law 2 pairs of the two samples' values, as many as columns
ghost use Rattle.std.specs.Prelude.{◌≡◌, ◌+◌, ◌*◌, ◌≤◌, length};
ghost use Rattle.std.specs.Float.{binary64};
ghost use Rattle.arithmetic.specs.Arithmetic.{ieee};
ghost use Rattle.scratch.specs.Parts.{part};
ghost use Rattle.graph_rows.specs.Product.{product_of};
ghost use Rattle.graph_rows.specs.RowProduct.{row_product64};
ghost use Rattle.graph_pairs.specs.Pairs.{firsts, seconds};
ghost use Rattle.magnus.specs.Coefficients.{reciprocal_factorial};
ghost use Rattle.magnus_graph_helpers.specs.Factors.{omega4_with};
ghost use Rattle.magnus_graph_helpers.specs.Terms.{TermsAdded};

use graph_pairs::paired::Pairs;
use graph_rows::kernel::{Pattern, Sample};
use graph_scratch::kernel::product_in;
use magnus_graph_helpers::factors::Factors;
use magnus_graph_helpers::kernel::omega_sum;
use magnus_graph_pairs::kernel::SharedOmega4;
use magnus_graph_taylor::kernel::{Omega, taylor_sum};
use scratch_scaled_sums::kernel::add_scaled;

// The Taylor sum of four terms with two samples of law 2: the vector at 0, the held signal, becomes its successor.
pub fn sampled_taylor4(pattern: Pattern<'_>, factors: Factors, work: &mut [f64])
    requires { 7 * pattern.n + 2 * length pattern.col_idx.now ≤ length work.old }
    ensures { let A = ieee binary64 in
        let p = pattern.entry in
        let n = p.n in
        let m = length p.col_idx.now in
        let values = part (7 * n) (2 * m) work.old in
        let L1 = row_product64 n p.row_ptr.now p.col_idx.now (firsts A m values) in
        let L2 = row_product64 n p.row_ptr.now p.col_idx.now (seconds A m values) in
        TermsAdded A n (7 * n) (reciprocal_factorial binary64) 4 (omega4_with factors n L1 L2) work.old work.new }
{
    let m = pattern.col_idx.len();
    let (vectors, samples) = work.split_at_mut(7 * pattern.n);
    let omega = SharedOmega4 {
        pattern,
        vals: Pairs {
            count: m,
            values: &samples[..2 * m],
        },
        factors,
    };
    taylor_sum(&omega, 4, vectors);
}

// Ω of order 4 where both samples are one: a is b, and c is d, so that two products do. The commutator's difference c - d is formed all the
// same: where c is infinite it is a NaN.
#[derive(Clone, Copy)]
pub struct ConstantOmega4<'a> {
    pub sample: Sample<'a>,
    pub factors: Factors,
}

impl<'a> Omega for ConstantOmega4<'a> {
    ghost nodes = { λ o. o.sample.pattern.n };

    ghost used = { λ o. 3 * o.sample.pattern.n };

    ghost image = { λ o. let L = product_of o.sample in omega4_with o.factors o.sample.pattern.n L L };

    fn node_count(&self) -> usize {
        self.sample.pattern.n
    }

    fn add_term(&self, coefficient: f64, work: &mut [f64]) {
        let n = self.sample.pattern.n;
        let a = 2 * n;
        let scale = self.factors.scale();
        let comm_scale = self.factors.comm_scale();
        product_in(self.sample, work, n, a);
        product_in(self.sample, work, a, n);
        omega_sum(work, n, a, a, n, n, scale, comm_scale);
        add_scaled(work, n, coefficient, n, 0);
    }
}
