// A term of a step of the weighted adjoint run where both samples are one list (01, parts 7, 8 and 10), for callers that have checked its
// arguments. P is the weighted product with that list. The vectors lie one after the other in the work slice:
//   0    the sum so far, at first the held signal and at last its successor
//   n    v, the held signal and then its images under Ω; while Ωv is formed, d = P a
//   2n   a = P v
//   5n   the signal that a product takes, scaled by the roots
ghost use Rattle.std.specs.Prelude.{◌*◌};
ghost use Rattle.std.specs.Float.{binary64};
ghost use Rattle.rounding.specs.StepLength.{minus_half};
ghost use Rattle.arithmetic.specs.Arithmetic.{ieee};
ghost use Rattle.graph_rows.specs.Product.{product_of};
ghost use Rattle.varcoef_magnus_graph_taylor_term.specs.WeightedOmega4.{weighted_omega4};

use magnus_graph_helpers::factors::Factors;
use magnus_graph_helpers::kernel::omega_sum;
use magnus_graph_taylor::kernel::Omega;
use scratch_scaled_sums::kernel::add_scaled;
use varcoef_magnus_graph_products::kernel::WeightedSample;

// Ω of order 4 where both samples, and their weights, are one. It is no one struct with `ConstantOmega4` (magnus_graph_traj_terms), for what is said at
// `WeightedOmega4` (varcoef_magnus_graph_taylor_term).
#[derive(Clone, Copy)]
pub struct ConstantWeightedOmega4<'a, 'r> {
    pub both: WeightedSample<'a, 'r>,
    pub factors: Factors,
}

impl<'a, 'r> Omega for ConstantWeightedOmega4<'a, 'r> {
    ghost nodes = { λ o. o.both.sample.pattern.n };

    ghost used = { λ o. 6 * o.both.sample.pattern.n };

    ghost image = { λ o. let f = o.factors in
        let L = product_of o.both.sample in
        let r = o.both.roots.now in
        weighted_omega4 (ieee binary64) o.both.sample.pattern.n minus_half f.s f.sign f.tau L L r r };

    fn node_count(&self) -> usize {
        self.both.sample.pattern.n
    }

    // a is b, and c is d, so that two weighted products do. The commutator's difference c - d is formed all the same: where c is infinite it is a
    // NaN.
    fn add_term(&self, coefficient: f64, work: &mut [f64]) {
        let n = self.both.sample.pattern.n;
        let a = 2 * n;
        let scale = self.factors.scale();
        let comm_scale = self.factors.comm_scale();
        self.both.product_in(work, n, a);
        self.both.product_in(work, a, n);
        omega_sum(work, n, a, a, n, n, scale, comm_scale);
        add_scaled(work, n, coefficient, n, 0);
    }
}
