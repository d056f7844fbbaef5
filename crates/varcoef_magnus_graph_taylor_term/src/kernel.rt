// A term of the Taylor sum of a weighted step of order 4 (01, part 7), one product after the other, for callers that have checked its arguments.
// A weighted product is r · (L (r · v)) at each place, where L is the product with a sample and r the square roots of its weights. The vectors of n
// places lie one after the other in the work slice:
//   0       the sum so far
//   n       v, the signal and then its images under Ω; while Ωv is formed, d, the weighted product of the first sample with b
//   2n, 3n  a and b, the weighted products of the first and of the second sample with v
//   4n      c, the weighted product of the second sample with a
//   5n      r · v, the scaled signal of a weighted product
ghost use Rattle.std.specs.Prelude.{◌≡◌, ◌+◌, ◌*◌, ◌≤◌, length};
ghost use Rattle.std.specs.Float.{binary64};
ghost use Rattle.rounding.specs.StepLength.{minus_half};
ghost use Rattle.arithmetic.specs.Arithmetic.{ieee};
ghost use Rattle.graph_rows.specs.Product.{product_of};
ghost use Rattle.varcoef_magnus_graph_taylor_term.specs.WeightedOmega4.{weighted_omega4};

use magnus_graph_helpers::factors::Factors;
use magnus_graph_helpers::kernel::omega_sum;
use magnus_graph_taylor::kernel::Omega;
use scratch_scaled_sums::kernel::add_scaled;
use varcoef_magnus_graph_products::kernel::WeightedSample;

// Ω of order 4 of two samples with weights, each with a pattern of its own. It is no one struct with `Omega4` (magnus_graph_term): a weighted product
// leaves a scaled signal at 5n, so that Ω uses 6n of the work slice with weights, and without them 5n, or 3n where both samples are one. A trait of the
// two products would have to name this part, and that the vectors lie within it, beside n and the image: as much as the two structs say.
#[derive(Clone, Copy)]
pub struct WeightedOmega4<'a, 'r> {
    pub first: WeightedSample<'a, 'r>,
    pub second: WeightedSample<'a, 'r>,
    pub factors: Factors,
    pub ghost same_nodes: { second.sample.pattern.n ≡ first.sample.pattern.n },
}

impl<'a, 'r> Omega for WeightedOmega4<'a, 'r> {
    ghost nodes = { λ o. o.first.sample.pattern.n };

    ghost used = { λ o. 6 * o.first.sample.pattern.n };

    ghost image = { λ o. let f = o.factors in
        let P = weighted_omega4 (ieee binary64) o.first.sample.pattern.n minus_half f.s f.sign f.tau in
        P (product_of o.first.sample) (product_of o.second.sample) o.first.roots.now o.second.roots.now };

    fn node_count(&self) -> usize {
        self.first.sample.pattern.n
    }

    // `apply_omega4_la` and `axpy_into_slice` of the Rust.
    fn add_term(&self, coefficient: f64, work: &mut [f64]) {
        let n = self.first.sample.pattern.n;
        let a = 2 * n;
        let b = 3 * n;
        let c = 4 * n;
        let scale = self.factors.scale();
        let comm_scale = self.factors.comm_scale();
        self.first.product_in(work, n, a);
        self.second.product_in(work, n, b);
        self.first.product_in(work, b, n);
        self.second.product_in(work, a, c);
        omega_sum(work, n, a, b, c, n, scale, comm_scale);
        add_scaled(work, n, coefficient, n, 0);
    }
}
