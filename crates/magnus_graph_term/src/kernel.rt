// One term of the Taylor sum of order 4 (01, part 6) for callers that have checked its arguments. L1 and L2 are the products with the
// two samples. The vectors of n places of a step lie one after the other in the work slice:
//   0   the sum so far, at first the signal and at last the answer
//   n   v, the signal and then its images under Ω; while Ωv is formed, d = L1 b
//   2n  a = L1 v
//   3n  b = L2 v
//   4n  c = L2 a
ghost use Rattle.std.specs.Prelude.{◌≡◌, ◌*◌};
ghost use Rattle.magnus_graph_helpers.specs.Factors.{omega4_with};
ghost use Rattle.graph_rows.specs.Product.{product_of};

use graph_rows::kernel::Sample;
use graph_scratch::kernel::product_in;
use magnus_graph_helpers::factors::Factors;
use magnus_graph_helpers::kernel::omega_sum;
use magnus_graph_taylor::kernel::Omega;
use scratch_scaled_sums::kernel::add_scaled;

// Ω of order 4 of two samples, each with a pattern of its own. With weights it is `WeightedOmega4` (varcoef_magnus_graph_taylor_term), which says why.
#[derive(Clone, Copy)]
pub struct Omega4<'a> {
    pub first: Sample<'a>,
    pub second: Sample<'a>,
    pub factors: Factors,
    pub ghost same_nodes: { second.pattern.n ≡ first.pattern.n },
}

impl<'a> Omega for Omega4<'a> {
    ghost nodes = { λ o. o.first.pattern.n };

    ghost used = { λ o. 5 * o.first.pattern.n };

    ghost image = { λ o. omega4_with o.factors o.first.pattern.n (product_of o.first) (product_of o.second) };

    fn node_count(&self) -> usize {
        self.first.pattern.n
    }

    // `apply_omega4` and `axpy_into_slice` of the Rust.
    fn add_term(&self, coefficient: f64, work: &mut [f64]) {
        let n = self.first.pattern.n;
        let a = 2 * n;
        let b = 3 * n;
        let c = 4 * n;
        let scale = self.factors.scale();
        let comm_scale = self.factors.comm_scale();
        product_in(self.first, work, n, a);
        product_in(self.second, work, n, b);
        product_in(self.first, work, b, n);
        product_in(self.second, work, a, c);
        omega_sum(work, n, a, b, c, n, scale, comm_scale);
        add_scaled(work, n, coefficient, n, 0);
    }
}
