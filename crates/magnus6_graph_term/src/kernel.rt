// A term of the Taylor sum of order 6 (01, part 9) for callers whose checks have accepted the samples. The vectors of n places lie one after the
// other in the work slice: at 0 the sum so far, at n v, the signal and then its images under Ω; from 2n on those of the crate magnus6_graph_parts
// (src/kernel.rt).
ghost use Rattle.std.specs.Prelude.{◌*◌};
ghost use Rattle.std.specs.Float.{binary64};
ghost use Rattle.arithmetic.specs.Arithmetic.{ieee};
ghost use Rattle.graph_rows.specs.Product.{product_of};
ghost use Rattle.magnus.specs.Omega6.{constants6, omega6};
ghost use Rattle.magnus.specs.OperatorArithmetic.{on_vectors};

use magnus_graph_taylor::kernel::Omega;
use magnus6_graph_operators::kernel::{form_at_v, form_lop, form_rop};
use magnus6_graph_parts::kernel::Samples6;
use scratch_multiples::kernel::scaled_difference;
use scratch_scaled_sums::kernel::add_scaled;
use scratch_sums::kernel::add;

// A constant of magnus6_graph_helpers.rs; its value is that of constants6 in the crate magnus.
const ONE_OVER_240: f64 = 1.0 / 240.0;

// Ω of order 6 of three samples.
#[derive(Clone, Copy)]
pub struct Omega6<'a> {
    pub samples: Samples6<'a>,
}

impl<'a> Omega for Omega6<'a> {
    ghost nodes = { λ o. o.samples.outer.first.pattern.n };

    ghost used = { λ o. 22 * o.samples.outer.first.pattern.n };

    ghost image = { λ o. let s = o.samples in
        let A = ieee binary64 in
        omega6 (on_vectors A s.outer.first.pattern.n) constants6 s.tau (product_of s.outer.first) (product_of s.second) (product_of s.outer.second) };

    fn node_count(&self) -> usize {
        self.samples.outer.first.pattern.n
    }

    // `apply_omega6` and `axpy_into_slice` of the Rust.
    fn add_term(&self, coefficient: f64, work: &mut [f64]) {
        let n = self.samples.outer.first.pattern.n;
        form_at_v(&self.samples, work);
        form_lop(&self.samples, work, 4 * n);
        form_rop(&self.samples, work, 3 * n);
        // Ωv, over v
        scaled_difference(work, n, ONE_OVER_240, 5 * n, 21 * n, 6 * n);
        add(work, n, 2 * n, 6 * n, n);
        add_scaled(work, n, coefficient, n, 0);
    }
}
