// The Taylor sum of a step, for callers that have checked its arguments. The vectors of n places of a step lie one after the other in the work slice:
// at 0 the sum so far, at first the signal and at last the answer; at n the vector v, the signal and then its images under Ω. What lies behind
// them is each Ω's own.
ghost use Rattle.std.specs.Prelude.{◌≡◌, ◌*◌, ◌≤◌, ℕ, List, Float, length};
ghost use Rattle.std.specs.Float.{binary64};
ghost use Rattle.arithmetic.specs.Arithmetic.{ieee};
ghost use Rattle.magnus.specs.Coefficients.{reciprocal_factorial};
ghost use Rattle.magnus_graph_helpers.specs.Terms.{TermAdded, TermsAdded};

use magnus_graph_coefficients::kernel::reciprocal_factorial;
use scratch::kernel::copy_within;

// The Ω of a step: what is added to the Taylor sum in one term.
pub trait Omega {
    // The number of nodes n, how much of the work slice a term may change, and Ω at a vector.
    ghost nodes: { Self → ℕ };

    ghost used: { Self → ℕ };

    ghost image: { Self → List Float → List Float };

    // The number of nodes.
    fn node_count(&self) -> usize
        ensures { result ≡ nodes self.now };

    // One term: v becomes Ωv, and coefficient · Ωv is added to the sum.
    fn add_term(&self, coefficient: f64, work: &mut [f64])
        requires { used self.now ≤ length work.old }
        ensures { TermAdded (ieee binary64) (nodes self.now) (used self.now) (image self.now) coefficient work.old work.new };
}

// The Taylor sum of so many terms (`compute_taylor4` and `accumulate_taylor6` of the Rust): the vector at 0, the signal, becomes the step's answer.
pub fn taylor_sum<W: Omega>(omega: &W, terms: usize, work: &mut [f64])
    requires terms_bound { terms ≤ 6 }
    requires two_vectors { 2 * W.nodes omega.now ≤ W.used omega.now }
    requires used_in_bounds { W.used omega.now ≤ length work.old }
    ensures { TermsAdded (ieee binary64) (W.nodes omega.now) (W.used omega.now) (reciprocal_factorial binary64) terms (W.image omega.now)
        work.old work.new }
{
    let n = omega.node_count();
    copy_within(work, n, 0, n);
    for k in 0..terms {
        omega.add_term(reciprocal_factorial(k + 1), work);
    }
}
