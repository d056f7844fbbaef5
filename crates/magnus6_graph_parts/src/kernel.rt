// B1, B2 and B3 of order 6 at a vector (01, part 9; `apply_omega6` of the Rust), for callers whose checks have accepted the samples. L1,
// L2 and L3 are the products with the three samples. B1, B2, B3, C1, C2 and W = 2 B3 + C1 are the operators of the formula in
// the crate magnus (specs/Omega6.antt), and y is B1 x. The vectors of n places that a step of order 6 forms lie one after the other in
// the work slice:
//   0, n  the sum so far and v
//   2n    B1 v + B3 v / 12
//   3n    l = (-20 B1 - B3 + C1) v
//   4n    r = (B2 + C2) v
//   5n    (-20 B1 - B3 + C1) r
// From 6n on lie the vectors that are formed of one vector x, which is v, r or l:
//   6n    L1 x, then L2 B2 x; at last (1/240) times the commutator at v
//   7n    L2 x, then L1 y
//   8n    L3 x, then L3 y
//   9n    y = B1 x
//   10n   B2 x
//   11n   B3 x
//   12n   B2 y
//   13n   C1 x
//   14n   W x, then -20 B1 x - B3 x
//   15n   L2 W x
//   16n   L2 y
//   17n   L2 B2 y
//   18n   L1 L2 y
//   19n   L3 L2 y
//   20n   C2 x
//   21n   (B2 + C2) l
// No vector is read after another has taken its place.
ghost use Rattle.std.specs.Prelude.{◌≡◌, ◌*◌, ◌≤◌, length};
ghost use Rattle.std.specs.Float.{binary64};
ghost use Rattle.std.specs.Float.Ieee.{mul};
ghost use Rattle.arithmetic.specs.Arithmetic.{ieee};
ghost use Rattle.scratch.specs.Parts.{part, put};
ghost use Rattle.magnus.specs.Omega6.{constants6};
ghost use Rattle.magnus6_graph_parts.specs.Omega6Parts.{second_difference_of, scaled_second_difference};

use graph_rows::kernel::Sample;
use graph_scratch::kernel::product_in;
use graph_two_products::kernel::{TwoSamples, two_products_in};
use scratch_multiples::kernel::{scale_within, scaled_difference};

// Constants of magnus6_graph.rs; their values are those of constants6 in the crate magnus.
pub const SQRT15_OVER_3: f64 = 1.290_994_448_735_805_6;

pub const TEN_OVER_3: f64 = 10.0 / 3.0;

// The three samples of a step of order 6, which have the same number of nodes, and the step's length τ: the outer two are the first and the third, of
// which the products with a vector are formed together.
// The work slice stays beside them: the parts call functions of the crates scratch, which take a slice and places in it, and a struct of the two would
// be taken apart at each of these calls.
#[derive(Clone, Copy)]
pub struct Samples6<'a> {
    pub outer: TwoSamples<'a>,
    pub second: Sample<'a>,
    pub tau: f64,
    pub ghost second_nodes: { second.pattern.n ≡ outer.first.pattern.n },
}

// scale · (A3 - 2 A2 + A1) at a place, from a1, a2 and a3, the products with the samples there.
pub fn second_difference(scale: f64, a1: f64, a2: f64, a3: f64) -> f64
    ensures { result ≡ second_difference_of (ieee binary64) scale a1 a2 a3 }
{
    scale * (-a3 + a2 + a2 - a1)
}

// B3 x from the products of x.
fn b3_sum(work: &mut [f64], n: usize, tau: f64)
    requires { 22 * n ≤ length work.old }
    ensures { let w = work.old in
        let B3x = scaled_second_difference (ieee binary64) n (mul binary64 tau constants6.ten_over3)
        (part (6 * n) n w) (part (7 * n) n w) (part (8 * n) n w) in
        work.new ≡ put (11 * n) B3x w }
{
    let a1 = 6 * n;
    let a2 = 7 * n;
    let a3 = 8 * n;
    let scale = tau * TEN_OVER_3;
    // Three vectors are read at once: by index, since a zip of four lists would be no plainer.
    let (before, behind) = work.split_at_mut(11 * n);
    for (i, b3) in behind[..n].iter_mut().enumerate() {
        *b3 = second_difference(scale, before[a1 + i], before[a2 + i], before[a3 + i]);
    }
}

impl<'a> Samples6<'a> {
    ghost use Rattle.magnus6_graph_parts.specs.Omega6Parts.{BFormed};
    ghost use Rattle.magnus6_graph_parts.specs.WorkSlice.{Room, LiesBefore, Leaves};

    // B1 x, B2 x and B3 x, for the vector x at index `x`.
    pub fn form_b(&self, work: &mut [f64], x: usize)
        requires room { Room self.now work.old }
        requires x_in_bounds { LiesBefore self.now x 6 }
        ensures { Leaves BFormed self.now x work.old work.new }
    {
        let n = self.outer.first.pattern.n;
        // L1 x, L3 x, L2 x
        two_products_in(self.outer, work, x, 6 * n, 8 * n);
        product_in(self.second, work, x, 7 * n);
        // B1 x, B2 x, B3 x
        scale_within(work, n, -self.tau, 7 * n, 9 * n);
        scaled_difference(work, n, self.tau * SQRT15_OVER_3, 6 * n, 8 * n, 10 * n);
        b3_sum(work, n, self.tau);
    }
}
