// The sums of C2 of order 6 at a vector (01, part 9; `apply_omega6` of the Rust), from the products that they take, for callers that have
// checked the work slice. Where a vector lies, the table in src/kernel.rt of the crate magnus6_graph_parts tells.
ghost use Rattle.std.specs.Prelude.{◌≡◌, ◌*◌, ◌≤◌, length};
ghost use Rattle.std.specs.Float.{binary64};
ghost use Rattle.arithmetic.specs.Arithmetic.{ieee};
ghost use Rattle.scratch.specs.Parts.{part, put};
ghost use Rattle.magnus.specs.Omega6.{constants6};
ghost use Rattle.magnus6_graph_parts.specs.Omega6Parts.{twice_first_plus, c2_sum};

use magnus6_graph_parts::kernel::{SQRT15_OVER_3, TEN_OVER_3, second_difference};
use scratch::kernel::combine_within;

// A constant of magnus6_graph.rs; its value is that of constants6 in the crate magnus.
const ONE_OVER_60: f64 = 1.0 / 60.0;

// W x = (B3 x + B3 x) + C1 x.
pub fn w_sum(work: &mut [f64], n: usize)
    requires { 22 * n ≤ length work.old }
    ensures { let w = work.old in
        let Wx = twice_first_plus (ieee binary64) n (part (11 * n) n w) (part (13 * n) n w) in
        work.new ≡ put (14 * n) Wx w }
{
    combine_within(work, n, 11 * n, 13 * n, 14 * n, |b3, c1| b3 + b3 + c1);
}

// C2 x from products of W x, of y and of B2 y and L2 y.
pub fn c2_sum(work: &mut [f64], n: usize, tau: f64)
    requires { 22 * n ≤ length work.old }
    ensures { let w = work.old in
        let C2x = c2_sum (ieee binary64) n constants6 tau (part (15 * n) n w) (part (7 * n) n w) (part (16 * n) n w)
        (part (8 * n) n w) (part (17 * n) n w) (part (18 * n) n w) (part (19 * n) n w) in
        work.new ≡ put (20 * n) C2x w }
{
    let l1_y = 7 * n;
    let l3_y = 8 * n;
    let l2_w = 15 * n;
    let l2_y = 16 * n;
    let l2_b2_y = 17 * n;
    let l1_l2_y = 18 * n;
    let l3_l2_y = 19 * n;
    let two_b3_scale = (tau + tau) * TEN_OVER_3;
    let b2_b1_scale = tau * SQRT15_OVER_3 * -tau;
    // Seven vectors are read at once: by index, since a zip of eight lists would be no plainer.
    let (before, behind) = work.split_at_mut(20 * n);
    for (i, c2) in behind[..n].iter_mut().enumerate() {
        let two_b3_y = second_difference(
            two_b3_scale,
            before[l1_y + i],
            before[l2_y + i],
            before[l3_y + i],
        );
        let c1_y = -tau * before[l2_b2_y + i]
            - b2_b1_scale * (before[l1_l2_y + i] - before[l3_l2_y + i]);
        *c2 = -ONE_OVER_60 * (-tau * before[l2_w + i] - (two_b3_y + c1_y));
    }
}
