// What the steps share, for callers that have checked their arguments: Ωv of order 4 from its four products.
ghost use Rattle.std.specs.Prelude.{◌≡◌, ◌+◌, ◌≤◌, length};
ghost use Rattle.std.specs.Float.{binary64};
ghost use Rattle.arithmetic.specs.Arithmetic.{ieee};
ghost use Rattle.scratch.specs.Parts.{part, put};
ghost use Rattle.magnus_graph_helpers.specs.Terms.{omega4_sum};

// Ωv of order 4 from its products (`apply_omega4` of the Rust, after its products): the vector d at `target` becomes
// scale · (a + b) + comm_scale · (c - d) at each place, for the vectors at a, b and c. None of these begins before the
// target, so that a place is read before it is written; where one product serves for two, b may be a, and c the target.
pub fn omega_sum(
    work: &mut [f64],
    n: usize,
    a: usize,
    b: usize,
    c: usize,
    target: usize,
    scale: f64,
    comm_scale: f64,
)
    requires n_in_bounds { (a + n ≤ length work.old) × (b + n ≤ length work.old) × (c + n ≤ length work.old) }
    requires target_le_a { (target ≤ a) × (target ≤ b) × (target ≤ c) }
    ensures { let w = work.old in
        let Ωv = omega4_sum (ieee binary64) n scale comm_scale (part a n w) (part b n w) (part c n w) (part target n w) in
        work.new ≡ put target Ωv w }
{
    // Four vectors of one slice, some of which may be the same: by index, since they cannot be lent side by side.
    for i in 0..n {
        let d = work[target + i];
        work[target + i] = scale * (work[a + i] + work[b + i]) + comm_scale * (work[c + i] - d);
    }
}
