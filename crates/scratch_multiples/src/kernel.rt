// Multiples, place by place, of the vectors within a work slice, for callers that keep the vectors within it, and apart where one is read while
// another is written.
ghost use Rattle.std.specs.Prelude.{◌≡◌, ◌+◌, ◌≤◌, length};
ghost use Rattle.std.specs.Float.{binary64};
ghost use Rattle.arithmetic.specs.Arithmetic.{ieee, scaled, subtracted};
ghost use Rattle.scratch.specs.Parts.{part, put, Apart};

use scratch::kernel::combine_within;

// The vector at `target` becomes scale times the one at `source`.
pub fn scale_within(work: &mut [f64], n: usize, scale: f64, source: usize, target: usize)
    requires { (source + n ≤ length work.old) × (target + n ≤ length work.old) × Apart n source target }
    ensures { let w = work.old in
        work.new ≡ put target (scaled (ieee binary64) n scale (part source n w)) w }
{
    combine_within(work, n, source, source, target, |a, _| scale * a);
}

// The vector at `target` becomes scale times the difference of those at x and y.
pub fn scaled_difference(work: &mut [f64], n: usize, scale: f64, x: usize, y: usize, target: usize)
    requires n_in_bounds { (x + n ≤ length work.old) × (y + n ≤ length work.old) × (target + n ≤ length work.old) }
    requires apart { Apart n x target × Apart n y target }
    ensures { let A = ieee binary64 in
        let w = work.old in
        work.new ≡ put target (scaled A n scale (subtracted A n (part x n w) (part y n w))) w }
{
    combine_within(work, n, x, y, target, |a, b| scale * (a - b));
}

// The vector at `target` becomes scale times the one at x, less the one at y.
pub fn scaled_less(work: &mut [f64], n: usize, scale: f64, x: usize, y: usize, target: usize)
    requires n_in_bounds { (x + n ≤ length work.old) × (y + n ≤ length work.old) × (target + n ≤ length work.old) }
    requires apart { Apart n x target × Apart n y target }
    ensures { let A = ieee binary64 in
        let w = work.old in
        work.new ≡ put target (subtracted A n (scaled A n scale (part x n w)) (part y n w)) w }
{
    combine_within(work, n, x, y, target, |a, b| scale * a - b);
}
