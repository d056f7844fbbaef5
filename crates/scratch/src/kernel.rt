// Vectors put into a work slice, taken out of it, copied within it and cleared, for callers that keep the vectors within it, and apart
// where one is read while another is written.
//
// A vector of a work slice is named by its place, here and in the crates above. Which vectors are read and which is written differs from call to
// call, and some are one and the same, so that no one split of the slice serves. Each function asks only for the places that it uses: a struct of
// the slice with the room of a whole step would ask for more.
ghost use Rattle.std.specs.Prelude.{◌≡◌, ◌+◌, ◌<◌, ◌≤◌, length, Float};
ghost use Rattle.scratch.specs.Parts.{part, put, Apart, zeros, combined, Computes};

// Vectors are copied element by element: the library's copies of slices are calls of the C library's `memmove`, which a program that links these
// kernels would then have to bring.

// The first `need` elements become +0 (01, "What a call answers": what is zeroed is the part that the call needed).
pub fn clear(work: &mut [f64], need: usize)
    requires { need ≤ length work.old }
    ensures { work.new ≡ put 0 (zeros need) work.old }
{
    work[..need].fill(0.0);
}

// The vector at `at` becomes v.
pub fn load(work: &mut [f64], at: usize, v: &[f64])
    requires { at + length v.now ≤ length work.old }
    ensures { work.new ≡ put at v.now work.old }
{
    for (i, x) in v.iter().enumerate() {
        work[at + i] = *x;
    }
}

// out becomes the vector at `at`, of as many places as out has.
pub fn store(work: &[f64], at: usize, out: &mut [f64])
    requires { at + length out.old ≤ length work.now }
    ensures { out.new ≡ part at (length out.old) work.now }
{
    for (i, y) in out.iter_mut().enumerate() {
        *y = work[at + i];
    }
}

// The vector at `target` becomes the one at `source`.
pub fn copy_within(work: &mut [f64], n: usize, source: usize, target: usize)
    requires { (source + n ≤ length work.old) × (target + n ≤ length work.old) × Apart n source target }
    ensures { let w = work.old in
        work.new ≡ put target (part source n w) w }
{
    // By index: both vectors lie in one slice.
    for i in 0..n {
        work[target + i] = work[source + i];
    }
}

// The vector at `target` becomes what f makes, place by place, of those at x and y. None of these begins before the target and ends within
// it, so that a place is read before it is written; it may be the target itself.
pub fn combine_within<F: Fn(f64, f64) -> f64>(
    work: &mut [f64],
    n: usize,
    x: usize,
    y: usize,
    target: usize,
    f: F,
)
    requires n_in_bounds { (x + n ≤ length work.old) × (y + n ≤ length work.old) × (target + n ≤ length work.old) }
    requires read_first { (x < target → x + n ≤ target) × (y < target → y + n ≤ target) }
    requires callable { F.IsAlwaysCallable f }
    ensures { let w = work.old in
        (h : Float → Float → Float) → Computes (F.post f) h → work.new ≡ put target (combined h n (part x n w) (part y n w)) w }
{
    // By index: x or y may be the target itself, and the two may overlap, so that no split of the slice has all three.
    for i in 0..n {
        work[target + i] = f(work[x + i], work[y + i]);
    }
}
