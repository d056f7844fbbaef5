// The weighted product of vectors in a work slice (01, part 5), for callers that have checked their arguments. L is the product with a
// sample, r the square roots of its weights, and the weighted product is r · (L (r · v)) at each place.
ghost use Rattle.std.specs.Prelude.{◌≡◌, ◌+◌, ◌*◌, ◌≤◌, length};
ghost use Rattle.std.specs.Float.{binary64};
ghost use Rattle.arithmetic.specs.Arithmetic.{ieee, multiplied};
ghost use Rattle.scratch.specs.Parts.{part, put, Apart};
ghost use Rattle.graph_rows.specs.Product.{product_of};

use graph_rows::kernel::Sample;
use graph_scratch::kernel::product_in;
use scratch::kernel::combine_within;

// A sample and the square roots of its weights, one for each node.
#[derive(Clone, Copy)]
pub struct WeightedSample<'a, 'r> {
    pub sample: Sample<'a>,
    pub roots: &'r [f64],
    pub ghost roots_len: { length roots.now ≡ sample.pattern.n },
}

// The vector at `target` becomes the product with the one at `source`, times the roots at `root`, which may lie over the source.
pub fn rooted_product_in(
    sample: Sample<'_>,
    work: &mut [f64],
    root: usize,
    source: usize,
    target: usize,
)
    requires root_in_bounds { root + sample.pattern.n ≤ length work.old }
    requires source_in_bounds { source + sample.pattern.n ≤ length work.old }
    requires target_in_bounds { target + sample.pattern.n ≤ length work.old }
    requires apart { Apart sample.pattern.n root target × Apart sample.pattern.n source target }
    ensures { let w = work.old in
        let n = sample.entry.pattern.n in
        let L = product_of sample.entry in
        work.new ≡ put target (multiplied (ieee binary64) n (part root n w) (L (part source n w))) w }
{
    product_in(sample, work, source, target);
    combine_within(work, sample.pattern.n, root, target, target, |r, y| r * y);
}

impl<'a, 'r> WeightedSample<'a, 'r> {
    ghost use Rattle.varcoef_magnus_graph_products.specs.WeightedProduct.{with_product};

    // The vector at `target` becomes the one at `source`, times the roots.
    fn scale_in(self, work: &mut [f64], source: usize, target: usize)
        requires source_in_bounds { source + self.sample.pattern.n ≤ length work.old }
        requires target_in_bounds { target + self.sample.pattern.n ≤ length work.old }
        requires apart { Apart self.sample.pattern.n source target }
        ensures { let w = work.old in
            let n = self.entry.sample.pattern.n in
            work.new ≡ put target (multiplied (ieee binary64) n self.entry.roots.now (part source n w)) w }
    {
        // By index: the two vectors lie in one slice, and a zip of three lists would be no plainer than their places.
        for (i, root) in self.roots.iter().enumerate() {
            work[target + i] = *root * work[source + i];
        }
    }

    // The vector at `target` becomes the product with the one at `source`, times the roots.
    pub fn rooted_product_in(self, work: &mut [f64], source: usize, target: usize)
        requires source_in_bounds { source + self.sample.pattern.n ≤ length work.old }
        requires target_in_bounds { target + self.sample.pattern.n ≤ length work.old }
        requires apart { Apart self.sample.pattern.n source target }
        ensures { let w = work.old in
            let n = self.entry.sample.pattern.n in
            let L = product_of self.entry.sample in
            work.new ≡ put target (multiplied (ieee binary64) n self.entry.roots.now (L (part source n w))) w }
    {
        let source_end = source + self.sample.pattern.n;
        for (i, root) in self.roots.iter().enumerate() {
            let acc = self.sample.row_sum(&work[source..source_end], i);
            work[target + i] = *root * acc;
        }
    }

    // The weighted product (01, part 5; `apply_la_on_slice` of the Rust) with the vector at `source`, to `target`; both are
    // among the first five vectors, and the scaled signal is written to 5n. A call of its own, so that its loops have all registers.
    #[inline(never)]
    pub fn product_in(self, work: &mut [f64], source: usize, target: usize)
        requires room { 6 * self.sample.pattern.n ≤ length work.old }
        requires source_in_bounds { source + self.sample.pattern.n ≤ 5 * self.sample.pattern.n }
        requires target_in_bounds { target + self.sample.pattern.n ≤ 5 * self.sample.pattern.n }
        ensures { let s = self.entry.sample in
            work.new ≡ with_product (ieee binary64) s.pattern.n (product_of s) self.entry.roots.now source target work.old }
    {
        let scaled = 5 * self.sample.pattern.n;
        self.scale_in(work, source, scaled);
        self.rooted_product_in(work, scaled, target);
    }
}
