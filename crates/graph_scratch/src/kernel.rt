// The row product of a vector that lies in a work slice, for callers that have checked the pattern. The signal and the
// result are found by the index of their first element.
ghost use Rattle.std.specs.Prelude.{◌≡◌, ◌+◌, ◌≤◌, length};
ghost use Rattle.scratch.specs.Parts.{part, put, Apart};
ghost use Rattle.graph_rows.specs.Product.{product_of};

use graph_rows::kernel::Sample;

// The vector at `target` becomes the product with the one at `source`, from which it is apart. Either vector may lie before the other: the slice is
// split between them.
pub fn product_in(sample: Sample<'_>, work: &mut [f64], source: usize, target: usize)
    requires source_in_bounds { source + sample.pattern.n ≤ length work.old }
    requires target_in_bounds { target + sample.pattern.n ≤ length work.old }
    requires apart { Apart sample.pattern.n source target }
    ensures { let w = work.old in
        let s = sample.entry in
        work.new ≡ put target (product_of s (part source s.pattern.n w)) w }
{
    let n = sample.pattern.n;
    if source < target {
        let (front, back) = work.split_at_mut(target);
        sample.product(&front[source..source + n], &mut back[..n]);
    } else {
        let (front, back) = work.split_at_mut(source);
        sample.product(&back[..n], &mut front[target..target + n]);
    }
}
