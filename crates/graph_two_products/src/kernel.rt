// The products of two samples with one vector that lies in a work slice, for callers whose checks have accepted both patterns. Where they are the
// same, one walk over the pattern forms both.
ghost use Rattle.std.specs.Prelude.{◌≡◌, ◌+◌, ◌≤◌, length};
ghost use Rattle.scratch.specs.Parts.{part, put, Apart};
ghost use Rattle.graph_rows.specs.RowProduct.{row_product64};
ghost use Rattle.graph_rows.specs.Product.{product_of};
ghost use Rattle.graph_two_products.specs.SharedPattern.{SharedPattern};

use graph_pairs::kernel::row_sums;
use graph_pairs::paired::{Lists, OneList};
use graph_rows::kernel::{Pattern, Sample};
use graph_scratch::kernel::product_in;

// Two samples with the same number of nodes. `shared` says that they have one pattern, as is found out once a step: one walk over it then forms the
// products with both. It is a fact of the two samples and no enum of the two cases, since the contracts speak of both samples in either case.
#[derive(Clone, Copy)]
pub struct TwoSamples<'a> {
    pub first: Sample<'a>,
    pub second: Sample<'a>,
    pub shared: bool,
    pub ghost same_nodes: { second.pattern.n ≡ first.pattern.n },
    pub ghost shared_pattern: { SharedPattern shared first.pattern.row_ptr.now first.pattern.col_idx.now
        second.pattern.row_ptr.now second.pattern.col_idx.now },
}

// The vectors at `target_first` and at `target_second`, which lies behind it, become the products of two samples of one pattern with the vector at
// `source`, from which both are apart.
fn shared_products_in(
    pattern: Pattern<'_>,
    vals: Lists<'_>,
    work: &mut [f64],
    source: usize,
    target_first: usize,
    target_second: usize,
)
    requires vals_len { length vals.first.now ≡ length pattern.col_idx.now }
    requires source_in_bounds { source + pattern.n ≤ length work.old }
    requires target_order { target_first + pattern.n ≤ target_second }
    requires target_in_bounds { target_second + pattern.n ≤ length work.old }
    requires apart_first { Apart pattern.n source target_first }
    requires apart_second { Apart pattern.n source target_second }
    ensures { let w = work.old in
        let p = pattern.entry in
        let v = part source p.n w in
        let L = row_product64 p.n p.row_ptr.now p.col_idx.now in
        work.new ≡ put target_second (L vals.entry.second.now v) (put target_first (L vals.entry.first.now v) w) }
{
    let n = pattern.n;
    let source_end = source + n;
    // By index: the source may lie before the targets or behind them, so no one split of the slice serves.
    for i in 0..n {
        let v = OneList {
            list: &work[source..source_end],
        };
        let sums = row_sums(pattern, vals, v, i);
        work[target_first + i] = sums.first;
        work[target_second + i] = sums.second;
    }
}

// The same of two samples, each with its own pattern, which may be the same.
pub fn two_products_in(
    samples: TwoSamples<'_>,
    work: &mut [f64],
    source: usize,
    target_first: usize,
    target_second: usize,
)
    requires source_in_bounds { source + samples.first.pattern.n ≤ length work.old }
    requires target_order { target_first + samples.first.pattern.n ≤ target_second }
    requires target_in_bounds { target_second + samples.first.pattern.n ≤ length work.old }
    requires apart_first { Apart samples.first.pattern.n source target_first }
    requires apart_second { Apart samples.first.pattern.n source target_second }
    ensures { let w = work.old in
        let s = samples.entry in
        let v = part source s.first.pattern.n w in
        work.new ≡ put target_second (product_of s.second v) (put target_first (product_of s.first v) w) }
{
    let TwoSamples {
        first,
        second,
        shared,
    } = samples;
    if shared {
        let vals = Lists {
            first: first.vals,
            second: second.vals,
        };
        shared_products_in(
            first.pattern,
            vals,
            work,
            source,
            target_first,
            target_second,
        );
    } else {
        product_in(first, work, source, target_first);
        product_in(second, work, source, target_second);
    }
}
