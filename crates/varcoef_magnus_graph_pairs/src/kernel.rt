// The walks of a term of a weighted step whose two samples lie as pairs, for callers that have checked its arguments (01, parts 5 to 7). A
// weighted product is r · (L (r · v)) at each place, where r are the roots of the weights. A term of the Taylor sum is two walks over the pattern,
// each of which also scales what it formed by the roots, as the next walk takes it.
ghost use Rattle.std.specs.Prelude.{◌≡◌, ◌*◌, length};
ghost use Rattle.std.specs.Float.{binary64};
ghost use Rattle.arithmetic.specs.Arithmetic.{ieee, multiplied};
ghost use Rattle.arithmetic.specs.Product.{plus_scaled};
ghost use Rattle.graph_rows.specs.RowProduct.{row_product64};
ghost use Rattle.graph_pairs.specs.Pairs.{firsts, seconds};
ghost use Rattle.magnus_graph_helpers.specs.Terms.{omega4_sum};
ghost use Rattle.varcoef_magnus_graph_pairs.specs.WeightedPairs.{scaled_pairs, rooted_pairs, exchanged_pairs};

use graph_pairs::kernel::row_sums;
use graph_pairs::paired::{Pair, Paired, Pairs};
use graph_rows::kernel::Pattern;

// The signal v times the first and times the second roots, as pairs. Of the roots alone: it takes no pattern, and no values.
pub fn scale_by_roots(roots: Pairs<'_>, v: &[f64], scaled: &mut [f64])
    requires v_len { length v.now ≡ roots.count }
    requires scaled_len { length scaled.old ≡ 2 * roots.count }
    ensures { scaled.new ≡ scaled_pairs roots.entry.count roots.entry.values.now v.now }
{
    // By index: of a slice written through `as_chunks_mut` or `chunks_exact_mut` the library promises the length, and nothing of its elements.
    for (i, x) in v.iter().enumerate() {
        let r = roots.at(i);
        scaled[2 * i] = r.first * *x;
        scaled[2 * i + 1] = r.second * *x;
    }
}

// Two samples of one pattern and the square roots of their weights: pairs of the values, one for each entry, and of the roots, one for each node.
#[derive(Clone, Copy)]
pub struct WeightedPairs<'a, 'v, 'r> {
    pub pattern: Pattern<'a>,
    pub vals: Pairs<'v>,
    pub roots: Pairs<'r>,
    pub ghost vals_len: { vals.count ≡ length pattern.col_idx.now },
    pub ghost roots_len: { roots.count ≡ pattern.n },
}

impl<'a, 'v, 'r> WeightedPairs<'a, 'v, 'r> {
    // Of the signals that `scaled` holds, scaled for each sample, the products become pairs of a, the roots of the first sample times its product
    // with the first of them, and b, those of the second times its product with the second one; and `next` pairs of r1 · b and r2 · a, of which the next
    // products are formed, the first sample's of r1 · b and the second one's of r2 · a.
    // The three lists of pairs stay parameters: here one is read and two are written, and in `add_rooted_term` two are read and one is written, where a
    // struct would lend each to be written.
    pub fn rooted_products(self, scaled: &[f64], products: &mut [f64], next: &mut [f64])
        requires scaled_len { length scaled.now ≡ 2 * self.pattern.n }
        requires products_len { length products.old ≡ 2 * self.pattern.n }
        requires next_len { length next.old ≡ 2 * self.pattern.n }
        ensures products { let s = self.entry in
            let p = s.pattern in
            products.new ≡ rooted_pairs p.n p.row_ptr.now p.col_idx.now s.vals.values.now s.roots.values.now scaled.now }
        ensures next { next.new ≡ exchanged_pairs self.entry.pattern.n self.entry.roots.values.now products.new }
    {
        let scaled = Pairs {
            count: self.pattern.n,
            values: scaled,
        };
        let (roots, _) = self.roots.values.as_chunks::<2>();
        for (i, &[r1, r2]) in roots.iter().enumerate() {
            let sums = row_sums(self.pattern, self.vals, scaled, i);
            let a = r1 * sums.first;
            let b = r2 * sums.second;
            products[2 * i] = a;
            products[2 * i + 1] = b;
            next[2 * i] = r1 * b;
            next[2 * i + 1] = r2 * a;
        }
    }

    // A term of order 4 from the pairs of a and b, the products, and of r1 · b and r2 · a, the next signals. At each place Ωv is
    // o = scale · (a + b) + comm_scale · (c - d), where c is r2 times the second sample's product with r2 · a and d is r1 times the first one's
    // with r1 · b. To the sum coefficient · o is added, and `scaled` becomes pairs of r1 · o and r2 · o.
    pub fn add_rooted_term(
        self,
        products: &[f64],
        next: &[f64],
        scale: f64,
        comm_scale: f64,
        coefficient: f64,
        sum: &mut [f64],
        scaled: &mut [f64],
    )
        requires products_len { length products.now ≡ 2 * self.pattern.n }
        requires next_len { length next.now ≡ 2 * self.pattern.n }
        requires sum_len { length sum.old ≡ self.pattern.n }
        requires scaled_len { length scaled.old ≡ 2 * self.pattern.n }
        ensures { let A = ieee binary64 in
            let p = self.entry.pattern in
            let n = p.n in
            let m = length p.col_idx.now in
            let x = self.entry.vals.values.now in
            let r = self.entry.roots.values.now in
            let L1 = row_product64 n p.row_ptr.now p.col_idx.now (firsts A m x) in
            let L2 = row_product64 n p.row_ptr.now p.col_idx.now (seconds A m x) in
            let a = firsts A n products.now in
            let b = seconds A n products.now in
            let c = multiplied A n (seconds A n r) (L2 (seconds A n next.now)) in
            let d = multiplied A n (firsts A n r) (L1 (firsts A n next.now)) in
            let o = omega4_sum A n scale comm_scale a b c d in
            (sum.new ≡ plus_scaled A n sum.old coefficient o) × (scaled.new ≡ scaled_pairs n r o) }
    {
        let n = self.pattern.n;
        let products = Pairs {
            count: n,
            values: products,
        };
        let next = Pairs {
            count: n,
            values: next,
        };
        for (i, y) in sum.iter_mut().enumerate() {
            let sums = row_sums(self.pattern, self.vals, next, i);
            let r = self.roots.at(i);
            let d = r.first * sums.first;
            let c = r.second * sums.second;
            let Pair {
                first: a,
                second: b,
            } = products.at(i);
            let o = scale * (a + b) + comm_scale * (c - d);
            *y = *y + coefficient * o;
            scaled[2 * i] = r.first * o;
            scaled[2 * i + 1] = r.second * o;
        }
    }
}
