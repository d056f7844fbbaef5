// One term of the Taylor sum of order 4 (01, part 6) where both samples have one pattern, for callers that have checked its arguments: one
// walk over the pattern forms the rows of both. L1 and L2 are the products with the two samples. The vectors lie in the work slice:
//   0   the sum so far, n places
//   n   v, the signal and then its images under Ω, n places
//   2n  pairs of b = L2 v and a = L1 v, n of them
ghost use Rattle.std.specs.Prelude.{◌≡◌, ◌*◌, length};
ghost use Rattle.std.specs.Float.{binary64};
ghost use Rattle.arithmetic.specs.Arithmetic.{ieee};
ghost use Rattle.graph_rows.specs.RowProduct.{row_sum64, row_product64};
ghost use Rattle.graph_pairs.specs.Pairs.{firsts, pairs, seconds};
ghost use Rattle.magnus_graph_helpers.specs.Factors.{omega4_with};
ghost use Rattle.magnus_graph_helpers.specs.Terms.{omega4_sum};

use graph_pairs::kernel::row_sums;
use graph_pairs::paired::{OneList, Pair, Paired, Pairs};
use graph_rows::kernel::Pattern;
use magnus_graph_helpers::factors::Factors;
use magnus_graph_taylor::kernel::Omega;
use scratch_scaled_sums::kernel::add_scaled_to;

// Ω of order 4 of two samples of one pattern.
#[derive(Drop)]
pub struct SharedOmega4<'a, V: Paired> {
    pub pattern: Pattern<'a>,
    pub vals: V,
    pub factors: Factors,
    pub ghost vals_len: { V.places vals ≡ length pattern.col_idx.now },
}

impl<'a, V: Paired> SharedOmega4<'a, V> {
    // The products of both samples with v, as pairs: that of the second sample, b, and then that of the first, a, since the next products are those of
    // the first sample with b and of the second with a.
    pub fn products(&self, v: &[f64], products: &mut [f64])
        requires v_len { length v.now ≡ self.now.pattern.n }
        requires products_len { length products.old ≡ 2 * self.now.pattern.n }
        ensures { let o = self.now in
            let p = o.pattern in
            let row = row_sum64 p.row_ptr.now p.col_idx.now in
            products.new ≡ pairs p.n (row (V.seconds_of o.vals) v.now) (row (V.firsts_of o.vals) v.now) }
    {
        let v = OneList { list: v };
        // By index: of a slice written through `as_chunks_mut` or `chunks_exact_mut` the library promises the length, and nothing of its elements.
        for i in 0..self.pattern.n {
            let sums = row_sums(self.pattern, self.vals, v, i);
            products[2 * i] = sums.second;
            products[2 * i + 1] = sums.first;
        }
    }

    // Ωv from the pairs of b and a (`apply_omega4` of the Rust, after its first products): at each place scale · (a + b) + comm_scale · (c - d),
    // where c is the product of the second sample with a and d that of the first with b. Of any two factors: `add_term` gives those of
    // `factors`.
    pub fn omega(&self, products: &[f64], image: &mut [f64], scale: f64, comm_scale: f64)
        requires products_len { length products.now ≡ 2 * self.now.pattern.n }
        requires image_len { length image.old ≡ self.now.pattern.n }
        ensures { let A = ieee binary64 in
            let o = self.now in
            let p = o.pattern in
            let n = p.n in
            let L1 = row_product64 n p.row_ptr.now p.col_idx.now (V.firsts_of o.vals) in
            let L2 = row_product64 n p.row_ptr.now p.col_idx.now (V.seconds_of o.vals) in
            let b = firsts A n products.now in
            let a = seconds A n products.now in
            image.new ≡ omega4_sum A n scale comm_scale a b (L2 a) (L1 b) }
    {
        let products = Pairs {
            count: self.pattern.n,
            values: products,
        };
        for (i, y) in image.iter_mut().enumerate() {
            let sums = row_sums(self.pattern, self.vals, products, i);
            let Pair {
                first: b,
                second: a,
            } = products.at(i);
            *y = scale * (a + b) + comm_scale * (sums.second - sums.first);
        }
    }
}

impl<'a, V: Paired> Omega for SharedOmega4<'a, V> {
    ghost nodes = { λ o. o.pattern.n };

    ghost used = { λ o. 5 * o.pattern.n };

    ghost image = { λ o. let L = row_product64 o.pattern.n o.pattern.row_ptr.now o.pattern.col_idx.now in
        omega4_with o.factors o.pattern.n (L (V.firsts_of o.vals)) (L (V.seconds_of o.vals)) };

    fn node_count(&self) -> usize {
        self.pattern.n
    }

    // `apply_omega4` and `axpy_into_slice` of the Rust, by two walks over the pattern that serve both samples. The walks write below 4n; of a
    // step's work slice, 5n, the rest stays.
    fn add_term(&self, coefficient: f64, work: &mut [f64]) {
        let n = self.pattern.n;
        let (sum, behind) = work.split_at_mut(n);
        let (v, pairs) = behind.split_at_mut(n);
        let (products, _) = pairs.split_at_mut(2 * n);
        let scale = self.factors.scale();
        let comm_scale = self.factors.comm_scale();
        self.products(v, products);
        self.omega(products, v, scale, comm_scale);
        add_scaled_to(v, 0, coefficient, sum);
    }
}
