// The row product of a sample, for callers whose checks have accepted its pattern.
ghost use Rattle.std.specs.Prelude.{◌≡◌, ◌<◌, length};
ghost use Rattle.graph_checks.specs.Pattern.{Pattern as IsPattern};

use graph_checks::CsrParts;

// A pattern: n nodes, n + 1 row starts, and a column for each entry. The checks have accepted all of it: n is at most 4,096, and every column is
// below n.
#[derive(Clone, Copy)]
pub struct Pattern<'a> {
    pub n: usize,
    pub row_ptr: &'a [usize],
    pub col_idx: &'a [u32],
    pub ghost accepted: { IsPattern n row_ptr.now col_idx.now },
}

// A sample: a pattern and a value for each of its entries, whatever the values are.
#[derive(Clone, Copy)]
pub struct Sample<'a> {
    pub pattern: Pattern<'a>,
    pub vals: &'a [f64],
    pub ghost count: { length vals.now ≡ length pattern.col_idx.now },
}

impl<'a> Sample<'a> {
    ghost use Rattle.graph_checks.specs.Pattern.{ValuedPattern};
    ghost use Rattle.graph_rows.specs.RowProduct.{row_product64};
    ghost use Rattle.graph_rows.specs.Product.{row_sum_of, product_of};

    // The sample of parts that have been checked.
    pub fn from_parts(parts: CsrParts<'a>) -> Sample<'a>
        requires { ValuedPattern parts.n parts.row_ptr.now parts.col_idx.now parts.vals.now }
        ensures nodes { result.pattern.n ≡ parts.entry.n }
        ensures product { let p = parts.entry in
            product_of result ≡ row_product64 p.n p.row_ptr.now p.col_idx.now p.vals.now }
    {
        Sample {
            pattern: Pattern {
                n: parts.n,
                row_ptr: parts.row_ptr,
                col_idx: parts.col_idx,
            },
            vals: parts.vals,
        }
    }

    // Row i of the product with src (01, part 1): it starts at +0 and adds value * signal[column] in stored order. Every
    // product with one sample goes through this function.
    pub fn row_sum(self, src: &[f64], i: usize) -> f64
        requires src_len { length src.now ≡ self.pattern.n }
        requires i_in_bounds { i < self.pattern.n }
        ensures { result ≡ row_sum_of self.entry src.now i }
    {
        let mut acc = 0.0;
        // By entry: over a `zip` of the row's values and columns a product with its checks takes 2 to 3 parts in 100 longer, and a fifth longer for
        // 4,096 rows of 3 to 7 entries in irregular columns.
        for k in self.pattern.row_ptr[i]..self.pattern.row_ptr[i + 1] {
            let c = self.pattern.col_idx[k] as usize;
            acc = acc + self.vals[k] * src[c];
        }
        acc
    }

    // out becomes the product with src (`apply_into_slice` of the Rust), as a call of its own, so that its loops have all registers. A turn does two
    // rows: one row a turn, over `out.iter_mut()`, takes up to a quarter longer, and longer than Eigen's product.
    #[inline(never)]
    pub fn product(self, src: &[f64], out: &mut [f64])
        requires src_len { length src.now ≡ self.pattern.n }
        requires out_len { length out.old ≡ self.pattern.n }
        ensures { out.new ≡ product_of self.entry src.now }
    {
        let n = self.pattern.n;
        let mut i = 0;
        while i + 1 < n {
            let acc = self.row_sum(src, i);
            let next = self.row_sum(src, i + 1);
            out[i] = acc;
            out[i + 1] = next;
            i = i + 2;
        }
        if i < n {
            out[i] = self.row_sum(src, i);
        }
    }
}
