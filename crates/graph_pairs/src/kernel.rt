// The rows of the products of two samples of one pattern, for callers that have checked it: one walk over a row forms both. A walk adds two entries a
// turn, and an odd one last: so a processor predicts best where the rows end, if their lengths differ.
ghost use Rattle.std.specs.Prelude.{◌≡◌, ◌<◌, length, slice_index_or};
ghost use Rattle.std.specs.Float.{binary64};
ghost use Rattle.arithmetic.specs.Arithmetic.{ieee};
ghost use Rattle.graph_rows.specs.RowProduct.{row_sum64};
ghost use Rattle.graph_pairs.specs.Pairs.{with_entry};

use crate::paired::{Pair, Paired};
use graph_rows::kernel::Pattern;

// The sums of a row of the first sample's product with the first vector, and of the second one's with the second, with entry k added to each.
fn with_entry<V: Paired, S: Paired>(col_idx: &[u32], vals: V, src: S, sums: Pair, k: usize) -> Pair
    requires k_in_bounds { k < length col_idx.now }
    requires vals_len { k < V.places vals }
    requires src_len { slice_index_or col_idx.now k 0 < S.places src }
    ensures first { result.first ≡ with_entry (ieee binary64) col_idx.now k (V.firsts_of vals) (S.firsts_of src) sums.first }
    ensures second { result.second ≡ with_entry (ieee binary64) col_idx.now k (V.seconds_of vals) (S.seconds_of src) sums.second }
{
    let value = vals.at(k);
    let x = src.at(col_idx[k] as usize);
    Pair {
        first: sums.first + value.first * x.first,
        second: sums.second + value.second * x.second,
    }
}

// Row i of the product of the first sample with the first of two vectors, and of the second sample with the second one (01, part 1), each formed
// as `graph_rows::kernel::Sample::row_sum` forms it. The pattern and the values are two parameters: a struct of them would save this clause and one of
// graph_two_products, and stand between `SharedOmega4` and `WeightedPairs`, which hold both with a ghost field, and the pattern that each of their
// clauses names.
pub fn row_sums<V: Paired, S: Paired>(pattern: Pattern<'_>, vals: V, src: S, i: usize) -> Pair
    requires i_in_bounds { i < pattern.n }
    requires vals_len { V.places vals ≡ length pattern.col_idx.now }
    requires src_len { S.places src ≡ pattern.n }
    ensures first { let p = pattern.entry in
        result.first ≡ row_sum64 p.row_ptr.now p.col_idx.now (V.firsts_of vals) (S.firsts_of src) i }
    ensures second { let p = pattern.entry in
        result.second ≡ row_sum64 p.row_ptr.now p.col_idx.now (V.seconds_of vals) (S.seconds_of src) i }
{
    let end = pattern.row_ptr[i + 1];
    let mut k = pattern.row_ptr[i];
    let mut sums = Pair {
        first: 0.0,
        second: 0.0,
    };
    // Two entries a turn, by index. With `for k in k..end`, one entry a turn, a step takes 6 to 10 % longer where the rows have one length, and where
    // their lengths differ runs under law 2 take 0.48 of the Rust's time and weighted ones 0.57, of which 0.45 is the target (0.32 and 0.36 with two
    // entries a turn). An iterator over the columns would count k beside it, at which the values are read in whatever form they lie.
    while k + 1 < end {
        let next = with_entry(pattern.col_idx, vals, src, sums, k);
        sums = with_entry(pattern.col_idx, vals, src, next, k + 1);
        k = k + 2;
    }
    if k < end {
        sums = with_entry(pattern.col_idx, vals, src, sums, k);
    }
    sums
}
