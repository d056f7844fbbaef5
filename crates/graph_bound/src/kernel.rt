// The Gershgorin bound of a Laplacian, for callers that have checked its row starts.
ghost use Rattle.std.specs.Prelude.{◌≡◌, ◌<◌};
ghost use Rattle.std.specs.Float.{binary64};
ghost use Rattle.graph_bound.specs.Gershgorin.{row_absolute_sum, gershgorin_bound};

use graph_shape::kernel::Entries;

// The sum of the absolute values of row i, each formed as 0 - v where v is below 0.
fn row_absolute_sum(vals: &Entries<'_, '_, f64>, i: usize) -> f64
    requires { i < vals.now.row_starts.n }
    ensures { result ≡ row_absolute_sum binary64 vals.now.row_starts.row_ptr.now vals.now.list.now i }
{
    let row_ptr = vals.row_starts.row_ptr;
    let mut row_sum = 0.0;
    for v in &vals.list[row_ptr[i]..row_ptr[i + 1]] {
        let av = if *v < 0.0 { 0.0 - *v } else { *v };
        row_sum = row_sum + av;
    }
    row_sum
}

// The largest sum of absolute values over the rows (01, part 2; `gershgorin_bound_csr` of the Rust).
pub fn gershgorin(vals: Entries<'_, '_, f64>) -> f64
    ensures { result ≡ gershgorin_bound binary64 vals.entry.row_starts.row_ptr.now vals.entry.list.now }
{
    let mut max_sum = 0.0;
    // By row number: a turn asks for the sum of row i, as a turn of a product does. A turn over `windows(2)` of the row starts would have two starts,
    // and write the row's range out of them, which is no plainer.
    for i in 0..vals.row_starts.n {
        let row_sum = row_absolute_sum(&vals, i);
        if row_sum > max_sum {
            max_sum = row_sum;
        }
    }
    max_sum
}
