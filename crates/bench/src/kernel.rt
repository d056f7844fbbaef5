// What a driver may call only with slices that a check has accepted.
ghost use Rattle.std.specs.Prelude.{◌≡◌, length};
ghost use Rattle.graph_checks.specs.Pattern.{Pattern as IsPattern};

use graph_rows::kernel::{Pattern, Sample};

// The row product alone, for a pattern that the caller has had checked.
#[unsafe(no_mangle)]
pub extern "C" fn bench_product<'a>(
    row_ptr: &'a [usize],
    col_idx: &'a [u32],
    vals: &'a [f64],
    src: &[f64],
    dst: &mut [f64],
)
    requires pattern { IsPattern (length src.now) row_ptr.now col_idx.now }
    requires vals_len { length vals.now ≡ length col_idx.now }
    requires dst_len { length dst.old ≡ length src.now }
{
    let pattern = Pattern {
        n: src.len(),
        row_ptr,
        col_idx,
    };
    Sample { pattern, vals }.product(src, dst);
}
