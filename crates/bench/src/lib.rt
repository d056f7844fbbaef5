// What the benchmarks measure and no other program can call: functions of the crates' kernels, for a driver in C or Rust to link.
#![tactic(auto)]

use square_roots::kernel::sqrt_into_slice;

pub mod kernel;

// The square roots of src's elements, to dst. Nothing where the lengths differ.
#[unsafe(no_mangle)]
pub extern "C" fn bench_sqrt_into_slice(src: &[f64], dst: &mut [f64]) {
    if src.len() == dst.len() {
        sqrt_into_slice(src, dst);
    }
}
