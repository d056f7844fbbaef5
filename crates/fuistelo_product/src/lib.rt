// For programs in C and Rust: the row product with a Laplacian. It makes one call and gives back its answer as a
// struct; a slice is a pointer and a length to such a program. include/fuistelo.h declares it.
// The C interface needs each list as a parameter of its own, and a function written out for each name.
#![tactic(auto)]

ghost use Rattle.std.specs.Prelude.{◌≡◌};
ghost use Rattle.error.specs.Refusals.{Answers};
ghost use Rattle.graph.specs.ProductOutcome.{product_outcome};
ghost use Rattle.answer.specs.Struct.{Tells};

use answer::{Answer, checked};
use graph::{CsrParts, apply_into_slice};

// The row product.
#[unsafe(no_mangle)]
pub extern "C" fn fuistelo_apply_into_slice(
    n: usize,
    row_ptr: &[usize],
    col_idx: &[u32],
    vals: &[f64],
    src: &[f64],
    dst: &mut [f64],
) -> Answer
    ensures answer { let outcome = product_outcome n row_ptr.now col_idx.now vals.now
        src.now dst.old in Tells result (λ answer. Answers answer outcome.answer) }
    ensures output { let outcome = product_outcome n row_ptr.now col_idx.now vals.now
        src.now dst.old in dst.new ≡ outcome.output }
{
    let parts = CsrParts {
        n,
        row_ptr,
        col_idx,
        vals,
    };
    checked(apply_into_slice(parts, src, dst))
}
