// For programs in C and Rust: the checks of one Laplacian, and its Gershgorin bound. Each function makes one call and gives back its
// answer as a struct; a slice is a pointer and a length to such a program. include/fuistelo.h declares the functions.
// The C interface needs each list as a parameter of its own, and a function written out for each name.
#![tactic(auto)]

ghost use Rattle.std.specs.Prelude.{◌≡◌, [], ◌∷◌};
ghost use Rattle.std.specs.Float.{binary64};
ghost use Rattle.error.specs.Refusals.{real, Answers};
ghost use Rattle.graph_bound.specs.Gershgorin.{gershgorin_bound};
ghost use Rattle.graph_checks.specs.PatternChecks.{pattern_fault, csr_fault};
ghost use Rattle.answer.specs.Struct.{struct_of, Tells};

use answer::{Answer, checked, laid_out, refused};
use graph::{CsrParts, check_pattern, from_csr_parts, gershgorin_bound_csr};
use refusal_rows::Row;

// Whether the parts make up a Laplacian.
#[unsafe(no_mangle)]
pub extern "C" fn fuistelo_from_csr_parts(
    n: usize,
    row_ptr: &[usize],
    col_idx: &[u32],
    vals: &[f64],
) -> Answer
    ensures { Tells result (λ answer. Answers answer (csr_fault n row_ptr.now col_idx.now vals.now)) }
{
    let parts = CsrParts {
        n,
        row_ptr,
        col_idx,
        vals,
    };
    checked(from_csr_parts(parts))
}

// The same of row starts and columns alone.
#[unsafe(no_mangle)]
pub extern "C" fn fuistelo_check_pattern(n: usize, row_ptr: &[usize], col_idx: &[u32]) -> Answer
    ensures { Tells result (λ answer. Answers answer (pattern_fault n row_ptr.now col_idx.now)) }
{
    checked(check_pattern(n, row_ptr, col_idx))
}

// The Gershgorin bound: where it is accepted, its one real, after the number 0, which stands for "accepted" in the C interface.
#[unsafe(no_mangle)]
pub extern "C" fn fuistelo_gershgorin_bound_csr(
    n: usize,
    row_ptr: &[usize],
    col_idx: &[u32],
    vals: &[f64],
) -> Answer
    ensures { result ≡ struct_of (csr_fault n row_ptr.now col_idx.now vals.now)
        (real (gershgorin_bound binary64 row_ptr.now vals.now) ∷ []) }
{
    let parts = CsrParts {
        n,
        row_ptr,
        col_idx,
        vals,
    };
    match gershgorin_bound_csr(parts) {
        Ok(bound) => laid_out(Row::Real(0, bound)),
        Err(refusal) => refused(refusal),
    }
}
