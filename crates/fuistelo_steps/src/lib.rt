// For programs in C and Rust: the steps of order 4. Each function makes one call and gives back its
// answer as a struct; a slice is a pointer and a length to such a program. include/fuistelo.h declares the functions.
// The C interface needs each list as a parameter of its own, and a function written out for each name.
#![tactic(auto)]

ghost use Rattle.magnus_graph_faults.specs.StepChecks.{sample};
ghost use Rattle.magnus_graph_outcome.specs.StepOutcome.{step_input, Stepped, forward, adjoint};
ghost use Rattle.answer.specs.Struct.{Tells};

use answer::{Answer, checked};
use graph_checks::CsrParts;
use magnus_graph::{SpectralBound, apply_exp_omega4_adj_kernel, apply_exp_omega4_kernel};

// The forward step of order 4.
#[unsafe(no_mangle)]
pub extern "C" fn fuistelo_apply_exp_omega4_kernel(
    n1: usize,
    row_ptr1: &[usize],
    col_idx1: &[u32],
    vals1: &[f64],
    n2: usize,
    row_ptr2: &[usize],
    col_idx2: &[u32],
    vals2: &[f64],
    tau: f64,
    rho_bar_max: f64,
    convergence_radius_check: bool,
    src: &[f64],
    dst: &mut [f64],
    work: &mut [f64],
) -> Answer
    ensures { Tells result (λ answer. Stepped forward (step_input
        (sample n1 row_ptr1.now col_idx1.now vals1.now)
        (sample n2 row_ptr2.now col_idx2.now vals2.now)
        tau rho_bar_max convergence_radius_check src.now dst.old work.old)
        answer dst.new work.new) }
{
    let first = CsrParts {
        n: n1,
        row_ptr: row_ptr1,
        col_idx: col_idx1,
        vals: vals1,
    };
    let second = CsrParts {
        n: n2,
        row_ptr: row_ptr2,
        col_idx: col_idx2,
        vals: vals2,
    };
    let bound = SpectralBound {
        rho_bar_max,
        convergence_radius_check,
    };
    checked(apply_exp_omega4_kernel(first, second, tau, bound, src, dst, work))
}

// The adjoint step of order 4.
#[unsafe(no_mangle)]
pub extern "C" fn fuistelo_apply_exp_omega4_adj_kernel(
    n1: usize,
    row_ptr1: &[usize],
    col_idx1: &[u32],
    vals1: &[f64],
    n2: usize,
    row_ptr2: &[usize],
    col_idx2: &[u32],
    vals2: &[f64],
    tau: f64,
    rho_bar_max: f64,
    convergence_radius_check: bool,
    src: &[f64],
    dst: &mut [f64],
    work: &mut [f64],
) -> Answer
    ensures { Tells result (λ answer. Stepped adjoint (step_input
        (sample n1 row_ptr1.now col_idx1.now vals1.now)
        (sample n2 row_ptr2.now col_idx2.now vals2.now)
        tau rho_bar_max convergence_radius_check src.now dst.old work.old)
        answer dst.new work.new) }
{
    let first = CsrParts {
        n: n1,
        row_ptr: row_ptr1,
        col_idx: col_idx1,
        vals: vals1,
    };
    let second = CsrParts {
        n: n2,
        row_ptr: row_ptr2,
        col_idx: col_idx2,
        vals: vals2,
    };
    let bound = SpectralBound {
        rho_bar_max,
        convergence_radius_check,
    };
    checked(apply_exp_omega4_adj_kernel(first, second, tau, bound, src, dst, work))
}
