// For programs in C and Rust: the step of order 6. It makes one call and gives back its answer as a
// struct; a slice is a pointer and a length to such a program. include/fuistelo.h declares it.
// The C interface needs each list as a parameter of its own, and a function written out for each name.
#![tactic(auto)]

ghost use Rattle.magnus_graph_faults.specs.StepChecks.{sample};
ghost use Rattle.magnus6_graph_outcome.specs.StepOutcome.{step6_input, Stepped6};
ghost use Rattle.answer.specs.Struct.{Tells};

use answer::{Answer, checked};
use graph_checks::CsrParts;
use magnus6_graph::{SpectralBound, apply_exp_omega6_kernel};

// The step of order 6.
#[unsafe(no_mangle)]
pub extern "C" fn fuistelo_apply_exp_omega6_kernel(
    n1: usize,
    row_ptr1: &[usize],
    col_idx1: &[u32],
    vals1: &[f64],
    n2: usize,
    row_ptr2: &[usize],
    col_idx2: &[u32],
    vals2: &[f64],
    n3: usize,
    row_ptr3: &[usize],
    col_idx3: &[u32],
    vals3: &[f64],
    tau: f64,
    rho_bar_max: f64,
    convergence_radius_check: bool,
    src: &[f64],
    dst: &mut [f64],
    work: &mut [f64],
) -> Answer
    ensures { Tells result (λ answer. Stepped6 (step6_input
        (sample n1 row_ptr1.now col_idx1.now vals1.now)
        (sample n2 row_ptr2.now col_idx2.now vals2.now)
        (sample n3 row_ptr3.now col_idx3.now vals3.now)
        tau rho_bar_max convergence_radius_check src.now dst.old work.old)
        answer dst.new work.new) }
{
    let first = CsrParts {
        n: n1,
        row_ptr: row_ptr1,
        col_idx: col_idx1,
        vals: vals1,
    };
    let second = CsrParts {
        n: n2,
        row_ptr: row_ptr2,
        col_idx: col_idx2,
        vals: vals2,
    };
    let third = CsrParts {
        n: n3,
        row_ptr: row_ptr3,
        col_idx: col_idx3,
        vals: vals3,
    };
    let bound = SpectralBound {
        rho_bar_max,
        convergence_radius_check,
    };
    checked(apply_exp_omega6_kernel(first, second, third, tau, bound, src, dst, work))
}
