// For programs in C and Rust: the runs along a trajectory. Each function makes one call and gives back its
// answer as a struct; a slice is a pointer and a length to such a program. include/fuistelo.h declares the functions.
// The C interface needs each list as a parameter of its own, and a function written out for each name.
#![tactic(auto)]

ghost use Rattle.graph_traj_parts.specs.Trajectory.{trajectory};
ghost use Rattle.magnus_graph_traj_outcome.specs.RunOutcome.{forward_run, adjoint_run, Ran};
ghost use Rattle.answer.specs.Struct.{Tells};

use answer::{Answer, checked};
use graph_traj_parts::Trajectory;
use magnus_graph_traj::{SpectralBound, evolve_state_adjoint_into, evolve_with_traj_into};

// The forward run.
#[unsafe(no_mangle)]
pub extern "C" fn fuistelo_evolve_with_traj_into<'a>(
    n: usize,
    row_ptr: &[usize],
    col_idx: &[u32],
    segments: usize,
    breakpoints: &[f64],
    starts: &'a [f64],
    ends: &'a [f64],
    laws: &[u8],
    steps: usize,
    rho_bar_max: f64,
    convergence_radius_check: bool,
    src: &[f64],
    dst: &mut [f64],
    work: &mut [f64],
) -> Answer
    ensures { Tells result (λ answer. Ran (forward_run (trajectory n row_ptr.now col_idx.now segments
        breakpoints.now starts.now ends.now laws.now)
        steps rho_bar_max convergence_radius_check src.now dst.old work.old)
        answer dst.new work.new) }
{
    checked(evolve_with_traj_into(
        Trajectory {
            n,
            row_ptr,
            col_idx,
            segments,
            breakpoints,
            starts,
            ends,
            laws,
        },
        steps,
        SpectralBound {
            rho_bar_max,
            convergence_radius_check,
        },
        src,
        dst,
        work,
    ))
}

// The adjoint run.
#[unsafe(no_mangle)]
pub extern "C" fn fuistelo_evolve_state_adjoint_into<'a>(
    n: usize,
    row_ptr: &[usize],
    col_idx: &[u32],
    segments: usize,
    breakpoints: &[f64],
    starts: &'a [f64],
    ends: &'a [f64],
    laws: &[u8],
    tau: f64,
    steps: usize,
    rho_bar_max: f64,
    convergence_radius_check: bool,
    src: &[f64],
    dst: &mut [f64],
    work: &mut [f64],
) -> Answer
    ensures { Tells result (λ answer. Ran (adjoint_run (trajectory n row_ptr.now col_idx.now segments
        breakpoints.now starts.now ends.now laws.now)
        tau steps rho_bar_max convergence_radius_check src.now dst.old work.old)
        answer dst.new work.new) }
{
    checked(evolve_state_adjoint_into(
        Trajectory {
            n,
            row_ptr,
            col_idx,
            segments,
            breakpoints,
            starts,
            ends,
            laws,
        },
        tau,
        steps,
        SpectralBound {
            rho_bar_max,
            convergence_radius_check,
        },
        src,
        dst,
        work,
    ))
}
