// For programs in C and Rust: the adjoint run with node weights along a trajectory. Each function makes one call and gives back its
// answer as a struct; a slice is a pointer and a length to such a program. include/fuistelo.h declares the functions.
// The C interface needs each list as a parameter of its own, and a function written out for each name.
#![tactic(auto)]

ghost use Rattle.graph_traj_parts.specs.Trajectory.{trajectory};
ghost use Rattle.magnus_graph_traj_outcome.specs.RunOutcome.{Ran};
ghost use Rattle.varcoef_magnus_graph_adjoint.specs.WeightedRunOutcome.{weighted_adjoint_run};
ghost use Rattle.answer.specs.Struct.{Tells};

use answer::{Answer, checked};
use graph_traj_parts::Trajectory;
use varcoef_magnus_graph_adjoint::{NodeWeights, SpectralBound, evolve_state_adjoint_into};

// The adjoint run with node weights.
#[unsafe(no_mangle)]
pub extern "C" fn fuistelo_varcoef_evolve_state_adjoint_into<'a>(
    n: usize,
    row_ptr: &[usize],
    col_idx: &[u32],
    segments: usize,
    breakpoints: &[f64],
    starts: &'a [f64],
    ends: &'a [f64],
    laws: &[u8],
    tau: f64,
    steps: usize,
    rho_bar_max: f64,
    a_sup_max: f64,
    convergence_radius_check: bool,
    a_starts: &'a [f64],
    a_ends: &'a [f64],
    src: &[f64],
    dst: &mut [f64],
    work: &mut [f64],
) -> Answer
    ensures { Tells result (λ answer. Ran (weighted_adjoint_run (trajectory n row_ptr.now col_idx.now segments
        breakpoints.now starts.now ends.now laws.now)
        tau steps rho_bar_max a_sup_max convergence_radius_check a_starts.now a_ends.now
        src.now dst.old work.old)
        answer dst.new work.new) }
{
    checked(evolve_state_adjoint_into(
        Trajectory {
            n,
            row_ptr,
            col_idx,
            segments,
            breakpoints,
            starts,
            ends,
            laws,
        },
        tau,
        steps,
        SpectralBound {
            rho_bar_max,
            convergence_radius_check,
        },
        NodeWeights {
            a_sup_max,
            first: a_starts,
            second: a_ends,
        },
        src,
        dst,
        work,
    ))
}
