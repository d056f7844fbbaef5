// The checks of the unweighted adjoint run (the validations of its driver in magnus_graph_adjoint.rs), in document 01's order, before any step.
// Every function answers what its definition in graph_traj_adjoint_faults' specs/AdjointRunChecks.antt says, for all inputs.
#![tactic(auto)]

ghost use Rattle.std.specs.Prelude.{◌≡◌};
ghost use Rattle.graph_traj_parts.specs.Trajectory.{trajectory_of};
ghost use Rattle.graph_traj_adjoint_faults.specs.AdjointRunChecks.{adjoint_step_count_fault};
ghost use Rattle.graph_traj_adjoint_faults.specs.AdjointRunChecks.{adjoint_steps_fault, adjoint_run_fault};

use error::Refusal;
use graph_traj_checks::check::{MOST_STEPS, check_run_lengths, check_signals};
use graph_traj_parts::{Trajectory, check_adjoint_trajectory};
use magnus_graph_checks::{Lengths, SpectralBound, check_bound, check_step_length};

// Row 16 of an adjoint run: there are at most 65,535 steps.
pub fn check_adjoint_step_count(steps: usize) -> Result<(), Refusal>
    ensures { result ≡ adjoint_step_count_fault steps }
{
    if steps > MOST_STEPS {
        Err(Refusal::StepCount(steps))
    } else {
        Ok(())
    }
}

// Rows 16, 7 and 8 of an adjoint run. Its steps and their length are two numbers of the Rust's call and of the C interface's, and a row of its own
// refuses each: a struct of both would be made at the entry and taken apart in each check.
pub fn check_adjoint_steps(steps: usize, tau: f64, bound: SpectralBound) -> Result<(), Refusal>
    ensures { result ≡ adjoint_steps_fault steps tau bound.rho_bar_max bound.convergence_radius_check }
{
    check_adjoint_step_count(steps)?;
    check_step_length(tau, bound)
}

// All checks of an adjoint run of so many steps of length tau.
pub fn check_adjoint_run(
    trajectory: Trajectory<'_>,
    tau: f64,
    steps: usize,
    bound: SpectralBound,
    lengths: Lengths,
) -> Result<(), Refusal>
    ensures { result ≡ adjoint_run_fault (trajectory_of trajectory.entry)
        tau steps bound.rho_bar_max bound.convergence_radius_check
        lengths.signal lengths.output lengths.work }
{
    check_adjoint_trajectory(trajectory)?;
    check_bound(bound.rho_bar_max)?;
    if steps == 0 {
        return check_signals(trajectory.n, lengths);
    }
    check_adjoint_steps(steps, tau, bound)?;
    let need = 7 * trajectory.n + 2 * trajectory.col_idx.len();
    check_run_lengths(trajectory.n, lengths, need)
}
