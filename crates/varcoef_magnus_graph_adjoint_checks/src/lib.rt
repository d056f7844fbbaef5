// The checks of the weighted adjoint run (the validations of its driver in magnus_graph_adjoint.rs), in document 01's order, before any step.
// Every function answers what its definition in graph_traj_adjoint_faults' specs/AdjointRunChecks.antt says, for all inputs.
// The parameters are those of the call that is checked.
#![tactic(auto)]

ghost use Rattle.std.specs.Prelude.{◌≡◌};
ghost use Rattle.graph_traj_parts.specs.Trajectory.{trajectory_of};
ghost use Rattle.graph_traj_adjoint_faults.specs.AdjointRunChecks.{weighted_run_lengths_fault};
ghost use Rattle.graph_traj_adjoint_faults.specs.AdjointRunChecks.{weighted_adjoint_run_fault};

use error::Refusal;
use graph_traj_adjoint_checks::check_adjoint_steps;
use graph_traj_checks::check::check_signals;
use graph_traj_parts::{Trajectory, check_adjoint_trajectory};
use magnus_graph_checks::{Lengths, SpectralBound, check_room};
use varcoef_magnus_graph_checks::{check_weighted_bounds, check_weights_length, weighted_spectra};

// Row 10 of a weighted run: signal, output, the two lists of weights and the work slice. `starts` and `ends` are the lengths of these lists.
pub fn check_weighted_run_lengths(
    n: usize,
    starts: usize,
    ends: usize,
    lengths: Lengths,
    need: usize,
) -> Result<(), Refusal>
    ensures { result ≡ weighted_run_lengths_fault n lengths.signal lengths.output starts ends lengths.work need }
{
    check_signals(n, lengths)?;
    check_weights_length(n, starts, ends)?;
    check_room(lengths.work, need)
}

// All checks of a weighted adjoint run. a_sup_max is the root bound; a_starts and a_ends are the lengths of the weights' two lists, whose elements are
// checked in each step. Row 8 is tested with the bound of the weighted samples' spectra.
pub fn check_weighted_adjoint_run(
    trajectory: Trajectory<'_>,
    tau: f64,
    steps: usize,
    bound: SpectralBound,
    a_sup_max: f64,
    a_starts: usize,
    a_ends: usize,
    lengths: Lengths,
) -> Result<(), Refusal>
    ensures { result ≡ weighted_adjoint_run_fault (trajectory_of trajectory.entry)
        tau steps bound.rho_bar_max a_sup_max bound.convergence_radius_check
        lengths.signal lengths.output a_starts a_ends lengths.work }
{
    check_adjoint_trajectory(trajectory)?;
    check_weighted_bounds(bound.rho_bar_max, a_sup_max, trajectory.n)?;
    if steps == 0 {
        return check_signals(trajectory.n, lengths);
    }
    let weighted = weighted_spectra(bound, a_sup_max);
    check_adjoint_steps(steps, tau, weighted)?;
    let need = 11 * trajectory.n + 2 * trajectory.col_idx.len();
    check_weighted_run_lengths(trajectory.n, a_starts, a_ends, lengths, need)
}
