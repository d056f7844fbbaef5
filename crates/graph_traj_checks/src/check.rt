// The checks of the forward run. Every function answers what its definition in graph_traj_faults' specs/RunChecks.antt says, for all inputs.
ghost use Rattle.std.specs.Prelude.{◌≡◌};
ghost use Rattle.graph_traj_breakpoints.specs.Breakpoints.{Breakpoints};
ghost use Rattle.graph_traj_parts.specs.Trajectory.{trajectory_of};
ghost use Rattle.graph_traj_faults.specs.RunChecks.{step_count_fault, segments_radius_fault, signals_fault, run_lengths_fault, run_fault};

use error::{Refusal, check_length};
use graph_traj_parts::{Trajectory, check_first_breakpoint, check_trajectory};
use graph_traj_segment::kernel::Segment;
use magnus_graph_checks::{Lengths, SpectralBound, check_bound, check_radius, check_room};

// The most steps that a run takes, in each of its segments.
pub const MOST_STEPS: usize = 65535;

// Row 16 of a forward run: there are 1 to 65,535 steps.
pub fn check_step_count(steps: usize) -> Result<(), Refusal>
    ensures { result ≡ step_count_fault steps }
{
    if (steps == 0) | (steps > MOST_STEPS) {
        Err(Refusal::StepCount(steps))
    } else {
        Ok(())
    }
}

// Row 8 of a forward run, by segment.
fn check_segments_radius(
    trajectory: Trajectory<'_>,
    steps: usize,
    bound: SpectralBound,
) -> Result<(), Refusal>
    requires { Breakpoints trajectory.segments trajectory.breakpoints.now }
    ensures { result ≡ segments_radius_fault bound.convergence_radius_check bound.rho_bar_max
        steps trajectory.entry.breakpoints.now trajectory.entry.segments }
{
    for pair in trajectory.breakpoints.windows(2) {
        let segment = Segment::new(pair[0], pair[1], steps);
        check_radius(segment.tau, bound)?;
    }
    Ok(())
}

// Row 10 for the signal and the output.
pub fn check_signals(n: usize, lengths: Lengths) -> Result<(), Refusal>
    ensures { result ≡ signals_fault n lengths.signal lengths.output }
{
    check_length(lengths.signal, n)?;
    check_length(lengths.output, n)
}

// Row 10 of an unweighted run: signal, output and work slice.
pub fn check_run_lengths(n: usize, lengths: Lengths, need: usize) -> Result<(), Refusal>
    ensures { result ≡ run_lengths_fault n lengths.signal lengths.output lengths.work need }
{
    check_signals(n, lengths)?;
    check_room(lengths.work, need)
}

// All checks of a forward run.
pub fn check_run(
    trajectory: Trajectory<'_>,
    steps: usize,
    bound: SpectralBound,
    lengths: Lengths,
) -> Result<(), Refusal>
    ensures { result ≡ run_fault (trajectory_of trajectory.entry)
        steps bound.rho_bar_max bound.convergence_radius_check
        lengths.signal lengths.output lengths.work }
{
    check_trajectory(trajectory)?;
    check_bound(bound.rho_bar_max)?;
    check_step_count(steps)?;
    check_first_breakpoint(trajectory.breakpoints[0])?;
    // Written out here and in the other runs: a method would take the number of vectors, 7 or 11, and leave its callers the same fact to show, that
    // an accepted pattern's need is a number of the machine.
    let need = 7 * trajectory.n + 2 * trajectory.col_idx.len();
    check_run_lengths(trajectory.n, lengths, need)?;
    check_segments_radius(trajectory, steps, bound)
}
