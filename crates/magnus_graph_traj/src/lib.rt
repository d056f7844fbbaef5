// Runs along a trajectory: the forward run (magnus_graph.rs; 01, part 10) and the adjoint run (magnus_graph_adjoint.rs; 01, part 8).
// The parameters are those of the Rust's call and of the C interface's: a struct of some of them would be made at each call to be taken apart here.
#![tactic(auto)]

ghost use Rattle.graph_traj_parts.specs.Trajectory.{trajectory_of};
ghost use Rattle.magnus_graph_traj_outcome.specs.RunOutcome.{forward_run, adjoint_run, Ran};

use error::Refusal;
use graph_traj_adjoint_checks::check_adjoint_run;
use graph_traj_checks::check::check_run;
use graph_traj_parts::Trajectory;
use graph_traj_parts::kernel::CheckedTrajectory;
// what a caller says of the samples' spectra, from here too
pub use magnus_graph_checks::SpectralBound;
use magnus_graph_checks::{Lengths, binary64_values};
use magnus_graph_traj_adjoint_run::kernel::run_adjoint_steps;
use magnus_graph_traj_finish::kernel::finish_run;
use magnus_graph_traj_run::kernel::run_all_segments;
use scratch::kernel::{load, store};

// The forward run: dst becomes src after `steps` steps in each segment. Refused before the first step by rows 6, 1 to 4, 13, 14, 15, 19,
// 5, 9, 16, 17, 10 for src, dst and work, whose need is 7n + 2m, and 8 by segment: every slice is as it was. Refused by row 20 in a step,
// dst is as it was. Once there was a step, the first 7n + 2m elements of work become +0.
pub fn evolve_with_traj_into(
    trajectory: Trajectory<'_>,
    steps: usize,
    bound: SpectralBound,
    src: &[f64],
    dst: &mut [f64],
    work: &mut [f64],
) -> Result<(), Refusal>
    ensures { Ran (forward_run (trajectory_of trajectory.entry)
        steps bound.rho_bar_max bound.convergence_radius_check src.now dst.old work.old)
        result dst.new work.new }
{
    let lengths = Lengths::of(src, dst, work);
    let checked = check_run(trajectory, steps, bound, lengths);
    let Ok(()) = checked else {
        return checked;
    };
    binary64_values(trajectory.starts);
    binary64_values(trajectory.ends);
    let need = 7 * trajectory.n + 2 * trajectory.col_idx.len();
    // These lines are as in the other runs, but for the steps: a function that took the steps as a closure would have to say of any closure what is
    // said of each run's steps here, and its calls would be no shorter.
    load(work, 0, src);
    let along = CheckedTrajectory { parts: trajectory };
    let taken = run_all_segments(along, steps, work);
    finish_run(taken, work, need, dst)
}

// The adjoint run in the one segment of its trajectory: dst becomes src after `steps` steps of length tau, the last first, with the
// commutator's sign reversed. Refused before the first step by rows 6, 1 to 4, 13, 14, 15, 17, 19, 5, 9, 16, 7, 8 and 10; what a refusal
// and the steps leave is as in the forward run. No steps copy src and leave work as it was; rows 16, 7 and 8, and row 10 for work, are not
// tested then.
pub fn evolve_state_adjoint_into(
    trajectory: Trajectory<'_>,
    tau: f64,
    steps: usize,
    bound: SpectralBound,
    src: &[f64],
    dst: &mut [f64],
    work: &mut [f64],
) -> Result<(), Refusal>
    ensures { Ran (adjoint_run (trajectory_of trajectory.entry)
        tau steps bound.rho_bar_max bound.convergence_radius_check src.now dst.old work.old)
        result dst.new work.new }
{
    let lengths = Lengths::of(src, dst, work);
    let checked = check_adjoint_run(trajectory, tau, steps, bound, lengths);
    let Ok(()) = checked else {
        return checked;
    };
    binary64_values(trajectory.starts);
    binary64_values(trajectory.ends);
    let no_steps = steps == 0;
    if no_steps {
        store(src, 0, dst);
        return Ok(());
    }
    let need = 7 * trajectory.n + 2 * trajectory.col_idx.len();
    load(work, 0, src);
    let along = CheckedTrajectory { parts: trajectory };
    let taken = run_adjoint_steps(along, tau, steps, work);
    finish_run(taken, work, need, dst)
}
