// The weighted adjoint run along a trajectory (magnus_graph_adjoint.rs; 01, parts 7, 8 and 10).
// The parameters are those of the Rust's call and of the C interface's: a struct of some of them would be made at each call to be taken apart here.
#![tactic(auto)]

ghost use Rattle.graph_traj_parts.specs.Trajectory.{trajectory_of};
ghost use Rattle.magnus_graph_traj_outcome.specs.RunOutcome.{Ran};
ghost use Rattle.varcoef_magnus_graph_adjoint.specs.WeightedRunOutcome.{weighted_adjoint_run};

use error::Refusal;
use graph_traj_parts::Trajectory;
// what a caller says of the samples' spectra, from here too
pub use magnus_graph_checks::SpectralBound;
use magnus_graph_checks::{Lengths, binary64_values};
use magnus_graph_traj_finish::kernel::finish_run;
use scratch::kernel::{load, store};
use varcoef_magnus_graph_adjoint_checks::check_weighted_adjoint_run;
use varcoef_magnus_graph_adjoint_run::kernel::{CheckedWeightedTrajectory, run_steps};
// what a caller lends of the nodes' weights, from here too
pub use varcoef_magnus_graph_checks::NodeWeights;

// The weighted adjoint run in the one segment of its trajectory: dst becomes src after `steps` steps of length tau, the last first. The
// weights at the segment's start and end follow the law of the values. Refused before the first step by rows 6, 1 to 4, 13, 14, 15, 17, 19, 5, 9, 12,
// 16, 7, 8 and 10: every slice is as it was. Refused by row 20 or 11 in a step, dst is as it was. Once there was a step, the first
// 11n + 2m elements of work become +0. No steps copy src, and leave work as it was.
pub fn evolve_state_adjoint_into<'a>(
    trajectory: Trajectory<'a>,
    tau: f64,
    steps: usize,
    bound: SpectralBound,
    weights: NodeWeights<'a>,
    src: &[f64],
    dst: &mut [f64],
    work: &mut [f64],
) -> Result<(), Refusal>
    ensures { Ran (weighted_adjoint_run (trajectory_of trajectory.entry)
        tau steps bound.rho_bar_max weights.entry.a_sup_max bound.convergence_radius_check
        weights.entry.first.now weights.entry.second.now src.now dst.old work.old)
        result dst.new work.new }
{
    let lengths = Lengths::of(src, dst, work);
    let checked = check_weighted_adjoint_run(
        trajectory,
        tau,
        steps,
        bound,
        weights.a_sup_max,
        weights.first.len(),
        weights.second.len(),
        lengths,
    );
    let Ok(()) = checked else {
        return checked;
    };
    binary64_values(trajectory.starts);
    binary64_values(trajectory.ends);
    binary64_values(weights.first);
    binary64_values(weights.second);
    let no_steps = steps == 0;
    if no_steps {
        store(src, 0, dst);
        return Ok(());
    }
    let need = 11 * trajectory.n + 2 * trajectory.col_idx.len();
    load(work, 0, src);
    let along = CheckedWeightedTrajectory {
        parts: trajectory,
        weights,
    };
    let taken = run_steps(along, tau, steps, work);
    finish_run(taken, work, need, dst)
}
