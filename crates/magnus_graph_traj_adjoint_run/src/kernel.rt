// The loop of the adjoint run along a trajectory (01, part 8), for callers that have checked their arguments. The held signal is the vector
// at 0 of the work slice. The loop stops at the first step that refuses.
ghost use Rattle.std.specs.Prelude.{◌≤◌, length};
ghost use Rattle.graph_traj_parts.specs.Trajectory.{trajectory_of};
ghost use Rattle.graph_traj_faults.specs.RunChecks.{run_need};
ghost use Rattle.magnus_graph_outcome.specs.StepOutcome.{adjoint};
ghost use Rattle.magnus_graph_traj_steps.specs.RunSteps.{segment_steps, adjoint_course};
ghost use Rattle.magnus_graph_traj_steps.specs.StepsTaken.{RunStepsTaken};

use error::Refusal;
use graph_traj_parts::kernel::CheckedTrajectory;
use graph_traj_segment::kernel::Segment;
use magnus_graph_traj_run::kernel::step_at;

// The steps of an adjoint run, each of length tau, in the one segment: the last first.
pub fn run_adjoint_steps(
    trajectory: CheckedTrajectory<'_>,
    tau: f64,
    steps: usize,
    work: &mut [f64],
) -> Result<(), Refusal>
    requires { run_need (trajectory_of trajectory.parts) ≤ length work.old }
    ensures { RunStepsTaken (trajectory_of trajectory.entry.parts)
        (adjoint_course tau steps) adjoint (segment_steps 0 steps) result work.old work.new }
{
    let breakpoints = trajectory.parts.breakpoints;
    let mut segment = Segment::with_tau(breakpoints[0], breakpoints[1], tau);
    for _ in 0..steps {
        let t_start = segment.adjoint_step_start(steps);
        step_at(trajectory, 0, segment, t_start, -1.0, work)?;
        segment = segment.next();
    }
    Ok(())
}
