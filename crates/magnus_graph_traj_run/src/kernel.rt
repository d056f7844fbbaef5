// The loops of the forward run along a trajectory (01, part 10), for callers that have checked their arguments, and the step that the
// adjoint run takes too. The held signal is the vector at 0 of the work slice. A loop stops at the first step that refuses.
ghost use Rattle.std.specs.Prelude.{◌≤◌, ◌<◌, length};
ghost use Rattle.graph_traj_parts.specs.Trajectory.{trajectory_of};
ghost use Rattle.graph_traj_faults.specs.RunChecks.{run_need};
ghost use Rattle.magnus_graph_outcome.specs.StepOutcome.{forward};
ghost use Rattle.magnus_graph_traj_steps.specs.RunSteps.{segment_steps, all_steps, forward_course};
ghost use Rattle.magnus_graph_traj_steps.specs.StepsTaken.{RunStepsTaken};
ghost use Rattle.magnus_graph_traj_run.specs.StepAt.{StepAt};

use error::Refusal;
use graph_pairs::paired::Pair;
use graph_rows::kernel::Pattern;
use graph_traj_laws::kernel::EndLists;
use graph_traj_parts::kernel::CheckedTrajectory;
use graph_traj_segment::kernel::Segment;
use magnus_graph_traj_step::kernel::run_step;

// One step in segment k, which starts at t_start (`apply_magnus_k4_with_fn` of the Rust): the held signal becomes its image. sign is 1
// forward and -1 adjoint.
pub fn step_at(
    trajectory: CheckedTrajectory<'_>,
    k: usize,
    segment: Segment,
    t_start: f64,
    sign: f64,
    work: &mut [f64],
) -> Result<(), Refusal>
    requires { (k < trajectory.parts.segments) × (run_need (trajectory_of trajectory.parts) ≤ length work.old) }
    ensures { StepAt (trajectory_of trajectory.entry.parts) k segment t_start sign result work.old work.new }
{
    let parts = trajectory.parts;
    // Not by a method of the trajectory: its crate would have to use the one of the row product, which none of the trajectory's checks needs.
    let pattern = Pattern {
        n: parts.n,
        row_ptr: parts.row_ptr,
        col_idx: parts.col_idx,
    };
    let lists = EndLists::of_segment(parts.starts, parts.ends, k, parts.col_idx.len());
    let fractions = Pair {
        first: segment.fraction(segment.first_sample(t_start)),
        second: segment.fraction(segment.second_sample(t_start)),
    };
    run_step(
        pattern,
        parts.laws[k],
        lists,
        segment.tau,
        fractions,
        sign,
        work,
    )
}

// The steps of segment i of a forward run (`run_segment_steps` of the Rust).
pub fn run_segment_steps(
    trajectory: CheckedTrajectory<'_>,
    steps: usize,
    i: usize,
    work: &mut [f64],
) -> Result<(), Refusal>
    requires { (i < trajectory.parts.segments) × (run_need (trajectory_of trajectory.parts) ≤ length work.old) }
    ensures { let t = trajectory_of trajectory.entry.parts in
        RunStepsTaken t (forward_course t.breakpoints t.segments steps) forward (segment_steps i steps) result
        work.old work.new }
{
    let breakpoints = trajectory.parts.breakpoints;
    let mut segment = Segment::new(breakpoints[i], breakpoints[i + 1], steps);
    for _ in 0..steps {
        step_at(trajectory, i, segment, segment.step_start(), 1.0, work)?;
        segment = segment.next();
    }
    Ok(())
}

// The steps of a forward run, segment by segment (`run_all_segments` of the Rust).
pub fn run_all_segments(
    trajectory: CheckedTrajectory<'_>,
    steps: usize,
    work: &mut [f64],
) -> Result<(), Refusal>
    requires { run_need (trajectory_of trajectory.parts) ≤ length work.old }
    ensures { let t = trajectory_of trajectory.entry.parts in
        RunStepsTaken t (forward_course t.breakpoints t.segments steps) forward (all_steps steps t.segments) result
        work.old work.new }
{
    // By its number, and not by a pair of breakpoints: a segment's law and its lists in `starts` and `ends` are found by it too.
    for i in 0..trajectory.parts.segments {
        run_segment_steps(trajectory, steps, i, work)?;
    }
    Ok(())
}
