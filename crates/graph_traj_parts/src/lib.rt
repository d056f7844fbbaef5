// The checks of a trajectory's parts (graph_traj.rs) for a forward and for an adjoint run: rows 13 and 17 of document 01's table, and the
// chains. Every function answers what its definition in specs/TrajectoryChecks.antt says, for all inputs.
#![tactic(auto)]

ghost use Rattle.std.specs.Prelude.{◌≡◌, ◌≤◌, length};
ghost use Rattle.graph_traj_parts.specs.Trajectory.{trajectory_of};
ghost use Rattle.graph_traj_parts.specs.TrajectoryChecks.{first_breakpoint_fault, one_segment_fault, trajectory_counts_fault};
ghost use Rattle.graph_traj_parts.specs.TrajectoryChecks.{trajectory_fault, adjoint_trajectory_fault};

use error::Refusal;
use graph_traj_breakpoints::check_breakpoints;
use graph_traj_counts::check_segment_count;
use graph_traj_counts::kernel::check_counts;
use graph_traj_lists::check_lists;

pub mod kernel;

// What a run is lent of its trajectory: a pattern of n nodes for all segments, the breakpoints between them, and for each segment a start
// list and an end list, one value for each column, and a law. The start lists stand one after the other in `starts`, and so do the end lists
// in `ends`. Nothing of it has been checked.
#[derive(Clone, Copy)]
pub struct Trajectory<'a> {
    pub n: usize,
    pub row_ptr: &'a [usize],
    pub col_idx: &'a [u32],
    pub segments: usize,
    pub breakpoints: &'a [f64],
    pub starts: &'a [f64],
    pub ends: &'a [f64],
    pub laws: &'a [u8],
}

// Row 13 of an adjoint run: there is one segment.
pub fn check_one_segment(segments: usize) -> Result<(), Refusal>
    ensures { result ≡ one_segment_fault segments }
{
    if segments == 1 {
        Ok(())
    } else {
        Err(Refusal::SegmentCount(segments))
    }
}

// Row 17: the first breakpoint is 0. IEEE's comparison lets -0 pass.
pub fn check_first_breakpoint(first: f64) -> Result<(), Refusal>
    ensures { result ≡ first_breakpoint_fault first }
{
    if first == 0.0 {
        Ok(())
    } else {
        Err(Refusal::FirstBreakpoint(first))
    }
}

// Row 14, of a trajectory whose segments and columns have been counted.
fn check_trajectory_counts(trajectory: Trajectory<'_>) -> Result<(), Refusal>
    requires { (trajectory.segments ≤ 65535) × (length trajectory.col_idx.now ≤ 65535) }
    ensures { result ≡ trajectory_counts_fault (trajectory_of trajectory.entry) }
{
    check_counts(
        trajectory.segments,
        trajectory.col_idx.len(),
        trajectory.breakpoints.len(),
        trajectory.starts.len(),
        trajectory.ends.len(),
        trajectory.laws.len(),
    )
}

// The trajectory of a forward run: rows 6 and 1 to 4, 13, 14, 15, 19, 5.
pub fn check_trajectory(trajectory: Trajectory<'_>) -> Result<(), Refusal>
    ensures { result ≡ trajectory_fault (trajectory_of trajectory.entry) }
{
    graph_checks::check_pattern(trajectory.n, trajectory.row_ptr, trajectory.col_idx)?;
    check_segment_count(trajectory.segments)?;
    check_trajectory_counts(trajectory)?;
    check_breakpoints(trajectory.breakpoints)?;
    check_lists(trajectory.laws, trajectory.starts, trajectory.ends)
}

// The trajectory of an adjoint run, one segment from 0: rows 6 and 1 to 4, 13, 14, 15, 17, 19, 5.
pub fn check_adjoint_trajectory(trajectory: Trajectory<'_>) -> Result<(), Refusal>
    ensures { result ≡ adjoint_trajectory_fault (trajectory_of trajectory.entry) }
{
    graph_checks::check_pattern(trajectory.n, trajectory.row_ptr, trajectory.col_idx)?;
    check_one_segment(trajectory.segments)?;
    check_trajectory_counts(trajectory)?;
    check_breakpoints(trajectory.breakpoints)?;
    check_first_breakpoint(trajectory.breakpoints[0])?;
    check_lists(trajectory.laws, trajectory.starts, trajectory.ends)
}
