// A trajectory whose checks have accepted: what the steps of a run take.
ghost use Rattle.graph_traj_parts.specs.Trajectory.{AcceptedTrajectory, trajectory_of};

use crate::Trajectory;

#[derive(Clone, Copy)]
pub struct CheckedTrajectory<'a> {
    pub parts: Trajectory<'a>,
    pub ghost accepted: { AcceptedTrajectory (trajectory_of parts) },
}
