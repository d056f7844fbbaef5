// What a case of a run holds before the output, and the cases of lookups.
#![tactic(auto)]

use graph_traj_parts::Trajectory;
use magnus_graph_checks::SpectralBound;
use replay_fields::{Fields, Malformed};
use replay_trajectories::{Form, Room, read_trajectory};
use varcoef_magnus_graph_checks::NodeWeights;

pub mod lookups;

// The runs of the cases. A case's kind is known before its fields are read, and its call, below, has what is read.
#[derive(Clone, Copy)]
pub enum RunKind {
    Forward,
    Adjoint,
    WeightedAdjoint,
}

// The call of a run, with what only that call takes: the step length, and the weights.
#[derive(Clone, Copy)]
pub enum Call<'r> {
    Forward,
    Adjoint { tau: f64 },
    WeightedAdjoint { tau: f64, weights: NodeWeights<'r> },
}

impl Call<'_> {
    // How many elements of the work slice a run needs for each node.
    fn work_by_node(&self) -> usize {
        match self {
            Call::Forward | Call::Adjoint { .. } => 7,
            Call::WeightedAdjoint { .. } => 11,
        }
    }
}

// What a run takes beside the slices that it writes.
#[derive(Clone, Copy)]
pub struct Run<'r> {
    pub trajectory: Trajectory<'r>,
    // How many there are, in each segment of a forward run.
    pub steps: usize,
    pub bound: SpectralBound,
    pub call: Call<'r>,
    pub src: &'r [f64],
}

impl Run<'_> {
    // How many elements of the work slice the run needs: so many for each node, and 2 for each column.
    pub fn work_need(&self) -> usize {
        let nodes = self.trajectory.n.saturating_mul(self.call.work_by_node());
        let columns = self.trajectory.col_idx.len().saturating_mul(2);
        nodes.saturating_add(columns)
    }
}

// Room for the slices that a run takes.
#[derive(Drop)]
pub struct RunRoom {
    pub trajectory: Room,
    weights1: [f64; 8192],
    weights2: [f64; 8192],
    src: [f64; 8192],
}

impl RunRoom {
    pub fn new() -> Self {
        RunRoom {
            trajectory: Room::new(),
            weights1: [0.0; 8192],
            weights2: [0.0; 8192],
            src: [0.0; 8192],
        }
    }
}

// Reads a run of a kind. The step length stands before the steps and the bound, and the weights behind them.
pub fn read_run<'r>(
    kind: RunKind,
    form: Form,
    fields: &mut Fields<'_>,
    room: &'r mut RunRoom,
) -> Result<Run<'r>, Malformed> {
    let RunRoom {
        trajectory,
        weights1,
        weights2,
        src,
    } = room;
    let trajectory = read_trajectory(form, fields, trajectory)?;
    let n = trajectory.n;
    let tau: f64 = match kind {
        RunKind::Forward => 0.0,
        RunKind::Adjoint | RunKind::WeightedAdjoint => fields.read()?,
    };
    let (steps, bound): (usize, SpectralBound) = fields.read()?;
    let call = match kind {
        RunKind::Forward => Call::Forward,
        RunKind::Adjoint => Call::Adjoint { tau },
        RunKind::WeightedAdjoint => {
            let weights = NodeWeights {
                a_sup_max: fields.read()?,
                first: form.slice(fields, n, weights1)?,
                second: form.slice(fields, n, weights2)?,
            };
            Call::WeightedAdjoint { tau, weights }
        }
    };
    let src = form.slice(fields, n, src)?;
    Ok(Run {
        trajectory,
        steps,
        bound,
        call,
        src,
    })
}
