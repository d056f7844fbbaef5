// What a case of a step holds before the output.
#![tactic(auto)]

use graph_checks::CsrParts;
use magnus_graph_checks::SpectralBound;
use replay_fields::parts::Room;
use replay_fields::{Fields, Malformed};
use varcoef_magnus_graph_checks::NodeWeights;

// The steps of the cases: of order 4, but for the last. A case's kind is known before its fields are read, and its call, below, has what is read.
#[derive(Clone, Copy)]
pub enum StepKind {
    Forward,
    Adjoint,
    WeightedForward,
    WeightedAdjoint,
    Order6,
}

impl TryFrom<u16> for StepKind {
    type Error = Malformed;

    fn try_from(kind: u16) -> Result<StepKind, Malformed> {
        match kind {
            7 => Ok(StepKind::Forward),
            8 => Ok(StepKind::Adjoint),
            9 => Ok(StepKind::WeightedForward),
            10 => Ok(StepKind::WeightedAdjoint),
            11 => Ok(StepKind::Order6),
            _ => Err(Malformed),
        }
    }
}

// The call of a step, with what only that call takes: the weights, or the third sample.
#[derive(Clone, Copy)]
pub enum Call<'r> {
    Forward,
    Adjoint,
    WeightedForward(NodeWeights<'r>),
    WeightedAdjoint(NodeWeights<'r>),
    Order6(CsrParts<'r>),
}

impl Call<'_> {
    // How many elements of the work slice an accepted step clears for each node.
    pub fn cleared_by_node(&self) -> usize {
        match self {
            Call::Forward | Call::Adjoint => 5,
            Call::WeightedForward(_) | Call::WeightedAdjoint(_) => 9,
            Call::Order6(_) => 22,
        }
    }
}

// What a step takes beside the slices that it writes.
#[derive(Clone, Copy)]
pub struct Step<'r> {
    pub first: CsrParts<'r>,
    pub second: CsrParts<'r>,
    pub tau: f64,
    pub bound: SpectralBound,
    pub call: Call<'r>,
    pub src: &'r [f64],
}

// Room for the slices that a step takes: for every one that a case of 65,536 bytes can have.
#[derive(Drop)]
pub struct StepRoom {
    first: Room<8192, 16384, 8192>,
    second: Room<8192, 16384, 8192>,
    third: Room<8192, 16384, 8192>,
    weights1: [f64; 8192],
    weights2: [f64; 8192],
    src: [f64; 8192],
}

impl StepRoom {
    pub fn new() -> Self {
        StepRoom {
            first: Room::new(),
            second: Room::new(),
            third: Room::new(),
            weights1: [0.0; 8192],
            weights2: [0.0; 8192],
            src: [0.0; 8192],
        }
    }
}

// Reads a step of a kind. The third sample stands before the length and the bound, and the weights behind them.
pub fn read_step<'r>(
    kind: StepKind,
    fields: &mut Fields<'_>,
    room: &'r mut StepRoom,
) -> Result<Step<'r>, Malformed> {
    let StepRoom {
        first,
        second,
        third,
        weights1,
        weights2,
        src,
    } = room;
    let first = first.read(fields)?;
    let second = second.read(fields)?;
    let ((tau, bound), call) = read_call(kind, fields, third, weights1, weights2)?;
    Ok(Step {
        first,
        second,
        tau,
        bound,
        call,
        src: fields.slice(src)?,
    })
}

// Reads the length and the bound of a step of a kind, and what only its call takes.
fn read_call<'r>(
    kind: StepKind,
    fields: &mut Fields<'_>,
    third: &'r mut Room<8192, 16384, 8192>,
    weights1: &'r mut [f64],
    weights2: &'r mut [f64],
) -> Result<((f64, SpectralBound), Call<'r>), Malformed> {
    match kind {
        StepKind::Forward => Ok((fields.read()?, Call::Forward)),
        StepKind::Adjoint => Ok((fields.read()?, Call::Adjoint)),
        StepKind::WeightedForward => {
            let numbers: (f64, SpectralBound) = fields.read()?;
            let weights = read_weights(fields, weights1, weights2)?;
            Ok((numbers, Call::WeightedForward(weights)))
        }
        StepKind::WeightedAdjoint => {
            let numbers: (f64, SpectralBound) = fields.read()?;
            let weights = read_weights(fields, weights1, weights2)?;
            Ok((numbers, Call::WeightedAdjoint(weights)))
        }
        StepKind::Order6 => {
            let third = third.read(fields)?;
            Ok((fields.read()?, Call::Order6(third)))
        }
    }
}

// Reads the node weights of a weighted step.
fn read_weights<'r>(
    fields: &mut Fields<'_>,
    weights1: &'r mut [f64],
    weights2: &'r mut [f64],
) -> Result<NodeWeights<'r>, Malformed> {
    Ok(NodeWeights {
        a_sup_max: fields.read()?,
        first: fields.slice(weights1)?,
        second: fields.slice(weights2)?,
    })
}
