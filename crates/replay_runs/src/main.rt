// Replays a stored list of lookups and runs along trajectories: each call is made again, and its answer and the slices that it writes are
// compared in every bit. Any NaN matches any NaN.
#![tactic(auto)]

use crate::runs::run_right;
use replay::kernel::replay;
use replay_fields::{Fields, Malformed};
use replay_run_fields::lookups::lookup_right;
use replay_run_fields::{RunKind, RunRoom, read_run};
use replay_trajectories::Form;

mod runs;

// The calls of the cases.
#[derive(Clone, Copy)]
enum Call {
    Lookup,
    Run(RunKind),
}

// A kind of cases: the call, and how a case gives its slices.
#[derive(Clone, Copy)]
struct Kind {
    call: Call,
    form: Form,
}

impl TryFrom<u16> for Kind {
    type Error = Malformed;

    fn try_from(kind: u16) -> Result<Kind, Malformed> {
        let call = match kind {
            12 | 16 => Call::Lookup,
            13 | 17 => Call::Run(RunKind::Forward),
            14 | 18 => Call::Run(RunKind::Adjoint),
            15 | 19 => Call::Run(RunKind::WeightedAdjoint),
            _ => return Err(Malformed),
        };
        let form = if kind < 16 {
            Form::Stored
        } else {
            Form::ByRules
        };
        Ok(Kind { call, form })
    }
}

// Whether the call of a kind does what the case says.
fn is_right(
    kind: Kind,
    fields: &mut Fields<'_>,
    room: &mut RunRoom,
    dst: &mut [f64],
    work: &mut [f64],
) -> Result<bool, Malformed> {
    let Kind { call, form } = kind;
    match call {
        Call::Lookup => Ok(lookup_right(form, fields, &mut room.trajectory.breakpoints)),
        Call::Run(run) => {
            let run = read_run(run, form, fields, room)?;
            let dst = form.output(fields, run.trajectory.n, dst)?;
            run_right(run, dst, fields, work)
        }
    }
}

// The work slices of the list have up to 176,129 elements.
fn main(rt: HostRuntime) {
    let mut room = RunRoom::new();
    let mut dst = [0.0; 8192];
    let mut work = [0.0; 176129];
    let tally = replay(&rt, |kind, fields| {
        is_right(kind, fields, &mut room, &mut dst, &mut work)
    });
    let _ = println!(rt; "{tally}");
}
