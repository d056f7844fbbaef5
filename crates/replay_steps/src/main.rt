// Replays a stored list of steps of orders 4 and 6: each call is made again, and its answer and the slices that it writes are
// compared in every bit. Any NaN matches any NaN.
#![tactic(auto)]

use crate::calls::apply;
use replay::kernel::replay;
use replay_answers::{Work, is_checked};
use replay_fields::parts::Refused;
use replay_fields::{Fields, Malformed};
use replay_step_fields::{StepKind, StepRoom, read_step};

mod calls;

// Whether the step of a kind does what the case says. An accepted step has an output of n elements; a refused one clears nothing of the work
// slice.
fn is_right(
    kind: StepKind,
    fields: &mut Fields<'_>,
    room: &mut StepRoom,
    dst: &mut [f64],
    work: &mut [f64],
) -> Result<bool, Malformed> {
    let step = read_step(kind, fields, room)?;
    let dst = fields.slice(dst)?;
    let before = Work::read(fields)?;
    let work = before.elements(work)?;
    let expected: Result<(), Refused> = fields.read()?;
    let cleared = match expected {
        Ok(()) => dst.len().saturating_mul(step.call.cleared_by_node()),
        Err(_) => 0,
    };
    let answered = apply(step, dst, work);
    Ok(is_checked(answered, &expected) && fields.are_reals(dst) && before.is_cleared(work, cleared))
}

fn main(rt: HostRuntime) {
    let mut room = StepRoom::new();
    let mut dst = [0.0; 8192];
    let mut work = [0.0; 24576];
    let tally = replay(&rt, |kind, fields| {
        is_right(kind, fields, &mut room, &mut dst, &mut work)
    });
    let _ = println!(rt; "{tally}");
}
