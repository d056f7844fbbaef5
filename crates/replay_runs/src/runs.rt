// The runs of order 4.
use error::Refusal;
use magnus_graph_traj::{evolve_state_adjoint_into, evolve_with_traj_into};
use replay_answers::{Work, is_checked};
use replay_fields::parts::Refused;
use replay_fields::{Fields, Malformed};
use replay_run_fields::{Call, Run};

// What a run answers.
fn evolve(run: Run<'_>, dst: &mut [f64], work: &mut [f64]) -> Result<(), Refusal> {
    let Run {
        trajectory,
        steps,
        bound,
        call,
        src,
    } = run;
    match call {
        Call::Forward => evolve_with_traj_into(trajectory, steps, bound, src, dst, work),
        Call::Adjoint { tau } => evolve_state_adjoint_into(
            trajectory, tau, steps, bound, src, dst, work,
        ),
        Call::WeightedAdjoint { tau, weights } => {
            varcoef_magnus_graph_adjoint::evolve_state_adjoint_into(
                trajectory, tau, steps, bound, weights, src, dst, work,
            )
        }
    }
}

// How many elements of the work slice a run clears that must end so: all that it needs, after an acceptance and where row 11 or 20 ends it, but
// none without steps. Every other refusal comes before the first step. A case gives the row as a number, which is compared as it stands.
fn cleared_by(run: Run<'_>, expected: &Result<(), Refused>) -> usize {
    let stepped = match expected {
        Ok(()) => true,
        Err(refused) => matches!(refused.number(), 11 | 20),
    };
    if stepped && run.steps > 0 {
        run.work_need()
    } else {
        0
    }
}

// Whether a run does what the case says from the work slice on.
pub fn run_right(
    run: Run<'_>,
    dst: &mut [f64],
    fields: &mut Fields<'_>,
    work: &mut [f64],
) -> Result<bool, Malformed> {
    let before = Work::read(fields)?;
    let work = before.elements(work)?;
    let expected: Result<(), Refused> = fields.read()?;
    let answered = evolve(run, dst, work);
    let cleared = cleared_by(run, &expected);
    Ok(is_checked(answered, &expected) && fields.are_reals(dst) && before.is_cleared(work, cleared))
}
