// Replays a stored list of jobs: each is run again, and the text is compared with the one expected in every byte, except that the digits
// of any NaN match those of any NaN.
#![tactic(auto)]

use job_run::run_job;
use replay::kernel::replay;
use replay_answers::texts::are_alike;
use replay_fields::{Fields, Malformed};

// The kind of the cases.
#[derive(Clone, Copy)]
struct Job;

impl TryFrom<u16> for Job {
    type Error = Malformed;

    fn try_from(kind: u16) -> Result<Job, Malformed> {
        if kind == 20 { Ok(Job) } else { Err(Malformed) }
    }
}

// Whether the job of a case is answered by the text behind it.
fn is_right(_kind: Job, fields: &mut Fields<'_>) -> Result<bool, Malformed> {
    let job = fields.byte_slice()?;
    let expected = fields.byte_slice()?;
    Ok(are_alike(run_job(job).as_bytes(), expected))
}

fn main(rt: HostRuntime) {
    let tally = replay(&rt, is_right);
    let _ = println!(rt; "{tally}");
}
