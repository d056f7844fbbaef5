// The bytes of a job (01, "The job program"): whether they are well formed, and what they say. specs/JobFormat.antt has the format.
#![tactic(auto)]

ghost use Rattle.std.specs.Prelude.{◌≡◌};
ghost use Rattle.error.specs.Refusals.{Answers};
ghost use Rattle.job_format.specs.JobFormat.{malformed, malformed_fault};

use error::Refusal;
use job_checks::{MOST_BYTES, byte_count};
use kernel::Job;

pub mod kernel;

// The most nodes and entries that a job has.
pub const MOST_NODES: usize = 64;

pub const MOST_ENTRIES: usize = 512;

// Whether the bytes are no job.
#[tactic(auto, unfolding(crate::specs::JobFormat::malformed))]
fn is_malformed(job: &Job) -> bool
    ensures { result ≡ malformed job.now }
{
    let bytes = job.len();
    bytes < 2
        || MOST_BYTES < bytes
        || !job.map().is_allowed()
        || MOST_NODES < job.nodes()
        || MOST_ENTRIES < job.entries()
        || bytes != job.end()
}

// Row 21: whether the bytes are those of a job.
pub fn check_job(job: &Job) -> Result<(), Refusal>
    ensures { Answers result (malformed_fault job.now) }
{
    if is_malformed(job) {
        return Err(Refusal::Malformed(byte_count(job.len())));
    }
    Ok(())
}
