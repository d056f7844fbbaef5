// A job, from its bytes to the text that is printed (01, "The job program").
#![tactic(auto)]

ghost use Rattle.job_format.specs.JobFormat.{job_of};
ghost use Rattle.job_step.specs.JobOutcome.{job_step_answer, job_step_output};
ghost use Rattle.job_step.specs.Stepped.{Small};
ghost use Rattle.job_answer.specs.AnswerText.{AnswerText};
ghost use Rattle.job_run.specs.JobText.{JobText};

use job_checks::Field;
use job_format::kernel::Job;
use job_format::{MOST_ENTRIES, MOST_NODES, check_job};
use job_text::refused_text;
use job_text_numbers::kernel::{TEXT, Text};
use magnus_graph::SpectralBound;
use steps::JobStep;

mod steps;

// The text of a job that is not malformed, and so has at most 64 nodes and 512 entries: its fields are read, and lent to its step. The program has
// no heap, so each list is the first part of an array for the most that a job has.
fn run_step(job: Job) -> Text<TEXT>
    requires { Small job }
    ensures { AnswerText (job_step_answer (job_of job.entry)) (job_step_output (job_of job.entry)) result }
{
    let n = job.nodes();
    let m = job.entries();
    let mut starts = [0; MOST_NODES + 1];
    let row_ptr = &mut starts[..n + 1];
    job.read_row_starts(row_ptr);
    let mut columns = [0; MOST_ENTRIES];
    let col_idx = &mut columns[..m];
    job.read_columns(col_idx);
    let mut first = [0.0; MOST_ENTRIES];
    let vals1 = &mut first[..m];
    job.read_values(Field::Values1, vals1);
    let mut second = [0.0; MOST_ENTRIES];
    let vals2 = &mut second[..m];
    job.read_values(Field::Values2, vals2);
    let mut signal = [0.0; MOST_NODES];
    let src = &mut signal[..n];
    job.read_signal(src);
    let step = JobStep {
        tau: job.tau(),
        bound: SpectralBound {
            rho_bar_max: job.bound(),
            convergence_radius_check: job.is_checked(),
        },
        root_bound: job.root_bound(),
        adjoint: job.is_adjoint(),
        job,
        row_ptr,
        col_idx,
        vals1,
        vals2,
        src,
    };
    step.text()
}

// The text of a job.
pub fn run_job(bytes: &[u8]) -> Text<TEXT>
    ensures { JobText bytes.now result }
{
    let job = Job::new(bytes);
    match check_job(&job) {
        Ok(()) => run_step(job),
        Err(refusal) => refused_text(refusal),
    }
}
