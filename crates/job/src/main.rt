// The job program (01): a job on standard input, its text on standard output. A job of more than 16,384 bytes is malformed, whatever
// follows; so no more than 16,385 are read.
#![tactic(auto)]

use job_run::run_job;

const STDIN_FILENO: i32 = 0;

const STDOUT_FILENO: i32 = 1;

// By the crate `io`, whose calls end a failed read as the end of the input: std's answer an error, which this program has no text for.
fn main() {
    let mut job = [0u8; 16385];
    let count = io::read_full(STDIN_FILENO, &mut job);
    let text = run_job(&job[..count]);
    io::write_all(STDOUT_FILENO, text.as_bytes());
}
