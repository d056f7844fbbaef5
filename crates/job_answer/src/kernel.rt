// The text of an answer, for callers that keep to the values of a job.
ghost use Rattle.std.specs.Prelude.{◌≤◌, length};
ghost use Rattle.job_answer.specs.AnswerText.{AnswerText};

use error::Refusal;
use job_text::kernel::done_text;
use job_text::refused_text;
use job_text_numbers::kernel::{TEXT, Text};

// The text of an answer. An accepted job has at most 64 values.
pub fn answer_text(answer: Result<(), Refusal>, values: &[f64]) -> Text<TEXT>
    requires { length values.now ≤ 64 }
    ensures { AnswerText answer values.now result }
{
    match answer {
        Ok(()) => done_text(values),
        Err(refusal) => refused_text(refusal),
    }
}
