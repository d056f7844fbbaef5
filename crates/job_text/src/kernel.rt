// The text of an accepted job, for callers that keep to the values of a job.
ghost use Rattle.std.specs.Prelude.{◌≡◌, ◌+◌, ◌*◌, ◌≤◌, length};
ghost use Rattle.job_text_numbers.specs.Added.{Added};
ghost use Rattle.job_text.specs.Text.{Lines, DoneText};

use job_text_numbers::kernel::{TEXT, Text};

pub const NEWLINE: u8 = b'\n';

// The text of an accepted job. A job has at most 64 values.
pub fn done_text(values: &[f64]) -> Text<TEXT>
    requires { length values.now ≤ 64 }
    ensures { DoneText values.now result }
{
    let mut text = Text::new();
    text.put_bytes(b"done ");
    text.put_decimal(values.len());
    text.put_byte(NEWLINE);
    put_lines(&mut text, values);
    text
}

// A line for each value.
fn put_lines(text: &mut Text<TEXT>, values: &[f64])
    requires { length text.old + 17 * length values.now ≤ TEXT }
    ensures { Added (Lines values.now) text.old text.new }
{
    for value in values {
        text.put_real(*value);
        text.put_byte(NEWLINE);
    }
}
