// The texts that the job program prints (01, "The job program"). specs/Text.antt says what they are.
#![tactic(auto)]

ghost use Rattle.job_text.specs.Text.{RefusedText};

use error::Refusal;
use job_text_numbers::kernel::{TEXT, Text};
use job_text_row::kernel::put_row;
use kernel::NEWLINE;
use refusal_rows::row_of;

pub mod kernel;

// The text of a refusal.
pub fn refused_text(refusal: Refusal) -> Text<TEXT>
    ensures { RefusedText refusal result }
{
    let mut text = Text::new();
    text.put_bytes(b"refused");
    put_row(&mut text, row_of(refusal));
    text.put_byte(NEWLINE);
    text
}
