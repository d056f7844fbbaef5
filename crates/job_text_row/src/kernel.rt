// The number and the values of a refusal, written behind a text, for callers that keep within its room.
ghost use Rattle.std.specs.Prelude.{◌∷◌, [], ◌+◌, ◌≤◌, length};
ghost use Rattle.error.specs.Refusals.{count, real};
ghost use Rattle.refusal_rows.specs.Row.{row_number, row_values};
ghost use Rattle.job_text_numbers.specs.Added.{Added};
ghost use Rattle.job_text_row.specs.Spaced.{Spaced};

use job_text_numbers::kernel::Text;
use refusal_rows::Row;

const SPACE: u8 = b' ';

// The number and the values, each after a space.
pub fn put_row<const CAP: usize>(text: &mut Text<CAP>, row: Row)
    requires { length text.old + 55 ≤ CAP }
    ensures added { Added (Spaced (count (row_number row) ∷ row_values row)) text.old text.new }
    ensures upper_bound { length text.new ≤ length text.old + 55 }
{
    match row {
        Row::Count(number, k) => {
            put_count(text, number as usize);
            put_count(text, k);
        }
        Row::Real(number, x) => {
            put_count(text, number as usize);
            put_value(text, x);
        }
        Row::Reals(number, x, y) => {
            put_count(text, number as usize);
            put_value(text, x);
            put_value(text, y);
        }
    }
}

// A space and a count. A count and a real have a function each: one for an enum of both would need that enum, and definitions of what a value
// carries and of the room that it takes, which is longer.
fn put_count<const CAP: usize>(text: &mut Text<CAP>, k: usize)
    requires { length text.old + 21 ≤ CAP }
    ensures added { Added (Spaced (count k ∷ [])) text.old text.new }
    ensures upper_bound { length text.new ≤ length text.old + 21 }
{
    text.put_byte(SPACE);
    text.put_decimal(k);
}

// A space and a real.
fn put_value<const CAP: usize>(text: &mut Text<CAP>, x: f64)
    requires { length text.old + 17 ≤ CAP }
    ensures added { Added (Spaced (real x ∷ [])) text.old text.new }
    ensures upper_bound { length text.new ≤ length text.old + 17 }
{
    text.put_byte(SPACE);
    text.put_real(x);
}
