// Answers for programs in C and Rust, which cannot take an enum that carries values: the number and the values of document 01's table in one
// struct.
#![tactic(auto)]

ghost use Rattle.std.specs.Prelude.{◌≡◌, []};
ghost use Rattle.answer.specs.Struct.{told, refusal_struct, struct_of};

use error::Refusal;
use refusal_rows::{Row, row_of};

// An answer. No call's answer carries a count and a real, or two counts.
#[repr(C)]
#[derive(Clone, Copy)]
pub struct Answer {
    // 0 where the call is accepted, else the row of 01's table.
    pub number: u64,
    // How many whole counts it carries, 0 or 1, and that count; 0 where there is none.
    pub counts: u64,
    pub count: u64,
    // How many reals it carries, 0 to 2, and these in the row's order; +0 where there is none.
    pub reals: u64,
    pub first: f64,
    pub second: f64,
}

impl Answer {
    // Nothing carried: what an accepted call answers that gives nothing but its answer.
    const NOTHING: Answer = Answer {
        number: 0,
        counts: 0,
        count: 0,
        reals: 0,
        first: 0.0,
        second: 0.0,
    };
}

// A row in the struct. This and the two functions below are no `From`: their names say what is told, which `Answer::from` does not.
pub fn laid_out(row: Row) -> Answer
    ensures { result ≡ told row }
{
    match row {
        Row::Count(number, value) => Answer {
            number,
            counts: 1,
            count: value as u64,
            ..Answer::NOTHING
        },
        Row::Real(number, value) => Answer {
            number,
            reals: 1,
            first: value,
            ..Answer::NOTHING
        },
        Row::Reals(number, first, second) => Answer {
            number,
            reals: 2,
            first,
            second,
            ..Answer::NOTHING
        },
    }
}

// A refusal in the struct.
pub fn refused(refusal: Refusal) -> Answer
    ensures { result ≡ refusal_struct refusal }
{
    laid_out(row_of(refusal))
}

// The answer of a call that gives nothing but its answer.
pub fn checked(answer: Result<(), Refusal>) -> Answer
    ensures { result ≡ struct_of answer [] }
{
    match answer {
        Ok(()) => Answer::NOTHING,
        Err(refusal) => refused(refusal),
    }
}
