// Whether a call answered what its case says, for callers that lend what compares the values of two acceptances.
use crate::is_refusal;
use error::Refusal;
use replay_fields::parts::Refused;

// Whether what a call answered is expected: the same refusal, or values that are the same where both accept.
pub fn is_answer<A: Drop, E, F: Fn(A, &E) -> bool + Drop>(
    answered: Result<A, Refusal>,
    expected: &Result<E, Refused>,
    is_same: F,
) -> bool
    requires { F.IsAlwaysCallable is_same }
{
    match (answered, expected) {
        (Ok(value), Ok(expected)) => is_same(value, expected),
        (Err(refusal), Err(refused)) => is_refusal(refusal, refused),
        _ => false,
    }
}
