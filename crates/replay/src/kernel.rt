// The driver of the programs that replay a stored list, for callers that lend what says whether a case is right; `input` has the one for a list on a
// runtime's input.
use crate::{MOST, Tally, next_case};
use replay_fields::{Fields, Malformed};

pub mod input;

// Replays the list on standard input, whose cases are of the kinds K, one after the other. A case is right where its call, which reads its
// fields, finds it so, and nothing is left of them.
pub fn replay<
    R: Print,
    K: TryFrom<u16, Error = Malformed>,
    F: FnMut(K, &mut Fields<'_>) -> Result<bool, Malformed>,
>(rt: &R, mut is_right: F) -> Tally
    requires { F.IsAlwaysCallable is_right }
{
    let mut room = io::large_buffer();
    let mut tally = Tally::default();
    for _ in 0..=MOST {
        if tally.ended {
            break;
        }
        match next_case(&mut room) {
            Ok(Some((kind, mut fields))) => {
                let right = match K::try_from(kind) {
                    Ok(kind) => is_right(kind, &mut fields).unwrap_or(false) && fields.is_empty(),
                    Err(Malformed) => false,
                };
                tally.count_case(rt, right);
            }
            Ok(None) => tally.stop(rt, true),
            Err(Malformed) => tally.stop(rt, false),
        }
    }
    tally
}
