// For programs in C and Rust: the lookup of a segment. It makes one call and gives back its answer as a
// struct; a slice is a pointer and a length to such a program. include/fuistelo.h declares it.
// The C interface needs each list as a parameter of its own, and a function written out for each name.
#![tactic(auto)]

ghost use Rattle.std.specs.Prelude.{◌≡◌, [], ◌∷◌};
ghost use Rattle.error.specs.Refusals.{count};
ghost use Rattle.graph_traj.specs.Lookup.{segment_at};
ghost use Rattle.graph_traj_breakpoints.specs.LookupChecks.{lookup_fault};
ghost use Rattle.answer.specs.Struct.{struct_of};

use answer::{Answer, laid_out, refused};
use graph_traj::segment_index;
use refusal_rows::Row;

// The segment in which t lies: where it is accepted, its one count, after the number 0, which stands for "accepted" in the C interface.
#[unsafe(no_mangle)]
pub extern "C" fn fuistelo_segment_index(segments: usize, breakpoints: &[f64], t: f64) -> Answer
    ensures { result ≡ struct_of (lookup_fault segments breakpoints.now t)
        (count (segment_at segments breakpoints.now t) ∷ []) }
{
    match segment_index(segments, breakpoints, t) {
        Ok(segment) => laid_out(Row::Count(0, segment)),
        Err(refusal) => refused(refusal),
    }
}
