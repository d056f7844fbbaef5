// For programs in C and Rust: the square root, and the calls on signals. Each function makes one call and gives back its
// answer as a struct; a slice is a pointer and a length to such a program. include/fuistelo.h declares the functions.
#![tactic(auto)]

ghost use Rattle.std.specs.Prelude.{◌≡◌};
ghost use Rattle.std.specs.Float.{binary64};
ghost use Rattle.error.specs.Refusals.{Answers};
ghost use Rattle.graph_signal.specs.Outcome.{copy_outcome, sum_outcome};
ghost use Rattle.ieee_square_root.specs.SquareRoot.{square_root};
ghost use Rattle.answer.specs.Struct.{Tells};

use answer::{Answer, checked};
use graph_signal::{axpy_into_slice, copy_from};
use square_root::sqrt;

// The square root of x.
#[unsafe(no_mangle)]
pub extern "C" fn fuistelo_sqrt(x: f64) -> f64
    ensures { result ≡ square_root binary64 x }
{
    sqrt(x)
}

// The signal becomes src.
#[unsafe(no_mangle)]
pub extern "C" fn fuistelo_copy_from(signal: &mut [f64], src: &[f64]) -> Answer
    ensures answer { Tells result (λ answer. Answers answer (copy_outcome signal.old src.now).answer) }
    ensures written { signal.new ≡ (copy_outcome signal.old src.now).signal }
{
    checked(copy_from(signal, src))
}

// The signal becomes signal + alpha · src.
#[unsafe(no_mangle)]
pub extern "C" fn fuistelo_axpy_into_slice(signal: &mut [f64], alpha: f64, src: &[f64]) -> Answer
    ensures answer { Tells result (λ answer. Answers answer (sum_outcome signal.old alpha src.now).answer) }
    ensures written { signal.new ≡ (sum_outcome signal.old alpha src.now).signal }
{
    checked(axpy_into_slice(signal, alpha, src))
}
