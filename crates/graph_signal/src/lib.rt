// Sums of signals (graph_signal.rs; 01, part 3). Each call checks the lengths, and writes only where it accepts them.
#![tactic(auto)]

ghost use Rattle.std.specs.Prelude.{◌≡◌};
ghost use Rattle.error.specs.Refusals.{Answers};
ghost use Rattle.graph_signal.specs.Outcome.{copy_outcome, sum_outcome};

use error::{Refusal, check_length};
use scratch::kernel::store;
use scratch_scaled_sums::kernel::add_scaled_to;

// The signal becomes src. Refused: 10 with src's length, where that is not the signal's.
pub fn copy_from(signal: &mut [f64], src: &[f64]) -> Result<(), Refusal>
    ensures answer { Answers result (copy_outcome signal.old src.now).answer }
    ensures written { signal.new ≡ (copy_outcome signal.old src.now).signal }
{
    let length = check_length(src.len(), signal.len());
    let Ok(()) = length else {
        return length;
    };
    store(src, 0, signal);
    Ok(())
}

// The signal becomes signal + alpha · src at each place. Refused: 10 with src's length, where that is not the signal's.
pub fn axpy_into_slice(signal: &mut [f64], alpha: f64, src: &[f64]) -> Result<(), Refusal>
    ensures answer { Answers result (sum_outcome signal.old alpha src.now).answer }
    ensures written { signal.new ≡ (sum_outcome signal.old alpha src.now).signal }
{
    let lengths = check_length(src.len(), signal.len());
    let Ok(()) = lengths else {
        return lengths;
    };
    add_scaled_to(src, 0, alpha, signal);
    Ok(())
}
