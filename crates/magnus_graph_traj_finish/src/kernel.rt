// The end of a run, for callers whose work slice has room for the output and for what the run needed.
ghost use Rattle.std.specs.Prelude.{◌≡◌, ◌≤◌, length};
ghost use Rattle.error.specs.Checks.{if_accepted};
ghost use Rattle.scratch.specs.Parts.{part, put, zeros};

use error::Refusal;
use scratch::kernel::{clear, store};

// Where the steps of a run were all taken, dst becomes the signal that they left at 0 of the work slice; where one refused, dst stays as it was.
// Either way the first `need` elements of the work slice become +0, and the run answers what its steps did.
pub fn finish_run(
    taken: Result<(), Refusal>,
    work: &mut [f64],
    need: usize,
    dst: &mut [f64],
) -> Result<(), Refusal>
    requires { (need ≤ length work.old) × (length dst.old ≤ length work.old) }
    ensures { let w = work.old in
        let out = dst.old in
        (result ≡ taken) × (dst.new ≡ if_accepted taken (part 0 (length out) w) out)
        × (work.new ≡ put 0 (zeros need) w) }
{
    let Ok(()) = taken else {
        clear(work, need);
        return taken;
    };
    store(work, 0, dst);
    clear(work, need);
    taken
}
