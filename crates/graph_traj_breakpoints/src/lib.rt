// The checks of the lookup of a time among breakpoints (graph_traj.rs), one function for each row of document 01's table, and their
// chain. Every function answers what its definition in specs/LookupChecks.antt says, for all inputs.
#![tactic(auto)]

ghost use Rattle.std.specs.Prelude.{◌≡◌};
ghost use Rattle.graph_traj_breakpoints.specs.LookupChecks.{breakpoints_fault, lookup_time_fault, lookup_fault};

use error::Refusal;
use graph_traj_counts::{check_pool_count, check_segment_count};

// Row 15: every breakpoint is finite and above its predecessor. The first has none; every finite number is above minus infinity.
pub fn check_breakpoints(breakpoints: &[f64]) -> Result<(), Refusal>
    ensures { result ≡ breakpoints_fault breakpoints.now }
{
    let mut predecessor = f64::NEG_INFINITY;
    for &x in breakpoints {
        if !(float::is_finite(x) & (predecessor < x)) {
            return Err(Refusal::Breakpoint(x));
        }
        predecessor = x;
    }
    Ok(())
}

// Row 18: t lies from the first to the last breakpoint. Where t is a NaN, no comparison holds.
pub fn check_lookup_time(first: f64, last: f64, t: f64) -> Result<(), Refusal>
    ensures { result ≡ lookup_time_fault first last t }
{
    if (first <= t) & (t <= last) {
        Ok(())
    } else {
        Err(Refusal::LookupTime(t))
    }
}

// All checks of the lookup: rows 13, 14 for the breakpoints, 15 and 18.
pub fn check_lookup(segments: usize, breakpoints: &[f64], t: f64) -> Result<(), Refusal>
    ensures { result ≡ lookup_fault segments breakpoints.now t }
{
    check_segment_count(segments)?;
    check_pool_count(breakpoints.len(), segments + 1)?;
    check_breakpoints(breakpoints)?;
    check_lookup_time(breakpoints[0], breakpoints[segments], t)
}
