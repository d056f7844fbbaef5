// Trajectories (graph_traj.rs): segments between breakpoints, in each of which the values follow a law. Here is the lookup of a time.
#![tactic(auto)]

ghost use Rattle.graph_traj.specs.Lookup.{segment_at};
ghost use Rattle.graph_traj.specs.LookupAnswer.{LookupAnswers};
ghost use Rattle.graph_traj_breakpoints.specs.LookupChecks.{lookup_fault};

use error::Refusal;

pub mod kernel;

// The segment in which t lies: segment i goes from breakpoint i up to breakpoint i + 1, which belongs to the next one, but the last
// breakpoint belongs to the last segment. Rows 13, 14 for the breakpoints, 15 and 18.
pub fn segment_index(segments: usize, breakpoints: &[f64], t: f64) -> Result<usize, Refusal>
    ensures { LookupAnswers result (lookup_fault segments breakpoints.now t)
        (segment_at segments breakpoints.now t) }
{
    graph_traj_breakpoints::check_lookup(segments, breakpoints, t)?;
    Ok(kernel::segment_index_binary(segments, breakpoints, t))
}
