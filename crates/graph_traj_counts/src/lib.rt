// The checks of the counts of a trajectory (graph_traj.rs): rows 13 and 14 of document 01's table.
#![tactic(auto)]

ghost use Rattle.std.specs.Prelude.{◌≡◌};
ghost use Rattle.graph_traj_counts.specs.CountChecks.{segment_count_fault, pool_count_fault};

use error::Refusal;

pub mod kernel;

// The most segments that a trajectory has.
const MOST_SEGMENTS: usize = 65535;

// Row 13: there are 1 to 65,535 segments. The steps of a run are tested alike by another row: a function of both tests would take the refusal and
// the most as arguments, and be longer at its two calls than the test is.
pub fn check_segment_count(segments: usize) -> Result<(), Refusal>
    ensures { result ≡ segment_count_fault segments }
{
    if (segments == 0) | (segments > MOST_SEGMENTS) {
        Err(Refusal::SegmentCount(segments))
    } else {
        Ok(())
    }
}

// Row 14, of one list: it is as long as is wanted.
pub fn check_pool_count(count: usize, wanted: usize) -> Result<(), Refusal>
    ensures { result ≡ pool_count_fault count wanted }
{
    if count == wanted {
        Ok(())
    } else {
        Err(Refusal::PoolCount(count))
    }
}
