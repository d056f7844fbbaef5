// The counts of a trajectory's lists, for callers that have checked the number of segments and of columns.
ghost use Rattle.std.specs.Prelude.{◌≡◌, ◌≤◌};
ghost use Rattle.graph_traj_counts.specs.CountChecks.{counts_fault};

use crate::check_pool_count;
use error::Refusal;

// Row 14 for the breakpoints, the start pool, the end pool and the laws, given by their lengths. A pool holds a value for each column
// in each segment; segments and columns are at most 65,535, so that their product is a number of the machine. Six numbers and no struct: the
// trajectory that has them stands in a crate above, where the one call makes them of its lists.
pub fn check_counts(
    segments: usize,
    columns: usize,
    breakpoints: usize,
    starts: usize,
    ends: usize,
    laws: usize,
) -> Result<(), Refusal>
    requires { (segments ≤ 65535) × (columns ≤ 65535) }
    ensures { result ≡ counts_fault segments columns breakpoints starts ends laws }
{
    check_pool_count(breakpoints, segments + 1)?;
    let values = segments * columns;
    check_pool_count(starts, values)?;
    check_pool_count(ends, values)?;
    check_pool_count(laws, segments)
}
