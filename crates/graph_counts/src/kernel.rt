// The check of the count of row starts, for callers that have checked the size.
ghost use Rattle.std.specs.Prelude.{◌≡◌, ◌≤◌};
ghost use Rattle.graph_counts.specs.CountChecks.{row_start_count_fault};

use error::Refusal;

// Row 1: there are n + 1 row starts.
pub fn check_row_start_count(n: usize, count: usize) -> Result<(), Refusal>
    requires { n ≤ 4096 }
    ensures { result ≡ row_start_count_fault n count }
{
    if count == n + 1 {
        Ok(())
    } else {
        Err(Refusal::RowStartCount(count))
    }
}
