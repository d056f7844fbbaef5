// The checks of a Laplacian's counts (graph.rs), one function for each row of document 01's table.
#![tactic(auto)]

ghost use Rattle.std.specs.Prelude.{◌≡◌};
ghost use Rattle.graph_counts.specs.CountChecks.{size_fault, entry_count_fault};

use error::Refusal;

pub mod kernel;

// The most nodes and the most columns that a Laplacian may have.
const MOST_NODES: usize = 4096;

const MOST_COLUMNS: usize = 65535;

// Row 6: n is at most 4,096, and the columns are at most 65,535.
pub fn check_size(n: usize, columns: usize) -> Result<(), Refusal>
    ensures { result ≡ size_fault n columns }
{
    if n > MOST_NODES {
        return Err(Refusal::Size(n));
    }
    if columns > MOST_COLUMNS {
        return Err(Refusal::Size(columns));
    }
    Ok(())
}

// Row 3, of the columns or of the values: they are as many as the last row start says.
pub fn check_entry_count(count: usize, last: usize) -> Result<(), Refusal>
    ensures { result ≡ entry_count_fault count last }
{
    if count == last {
        Ok(())
    } else {
        Err(Refusal::EntryCount(last))
    }
}
