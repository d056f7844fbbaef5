// The checks of a Laplacian in compressed sparse rows (graph.rs): n nodes, n + 1 row starts, and a column and a value for each
// entry. Row i has the entries from its start up to the next row's start.
#![tactic(auto)]

ghost use Rattle.error.specs.Refusals.{Answers};
ghost use Rattle.graph_checks.specs.Parts.{parts_fault};
ghost use Rattle.graph_checks.specs.PatternChecks.{pattern_fault};

use error::Refusal;
use graph_columns::kernel::check_columns;
use graph_counts::check_entry_count;
use graph_shape::check_shape;
use graph_shape::kernel::{Entries, RowStarts};
use graph_values::kernel::check_values;

// The parts of a Laplacian as a caller lends them: n, the row starts, the columns and the values. Nothing of them has been checked.
#[derive(Clone, Copy)]
pub struct CsrParts<'a> {
    pub n: usize,
    pub row_ptr: &'a [usize],
    pub col_idx: &'a [u32],
    pub vals: &'a [f64],
}

// Whether the parts make up a Laplacian: rows 6 and 1 to 5, in that order. The first row start need not be 0; the
// entries before it belong to no row, and are checked like the others.
pub fn from_csr_parts(parts: CsrParts<'_>) -> Result<(), Refusal>
    ensures { Answers result (parts_fault parts.entry) }
{
    check_shape(parts.n, parts.row_ptr, parts.col_idx.len())?;
    let row_starts = RowStarts {
        n: parts.n,
        row_ptr: parts.row_ptr,
    };
    check_entry_count(parts.vals.len(), row_starts.row_ptr[row_starts.n])?;
    check_columns(Entries {
        row_starts,
        list: parts.col_idx,
    })?;
    check_values(Entries {
        row_starts,
        list: parts.vals,
    })
}

// The same of a pattern, which has no values: rows 6 and 1 to 4, row 3 for the columns alone.
pub fn check_pattern(n: usize, row_ptr: &[usize], col_idx: &[u32]) -> Result<(), Refusal>
    ensures { Answers result (pattern_fault n row_ptr.now col_idx.now) }
{
    check_shape(n, row_ptr, col_idx.len())?;
    let row_starts = RowStarts { n, row_ptr };
    check_columns(Entries {
        row_starts,
        list: col_idx,
    })
}
