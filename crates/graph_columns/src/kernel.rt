// The check of the columns, for callers that have checked the row starts. Accepted columns cost one walk that only finds out
// whether there is a fault; the walk to the first fault is made where there is one.
ghost use Rattle.std.specs.Prelude.{◌≡◌, ◌≤◌, ltb, length};
ghost use Rattle.float.specs.All.{all};
ghost use Rattle.graph_shape.specs.First.{find_first};
ghost use Rattle.graph_columns.specs.ColumnChecks.{outside_at, column_fault};

use error::Refusal;
use graph_shape::kernel::Entries;

// Whether every column is a node, by one walk over all of them. `all_positive` of varcoef_magnus_graph_checks joins another test in this way: one
// function of both would take the test as a closure and ask of it that its calls give a test's answers, which is longer than what is alike here.
fn columns_inside(n: usize, col_idx: &[u32]) -> bool
    requires { n ≤ 4096 }
    ensures { result ≡ all (λ column. ltb column n) col_idx.now }
{
    let nodes = n as u32;
    let mut passed = true;
    for column in col_idx {
        passed = passed & (*column < nodes);
    }
    passed
}

// The first entry whose column is no node.
fn first_column_outside(columns: &Entries<'_, '_, u32>) -> Option<usize>
    ensures { let list = columns.now.list.now in
        result ≡ find_first (outside_at columns.now.row_starts.n list) (length list) }
{
    columns
        .row_starts
        .first_entry(|k| columns.list[k] as usize >= columns.row_starts.n)
}

// Row 4: every column is below n.
pub fn check_columns(columns: Entries<'_, '_, u32>) -> Result<(), Refusal>
    ensures { result ≡ column_fault columns.entry.row_starts.n columns.entry.list.now }
{
    if columns_inside(columns.row_starts.n, columns.list) {
        return Ok(());
    }
    match first_column_outside(&columns) {
        None => Ok(()),
        Some(k) => Err(Refusal::Column(columns.list[k] as usize)),
    }
}
