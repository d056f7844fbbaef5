// The checks of a Laplacian's row starts (graph.rs), after those of its counts.
#![tactic(auto)]

ghost use Rattle.std.specs.Prelude.{◌≡◌, ◌+◌, true, length};
ghost use Rattle.graph_shape.specs.ShapeChecks.{Rise, row_starts_fault, shape_fault};

use error::Refusal;
use graph_counts::kernel::check_row_start_count;
use graph_counts::{check_entry_count, check_size};

pub mod kernel;

// Rows 6, 1, 2 and, of the columns, 3. Here and below n and row_ptr are as a caller lends them: nothing of them is known before these checks, so that
// a struct of the two would hold no fact, and each call would make it only for it to be taken apart. What they accept is a `kernel::RowStarts`.
pub fn check_shape(n: usize, row_ptr: &[usize], columns: usize) -> Result<(), Refusal>
    ensures { result ≡ shape_fault n row_ptr.now columns }
{
    check_size(n, columns)?;
    check_row_start_count(n, row_ptr.len())?;
    check_row_starts(n, row_ptr)?;
    check_entry_count(columns, row_ptr[n])
}

// Whether no row start exceeds the next, by one walk without a branch, so that several starts are tested at once. Where a start is 2^63 or
// more it may say no without need. A start and its distance from the next, both below 2^63, make the next without wrapping around.
fn row_starts_rise(n: usize, row_ptr: &[usize]) -> bool
    requires { length row_ptr.now ≡ n + 1 }
    ensures { result ≡ true → Rise n row_ptr.now }
{
    let mut joined = 0;
    for (i, &start) in row_ptr[..n].iter().enumerate() {
        let distance = std::num::wrapping_sub_usize(row_ptr[i + 1], start);
        joined = joined | start | distance;
    }
    joined < 0x8000_0000_0000_0000
}

// Row 2: no row start exceeds the next. Accepted row starts cost one walk that only finds out whether there is a fault.
fn check_row_starts(n: usize, row_ptr: &[usize]) -> Result<(), Refusal>
    requires { length row_ptr.now ≡ n + 1 }
    ensures { result ≡ row_starts_fault n row_ptr.now }
{
    if row_starts_rise(n, row_ptr) {
        return Ok(());
    }
    // The next start by its place: no invariant can speak of what a loop over `windows(2).enumerate()` yields.
    for (i, &start) in row_ptr[..n].iter().enumerate() {
        if start > row_ptr[i + 1] {
            return Err(Refusal::RowStartFalls(i));
        }
    }
    Ok(())
}
