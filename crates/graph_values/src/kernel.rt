// The check of the values, for callers that have checked the row starts. Accepted values cost one walk that only finds out
// whether there is a fault; the walk to the first fault is made where there is one.
ghost use Rattle.std.specs.Prelude.{◌≡◌, length};
ghost use Rattle.graph_shape.specs.First.{find_first};
ghost use Rattle.graph_values.specs.ValueChecks.{not_finite_at, value_fault};

use error::Refusal;
use graph_shape::kernel::Entries;

// The first entry whose value is not finite. Of a Laplacian's values document 01 asks for two nested walks, over rows and entries, left by name at the
// first fault; `check_pool` of graph_traj_lists, of values without rows, has one.
fn first_value_not_finite(vals: &Entries<'_, '_, f64>) -> Option<usize>
    ensures { let list = vals.now.list.now in
        result ≡ find_first (not_finite_at list) (length list) }
{
    vals.row_starts
        .first_entry(|k| !float::is_finite(vals.list[k]))
}

// Row 5: every value is finite.
pub fn check_values(vals: Entries<'_, '_, f64>) -> Result<(), Refusal>
    ensures { result ≡ value_fault vals.entry.list.now }
{
    if float::all_finite(vals.list) {
        return Ok(());
    }
    match first_value_not_finite(&vals) {
        None => Ok(()),
        Some(k) => Err(Refusal::Value(vals.list[k])),
    }
}
