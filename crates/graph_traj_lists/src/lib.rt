// The checks of a trajectory's lists (graph_traj.rs): rows 19 and 5 of document 01's table, and their chains. Every function answers
// what its definition in specs/ListChecks.antt says, for all inputs.
#![tactic(auto)]

ghost use Rattle.std.specs.Prelude.{◌≡◌, length};
ghost use Rattle.graph_checks.specs.First.{find_first};
ghost use Rattle.graph_checks.specs.PatternChecks.{not_finite_at, value_fault};
ghost use Rattle.graph_traj_lists.specs.ListChecks.{laws_fault, lists_fault};

use error::Refusal;

// The last of the laws, of which the first is 0.
const LAST_LAW: u8 = 2;

// Row 19: every law is 0, 1 or 2. A law is a byte, the smallest number that holds them.
pub fn check_laws(laws: &[u8]) -> Result<(), Refusal>
    ensures { result ≡ laws_fault laws.now }
{
    for &law in laws {
        if law > LAST_LAW {
            return Err(Refusal::Law(law as usize));
        }
    }
    Ok(())
}

// The first place whose value is not finite.
pub fn first_not_finite(values: &[f64]) -> Option<usize>
    ensures { result ≡ find_first (not_finite_at values.now) (length values.now) }
{
    values.iter().position(|value| !float::is_finite(*value))
}

// Row 5, of one pool: every value is finite. An accepted pool costs one walk that only finds out whether there is a fault. It is no
// `graph_values::kernel::check_values`, whose walk to the fault goes by rows, as document 01 asks: a pool has no rows.
pub fn check_pool(values: &[f64]) -> Result<(), Refusal>
    ensures { result ≡ value_fault values.now }
{
    if float::all_finite(values) {
        return Ok(());
    }
    match first_not_finite(values) {
        None => Ok(()),
        Some(k) => Err(Refusal::Value(values[k])),
    }
}

// Row 19, then row 5 for all start lists and for all end lists.
pub fn check_lists(laws: &[u8], starts: &[f64], ends: &[f64]) -> Result<(), Refusal>
    ensures { result ≡ lists_fault laws.now starts.now ends.now }
{
    check_laws(laws)?;
    check_pool(starts)?;
    check_pool(ends)
}
