// The node weights of the two samples of a weighted step under law 2 (01, parts 5 and 10), for callers that have checked the lists: they lie
// as pairs in the work slice, as the samples' values do.
ghost use Rattle.std.specs.Prelude.{◌≡◌, ◌+◌, ◌*◌, ◌≤◌, length};
ghost use Rattle.scratch.specs.Parts.{put};
ghost use Rattle.error.specs.Checks.{refuse_if};
ghost use Rattle.error.specs.declared.Refusal.TheVariants.{Weight};
ghost use Rattle.magnus_graph_faults.specs.StepChecks.{not_positive};
ghost use Rattle.varcoef_magnus_graph_faults.specs.WeightedStepChecks.{weight_fault};
ghost use Rattle.graph_traj_laws.specs.Laws.{law_values};
ghost use Rattle.graph_traj_samples.specs.Sampled.{law_pairs};

use error::Refusal;
use graph_pairs::paired::Pair;
use graph_traj_laws::kernel::EndLists;
use graph_traj_samples::kernel::{check_values, value_pairs};
use magnus_graph_checks::is_positive;

// Row 11 of one weight.
fn check_weight(weight: f64) -> Result<(), Refusal>
    ensures { result ≡ refuse_if (not_positive weight) (Weight weight) }
{
    if is_positive(weight) {
        Ok(())
    } else {
        Err(Refusal::Weight(weight))
    }
}

// The weights of both samples, to the pairs at `at`, and row 11 of the first sample's and then of the second's. Accepted weights cost one
// walk.
pub fn sample_weights(
    lists: EndLists<'_>,
    fractions: Pair,
    work: &mut [f64],
    at: usize,
) -> Result<(), Refusal>
    requires { at + 2 * length lists.start.now ≤ length work.old }
    ensures { let s = lists.entry.start.now in
        let e = lists.entry.end.now in
        let n = length s in
        (result ≡ weight_fault (law_values n fractions.first s e) (law_values n fractions.second s e))
        × (work.new ≡ put at (law_pairs n fractions.first fractions.second s e) work.old) }
{
    if value_pairs(
        lists,
        fractions,
        work,
        at,
        |x, y| is_positive(x) & is_positive(y),
    ) {
        return Ok(());
    }
    check_values(lists, fractions.first, |weight| check_weight(weight))?;
    check_values(lists, fractions.second, |weight| check_weight(weight))
}
