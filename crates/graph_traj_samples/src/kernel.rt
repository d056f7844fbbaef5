// The two samples of a step under law 2 (01, "Added by design"), for callers that have checked the trajectory: their values lie as pairs
// in the work slice, so that one walk over the pattern serves both.
ghost use Rattle.std.specs.Prelude.{◌≡◌, not, ◌+◌, ◌*◌, ◌≤◌, length, get_or, Bool, Float};
ghost use Rattle.std.specs.Float.{nan};
ghost use Rattle.std.specs.Float.Ieee.Scale.{finite};
ghost use Rattle.float.specs.All.{all};
ghost use Rattle.scratch.specs.Parts.{put};
ghost use Rattle.error.specs.Checks.{next, refuse_if};
ghost use Rattle.error.specs.declared.Refusal.{Refusal};
ghost use Rattle.error.specs.declared.Refusal.TheVariants.{SampledValue};
ghost use Rattle.graph_checks.specs.First.{refuse_first};
ghost use Rattle.graph_traj_laws.specs.Laws.{law_values};
ghost use Rattle.graph_traj_samples.specs.Sampled.{sampled_fault, law_pairs};
ghost use Rattle.graph_traj_samples.specs.Tests.{TestsBoth, Checks};

use error::Refusal;
use graph_pairs::paired::Pair;
use graph_traj_laws::kernel::{EndLists, law_value};

// The pairs at `at` become the values of law 2 at two fractions of the way from the start list to the end list. It tells whether the test of
// both numbers accepts each pair; the walk does not stop at one that it refuses, so that several values are formed and tested at once.
pub fn value_pairs<F: Fn(f64, f64) -> bool>(
    lists: EndLists<'_>,
    fractions: Pair,
    work: &mut [f64],
    at: usize,
    both_pass: F,
) -> bool
    requires in_bounds { at + 2 * length lists.start.now ≤ length work.old }
    requires callable { F.IsAlwaysCallable both_pass }
    ensures { let l = lists.entry in
        let values = law_pairs (length l.start.now) fractions.first fractions.second l.start.now l.end.now in
        ((good : Float → Bool) → TestsBoth (F.post both_pass) good → result ≡ all good values) × (work.new ≡ put at values work.old) }
{
    let mut passed = true;
    for (i, s) in lists.start.iter().enumerate() {
        let e = lists.end[i];
        let first = law_value(fractions.first, *s, e);
        let second = law_value(fractions.second, *s, e);
        let t = at + 2 * i;
        work[t] = first;
        work[t + 1] = second;
        passed = passed & both_pass(first, second);
    }
    passed
}

// A check of each value of one sample: a walk to the first that it refuses.
pub fn check_values<F: Fn(f64) -> Result<(), Refusal>>(
    lists: EndLists<'_>,
    fraction: f64,
    check: F,
) -> Result<(), Refusal>
    requires { F.IsAlwaysCallable check }
    ensures { let l = lists.entry in
        let values = law_values (length l.start.now) fraction l.start.now l.end.now in
        (bad : Float → Bool) (refusal : Float → Refusal) → Checks (F.post check) bad refusal
        → result ≡ refuse_first (λ k. bad (get_or values k nan)) (length values) (λ k. refusal (get_or values k nan)) }
{
    for (i, s) in lists.start.iter().enumerate() {
        check(law_value(fraction, *s, lists.end[i]))?;
    }
    Ok(())
}

// Row 20 of one value.
fn check_value(value: f64) -> Result<(), Refusal>
    ensures { result ≡ refuse_if (not (finite value)) (SampledValue value) }
{
    if float::is_finite(value) {
        Ok(())
    } else {
        Err(Refusal::SampledValue(value))
    }
}

// Both samples of a step in a segment with these lists, to the pairs at `at`, and row 20 of the first and then of the second. Accepted
// samples cost one walk. `graph_traj_weights::kernel::sample_weights` does the same with its own test and refusal: one function of both would take
// two closures and what they compute, and each would still say its own row.
pub fn sample(
    lists: EndLists<'_>,
    fractions: Pair,
    work: &mut [f64],
    at: usize,
) -> Result<(), Refusal>
    requires { at + 2 * length lists.start.now ≤ length work.old }
    ensures { let s = lists.entry.start.now in
        let e = lists.entry.end.now in
        let m = length s in
        (result ≡ next (sampled_fault (law_values m fractions.first s e)) (sampled_fault (law_values m fractions.second s e)))
        × (work.new ≡ put at (law_pairs m fractions.first fractions.second s e) work.old) }
{
    if value_pairs(lists, fractions, work, at, |x, y| float::both_finite(x, y)) {
        return Ok(());
    }
    check_values(lists, fractions.first, |value| check_value(value))?;
    check_values(lists, fractions.second, |value| check_value(value))
}
