// One step of an unweighted run along a trajectory (01, part 10), for callers that have checked its arguments. The held signal lies at 0 of the
// work slice, and under law 2 pairs of the two samples' values at 7n; `magnus_graph_traj_terms::kernel` says what lies between them.
ghost use Rattle.std.specs.Prelude.{◌≡◌, true, ℕ, ◌+◌, ◌*◌, ◌≤◌, ◌<◌, length, get_or};
ghost use Rattle.std.specs.Float.{nan};
ghost use Rattle.std.specs.Float.Ieee.Scale.{finite};
ghost use Rattle.magnus_graph_outcome.specs.Omega4.{sqrt3_over12};
ghost use Rattle.magnus_graph_traj_step.specs.RunStepTaken.{RunStepTaken};

use error::Refusal;
use graph_pairs::paired::Pair;
use graph_rows::kernel::{Pattern, Sample};
use graph_traj_laws::kernel::EndLists;
use graph_traj_samples::kernel::sample;
use magnus_graph::SQRT3_OVER_12_F64;
use magnus_graph_helpers::factors::Factors;
use magnus_graph_taylor::kernel::taylor_sum;
use magnus_graph_traj_terms::kernel::{ConstantOmega4, sampled_taylor4};

// The step in a segment of law 2: both samples are taken and checked, the first one first, and then the sum is formed.
fn sampled_step(
    pattern: Pattern<'_>,
    lists: EndLists<'_>,
    fractions: Pair,
    factors: Factors,
    work: &mut [f64],
) -> Result<(), Refusal>
    requires literal { factors.s ≡ sqrt3_over12 }
    requires lists_len { length lists.start.now ≡ length pattern.col_idx.now }
    requires room { 7 * pattern.n + 2 * length pattern.col_idx.now ≤ length work.old }
    ensures { let p = pattern.entry in
        let l = lists.entry in
        RunStepTaken p.n p.row_ptr.now p.col_idx.now 2 l.start.now l.end.now 0
        factors.tau fractions.first fractions.second factors.sign result work.old work.new }
{
    sample(lists, fractions, work, 7 * pattern.n)?;
    sampled_taylor4(pattern, factors, work);
    Ok(())
}

// One step in a segment with these lists, by its law, with samples at two fractions of the way through the segment: the held signal, the
// vector at 0, becomes its successor unless row 20 refuses. Under laws 0 and 1 both samples are the caller's own list, finite and uncopied:
// other Ω, so that a closure for the step would only move the test of the law.
pub fn run_step(
    pattern: Pattern<'_>,
    law: u8,
    lists: EndLists<'_>,
    tau: f64,
    fractions: Pair,
    sign: f64,
    work: &mut [f64],
) -> Result<(), Refusal>
    requires law_bound { law ≤ 2 }
    requires lists_len { length lists.start.now ≡ length pattern.col_idx.now }
    requires by_index { ((i : ℕ) → i < length lists.start.now → finite (get_or lists.start.now i nan) ≡ true)
        × ((i : ℕ) → i < length lists.end.now → finite (get_or lists.end.now i nan) ≡ true) }
    requires room { 7 * pattern.n + 2 * length pattern.col_idx.now ≤ length work.old }
    ensures { let p = pattern.entry in
        let l = lists.entry in
        RunStepTaken p.n p.row_ptr.now p.col_idx.now law l.start.now l.end.now 0
        tau fractions.first fractions.second sign result work.old work.new }
{
    let factors = Factors {
        tau,
        sign,
        s: SQRT3_OVER_12_F64,
    };
    if law == 2 {
        return sampled_step(pattern, lists, fractions, factors, work);
    }
    let vals = lists.law_list(law);
    let omega = ConstantOmega4 {
        sample: Sample { pattern, vals },
        factors,
    };
    taylor_sum(&omega, 4, work);
    Ok(())
}
