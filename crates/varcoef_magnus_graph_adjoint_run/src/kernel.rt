// The steps of a weighted adjoint run, one after the other (01, parts 7, 8 and 10), for callers that have checked their arguments. The
// held signal is the vector at 0 of the work slice.
ghost use Rattle.std.specs.Prelude.{◌≡◌, map, ◌+◌, ◌*◌, ◌≤◌, ◌<◌, length};
ghost use Rattle.std.specs.Float.{binary64};
ghost use Rattle.rounding.specs.StepLength.{minus_half};
ghost use Rattle.arithmetic.specs.Arithmetic.{ieee};
ghost use Rattle.scratch.specs.Parts.{part, put};
ghost use Rattle.ieee_square_root.specs.SquareRoot.{square_root};
ghost use Rattle.graph_rows.specs.Product.{product_of};
ghost use Rattle.magnus.specs.Coefficients.{reciprocal_factorial};
ghost use Rattle.magnus_graph_helpers.specs.Terms.{TermsAdded};
ghost use Rattle.varcoef_magnus_graph_taylor_term.specs.WeightedOmega4.{weighted_omega4};
ghost use Rattle.magnus_graph_outcome.specs.StepOutcome.{adjoint};
ghost use Rattle.varcoef_magnus_graph_faults.specs.WeightedStepChecks.{weight_fault};
ghost use Rattle.graph_traj_parts.specs.Trajectory.{trajectory_of, AcceptedAdjointTrajectory};
ghost use Rattle.magnus_graph_traj_steps.specs.RunSteps.{segment_steps, adjoint_course};
ghost use Rattle.varcoef_magnus_graph_traj_step.specs.StepTaken.{step_image};
ghost use Rattle.magnus_graph_traj_steps.specs.StepsTaken.{StepsTaken};
ghost use Rattle.varcoef_magnus_graph_traj_steps.specs.SampledSteps.{sampled_step_fault, sampled_step_image};
ghost use Rattle.varcoef_magnus_graph_traj_steps.specs.WeightedRunSteps.{weighted_run_step_fault, weighted_run_step_image};

use error::Refusal;
use graph_pairs::paired::Pair;
use graph_rows::kernel::{Pattern, Sample};
use graph_traj_laws::kernel::EndLists;
use graph_traj_parts::Trajectory;
use graph_traj_segment::kernel::Segment;
use magnus_graph_helpers::factors::Factors;
use magnus_graph_taylor::kernel::taylor_sum;
use square_roots::kernel::sqrt_into_slice;
use varcoef_magnus_graph::SQRT3_OVER_12_F64;
use varcoef_magnus_graph_checks::{NodeWeights, check_sample_weights};
use varcoef_magnus_graph_products::kernel::WeightedSample;
use varcoef_magnus_graph_traj_constant::kernel::ConstantWeightedOmega4;
use varcoef_magnus_graph_traj_step::kernel::{SegmentLists, sampled_step};

// All steps in a segment of law 2, the last first; the loop stops at the first step that refuses.
fn sampled_steps(
    lists: SegmentLists<'_>,
    first: Segment,
    steps: usize,
    work: &mut [f64],
) -> Result<(), Refusal>
    requires room { 11 * lists.pattern.n + 2 * length lists.pattern.col_idx.now ≤ length work.old }
    requires first_step { first.step ≡ 0 }
    ensures { let l = lists.entry in
        let p = l.pattern in
        let v = l.values in
        let a = l.weights in
        StepsTaken
        (sampled_step_fault p.n p.row_ptr.now p.col_idx.now v.start.now v.end.now
        a.start.now a.end.now first.start first.end first.tau steps)
        (sampled_step_image p.n p.row_ptr.now p.col_idx.now v.start.now v.end.now
        a.start.now a.end.now first.start first.end first.tau steps)
        p.n (11 * p.n + 2 * length p.col_idx.now) (segment_steps 0 steps) result work.old work.new }
{
    let mut segment = first;
    for _ in 0..steps {
        let t_start = segment.adjoint_step_start(steps);
        let fractions = Pair {
            first: segment.fraction(segment.first_sample(t_start)),
            second: segment.fraction(segment.second_sample(t_start)),
        };
        sampled_step(lists, segment.tau, fractions, work)?;
        segment = segment.next();
    }
    Ok(())
}

// The Taylor sum of a step with one list for both samples, whose roots lie at 6n of the work slice and are kept.
fn constant_taylor4(sample: Sample<'_>, factors: Factors, work: &mut [f64])
    requires { 7 * sample.pattern.n ≤ length work.old }
    ensures { let w = work.old in
        let n = sample.entry.pattern.n in
        let L = product_of sample.entry in
        let r = part (6 * n) n w in
        TermsAdded (ieee binary64) n (6 * n) (reciprocal_factorial binary64) 4
        (weighted_omega4 (ieee binary64) n minus_half factors.s factors.sign factors.tau L L r r) w work.new }
{
    let n = sample.pattern.n;
    let (vectors, roots) = work.split_at_mut(6 * n);
    let omega = ConstantWeightedOmega4 {
        both: WeightedSample {
            sample,
            roots: &roots[..n],
        },
        factors,
    };
    taylor_sum(&omega, 4, vectors);
}

// The vector at `at` becomes the square roots of the weights.
fn load_roots(weights: &[f64], work: &mut [f64], at: usize)
    requires { at + length weights.now ≤ length work.old }
    ensures { work.new ≡ put at (map (square_root binary64) weights.now) work.old }
{
    sqrt_into_slice(weights, &mut work[at..at + weights.len()]);
}

// All steps in a segment of law 0 or 1: both samples have the values vals and the weights a, whose roots are taken once.
fn constant_steps(
    sample: Sample<'_>,
    a: &[f64],
    tau: f64,
    steps: usize,
    work: &mut [f64],
) -> Result<(), Refusal>
    requires a_len { (length a.now ≡ sample.pattern.n) × (0 < steps) }
    requires room { 11 * sample.pattern.n + 2 * length sample.pattern.col_idx.now ≤ length work.old }
    ensures { let p = sample.entry.pattern in
        let x = sample.entry.vals.now in
        let w = a.now in
        StepsTaken (λ s. weight_fault w w) (λ s. step_image p.n p.row_ptr.now p.col_idx.now tau x x w w)
        p.n (11 * p.n + 2 * length p.col_idx.now) (segment_steps 0 steps) result work.old work.new }
{
    check_sample_weights(a)?;
    load_roots(a, work, 6 * sample.pattern.n);
    let factors = Factors {
        tau,
        sign: -1.0,
        s: SQRT3_OVER_12_F64,
    };
    for _ in 0..steps {
        constant_taylor4(sample, factors, work);
    }
    Ok(())
}

// A trajectory and the weights at the start and at the end of its one segment, whose checks have accepted: what the steps of a run take.
#[derive(Clone, Copy)]
pub struct CheckedWeightedTrajectory<'a> {
    pub parts: Trajectory<'a>,
    pub weights: NodeWeights<'a>,
    pub ghost accepted: { AcceptedAdjointTrajectory (trajectory_of parts) },
    pub ghost weights_len: { (length weights.first.now ≡ parts.n) × (length weights.second.now ≡ parts.n) },
}

// All steps of the run, by the law of its segment: steps of law 2 sample their lists anew, and those of the other laws have one list and roots that are
// taken once. A closure for the steps would only move the test of the law.
pub fn run_steps(
    along: CheckedWeightedTrajectory<'_>,
    tau: f64,
    steps: usize,
    work: &mut [f64],
) -> Result<(), Refusal>
    requires { (0 < steps) × (11 * along.parts.n + 2 * length along.parts.col_idx.now ≤ length work.old) }
    ensures { let t = trajectory_of along.entry.parts in
        let a = along.entry.weights in
        let course = adjoint_course tau steps in
        StepsTaken (weighted_run_step_fault t a.first.now a.second.now course)
        (weighted_run_step_image t a.first.now a.second.now course adjoint)
        t.nodes (11 * t.nodes + 2 * length t.cols) course.steps result work.old work.new }
{
    let Trajectory {
        n,
        row_ptr,
        col_idx,
        breakpoints,
        starts,
        ends,
        laws,
        ..
    } = along.parts;
    let pattern = Pattern {
        n,
        row_ptr,
        col_idx,
    };
    let values = EndLists {
        start: starts,
        end: ends,
    };
    let weights = EndLists {
        start: along.weights.first,
        end: along.weights.second,
    };
    let law = laws[0];
    if law == 2 {
        let lists = SegmentLists {
            pattern,
            values,
            weights,
        };
        let first = Segment::with_tau(breakpoints[0], breakpoints[1], tau);
        return sampled_steps(lists, first, steps, work);
    }
    let vals = values.law_list(law);
    let a = weights.law_list(law);
    constant_steps(Sample { pattern, vals }, a, tau, steps, work)
}
