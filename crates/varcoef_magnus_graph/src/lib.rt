// Steps of order 4 on graphs with node weights (varcoef_magnus_graph.rs; 01, parts 7 and 8): a step takes two samples, each with its own n, row
// starts, columns and values, and the weights of the nodes at the two sample times.
// The parameters are those of the Rust's call and of the C interface's: a struct of some of them would be made at each call to be taken apart here.
#![tactic(auto)]

ghost use Rattle.magnus_graph_outcome.specs.StepOutcome.{forward, adjoint};
ghost use Rattle.magnus_graph_faults.specs.StepChecks.{sample_of};
ghost use Rattle.varcoef_magnus_graph_outcome.specs.StepOutcome.{step_input, Stepped};

use error::Refusal;
use graph_checks::CsrParts;
use graph_rows::kernel::Sample;
// what a caller says of the samples' spectra, from here too
pub use magnus_graph_checks::SpectralBound;
use magnus_graph_checks::{Lengths, binary64_values};
use magnus_graph_helpers::factors::Factors;
// what a caller lends of the nodes' weights, from here too
pub use varcoef_magnus_graph_checks::NodeWeights;
use varcoef_magnus_graph_step::kernel::step4_la;
use varcoef_magnus_graph_step_checks::check_weighted_step;

// The literal for √3/12 of the weighted steps; its bits are those of sqrt3_over12 in
// varcoef_magnus_graph_outcome's specs/WeightedOmega4.antt.
pub const SQRT3_OVER_12_F64: f64 = 0.144_337_567_297_406_45;

// The forward step: dst becomes exp(Ω)·src by the Taylor sum of degree 4. Refused by rows 6 and 1 to 5 of each sample, 9, 12, 7, 8, 10 for the
// second n, src, dst, the weights and work, whose need is 9n, and 11; a refusal leaves every slice as it was. Accepted, the first 9n elements
// of work become +0.
pub fn apply_exp_omega4_la_kernel(
    first: CsrParts<'_>,
    second: CsrParts<'_>,
    tau: f64,
    bound: SpectralBound,
    weights: NodeWeights<'_>,
    src: &[f64],
    dst: &mut [f64],
    work: &mut [f64],
) -> Result<(), Refusal>
    ensures { Stepped forward (step_input
        (sample_of first.entry)
        (sample_of second.entry)
        tau bound.rho_bar_max weights.entry.a_sup_max bound.convergence_radius_check
        weights.entry.first.now weights.entry.second.now src.now dst.old work.old)
        result dst.new work.new }
{
    step(1.0, first, second, tau, bound, weights, src, dst, work)
}

// The adjoint step: the same with the commutator's sign reversed. The C interface has a call of its own for it.
pub fn apply_exp_omega4_la_adj_kernel(
    first: CsrParts<'_>,
    second: CsrParts<'_>,
    tau: f64,
    bound: SpectralBound,
    weights: NodeWeights<'_>,
    src: &[f64],
    dst: &mut [f64],
    work: &mut [f64],
) -> Result<(), Refusal>
    ensures { Stepped adjoint (step_input
        (sample_of first.entry)
        (sample_of second.entry)
        tau bound.rho_bar_max weights.entry.a_sup_max bound.convergence_radius_check
        weights.entry.first.now weights.entry.second.now src.now dst.old work.old)
        result dst.new work.new }
{
    step(-1.0, first, second, tau, bound, weights, src, dst, work)
}

// The step with the commutator's sign.
fn step(
    sign: f64,
    first: CsrParts<'_>,
    second: CsrParts<'_>,
    tau: f64,
    bound: SpectralBound,
    weights: NodeWeights<'_>,
    src: &[f64],
    dst: &mut [f64],
    work: &mut [f64],
) -> Result<(), Refusal>
    ensures { Stepped sign (step_input
        (sample_of first.entry)
        (sample_of second.entry)
        tau bound.rho_bar_max weights.entry.a_sup_max bound.convergence_radius_check
        weights.entry.first.now weights.entry.second.now src.now dst.old work.old)
        result dst.new work.new }
{
    let lengths = Lengths::of(src, dst, work);
    let checked = check_weighted_step(first, second, tau, bound, weights, lengths);
    let Ok(()) = checked else {
        return checked;
    };
    binary64_values(first.vals);
    binary64_values(second.vals);
    binary64_values(weights.first);
    binary64_values(weights.second);
    let factors = Factors {
        tau,
        sign,
        s: SQRT3_OVER_12_F64,
    };
    step4_la(
        Sample::from_parts(first),
        Sample::from_parts(second),
        weights.first,
        weights.second,
        factors,
        src,
        dst,
        work,
    );
    Ok(())
}
