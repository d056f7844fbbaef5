// Steps of order 4 (magnus_graph.rs, magnus_graph_helpers.rs, magnus_graph_adjoint.rs; 01, parts 6 and 8). A step takes two samples, each
// with its own n, row starts, columns and values.
// The parameters are those of the Rust's call and of the C interface's: a struct of some of them would be made at each call to be taken apart here.
#![tactic(auto)]

ghost use Rattle.magnus_graph_faults.specs.StepChecks.{sample_of};
ghost use Rattle.magnus_graph_outcome.specs.StepOutcome.{step_input, Stepped, forward, adjoint};

use error::Refusal;
use graph_checks::CsrParts;
use graph_rows::kernel::Sample;
// what a caller says of the samples' spectra, from here too
pub use magnus_graph_checks::SpectralBound;
use magnus_graph_checks::{Lengths, binary64_values};
use magnus_graph_helpers::factors::Factors;
use magnus_graph_step::kernel::step4;
use magnus_graph_step_checks::check_step;
use magnus_graph_term::kernel::Omega4;

// The literal for √3/12 of the unweighted steps; its bits are those of sqrt3_over12 in
// magnus_graph_outcome's specs/Omega4.antt.
pub const SQRT3_OVER_12_F64: f64 = 0.144_337_567_297_406_433;

// The forward step: dst becomes exp(Ω)·src by the Taylor sum of degree 4. Refused by rows 6 and 1 to 5 of each sample, 9, 7, 8, and 10 for the
// second n, src, dst and work, whose need is 5n; a refusal leaves every slice as it was. Accepted, the first 5n elements of work become +0.
pub fn apply_exp_omega4_kernel(
    first: CsrParts<'_>,
    second: CsrParts<'_>,
    tau: f64,
    bound: SpectralBound,
    src: &[f64],
    dst: &mut [f64],
    work: &mut [f64],
) -> Result<(), Refusal>
    ensures { Stepped forward (step_input
        (sample_of first.entry)
        (sample_of second.entry)
        tau bound.rho_bar_max bound.convergence_radius_check src.now dst.old work.old)
        result dst.new work.new }
{
    step(1.0, first, second, tau, bound, src, dst, work)
}

// The adjoint step: the same with the commutator's sign reversed. The C interface has a call of its own for it.
pub fn apply_exp_omega4_adj_kernel(
    first: CsrParts<'_>,
    second: CsrParts<'_>,
    tau: f64,
    bound: SpectralBound,
    src: &[f64],
    dst: &mut [f64],
    work: &mut [f64],
) -> Result<(), Refusal>
    ensures { Stepped adjoint (step_input
        (sample_of first.entry)
        (sample_of second.entry)
        tau bound.rho_bar_max bound.convergence_radius_check src.now dst.old work.old)
        result dst.new work.new }
{
    step(-1.0, first, second, tau, bound, src, dst, work)
}

// The step with the commutator's sign.
fn step(
    sign: f64,
    first: CsrParts<'_>,
    second: CsrParts<'_>,
    tau: f64,
    bound: SpectralBound,
    src: &[f64],
    dst: &mut [f64],
    work: &mut [f64],
) -> Result<(), Refusal>
    ensures { Stepped sign (step_input
        (sample_of first.entry)
        (sample_of second.entry)
        tau bound.rho_bar_max bound.convergence_radius_check src.now dst.old work.old)
        result dst.new work.new }
{
    let lengths = Lengths::of(src, dst, work);
    let checked = check_step(first, second, tau, bound, lengths);
    let Ok(()) = checked else {
        return checked;
    };
    binary64_values(first.vals);
    binary64_values(second.vals);
    let factors = Factors {
        tau,
        sign,
        s: SQRT3_OVER_12_F64,
    };
    let omega = Omega4 {
        first: Sample::from_parts(first),
        second: Sample::from_parts(second),
        factors,
    };
    step4(omega, src, dst, work);
    Ok(())
}
