// The step of order 6 (magnus6_graph.rs, magnus6_graph_helpers.rs; 01, part 9). It takes three samples, each with its own n, row starts,
// columns and values.
// The parameters are those of the Rust's call and of the C interface's: a struct of some of them would be made at each call to be taken apart here.
#![tactic(auto)]

ghost use Rattle.magnus_graph_faults.specs.StepChecks.{sample_of};
ghost use Rattle.magnus6_graph_outcome.specs.StepOutcome.{step6_input, Stepped6};

use error::Refusal;
use graph_checks::CsrParts;
use graph_rows::kernel::Sample;
// what a caller says of the samples' spectra, from here too
pub use magnus_graph_checks::SpectralBound;
use magnus_graph_checks::{Lengths, binary64_values};
use magnus6_graph_checks::check_step6;
use magnus6_graph_helpers::kernel::step6;

// The step: dst becomes exp(Ω)·src by the Taylor sum of degree 6. Refused by rows 6 and 1 to 5 of each sample, 9, 7, 8, and 10 for the second
// n, the third n, src, dst and work, whose need is 22n; a refusal leaves every slice as it was. Accepted, the first 22n elements of work
// become +0. The parameters are those of the Rust's function and of the C call; what of them belongs together, the parts of a sample and the bound, is
// one each.
pub fn apply_exp_omega6_kernel(
    first: CsrParts<'_>,
    second: CsrParts<'_>,
    third: CsrParts<'_>,
    tau: f64,
    bound: SpectralBound,
    src: &[f64],
    dst: &mut [f64],
    work: &mut [f64],
) -> Result<(), Refusal>
    ensures { Stepped6 (step6_input
        (sample_of first.entry)
        (sample_of second.entry)
        (sample_of third.entry)
        tau bound.rho_bar_max bound.convergence_radius_check src.now dst.old work.old)
        result dst.new work.new }
{
    let lengths = Lengths::of(src, dst, work);
    let checked = check_step6(first, second, third, tau, bound, lengths);
    let Ok(()) = checked else {
        return checked;
    };
    binary64_values(first.vals);
    binary64_values(second.vals);
    binary64_values(third.vals);
    step6(
        Sample::from_parts(first),
        Sample::from_parts(second),
        Sample::from_parts(third),
        tau,
        src,
        dst,
        work,
    );
    Ok(())
}
