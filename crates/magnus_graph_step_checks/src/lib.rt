// The chains of checks of a step of order 4 (the validations of the drivers in magnus_graph.rs and magnus_graph_adjoint.rs), in document 01's order.
// Every function answers what its definition in magnus_graph_faults' specs/StepChecks.antt says, for all inputs.
// The parameters are those of the call that is checked.
#![tactic(auto)]

ghost use Rattle.std.specs.Prelude.{◌≡◌};
ghost use Rattle.magnus_graph_faults.specs.StepChecks.{sample_of, samples_fault, step_fault};

use error::Refusal;
use graph_checks::{CsrParts, from_csr_parts};
use magnus_graph_checks::{
    Lengths, SpectralBound, check_bound, check_lengths, check_room, check_step_length,
};

// Rows 6 and 1 to 5 of both samples, one wholly before the next.
pub fn check_samples(first: CsrParts<'_>, second: CsrParts<'_>) -> Result<(), Refusal>
    ensures { result ≡ samples_fault
        (sample_of first.entry)
        (sample_of second.entry) }
{
    from_csr_parts(first)?;
    from_csr_parts(second)
}

// All checks of an unweighted step.
pub fn check_step(
    first: CsrParts<'_>,
    second: CsrParts<'_>,
    tau: f64,
    bound: SpectralBound,
    lengths: Lengths,
) -> Result<(), Refusal>
    ensures { result ≡ step_fault
        (sample_of first.entry)
        (sample_of second.entry)
        tau bound.rho_bar_max bound.convergence_radius_check
        lengths.signal lengths.output lengths.work }
{
    check_samples(first, second)?;
    check_bound(bound.rho_bar_max)?;
    check_step_length(tau, bound)?;
    check_lengths(first.n, second.n, lengths)?;
    check_room(lengths.work, 5 * first.n)
}
