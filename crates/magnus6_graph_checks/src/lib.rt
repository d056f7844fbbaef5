// The checks of the step of order 6 (magnus6_graph.rs): those of order 4, and of a third sample. Every function answers what
// its definition in magnus6_graph_faults' specs/Step6Checks.antt says, for all inputs. The samples, tau and the bound are parameters as in
// `magnus6_graph::apply_exp_omega6_kernel`, and in the definitions.
#![tactic(auto)]

ghost use Rattle.std.specs.Prelude.{◌≡◌};
ghost use Rattle.magnus_graph_faults.specs.StepChecks.{sample_of};
ghost use Rattle.magnus6_graph_faults.specs.Step6Checks.{samples6_fault, lengths6_fault, step6_fault};

use error::{Refusal, check_length};
use graph_checks::{CsrParts, from_csr_parts};
use magnus_graph_checks::{
    Lengths, SpectralBound, check_bound, check_lengths, check_room, check_step_length,
};
use magnus_graph_step_checks::check_samples;

// Rows 6 and 1 to 5 of the three samples of order 6, each wholly before the next.
pub fn check_samples6(
    first: CsrParts<'_>,
    second: CsrParts<'_>,
    third: CsrParts<'_>,
) -> Result<(), Refusal>
    ensures { result ≡ samples6_fault
        (sample_of first.entry)
        (sample_of second.entry)
        (sample_of third.entry) }
{
    check_samples(first, second)?;
    from_csr_parts(third)
}

// Row 10 for the second sample's n, the third sample's n, the signal and the output. The n are no part of `Lengths`, since a
// step of order 4 has two of them, this one three, and a run one.
pub fn check_lengths6(
    n: usize,
    second: usize,
    third: usize,
    lengths: Lengths,
) -> Result<(), Refusal>
    ensures { result ≡ lengths6_fault n second third lengths.signal lengths.output }
{
    check_length(second, n)?;
    check_lengths(n, third, lengths)
}

// All checks of a step of order 6.
pub fn check_step6(
    first: CsrParts<'_>,
    second: CsrParts<'_>,
    third: CsrParts<'_>,
    tau: f64,
    bound: SpectralBound,
    lengths: Lengths,
) -> Result<(), Refusal>
    ensures { result ≡ step6_fault
        (sample_of first.entry)
        (sample_of second.entry)
        (sample_of third.entry)
        tau bound.rho_bar_max bound.convergence_radius_check
        lengths.signal lengths.output lengths.work }
{
    check_samples6(first, second, third)?;
    check_bound(bound.rho_bar_max)?;
    check_step_length(tau, bound)?;
    check_lengths6(first.n, second.n, third.n, lengths)?;
    check_room(lengths.work, 22 * first.n)
}
