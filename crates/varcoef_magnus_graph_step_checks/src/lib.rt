// All checks of a weighted step of order 4 (the validation of the driver in varcoef_magnus_graph.rs), in document 01's order. It answers what its
// definition in varcoef_magnus_graph_faults' specs/WeightedStepChecks.antt says, for all inputs.
// The parameters are those of the call that is checked.
#![tactic(auto)]

ghost use Rattle.std.specs.Prelude.{◌≡◌};
ghost use Rattle.magnus_graph_faults.specs.StepChecks.{sample_of};
ghost use Rattle.varcoef_magnus_graph_faults.specs.WeightedStepChecks.{weighted_step_fault};

use error::Refusal;
use graph_checks::CsrParts;
use magnus_graph_checks::{Lengths, SpectralBound, check_lengths, check_room, check_step_length};
use magnus_graph_step_checks::check_samples;
use varcoef_magnus_graph_checks::{
    NodeWeights, check_weighted_bounds, check_weights, check_weights_length, weighted_spectra,
};

// All checks of a weighted step. Row 8 is tested with the bound of the weighted samples' spectra.
pub fn check_weighted_step(
    first: CsrParts<'_>,
    second: CsrParts<'_>,
    tau: f64,
    bound: SpectralBound,
    weights: NodeWeights<'_>,
    lengths: Lengths,
) -> Result<(), Refusal>
    ensures { result ≡ weighted_step_fault
        (sample_of first.entry)
        (sample_of second.entry)
        tau bound.rho_bar_max weights.entry.a_sup_max bound.convergence_radius_check
        lengths.signal lengths.output weights.entry.first.now weights.entry.second.now lengths.work }
{
    check_samples(first, second)?;
    let a_sup_max = weights.a_sup_max;
    check_weighted_bounds(bound.rho_bar_max, a_sup_max, first.n)?;
    let weighted = weighted_spectra(bound, a_sup_max);
    check_step_length(tau, weighted)?;
    check_lengths(first.n, second.n, lengths)?;
    check_weights_length(first.n, weights.first.len(), weights.second.len())?;
    check_room(lengths.work, 9 * first.n)?;
    check_weights(weights.first, weights.second)
}
