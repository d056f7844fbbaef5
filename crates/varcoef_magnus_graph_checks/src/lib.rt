// The checks of node weights (varcoef_magnus_graph.rs), one function for each row of document 01's table: rows 11 and 12 and the rows of the
// weights' lengths and bounds. Every function answers what its definition in varcoef_magnus_graph_faults' specs/WeightedStepChecks.antt says, for all inputs.
#![tactic(auto)]

ghost use Rattle.std.specs.Prelude.{◌≡◌, not};
ghost use Rattle.float.specs.All.{all};
ghost use Rattle.magnus_graph_faults.specs.StepChecks.{not_positive};
ghost use Rattle.varcoef_magnus_graph_faults.specs.WeightedStepChecks.{no_nodes_fault, weights_length_fault};
ghost use Rattle.varcoef_magnus_graph_faults.specs.WeightedStepChecks.{sample_weights_fault, weighted_bounds_fault};
ghost use Rattle.varcoef_magnus_graph_faults.specs.WeightedStepChecks.{weight_fault, weighted_bound};

use error::Refusal;
use magnus_graph_checks::{SpectralBound, check_bound, is_positive};

// What a caller lends of the nodes' weights: those at the two sample times of a step, or those at the start and at the end of a run's segment, and
// the bound of their square roots. Nothing of them has been checked.
#[derive(Clone, Copy)]
pub struct NodeWeights<'a> {
    pub a_sup_max: f64,
    pub first: &'a [f64],
    pub second: &'a [f64],
}

// What row 8 of a weighted form takes for the samples' spectra: the bound with the nodes' weights, whose roots have the bound a_sup_max.
pub fn weighted_spectra(bound: SpectralBound, a_sup_max: f64) -> SpectralBound
    ensures { (result.rho_bar_max ≡ weighted_bound bound.rho_bar_max a_sup_max)
        × (result.convergence_radius_check ≡ bound.convergence_radius_check) }
{
    SpectralBound {
        rho_bar_max: bound.rho_bar_max * a_sup_max * a_sup_max,
        ..bound
    }
}

// Row 12, of a weighted form: there are nodes.
pub fn check_nodes(n: usize) -> Result<(), Refusal>
    ensures { result ≡ no_nodes_fault n }
{
    if n == 0 {
        Err(Refusal::NoNodes(0))
    } else {
        Ok(())
    }
}

// Row 10, of the weights: both lists have n places. The larger length is named.
pub fn check_weights_length(n: usize, first: usize, second: usize) -> Result<(), Refusal>
    ensures { result ≡ weights_length_fault n first second }
{
    if (first == n) & (second == n) {
        Ok(())
    } else {
        Err(Refusal::Length(first.max(second)))
    }
}

// Whether every weight is finite and above 0, by one walk over all of them.
pub fn all_positive(weights: &[f64]) -> bool
    ensures { result ≡ all (λ w. not (not_positive w)) weights.now }
{
    let mut passed = true;
    for w in weights {
        passed = passed & is_positive(*w);
    }
    passed
}

// Row 11, of one sample's weights: every one is finite and above 0. Accepted weights cost one walk that only finds out
// whether there is a fault.
pub fn check_sample_weights(weights: &[f64]) -> Result<(), Refusal>
    ensures { result ≡ sample_weights_fault weights.now }
{
    if all_positive(weights) {
        return Ok(());
    }
    for w in weights {
        if !is_positive(*w) {
            return Err(Refusal::Weight(*w));
        }
    }
    Ok(())
}

// Row 9 for the spectral bound and the root bound, then row 12.
pub fn check_weighted_bounds(rho_bar_max: f64, a_sup_max: f64, n: usize) -> Result<(), Refusal>
    ensures { result ≡ weighted_bounds_fault rho_bar_max a_sup_max n }
{
    check_bound(rho_bar_max)?;
    check_bound(a_sup_max)?;
    check_nodes(n)
}

// Row 11 for both samples' weights, the first sample's wholly first.
pub fn check_weights(a1: &[f64], a2: &[f64]) -> Result<(), Refusal>
    ensures { result ≡ weight_fault a1.now a2.now }
{
    check_sample_weights(a1)?;
    check_sample_weights(a2)
}
