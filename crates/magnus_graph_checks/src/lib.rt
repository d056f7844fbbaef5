// The checks of the steps of order 4 (the validations of the drivers in magnus_graph.rs and magnus_graph_adjoint.rs), one function
// for each row of document 01's table or two. Every function answers what its definition in magnus_graph_faults'
// specs/StepChecks.antt says, for all inputs.
#![tactic(auto)]

ghost use Rattle.std.specs.Prelude.{◌≡◌, not, ℕ, T, get_or, length};
ghost use Rattle.std.specs.Float.{nan, binary64};
ghost use Rattle.std.specs.Float.Ieee.{fits};
ghost use Rattle.magnus_graph_faults.specs.StepChecks.{not_positive, bound_fault, tau_fault, radius_fault, room_fault};
ghost use Rattle.magnus_graph_faults.specs.StepChecks.{step_length_fault, lengths_fault};
ghost use Rattle.magnus_graph_checks.specs.Lengths.{lengths_of};

use error::{Refusal, check_length};

// π/2, with the bits 0x3FF921FB54442D18.
const FRAC_PI_2: f64 = 1.5707963267948966;

// What a caller says of the samples' spectra: each sample's has the bound rho_bar_max, and with convergence_radius_check a step too long for it is
// refused. Nothing of it has been checked. The flag is no Option of the bound: row 9 tests the bound where the flag is off too.
#[derive(Clone, Copy)]
pub struct SpectralBound {
    pub rho_bar_max: f64,
    pub convergence_radius_check: bool,
}

// How many elements a call's signal, its output and its work slice have. The number of nodes, which the checks compare them with, is no part of
// it: it is a sample's or a trajectory's own.
#[derive(Clone, Copy)]
pub struct Lengths {
    pub signal: usize,
    pub output: usize,
    pub work: usize,
}

impl Lengths {
    // Those of the slices that a call is lent.
    pub fn of(src: &[f64], dst: &[f64], work: &[f64]) -> Self
        ensures { result ≡ lengths_of (length src.now) (length dst.now) (length work.now) }
    {
        Self {
            signal: src.len(),
            output: dst.len(),
            work: work.len(),
        }
    }
}

// Whether x is finite and above 0.
pub fn is_positive(x: f64) -> bool
    ensures { result ≡ not (not_positive x) }
{
    (0.0 < x) & float::is_finite(x)
}

// Row 9, of one bound: it is finite and above 0.
pub fn check_bound(bound: f64) -> Result<(), Refusal>
    ensures { result ≡ bound_fault bound }
{
    if is_positive(bound) {
        Ok(())
    } else {
        Err(Refusal::Bound(bound))
    }
}

// Row 7: tau is finite and not below 0.
pub fn check_tau(tau: f64) -> Result<(), Refusal>
    ensures { result ≡ tau_fault tau }
{
    if !float::is_finite(tau) | (tau < 0.0) {
        Err(Refusal::Tau(tau))
    } else {
        Ok(())
    }
}

// Row 8: where the check is on, the bound times tau is not π/2 or more.
pub fn check_radius(tau: f64, bound: SpectralBound) -> Result<(), Refusal>
    ensures { result ≡ radius_fault bound.convergence_radius_check tau bound.rho_bar_max }
{
    if bound.convergence_radius_check & (bound.rho_bar_max * tau >= FRAC_PI_2) {
        Err(Refusal::Radius(tau, bound.rho_bar_max))
    } else {
        Ok(())
    }
}

// Row 10, of the work slice: it is no shorter than the need.
pub fn check_room(work: usize, need: usize) -> Result<(), Refusal>
    ensures { result ≡ room_fault work need }
{
    if work < need {
        Err(Refusal::Length(work))
    } else {
        Ok(())
    }
}

// Rows 7 and 8. The length of a step is no part of SpectralBound: the bound is one for all steps of a run, whose segments have a length each.
pub fn check_step_length(tau: f64, bound: SpectralBound) -> Result<(), Refusal>
    ensures { result ≡ step_length_fault tau bound.rho_bar_max bound.convergence_radius_check }
{
    check_tau(tau)?;
    check_radius(tau, bound)
}

// Row 10 for the second sample's n, the signal and the output.
pub fn check_lengths(n: usize, second: usize, lengths: Lengths) -> Result<(), Refusal>
    ensures { result ≡ lengths_fault n second lengths.signal lengths.output }
{
    check_length(second, n)?;
    check_length(lengths.signal, n)?;
    check_length(lengths.output, n)
}

// Does nothing, and promises what the type of a slice says of its values: each is a number of binary64. What a parameter's type says is given
// in the function's own proof where the parameter is a slice, and not where it is a struct with a slice in it, as the parts of a Laplacian are.
pub fn binary64_values(values: &[f64])
    ensures { (i : ℕ) → T (fits binary64 (get_or values.now i nan)) }
{}
