// The calls of the steps.
use error::Refusal;
use magnus_graph::{apply_exp_omega4_adj_kernel, apply_exp_omega4_kernel};
use magnus6_graph::apply_exp_omega6_kernel;
use replay_step_fields::{Call, Step};
use varcoef_magnus_graph::{apply_exp_omega4_la_adj_kernel, apply_exp_omega4_la_kernel};

// What a step answers.
pub fn apply(step: Step<'_>, dst: &mut [f64], work: &mut [f64]) -> Result<(), Refusal> {
    let Step {
        first,
        second,
        tau,
        bound,
        call,
        src,
    } = step;
    match call {
        Call::Forward => apply_exp_omega4_kernel(first, second, tau, bound, src, dst, work),
        Call::Adjoint => apply_exp_omega4_adj_kernel(first, second, tau, bound, src, dst, work),
        Call::WeightedForward(weights) => apply_exp_omega4_la_kernel(
            first, second, tau, bound, weights, src, dst, work,
        ),
        Call::WeightedAdjoint(weights) => apply_exp_omega4_la_adj_kernel(
            first, second, tau, bound, weights, src, dst, work,
        ),
        Call::Order6(third) => apply_exp_omega6_kernel(
            first, second, third, tau, bound, src, dst, work,
        ),
    }
}
