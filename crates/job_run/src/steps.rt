// The steps, for jobs whose bytes have been checked.
ghost use Rattle.std.specs.Prelude.{◌≡◌};
ghost use Rattle.scratch.specs.Parts.{zeros};
ghost use Rattle.magnus_graph_faults.specs.StepChecks.{sample_of};
ghost use Rattle.magnus_graph_outcome.specs.StepOutcome.{step_answer, step_output};
ghost use Rattle.varcoef_magnus_graph_outcome.specs.StepOutcome.{step_answer as weighted_answer, step_output as weighted_output};
ghost use Rattle.magnus6_graph_outcome.specs.StepOutcome.{step6_answer, step6_output};
ghost use Rattle.job_format.specs.JobFormat.{job_of};
ghost use Rattle.job_step.specs.JobOutcome.{with_values, job_sign, job_step, job_weighted_step, job_step6, job_step_answer, job_step_output};
ghost use Rattle.job_step.specs.Stepped.{Small, Fields, Numbers, Taken};
ghost use Rattle.job_answer.specs.AnswerText.{AnswerText};

use error::Refusal;
use graph_checks::CsrParts;
use job_answer::kernel::answer_text;
use job_checks::Field;
use job_format::kernel::Job;
use job_format::{MOST_ENTRIES, MOST_NODES};
use job_text_numbers::kernel::{TEXT, Text};
use magnus_graph::{SpectralBound, apply_exp_omega4_adj_kernel, apply_exp_omega4_kernel};
use magnus6_graph::apply_exp_omega6_kernel;
use varcoef_magnus_graph::{
    NodeWeights, apply_exp_omega4_la_adj_kernel, apply_exp_omega4_la_kernel,
};

// A job that the arrays have room for, with its numbers, and those of its lists that every step takes.
#[derive(Drop)]
pub struct JobStep<'a> {
    pub job: Job<'a>,
    pub tau: f64,
    pub bound: SpectralBound,
    pub root_bound: f64,
    pub adjoint: bool,
    pub row_ptr: &'a [usize],
    pub col_idx: &'a [u32],
    pub vals1: &'a [f64],
    pub vals2: &'a [f64],
    pub src: &'a [f64],
    pub ghost small: { Small job },
    pub ghost numbers: { Numbers (job_of job) tau bound.rho_bar_max root_bound bound.convergence_radius_check adjoint },
    pub ghost fields: { Fields (job_of job) row_ptr.now col_idx.now vals1.now vals2.now src.now },
}

impl<'a> JobStep<'a> {
    // The text of the step that the map selects.
    pub fn text(&self) -> Text<TEXT>
        ensures { let job = job_of self.now.job in AnswerText (job_step_answer job) (job_step_output job) result }
    {
        let mut output = [0.0; MOST_NODES];
        let dst = &mut output[..self.job.nodes()];
        let answer = self.step(dst);
        answer_text(answer, dst)
    }

    // The step that the map selects. An enum of the three steps would be made by these same tests and matched once, here. Each takes an output of
    // n zeros: a struct of it with that fact would be made once, in `text`, and be taken apart in each of them.
    fn step(&self, dst: &mut [f64]) -> Result<(), Refusal>
        requires { let job = job_of self.now.job in dst.old ≡ zeros job.nodes }
        ensures { let job = job_of self.now.job in Taken result (job_step_answer job) dst.new (job_step_output job) }
    {
        if self.job.is_order6() {
            return self.order6(dst);
        }
        if self.job.is_weighted() {
            return self.weighted(dst);
        }
        self.unweighted(dst)
    }

    // The parts of a sample: the job's pattern, with these values.
    fn sample<'v>(&'v self, vals: &'v [f64]) -> CsrParts<'v>
        ensures { sample_of result ≡ with_values (job_of self.now.job) vals.now }
    {
        CsrParts {
            n: self.job.nodes(),
            row_ptr: self.row_ptr,
            col_idx: self.col_idx,
            vals,
        }
    }

    // The unweighted step of order 4. The adjoint step is an exported function of its own: a closure that calls one or the other would only move
    // the test of the bit.
    fn unweighted(&self, dst: &mut [f64]) -> Result<(), Refusal>
        requires { let job = job_of self.now.job in dst.old ≡ zeros job.nodes }
        ensures { let job = job_of self.now.job in
            Taken result (step_answer (job_sign job) (job_step job)) dst.new (step_output (job_sign job) (job_step job)) }
    {
        let JobStep {
            tau,
            bound,
            src,
            ..
        } = *self;
        let first = self.sample(self.vals1);
        let second = self.sample(self.vals2);
        let mut space = [0.0; 5 * MOST_NODES];
        let work = &mut space[..5 * self.job.nodes()];
        if self.adjoint {
            apply_exp_omega4_adj_kernel(first, second, tau, bound, src, dst, work)
        } else {
            apply_exp_omega4_kernel(first, second, tau, bound, src, dst, work)
        }
    }

    // The weighted step of order 4, forward or adjoint as the unweighted.
    fn weighted(&self, dst: &mut [f64]) -> Result<(), Refusal>
        requires { let job = job_of self.now.job in dst.old ≡ zeros job.nodes }
        ensures { let job = job_of self.now.job in
            Taken result (weighted_answer (job_sign job) (job_weighted_step job)) dst.new
            (weighted_output (job_sign job) (job_weighted_step job)) }
    {
        let JobStep {
            tau,
            bound,
            root_bound,
            src,
            ..
        } = *self;
        let n = self.job.nodes();
        let mut weights1 = [0.0; MOST_NODES];
        let a1 = &mut weights1[..n];
        let mut weights2 = [0.0; MOST_NODES];
        let a2 = &mut weights2[..n];
        self.job.read_weights(a1, a2);
        let weights = NodeWeights {
            a_sup_max: root_bound,
            first: a1,
            second: a2,
        };
        let first = self.sample(self.vals1);
        let second = self.sample(self.vals2);
        let mut space = [0.0; 9 * MOST_NODES];
        let work = &mut space[..9 * n];
        if self.adjoint {
            apply_exp_omega4_la_adj_kernel(first, second, tau, bound, weights, src, dst, work)
        } else {
            apply_exp_omega4_la_kernel(first, second, tau, bound, weights, src, dst, work)
        }
    }

    // The step of order 6.
    fn order6(&self, dst: &mut [f64]) -> Result<(), Refusal>
        requires { let job = job_of self.now.job in dst.old ≡ zeros job.nodes }
        ensures { let s = job_step6 (job_of self.now.job) in Taken result (step6_answer s) dst.new (step6_output s) }
    {
        let JobStep {
            tau,
            bound,
            src,
            ..
        } = *self;
        let mut values = [0.0; MOST_ENTRIES];
        let vals3 = &mut values[..self.job.entries()];
        self.job.read_values(Field::Values3, vals3);
        let first = self.sample(self.vals1);
        let second = self.sample(self.vals2);
        let third = self.sample(vals3);
        let mut space = [0.0; 22 * MOST_NODES];
        let work = &mut space[..22 * self.job.nodes()];
        apply_exp_omega6_kernel(first, second, third, tau, bound, src, dst, work)
    }
}
