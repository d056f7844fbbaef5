// The numbers of a job, and the step that its map selects.
ghost use Rattle.std.specs.Prelude.{◌≡◌};
ghost use Rattle.job_format.specs.JobFormat.{job_tau, job_bound, job_root_bound, job_of};

use super::{Job, real_at};
use job_checks::Field;

impl<'a> Job<'a> {
    // τ.
    #[tactic(auto, unfolding(crate::specs::JobFormat::job_tau))]
    pub fn tau(&self) -> f64
        ensures { result ≡ job_tau self.now }
    {
        real_at(self.bytes, self.start(Field::Tau))
    }

    // The spectral bound, or 1.
    #[tactic(auto, unfolding(crate::specs::JobFormat::job_bound))]
    pub fn bound(&self) -> f64
        ensures { result ≡ job_bound self.now }
    {
        if self.has(Field::Bound) {
            return real_at(self.bytes, self.start(Field::Bound));
        }
        1.0
    }

    // The root bound, before the weights.
    #[tactic(auto, unfolding(crate::specs::JobFormat::job_root_bound))]
    pub fn root_bound(&self) -> f64
        ensures { result ≡ job_root_bound self.now }
    {
        real_at(self.bytes, self.start(Field::Weights))
    }

    // Whether row 8 is checked.
    pub fn is_checked(&self) -> bool
        ensures { result ≡ (job_of self.now).checked }
    {
        self.has(Field::Bound)
    }

    // Whether the job asks for the step of order 6.
    pub fn is_order6(&self) -> bool
        ensures { result ≡ (job_of self.now).order6 }
    {
        self.has(Field::Values3)
    }

    // Whether it asks for the weighted step of order 4.
    pub fn is_weighted(&self) -> bool
        ensures { result ≡ (job_of self.now).weighted }
    {
        self.has(Field::Weights)
    }

    // Whether it asks for the adjoint step.
    pub fn is_adjoint(&self) -> bool
        ensures { result ≡ (job_of self.now).adjoint }
    {
        self.has(Field::Adjoint)
    }
}
