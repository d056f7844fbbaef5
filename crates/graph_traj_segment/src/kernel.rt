// The times of a run's steps, for callers that have checked the trajectory.
ghost use Rattle.std.specs.Prelude.{◌≡◌, ◌+◌, ◌<◌, ◌^◌};
ghost use Rattle.graph_traj_segment.specs.SegmentValue.{segment_with, segment_of, next_step};
ghost use Rattle.graph_traj_segment.specs.Times.{c1, c2, step_start, adjoint_step_start, sample_time, fraction};

use std::num::nearest_usize_to_f64;

// A segment of a run: where it starts and ends, the step length tau and the number of the step that comes next.
#[derive(Clone, Copy)]
pub struct Segment {
    pub start: f64,
    pub end: f64,
    pub tau: f64,
    pub step: usize,
}

impl Segment {
    // The Gauss nodes of a step, about (3 - √3)/6 and (3 + √3)/6, and √3/12 of the unweighted steps: the literals of magnus_graph.rs. 01 asks for all
    // three as constants of this type; the unweighted steps, which also take place outside of a run, have √3/12 from the crate magnus_graph.
    pub const GL4_C1_F64: f64 = 0.211_324_865_405_187_134;

    pub const GL4_C2_F64: f64 = 0.788_675_134_594_812_866;

    pub const SQRT3_OVER_12_F64: f64 = 0.144_337_567_297_406_433;

    // The segment of a forward run, before its first step: tau is (end - start)/steps.
    #[tactic(auto, unfolding(crate::specs::Times::segment_tau))]
    pub fn new(start: f64, end: f64, steps: usize) -> Self
        ensures { result ≡ segment_of start end steps }
    {
        Self {
            start,
            end,
            tau: (end - start) / nearest_usize_to_f64(steps),
            step: 0,
        }
    }

    // The segment of an adjoint run, before its first step: tau is given.
    pub fn with_tau(start: f64, end: f64, tau: f64) -> Self
        ensures { result ≡ segment_with start end tau }
    {
        Self {
            start,
            end,
            tau,
            step: 0,
        }
    }

    // Where the step starts in a forward run: start + step * tau.
    #[tactic(auto, unfolding(crate::specs::Times::step_start))]
    pub fn step_start(self) -> f64
        ensures { result ≡ step_start self.start self.tau self.step }
    {
        self.start + nearest_usize_to_f64(self.step) * self.tau
    }

    // Where the step starts in an adjoint run of so many steps: (steps - 1 - step) * tau.
    #[tactic(auto, unfolding(crate::specs::Times::adjoint_step_start))]
    pub fn adjoint_step_start(self, steps: usize) -> f64
        requires { self.step < steps }
        ensures { result ≡ adjoint_step_start self.tau steps self.step }
    {
        nearest_usize_to_f64(steps - 1 - self.step) * self.tau
    }

    // Where the first sample of a step lies that starts at t_start. A method for each sample, and none that takes the node: so no caller can ask for a
    // sample at another place than the two literals'.
    #[tactic(auto, unfolding(crate::specs::Times::sample_time))]
    pub fn first_sample(self, t_start: f64) -> f64
        ensures { result ≡ sample_time t_start c1 self.tau }
    {
        t_start + Self::GL4_C1_F64 * self.tau
    }

    // Where its second sample lies.
    #[tactic(auto, unfolding(crate::specs::Times::sample_time))]
    pub fn second_sample(self, t_start: f64) -> f64
        ensures { result ≡ sample_time t_start c2 self.tau }
    {
        t_start + Self::GL4_C2_F64 * self.tau
    }

    // How far t is on its way from the segment's start to its end, for law 2.
    #[tactic(auto, unfolding(crate::specs::Times::fraction))]
    pub fn fraction(self, t: f64) -> f64
        ensures { result ≡ fraction t self.start self.end }
    {
        (t - self.start) / (self.end - self.start)
    }

    // The segment before the step after this one.
    pub fn next(mut self) -> Self
        requires { self.step + 1 < 2 ^ 64 }
        ensures { result ≡ next_step self }
    {
        self.step = self.step + 1;
        self
    }
}
