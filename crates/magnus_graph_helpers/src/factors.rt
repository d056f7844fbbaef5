// The factors of Ω of order 4.
ghost use Rattle.std.specs.Prelude.{◌≡◌};
ghost use Rattle.magnus_graph_helpers.specs.Factors.{scale_of, comm_scale_of};

// What a step of order 4 forms them of: its length tau, the sign of the commutator, 1 forward and -1 adjoint, and the literal s for √3/12. The sign is a
// number, since the formula multiplies by it.
#[derive(Clone, Copy)]
pub struct Factors {
    pub tau: f64,
    pub sign: f64,
    pub s: f64,
}

impl Factors {
    // The factor of the samples' sum: -0.5 · tau.
    pub fn scale(self) -> f64
        ensures { result ≡ scale_of self }
    {
        -0.5 * self.tau
    }

    // The factor of the commutator: ((sign · s) · tau) · tau.
    pub fn comm_scale(self) -> f64
        ensures { result ≡ comm_scale_of self }
    {
        self.sign * self.s * self.tau * self.tau
    }
}
