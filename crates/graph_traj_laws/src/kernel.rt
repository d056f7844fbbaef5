// The values of a segment by its law, for callers that have checked the trajectory.
ghost use Rattle.std.specs.Prelude.{◌≡◌, ◌+◌, ◌*◌, ◌≤◌, length};
ghost use Rattle.scratch.specs.Parts.{part};
ghost use Rattle.graph_traj_laws.specs.Laws.{law_value, law_list};

// The value of law 2, a fraction of the way from s to e.
#[tactic(auto, unfolding(crate::specs::Laws::law_value))]
pub fn law_value(fraction: f64, s: f64, e: f64) -> f64
    ensures { result ≡ law_value fraction s e }
{
    s + fraction * (e - s)
}

// Two lists of one length, of values or of weights: what holds at a segment's start, and what holds at its end.
#[derive(Clone, Copy)]
pub struct EndLists<'a> {
    pub start: &'a [f64],
    pub end: &'a [f64],
    pub ghost same: { length end.now ≡ length start.now },
}

impl<'a> EndLists<'a> {
    // Segment k's own lists, in pools of lists of m elements each.
    pub fn of_segment(starts: &'a [f64], ends: &'a [f64], k: usize, m: usize) -> Self
        requires { (k * m + m ≤ length starts.now) × (k * m + m ≤ length ends.now) }
        ensures start_list { result.start.now ≡ part (k * m) m starts.now }
        ensures end_list { result.end.now ≡ part (k * m) m ends.now }
    {
        let from = k * m;
        let to = from + m;
        Self {
            start: &starts[from..to],
            end: &ends[from..to],
        }
    }

    // The list that the segment's law names, 0 or 1: the start list or the end list, uncopied. The law is a number, not an enum:
    // a narrower type would ask more of callers, since the end list is what every law but 0 names here.
    pub fn law_list(self, law: u8) -> &'a [f64]
        ensures { let l = self.entry in
            result.now ≡ law_list law 0 (length l.start.now) l.start.now l.end.now }
    {
        if law == 0 {
            return self.start;
        }
        self.end
    }
}
