// What the lookup does once its checks have accepted.
ghost use Rattle.std.specs.Prelude.{◌≡◌};
ghost use Rattle.graph_traj_breakpoints.specs.Breakpoints.{Breakpoints, Inside};
ghost use Rattle.graph_traj.specs.Lookup.{segment_at};

// The segment in which t lies: the last that starts at t or before it. The starts rise, so the library's halving finds it.
pub fn segment_index_binary(segments: usize, breakpoints: &[f64], t: f64) -> usize
    requires { Breakpoints segments breakpoints.now × Inside segments breakpoints.now t }
    ensures { result ≡ segment_at segments breakpoints.now t }
{
    breakpoints[..segments].partition_point(|start| *start <= t) - 1
}
