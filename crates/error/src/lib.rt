// Refusals (error.rs): what a call answers where it does not do its work, and the check of a length, which most calls
// have. The rows are those of document 01's table, "What a call answers"; specs/Refusals.antt has the number and the
// values of each.
#![tactic(auto)]

ghost use Rattle.std.specs.Prelude.{◌≡◌};
ghost use Rattle.error.specs.Lengths.{length_fault};
ghost use Rattle.error.specs.Refusals.{Answers};

// One case for each row, in the table's order. A case carries whole counts or reals, never a count turned real.
#[derive(Clone, Copy, Debug, PartialEq)]
pub enum Refusal {
    // Row 1: the count of row starts, which is not n + 1.
    RowStartCount(usize),
    // Row 2: the first row i whose start exceeds the next.
    RowStartFalls(usize),
    // Row 3: the last row start; the columns or the values are not that many.
    EntryCount(usize),
    // Row 4: the first column that is n or more.
    Column(usize),
    // Row 5: the first listed value that is not finite (runs: all start lists, then end lists).
    Value(f64),
    // Row 6: n, where it is over 4,096; else the column count, where that is over 65,535.
    Size(usize),
    // Row 7: the step length tau, which is not finite or is below 0.
    Tau(f64),
    // Row 8: tau and the bound, where the check is on and bound * tau is at least 0x3FF921FB54442D18 (pi / 2).
    Radius(f64, f64),
    // Row 9: the spectral bound, then the root bound, which is not finite or is 0 or less.
    Bound(f64),
    // Row 10: a length that is not n: the second or third sample's n, the signal, the output, either weights (the
    // larger length); then the work slice, where it is shorter than the need.
    Length(usize),
    // Row 11: a weight that is not finite or is 0 or less, the first sample's first.
    Weight(f64),
    // Row 12: the node count, 0, of a weighted form.
    NoNodes(usize),
    // Row 13: the count of segments, which is 0 or over 65,535.
    SegmentCount(usize),
    // Row 14: the count of breakpoints, which is not segments + 1; of a start or end pool, which is not segments * m;
    // of laws, which is not segments.
    PoolCount(usize),
    // Row 15: the first breakpoint that is not finite or is not above its predecessor.
    Breakpoint(f64),
    // Row 16: the steps, over 65,535, or 0 in a forward run.
    StepCount(usize),
    // Row 17: the first breakpoint, which is not 0 (-0 passes).
    FirstBreakpoint(f64),
    // Row 18: the lookup time, which is NaN or outside.
    LookupTime(f64),
    // Row 19: the first law above 2.
    Law(usize),
    // Row 20: the first sampled value that is not finite during a run.
    SampledValue(f64),
    // Row 21: the byte count of a malformed job (16,385 for anything longer).
    Malformed(usize),
}

// Row 10 of one slice: its length is n.
pub fn check_length(length: usize, n: usize) -> Result<(), Refusal>
    ensures { Answers result (length_fault length n) }
{
    if length == n {
        Ok(())
    } else {
        Err(Refusal::Length(length))
    }
}
