// The rows of document 01's table, "What a call answers", as code: the number and the values of each refusal. What tells a refusal to somebody,
// in a struct or in a text, takes them from here.
#![tactic(auto)]

ghost use Rattle.std.specs.Prelude.{◌≡◌};
ghost use Rattle.error.specs.Refusals.{number_of, values_of};
ghost use Rattle.refusal_rows.specs.Row.{row_number, row_values};

use error::Refusal;

// A number with its values: one count, one real or two reals. With the number in a struct beside an enum of values, a row below would be two
// literals in place of one, which is no plainer.
#[derive(Clone, Copy)]
pub enum Row {
    Count(u64, usize),
    Real(u64, f64),
    Reals(u64, f64, f64),
}

// The row of a refusal. It is no `From`: callers have this name, and with a `From` beside it one thing would have two.
pub fn row_of(refusal: Refusal) -> Row
    ensures result_value { row_number result ≡ number_of refusal }
    ensures result_value_2 { row_values result ≡ values_of refusal }
{
    match refusal {
        Refusal::RowStartCount(count) => Row::Count(1, count),
        Refusal::RowStartFalls(row) => Row::Count(2, row),
        Refusal::EntryCount(count) => Row::Count(3, count),
        Refusal::Column(column) => Row::Count(4, column),
        Refusal::Value(value) => Row::Real(5, value),
        Refusal::Size(count) => Row::Count(6, count),
        Refusal::Tau(tau) => Row::Real(7, tau),
        Refusal::Radius(tau, bound) => Row::Reals(8, tau, bound),
        Refusal::Bound(bound) => Row::Real(9, bound),
        Refusal::Length(length) => Row::Count(10, length),
        Refusal::Weight(weight) => Row::Real(11, weight),
        Refusal::NoNodes(n) => Row::Count(12, n),
        Refusal::SegmentCount(count) => Row::Count(13, count),
        Refusal::PoolCount(count) => Row::Count(14, count),
        Refusal::Breakpoint(breakpoint) => Row::Real(15, breakpoint),
        Refusal::StepCount(count) => Row::Count(16, count),
        Refusal::FirstBreakpoint(breakpoint) => Row::Real(17, breakpoint),
        Refusal::LookupTime(t) => Row::Real(18, t),
        Refusal::Law(law) => Row::Count(19, law),
        Refusal::SampledValue(value) => Row::Real(20, value),
        Refusal::Malformed(count) => Row::Count(21, count),
    }
}
