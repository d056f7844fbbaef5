// Laplacians of a network in compressed sparse rows (graph.rs, graph_assemble_helpers.rs): n nodes, n + 1 row starts, and
// a column and a value for each entry. Row i has the entries from its start up to the next row's start.
#![tactic(auto)]

ghost use Rattle.std.specs.Prelude.{◌≡◌};
ghost use Rattle.std.specs.Float.{binary64};
ghost use Rattle.error.specs.Refusals.{Answers};
ghost use Rattle.graph_checks.specs.Parts.{parts_fault};
ghost use Rattle.graph_bound.specs.Gershgorin.{gershgorin_bound};
ghost use Rattle.graph.specs.BoundAnswer.{BoundAnswers};
ghost use Rattle.graph.specs.ProductOutcome.{product_outcome_of};

use error::{Refusal, check_length};
// the checks and what they are made of, callable from here too
pub use graph_checks::{CsrParts, check_pattern, from_csr_parts};
use graph_rows::kernel::Sample;
use graph_shape::kernel::{Entries, RowStarts};

// The Gershgorin bound of a Laplacian, ρ̄ = max over the rows of Σ |value|, rounded as the Rust rounds it. Refused as
// `from_csr_parts` refuses.
pub fn gershgorin_bound_csr(parts: CsrParts<'_>) -> Result<f64, Refusal>
    ensures { BoundAnswers result (parts_fault parts.entry)
        (gershgorin_bound binary64 parts.entry.row_ptr.now parts.entry.vals.now) }
{
    from_csr_parts(parts)?;
    let row_starts = RowStarts {
        n: parts.n,
        row_ptr: parts.row_ptr,
    };
    Ok(graph_bound::kernel::gershgorin(Entries {
        row_starts,
        list: parts.vals,
    }))
}

// dst becomes the product of the Laplacian with src: row i starts at +0 and adds value · src[column] in stored order.
// Refused as `from_csr_parts` refuses; then 10 with the length of src, and with that of dst, where it is not n. A refusal
// leaves dst as it was.
pub fn apply_into_slice(parts: CsrParts<'_>, src: &[f64], dst: &mut [f64]) -> Result<(), Refusal>
    ensures answer { Answers result (product_outcome_of parts.entry src.now dst.old).answer }
    ensures output { dst.new ≡ (product_outcome_of parts.entry src.now dst.old).output }
{
    let laplacian = from_csr_parts(parts);
    let Ok(()) = laplacian else {
        return laplacian;
    };
    let signal = check_length(src.len(), parts.n);
    let Ok(()) = signal else {
        return signal;
    };
    let output = check_length(dst.len(), parts.n);
    let Ok(()) = output else {
        return output;
    };
    Sample::from_parts(parts).product(src, dst);
    Ok(())
}
