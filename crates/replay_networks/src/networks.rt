// The calls on networks.
use float_bits::has_bits;
use graph::{apply_into_slice, from_csr_parts, gershgorin_bound_csr};
use graph_checks::CsrParts;
use replay_answers::kernel::is_answer;
use replay_answers::{is_checked, is_written};
use replay_fields::parts::Refused;
use replay_fields::{Fields, Malformed};

// Whether `from_csr_parts` answers what the case says.
pub fn parts_right(network: CsrParts<'_>, fields: &mut Fields<'_>) -> Result<bool, Malformed> {
    let expected: Result<(), Refused> = fields.read()?;
    Ok(is_checked(from_csr_parts(network), &expected))
}

// Whether `gershgorin_bound_csr` answers what the case says. After an acceptance stands the bound.
pub fn bound_right(network: CsrParts<'_>, fields: &mut Fields<'_>) -> Result<bool, Malformed> {
    let expected: Result<u64, Refused> = fields.read()?;
    let bounded = gershgorin_bound_csr(network);
    Ok(is_answer(bounded, &expected, |bound, bits| has_bits(bound, *bits)))
}

// Whether `apply_into_slice` answers and writes what the case says.
pub fn product_right(
    network: CsrParts<'_>,
    fields: &mut Fields<'_>,
    src: &mut [f64],
    dst: &mut [f64],
) -> Result<bool, Malformed> {
    let src = fields.slice(src)?;
    let dst = fields.slice(dst)?;
    let answered = apply_into_slice(network, src, dst);
    Ok(is_written(answered, dst, fields))
}
