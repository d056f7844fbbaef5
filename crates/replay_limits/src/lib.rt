// The cases at the limits of row 6, whose networks are too large for a list.
#![tactic(auto)]

use float_bits::has_bits;
use graph::{apply_into_slice, from_csr_parts, gershgorin_bound_csr};
use graph_checks::CsrParts;
use replay_answers::is_checked;
use replay_answers::kernel::is_answer;
use replay_fields::parts::Refused;

// Whether the three calls on a network answer what is expected, the bound with the bits where that is the acceptance. The product goes to dst.
fn are_answers(
    network: CsrParts<'_>,
    src: &[f64],
    dst: &mut [f64],
    expected: &Result<u64, Refused>,
) -> bool {
    is_checked(from_csr_parts(network), expected)
        && is_answer(gershgorin_bound_csr(network), expected, |bound, bits| {
            has_bits(bound, *bits)
        })
        && is_checked(apply_into_slice(network, src, dst), expected)
}

// Whether the three calls refuse a network with row 6 and the size, and the product leaves its output as it was.
fn is_size_refused(network: CsrParts<'_>, size: u64) -> bool {
    let mut output = [2.0];
    are_answers(network, &[1.0], &mut output, &Err(Refused::One(6, size))) && output == [2.0]
}

// 65,536 columns are refused with that count, before the values, of which there are none.
pub fn too_many_columns_right() -> bool {
    let network = CsrParts {
        n: 1,
        row_ptr: &[0, 65536],
        col_idx: &[0; 65536],
        vals: &[],
    };
    is_size_refused(network, 65536)
}

// 4,097 nodes are refused with that count, whatever else is wrong: the count and the order of the row starts, the count
// of the columns and each of them, the count of the values and the one that is there, and the lengths.
pub fn too_many_nodes_right() -> bool {
    let network = CsrParts {
        n: 4097,
        row_ptr: &[7, 5],
        col_idx: &[4097; 65536],
        vals: &[f64::NAN],
    };
    is_size_refused(network, 4097)
}

// One row of 65,535 ones is accepted. Its bound is their sum, and so is its product with 1.
pub fn most_columns_right() -> bool {
    let network = CsrParts {
        n: 1,
        row_ptr: &[0, 65535],
        col_idx: &[0; 65535],
        vals: &[1.0; 65535],
    };
    let mut output = [2.0];
    are_answers(network, &[1.0], &mut output, &Ok(0x40EF_FFE0_0000_0000)) && output == [65535.0]
}

// 4,096 nodes without an entry are accepted. Their bound is +0, and so is each element of their product with NaNs.
pub fn most_nodes_right() -> bool {
    let network = CsrParts {
        n: 4096,
        row_ptr: &[0; 4097],
        col_idx: &[],
        vals: &[],
    };
    let mut output = [2.0; 4096];
    are_answers(network, &[f64::NAN; 4096], &mut output, &Ok(0))
        && output.iter().all(|x| has_bits(*x, 0))
}
