// Replays a stored list of square roots: each root is worked out again and compared in every bit. Any NaN matches any NaN.
#![tactic(auto)]

use float_bits::has_bits;
use replay::kernel::replay;
use replay_fields::{Fields, Malformed};
use square_root::sqrt;

// The kind of the cases.
#[derive(Clone, Copy)]
struct Root;

impl TryFrom<u16> for Root {
    type Error = Malformed;

    fn try_from(kind: u16) -> Result<Root, Malformed> {
        if kind == 1 { Ok(Root) } else { Err(Malformed) }
    }
}

// Whether the root of a case is right.
fn is_right(_kind: Root, fields: &mut Fields<'_>) -> Result<bool, Malformed> {
    let x: f64 = fields.read()?;
    let bits: u64 = fields.read()?;
    Ok(has_bits(sqrt(x), bits))
}

fn main(rt: HostRuntime) {
    let tally = replay(&rt, is_right);
    let _ = println!(rt; "{tally}");
}
