// Replays a stored list of calls on networks and signals: each call is made again, and its answer and the slice that it
// writes are compared in every bit. Any NaN matches any NaN. After the list come the cases that are too large for one.
#![tactic(auto)]

use crate::networks::{bound_right, parts_right, product_right};
use crate::signals::{copy_right, sum_right};
use replay::kernel::replay;
use replay_fields::parts::Room;
use replay_fields::{Fields, Malformed};
use replay_limits::{
    most_columns_right, most_nodes_right, too_many_columns_right, too_many_nodes_right,
};

mod networks;
mod signals;

// The calls of the cases.
#[derive(Clone, Copy)]
enum Call {
    FromCsrParts,
    GershgorinBoundCsr,
    ApplyIntoSlice,
    CopyFrom,
    AxpyIntoSlice,
}

// The call of the cases of a kind. Each replay has such a table of its own, and no row of it is in another: one function over a list of numbers and
// kinds would be given as many rows.
impl TryFrom<u16> for Call {
    type Error = Malformed;

    fn try_from(kind: u16) -> Result<Call, Malformed> {
        match kind {
            2 => Ok(Call::FromCsrParts),
            3 => Ok(Call::GershgorinBoundCsr),
            4 => Ok(Call::ApplyIntoSlice),
            5 => Ok(Call::CopyFrom),
            6 => Ok(Call::AxpyIntoSlice),
            _ => Err(Malformed),
        }
    }
}

// Whether a call does what the case says. The rooms are for the longest slices of the list.
fn is_right(
    call: Call,
    fields: &mut Fields<'_>,
    room: &mut Room<4098, 128, 128>,
    src: &mut [f64],
    dst: &mut [f64],
) -> Result<bool, Malformed> {
    match call {
        Call::FromCsrParts => parts_right(room.read(fields)?, fields),
        Call::GershgorinBoundCsr => bound_right(room.read(fields)?, fields),
        Call::ApplyIntoSlice => product_right(room.read(fields)?, fields, src, dst),
        Call::CopyFrom => copy_right(fields, dst, src),
        Call::AxpyIntoSlice => sum_right(fields, dst, src),
    }
}

fn main(rt: HostRuntime) {
    let mut room = Room::new();
    let mut src = [0.0; 128];
    let mut dst = [0.0; 128];
    let mut tally = replay(&rt, |call, fields| {
        is_right(call, fields, &mut room, &mut src, &mut dst)
    });
    tally.count_case(&rt, too_many_columns_right());
    tally.count_case(&rt, most_columns_right());
    tally.count_case(&rt, most_nodes_right());
    tally.count_case(&rt, too_many_nodes_right());
    let _ = println!(rt; "{tally}");
}
