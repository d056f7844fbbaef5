// The fields of a trajectory: as they stand in the case, or by rules.
#![tactic(auto)]

use graph_traj_parts::Trajectory;
use replay_fields::{Field, Fields, Malformed};
use replay_rules::{columns, repeat_one, repeat_slice, row_starts, sum_increments};

// How a case gives its slices.
#[derive(Clone, Copy)]
pub enum Form {
    Stored,
    ByRules,
}

impl Form {
    // Reads a slice, to the start of its room. By rules it has the length.
    pub fn slice<'r, T: Field + Copy>(
        self,
        fields: &mut Fields<'_>,
        length: usize,
        room: &'r mut [T],
    ) -> Result<&'r mut [T], Malformed> {
        match self {
            Form::Stored => fields.slice(room),
            Form::ByRules => repeat_slice(fields, length, room),
        }
    }

    // Reads the output before a call. By rules it has n elements, each the real that stands there.
    pub fn output<'r>(
        self,
        fields: &mut Fields<'_>,
        n: usize,
        room: &'r mut [f64],
    ) -> Result<&'r mut [f64], Malformed> {
        match self {
            Form::Stored => fields.slice(room),
            Form::ByRules => repeat_one(fields, n, room),
        }
    }

    // Reads the breakpoints of so many segments.
    pub fn breakpoints<'r>(
        self,
        fields: &mut Fields<'_>,
        segments: usize,
        room: &'r mut [f64],
    ) -> Result<&'r mut [f64], Malformed> {
        match self {
            Form::Stored => fields.slice(room),
            Form::ByRules => sum_increments(fields, segments, room),
        }
    }

    // Reads a pattern: n, the row starts and the columns.
    fn pattern<'r>(
        self,
        fields: &mut Fields<'_>,
        row_ptr: &'r mut [usize],
        col_idx: &'r mut [u32],
    ) -> Result<(usize, &'r [usize], &'r [u32]), Malformed> {
        let n: usize = fields.read()?;
        match self {
            Form::Stored => Ok((n, fields.slice(row_ptr)?, fields.slice(col_idx)?)),
            Form::ByRules => {
                let first: usize = fields.read()?;
                let width: usize = fields.read()?;
                let entries: usize = fields.read()?;
                let stride: usize = fields.read()?;
                let row_ptr = row_starts(n, first, width, entries, row_ptr)?;
                Ok((n, row_ptr, columns(n, entries, stride, col_idx)?))
            }
        }
    }
}

// Room for the slices of a trajectory: for every one that a case of 65,536 bytes can have, or that the rules of the list give. There are up to 65,536
// columns and segments, and a pool is four times as long.
#[derive(Drop)]
pub struct Room {
    row_ptr: [usize; 8192],
    col_idx: [u32; 65536],
    pub breakpoints: [f64; 65537],
    starts: [f64; 262144],
    ends: [f64; 262144],
    laws: [u8; 65536],
}

impl Room {
    pub fn new() -> Self {
        Room {
            row_ptr: [0; 8192],
            col_idx: [0; 65536],
            breakpoints: [0.0; 65537],
            starts: [0.0; 262144],
            ends: [0.0; 262144],
            laws: [0; 65536],
        }
    }
}

// Reads a trajectory.
pub fn read_trajectory<'r>(
    form: Form,
    fields: &mut Fields<'_>,
    room: &'r mut Room,
) -> Result<Trajectory<'r>, Malformed> {
    let Room {
        row_ptr,
        col_idx,
        breakpoints,
        starts,
        ends,
        laws,
    } = room;
    let (n, row_ptr, col_idx) = form.pattern(fields, row_ptr, col_idx)?;
    let segments: usize = fields.read()?;
    let breakpoints = form.breakpoints(fields, segments, breakpoints)?;
    let length = segments.saturating_mul(col_idx.len());
    Ok(Trajectory {
        n,
        row_ptr,
        col_idx,
        segments,
        breakpoints,
        starts: form.slice(fields, length, starts)?,
        ends: form.slice(fields, length, ends)?,
        laws: form.slice(fields, segments, laws)?,
    })
}
