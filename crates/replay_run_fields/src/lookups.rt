// The lookup of a segment.
use graph_traj::segment_index;
use replay_answers::kernel::is_answer;
use replay_fields::parts::Refused;
use replay_fields::{Fields, Malformed};
use replay_trajectories::Form;

// Whether `segment_index` answers what the case says. After an acceptance stands the index.
pub fn lookup_right(form: Form, fields: &mut Fields<'_>, breakpoints: &mut [f64]) -> bool {
    read_and_look_up(form, fields, breakpoints).unwrap_or(false)
}

// The same for a case that may be malformed.
fn read_and_look_up(
    form: Form,
    fields: &mut Fields<'_>,
    breakpoints: &mut [f64],
) -> Result<bool, Malformed> {
    let segments: usize = fields.read()?;
    let breakpoints = form.breakpoints(fields, segments, breakpoints)?;
    let t: f64 = fields.read()?;
    let expected: Result<usize, Refused> = fields.read()?;
    let segment = segment_index(segments, breakpoints, t);
    Ok(is_answer(segment, &expected, |segment, index| segment == *index))
}
