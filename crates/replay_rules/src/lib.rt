// What a case gives by rules, kinds 16 to 19 (lists/README.md has the rules), each slice to the start of its room.
#![tactic(auto)]

ghost use Rattle.std.specs.Prelude.{◌≤◌, ◌<◌, length as size, IfOk};

use replay_fields::{Field, Fields, Malformed};

#[cfg(test)]
mod tests;

// Reads a field, and gives it so many times.
pub fn repeat_one<'r, T: Field + Copy>(
    fields: &mut Fields<'_>,
    length: usize,
    room: &'r mut [T],
) -> Result<&'r mut [T], Malformed> {
    let element: T = fields.read()?;
    let slice = room.get_mut(..length).ok_or(Malformed)?;
    for place in slice.iter_mut() {
        *place = element;
    }
    Ok(slice)
}

// Reads a slice to the start of the room, and says how many elements it gives, as `repeat_slice` does.
fn repeat_to<T: Field + Copy>(
    fields: &mut Fields<'_>,
    length: usize,
    room: &mut [T],
) -> Result<usize, Malformed>
    ensures { IfOk result (λ given. given ≤ length) }
{
    let count: u32 = fields.read()?;
    let slice = room.get_mut(..length).ok_or(Malformed)?;
    let elements = *fields;
    let mut next = elements;
    if count == 0 && (!T::IS_WORD || next.bytes(8).is_err()) {
        return Ok(0);
    }
    let mut next = elements;
    let mut left = count;
    for element in slice.iter_mut() {
        if left == 0 {
            next = elements;
            left = count;
        }
        *element = next.read()?;
        left = left.saturating_sub(1);
    }
    pass_elements::<T>(fields, count)?;
    Ok(length)
}

// Passes over so many elements. Words have 8 bytes each and are not read. Other elements are read; where one of them cannot be, each is taken to have
// 8 bytes.
fn pass_elements<T: Field>(fields: &mut Fields<'_>, count: u32) -> Result<(), Malformed> {
    let mut behind = *fields;
    if !T::IS_WORD && (0..count).all(|_| behind.read::<T>().is_ok()) {
        *fields = behind;
        return Ok(());
    }
    fields.bytes((count as usize).saturating_mul(8))?;
    Ok(())
}

// Reads a slice, and gives so many elements: where those of the case end, they start again from the first. Where the case has none, nothing is given,
// but for words: the word that stands behind is given each time, if there is one.
pub fn repeat_slice<'r, T: Field + Copy>(
    fields: &mut Fields<'_>,
    length: usize,
    room: &'r mut [T],
) -> Result<&'r mut [T], Malformed>
    ensures { IfOk result (λ slice. size slice.now ≤ length) }
{
    let given = repeat_to(fields, length, room)?;
    room.get_mut(..given).ok_or(Malformed)
}

// Reads increments, and gives the breakpoints of so many segments: +0, and then each the sum of the one before and the next increment. Where the case
// has no increment, and no word stands behind, it gives +0 alone.
pub fn sum_increments<'r>(
    fields: &mut Fields<'_>,
    segments: usize,
    room: &'r mut [f64],
) -> Result<&'r mut [f64], Malformed>
    ensures { IfOk result (λ breakpoints. 0 < size breakpoints.now) }
{
    let given = repeat_to(fields, segments.saturating_add(1), room)?;
    let breakpoints = room.get_mut(..given.max(1)).ok_or(Malformed)?;
    let mut time = 0.0;
    for breakpoint in breakpoints.iter_mut() {
        let increment = *breakpoint;
        *breakpoint = time;
        time += increment;
    }
    Ok(breakpoints)
}

// Gives n + 1 row starts: row start i is first + i·width, but at most the entries.
pub fn row_starts<'r>(
    n: usize,
    first: usize,
    width: usize,
    entries: usize,
    room: &'r mut [usize],
) -> Result<&'r mut [usize], Malformed> {
    let starts = room.get_mut(..n.saturating_add(1)).ok_or(Malformed)?;
    let mut start = first;
    for row_start in starts.iter_mut() {
        start = start.min(entries);
        *row_start = start;
        start = start.saturating_add(width);
    }
    Ok(starts)
}

// Gives the columns of the entries: column k is (k·stride) mod n. Both factors are as small as their rooms, so that their product does not saturate.
pub fn columns<'r>(
    n: usize,
    entries: usize,
    stride: usize,
    room: &'r mut [u32],
) -> Result<&'r mut [u32], Malformed> {
    let columns = room.get_mut(..entries).ok_or(Malformed)?;
    let stride = stride.checked_rem(n).unwrap_or(0);
    for (k, column) in columns.iter_mut().enumerate() {
        let product = k.saturating_mul(stride);
        *column = u32::try_from(product.checked_rem(n).ok_or(Malformed)?)?;
    }
    Ok(columns)
}
