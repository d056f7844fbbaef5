// The calls on signals.
use graph_signal::{axpy_into_slice, copy_from};
use replay_answers::is_written;
use replay_fields::{Fields, Malformed};

// Whether `copy_from` answers and writes what the case says.
pub fn copy_right(
    fields: &mut Fields<'_>,
    signal: &mut [f64],
    src: &mut [f64],
) -> Result<bool, Malformed> {
    let signal = fields.slice(signal)?;
    let src = fields.slice(src)?;
    let answered = copy_from(signal, src);
    Ok(is_written(answered, signal, fields))
}

// Whether `axpy_into_slice` answers and writes what the case says.
pub fn sum_right(
    fields: &mut Fields<'_>,
    signal: &mut [f64],
    src: &mut [f64],
) -> Result<bool, Malformed> {
    let signal = fields.slice(signal)?;
    let alpha: f64 = fields.read()?;
    let src = fields.slice(src)?;
    let answered = axpy_into_slice(signal, alpha, src);
    Ok(is_written(answered, signal, fields))
}
