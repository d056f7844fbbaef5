// What no clause says of the rules: which elements they give, and where the next field stands.
use crate::{repeat_slice, sum_increments};
use replay_fields::{Field, Fields, Malformed};

// A digit, stored as a count.
#[derive(Clone, Copy)]
struct Digit;

impl Field for Digit {
    fn read(fields: &mut Fields<'_>) -> Result<Digit, Malformed> {
        let count: u64 = fields.read()?;
        if count < 10 {
            Ok(Digit)
        } else {
            Err(Malformed)
        }
    }
}

// Two flags, of 1 byte each, of which five are given, and the number 7 behind them.
#[test]
fn elements_of_any_size_start_again(rt: HostRuntime) {
    let mut fields = Fields::new(&[2, 0, 0, 0, 1, 0, 7, 0]);
    let mut room = [false; 6];
    let given = repeat_slice(&mut fields, 5, &mut room).map(|flags| flags.len());
    assert!(rt; matches!(given, Ok(5)));
    assert_eq!(rt; room, [true, false, true, false, true, false]);
    assert!(rt; matches!(fields.read::<u16>(), Ok(7)));
}

// Three columns, of which one is given.
#[test]
fn elements_that_are_not_given_are_passed_over(rt: HostRuntime) {
    let mut fields = Fields::new(&[3, 0, 0, 0, 4, 0, 0, 0, 5, 0, 0, 0, 6, 0, 0, 0, 7, 0]);
    let mut room = [0u32; 1];
    let given = repeat_slice(&mut fields, 1, &mut room).map(|columns| columns.len());
    assert!(rt; matches!(given, Ok(1)));
    assert_eq!(rt; room, [4]);
    assert!(rt; matches!(fields.read::<u16>(), Ok(7)));
}

// A digit, which is given, and a count of 8 bytes that is none.
#[test]
fn what_is_not_given_need_not_be_an_element(rt: HostRuntime) {
    let mut fields = Fields::new(&[2, 0, 0, 0, 1, 0, 0, 0, 0, 0, 0, 0, 10, 0, 0, 0, 0, 0, 0, 0]);
    let mut room = [Digit; 2];
    let given = repeat_slice(&mut fields, 1, &mut room).map(|digits| digits.len());
    assert!(rt; matches!(given, Ok(1)));
    assert!(rt; fields.is_empty());
}

#[test]
fn no_elements_give_none(rt: HostRuntime) {
    let mut room = [1.0; 2];
    let given = repeat_slice(&mut Fields::new(&[0; 11]), 2, &mut room).map(|reals| reals.len());
    assert!(rt; matches!(given, Ok(0)));
    let mut room = [1u16; 2];
    let given = repeat_slice(&mut Fields::new(&[0; 12]), 2, &mut room).map(|counts| counts.len());
    assert!(rt; matches!(given, Ok(0)));
}

// For no segment, and for one.
#[test]
fn no_increments_give_one_breakpoint(rt: HostRuntime) {
    let mut room = [1.0; 2];
    let given = sum_increments(&mut Fields::new(&[0; 4]), 0, &mut room).map(|times| times.len());
    assert!(rt; matches!(given, Ok(1)));
    let given = sum_increments(&mut Fields::new(&[0; 4]), 1, &mut room).map(|times| times.len());
    assert!(rt; matches!(given, Ok(1)));
    assert_eq!(rt; room, [0.0, 1.0]);
}

// The increment 2, twice.
#[test]
fn increments_are_summed(rt: HostRuntime) {
    let mut room = [1.0; 3];
    let mut fields = Fields::new(&[1, 0, 0, 0, 0, 0, 0, 0, 0, 0, 0, 0x40]);
    let given = sum_increments(&mut fields, 2, &mut room).map(|times| times.len());
    assert!(rt; matches!(given, Ok(3)));
    assert_eq!(rt; room, [0.0, 2.0, 4.0]);
    assert!(rt; fields.is_empty());
}
