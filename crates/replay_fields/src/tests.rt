// What no clause says of the fields of a case: that each is read where it stands.
use crate::{Fault, Fields, LONGEST, Malformed};
use std::alloc::{AllocError, AllocFailed};

#[test]
fn any_bytes_may_end_with_a_number(rt: HostRuntime) {
    let bytes = [0u8; LONGEST];
    let mut fields = Fields::new(&bytes);
    assert!(rt; fields.bytes(LONGEST - 8).is_ok());
    assert!(rt; matches!(fields.read::<u64>(), Ok(0)));
    assert!(rt; fields.is_empty());
}

#[test]
fn a_longest_case_does_not_end_with_a_number(rt: HostRuntime) {
    let bytes = [0u8; LONGEST];
    let mut fields = Fields::of_case(&bytes);
    assert!(rt; fields.bytes(LONGEST - 8).is_ok());
    assert!(rt; fields.read::<u64>().is_err());
    assert!(rt; fields.bytes(8).is_ok());
}

// Row 5 with three values, with none, and in a room that is too small.
#[test]
fn a_refusal_has_any_number_of_values(rt: HostRuntime) {
    let mut bytes = [0u8; 28];
    for (i, byte) in [(0, 5), (2, 3), (4, 7), (12, 8), (20, 9)] {
        bytes[i] = byte;
    }
    let mut room = [0; 4];
    let answer = Fields::new(&bytes).answer::<()>(&mut room);
    assert!(rt; matches!(answer, Ok(Err((5, [7, 8, 9])))));
    assert!(rt; Fields::new(&bytes).answer::<()>(&mut [0; 2]).is_err());
    let answer = Fields::new(&[5, 0, 0, 0]).answer::<()>(&mut room);
    assert!(rt; matches!(answer, Ok(Err((5, [])))));
}

// Behind an acceptance stands its value, and no values of a refusal.
#[test]
fn an_acceptance_has_its_value(rt: HostRuntime) {
    let mut room = [0; 1];
    let answer = Fields::new(&[0, 0, 0, 0, 1]).answer::<bool>(&mut room);
    assert!(rt; matches!(answer, Ok(Ok(true))));
    let answer = Fields::new(&[0, 0, 1, 0, 0, 0, 0, 0, 0, 0, 0, 0, 1]).answer::<bool>(&mut room);
    assert!(rt; answer.is_err());
}

#[test]
fn a_fault_says_what_it_came_from(rt: HostRuntime) {
    assert!(rt; matches!(Fault::from(Malformed), Fault::Malformed));
    assert!(rt; matches!(Fault::from(AllocError), Fault::OutOfMemory(_)));
    assert!(rt;
        matches!(
            Fault::from(AllocFailed { value: 1u8 }),
            Fault::OutOfMemory(_)
        )
    );
    if let Err(error) = u8::try_from(256u64) {
        assert!(rt; matches!(Fault::from(error), Fault::Malformed));
    }
}
