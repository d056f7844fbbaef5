// What no clause says of a comparison: in which bits.
use crate::are_reals;

#[test]
fn reals_are_compared_in_every_bit(rt: HostRuntime) {
    let one = 0x3FF0_0000_0000_0000;
    assert!(rt; are_reals(&[1.0, f64::NAN], &[one, 0xFFF0_0000_0000_0001]));
    assert!(rt; !are_reals(&[0.0], &[1 << 63]));
    assert!(rt; !are_reals(&[1.0], &[one, one]));
    assert!(rt; !are_reals(&[1.0, 1.0], &[one]));
}
