// Prints the square roots of a few values: the bit pattern of each, and that of its root.
#![tactic(auto)]

use float_bits::from_bits;
use square_root::sqrt;

// One line. A root that is a NaN is printed as that. A line that cannot be written is left out.
fn print_root(rt: &impl Print, bits: u64) {
    let root = sqrt(from_bits(bits));
    let _ = if root.is_nan() {
        println!(rt; "sqrt {bits:016x} = NaN")
    } else {
        let root_bits = root.to_bits();
        println!(rt; "sqrt {bits:016x} = {root_bits:016x}")
    };
}

fn main(rt: HostRuntime) {
    // 4, 2, 3, 2^-1074, the largest value, -0, -1
    let values = [
        0x4010_0000_0000_0000,
        0x4000_0000_0000_0000,
        0x4008_0000_0000_0000,
        0x0000_0000_0000_0001,
        0x7FEF_FFFF_FFFF_FFFF,
        0x8000_0000_0000_0000,
        0xBFF0_0000_0000_0000,
    ];
    for bits in values {
        print_root(&rt, bits);
    }
}
