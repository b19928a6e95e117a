// Vectors of GF(256) from outside, and the one law that no contract states.

use parity72::{div, double, mul, power_of_two};

fn doublings_from_80() -> bool {
    double(0x80) == 0x1D
        && double(0x1D) == 0x3A
        && double(0x3A) == 0x74
        && double(0x74) == 0xE8
        && double(0xE8) == 0xCD
        && double(0xCD) == 0x87
}

fn two_generates_every_element_but_zero() -> bool {
    let mut seen = [false; 256];
    for exponent in 0..255u8 {
        seen[power_of_two(exponent) as usize] = true;
    }
    !seen[0] && seen[1..] == [true; 255][..]
}

fn products_and_quotients_agree() -> bool {
    mul(0x80, 2) == 0x1D && mul(2, 0x80) == 0x1D && div(1, 2) == 0x8E && mul(0x8E, 2) == 1
}

#[test]
fn each_holds(rt: HostRuntime) {
    assert!(rt;
        doublings_from_80()
            && two_generates_every_element_but_zero()
            && products_and_quotients_agree()
    );
}
