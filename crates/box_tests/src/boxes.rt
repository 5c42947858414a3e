//! Boxes of two corners: what meets, holds, unites and grows.

use fixed_box::{FBox, Fix, FixFault, Point, print_fix, read_fix};
use std::test::Fail;

fn at(x: Fix, y: Fix, z: Fix) -> Point {
    Point { x, y, z }
}

#[test]
fn numbers_read_to_the_nearest_raw_number(rt: HostRuntime) {
    let cases: [(&[u8], Result<Fix, FixFault>); 16] = [
        (b"-0.00001", Ok(-1)),
        (b"-0.000005", Ok(0)),
        (b"-0", Ok(0)),
        (b"32767.99999", Ok(2147483647)),
        (b"-32768", Ok(-2147483648)),
        (b"1.000007", Ok(65536)),
        (b"32767.999999", Err(FixFault::Range)),
        (b"32768", Err(FixFault::Range)),
        (b"-32768.00001", Err(FixFault::Range)),
        (b"9999999999", Err(FixFault::Range)),
        (b"+1", Err(FixFault::Form)),
        (b".5", Err(FixFault::Form)),
        (b"1.", Err(FixFault::Form)),
        (b"", Err(FixFault::Form)),
        (b"12345678901", Err(FixFault::Form)),
        (b"1.0000000001", Err(FixFault::Form)),
    ];
    for (text, want) in cases {
        assert_eq!(rt; read_fix(text), want);
    }
}

#[test]
fn numbers_print_with_five_digits_behind_the_point(rt: HostRuntime) {
    let cases: [(Fix, &[u8]); 6] = [
        (0, b"0.00000"),
        (1, b"0.00002"),
        (-1, b"-0.00002"),
        (65536, b"1.00000"),
        (2147483647, b"32767.99998"),
        (-2147483648, b"-32768.00000"),
    ];
    for (raw, want) in cases {
        let mut buffer = [b'x'; 16];
        let length = print_fix(raw, &mut buffer);
        assert_eq!(rt; length, want.len());
        assert_eq!(rt; buffer.split_at(length).0, want);
        assert_eq!(rt; buffer[15], b'x');
    }
}

#[test]
fn corners_in_order_make_a_box(rt: HostRuntime) -> Result<(), Fail> {
    assert_eq!(rt; FBox::new(at(1, 0, 0), at(0, 0, 0)), None);
    let flat = FBox::new(at(0, 0, 0), at(0, 0, 0)).ok_or("flat")?;
    assert_eq!(rt; flat.longest_side(), 0);
    assert_eq!(rt; flat.level(), 0);
    assert_eq!(rt; flat.lo(), flat.hi());
    Ok(())
}

#[test]
fn levels_go_by_the_longest_side(rt: HostRuntime) -> Result<(), Fail> {
    let cases: [(Fix, Fix, u8); 7] = [
        (0, 4095, 0),
        (0, 4096, 1),
        (0, 65535, 2),
        (0, 65536, 3),
        (0, 1073741823, 9),
        (0, 1073741824, 10),
        (-2147483648, 2147483647, 10),
    ];
    for (low, high, level) in cases {
        let body = FBox::new(at(low, 0, 0), at(high, 1, 0)).ok_or("box")?;
        assert_eq!(rt; body.level(), level);
    }
    Ok(())
}

#[test]
fn fattening_stops_at_the_ends(rt: HostRuntime) -> Result<(), Fail> {
    let corner = at(-2147483648, 0, 2147483647);
    let fat = FBox::new(corner, corner).ok_or("box")?.fatten(8192);
    assert_eq!(rt; fat.lo(), at(-2147483648, -8192, 2147475455));
    assert_eq!(rt; fat.hi(), at(-2147475456, 8192, 2147483647));
    Ok(())
}

#[test]
fn faces_belong_to_a_box(rt: HostRuntime) -> Result<(), Fail> {
    let left = FBox::new(at(0, 0, 0), at(1, 1, 1)).ok_or("left")?;
    let right = FBox::new(at(1, 0, 0), at(2, 1, 1)).ok_or("right")?;
    assert!(rt; left.overlaps(&right));
    assert!(rt; left.holds_point(&right.lo()));
    assert!(rt; !left.holds_box(&right));
    let both = left.union(&right);
    assert!(rt; both.holds_box(&left) && both.holds_box(&right));
    assert_eq!(rt; both.hi(), at(2, 1, 1));
    Ok(())
}
