//! One test: each public call rounds outwards, on 0.1 and -0.1 in both formats.

use super::*;
use fixed_box::{FBox, Fix, Point};
use std::test::Fail;

// 0.1 and -0.1, in both formats.
const TENTH: u32 = 0x3DCC_CCCD;

const NEGATIVE_TENTH: u32 = 0xBDCC_CCCD;

const WIDE_TENTH: u64 = 0x3FB9_9999_9999_999A;

const NEGATIVE_WIDE_TENTH: u64 = 0xBFB9_9999_9999_999A;

// The point on the diagonal.
fn diagonal(at: Fix) -> Point {
    Point {
        x: at,
        y: at,
        z: at,
    }
}

// The box between two points on the diagonal.
fn between(lo: Fix, hi: Fix) -> Option<FBox> {
    FBox::new(diagonal(lo), diagonal(hi))
}

#[test]
fn each_call_rounds_outwards(rt: HostRuntime) -> Result<(), Fail> {
    assert_eq!(rt; fix_below_32(TENTH), Ok(6_553));
    assert_eq!(rt; fix_above_32(TENTH), Ok(6_554));
    assert_eq!(rt; fix_below_64(NEGATIVE_WIDE_TENTH), Ok(-6_554));
    assert_eq!(rt; fix_above_64(NEGATIVE_WIDE_TENTH), Ok(-6_553));
    let wanted = between(-6_554, 6_554);
    assert_eq!(rt; box_around_32([NEGATIVE_TENTH; 3], [TENTH; 3]).ok(), wanted);
    assert_eq!(rt;
        box_around_64([NEGATIVE_WIDE_TENTH; 3], [WIDE_TENTH; 3]).ok(),
        wanted
    );
    Ok(())
}
