//! Worked examples of rounding, of the ends of the range and of faults, computed from the definitions.

ghost use Rattle.std.specs.Prelude.{◌≡◌, pos, negsuc, [], ◌∷◌, Ok, Err};
ghost use Rattle.float_bounds.specs.Format.{binary32, binary64};
ghost use Rattle.float_bounds.specs.Rounding.{fix_below, fix_above};
ghost use Rattle.float_bounds.specs.Around.{box_around};

use crate::FloatFault;

// Floats of binary32 that are raw numbers over 65,536 keep their values: 0.5, -0.5, 1, -1, -0 and -32,768.
fn whole_numbers()
    ensures half_below { fix_below binary32 0x3F000000 ≡ Ok (pos 32768) }
    ensures half_above { fix_above binary32 0x3F000000 ≡ Ok (pos 32768) }
    ensures negative_half_below { fix_below binary32 0xBF000000 ≡ Ok (negsuc 32767) }
    ensures negative_half_above { fix_above binary32 0xBF000000 ≡ Ok (negsuc 32767) }
    ensures one { fix_below binary32 0x3F800000 ≡ Ok (pos 65536) }
    ensures negative_one { fix_above binary32 0xBF800000 ≡ Ok (negsuc 65535) }
    ensures negative_zero_below { fix_below binary32 0x80000000 ≡ Ok (pos 0) }
    ensures negative_zero_above { fix_above binary32 0x80000000 ≡ Ok (pos 0) }
    ensures least { fix_below binary32 0xC7000000 ≡ Ok (negsuc 2147483647) }
{}

// Floats of binary32 that lie between two raw numbers: 0.1, -0.1, the least positive number and its negative.
fn numbers_between()
    ensures tenth_below { fix_below binary32 0x3DCCCCCD ≡ Ok (pos 6553) }
    ensures tenth_above { fix_above binary32 0x3DCCCCCD ≡ Ok (pos 6554) }
    ensures negative_tenth_below { fix_below binary32 0xBDCCCCCD ≡ Ok (negsuc 6553) }
    ensures negative_tenth_above { fix_above binary32 0xBDCCCCCD ≡ Ok (negsuc 6552) }
    ensures subnormal_below { fix_below binary32 0x00000001 ≡ Ok (pos 0) }
    ensures subnormal_above { fix_above binary32 0x00000001 ≡ Ok (pos 1) }
    ensures negative_subnormal_below { fix_below binary32 0x80000001 ≡ Ok (negsuc 0) }
    ensures negative_subnormal_above { fix_above binary32 0x80000001 ≡ Ok (pos 0) }
{}

// The ends of the range, and floats of binary32 that are no finite number.
fn ends()
    ensures greatest { fix_above binary32 0x46FFFFFF ≡ Ok (pos 2147483520) }
    ensures over { fix_below binary32 0x47000000 ≡ Err FloatFault.OutOfRange }
    ensures under { fix_above binary32 0xC7000001 ≡ Err FloatFault.OutOfRange }
    ensures infinity { fix_below binary32 0x7F800000 ≡ Err FloatFault.OutOfRange }
    ensures negative_infinity { fix_above binary32 0xFF800000 ≡ Err FloatFault.OutOfRange }
    ensures quiet { fix_below binary32 0x7FC00000 ≡ Err FloatFault.NotANumber }
    ensures signaling { fix_above binary32 0xFF800001 ≡ Err FloatFault.NotANumber }
{}

// Of binary64: 0.1, the least positive number, and the greatest number below 32,768, which is rounded out of range upwards.
fn wide_numbers()
    ensures tenth_below { fix_below binary64 0x3FB999999999999A ≡ Ok (pos 6553) }
    ensures tenth_above { fix_above binary64 0x3FB999999999999A ≡ Ok (pos 6554) }
    ensures subnormal { fix_above binary64 0x0000000000000001 ≡ Ok (pos 1) }
    ensures greatest_below { fix_below binary64 0x40DFFFFFFFFFFFFF ≡ Ok (pos 2147483647) }
    ensures greatest_above { fix_above binary64 0x40DFFFFFFFFFFFFF ≡ Err FloatFault.OutOfRange }
    ensures least { fix_below binary64 0xC0E0000000000000 ≡ Ok (negsuc 2147483647) }
    ensures infinity { fix_below binary64 0x7FF0000000000000 ≡ Err FloatFault.OutOfRange }
    ensures nan { fix_below binary64 0x7FF8000000000000 ≡ Err FloatFault.NotANumber }
{}

// A box from -0.1 to 0.1 on x, at 0 on y, where the upper number is -0, and from 1 to 1.5 on z.
fn a_box()
    ensures around { box_around binary32 (0xBDCCCCCD ∷ 0 ∷ 0x3F800000 ∷ []) (0x3DCCCCCD ∷ 0x80000000 ∷ 0x3FC00000 ∷ []) ≡ Ok (record {
      lo = record { x = negsuc 6553; y = pos 0; z = pos 65536 };
      hi = record { x = pos 6554; y = pos 0; z = pos 98304 };
    }) }
{}

// Of several faults that of the first axis decides, and a lower number above the upper one is seen where both are rounded
// to the same raw numbers.
fn faults_of_boxes()
    ensures inverted { box_around binary32 (0x3DCCCCCE ∷ 0 ∷ 0 ∷ []) (0x3DCCCCCD ∷ 0 ∷ 0 ∷ []) ≡ Err FloatFault.Inverted }
    ensures first_axis { box_around binary32 (0x3F800000 ∷ 0x7FC00000 ∷ 0 ∷ []) (0 ∷ 0 ∷ 0 ∷ [])
        ≡ Err FloatFault.Inverted }
    ensures lower_first { box_around binary32 (0 ∷ 0 ∷ 0x7FC00000 ∷ []) (0 ∷ 0 ∷ 0x7F800000 ∷ [])
        ≡ Err FloatFault.NotANumber }
{}
