//! The exports that turn floats into fixed-point numbers and boxes.

ghost use Rattle.std.specs.Prelude.{◌≡◌, [], ◌∷◌};
ghost use Rattle.float_bounds.specs.Format.{binary32, binary64};
ghost use Rattle.float_bounds.specs.Rounding.{fix_below, fix_above};
ghost use Rattle.float_bounds.specs.Around.{box_around};
ghost use Rattle.held_world.specs.Floats.{told_box, told_number};
ghost use Rattle.pungwelair.specs.Exports.{Puts};

use float_bounds::{FloatFault, fix_above_32, fix_above_64, fix_below_32, fix_below_64};
use held_world::{OK, PwBits32, PwBits64, PwBox, box_around_32, box_around_64, fault_of};

/// The greatest raw number that is at most 65,536 times the float with these bits.
#[unsafe(no_mangle)]
pub extern "C" fn pw_fix_below_32(bits: u32, out: &mut i32) -> u32
    ensures { Puts (told_number (fix_below binary32 bits)) result out.old out.new }
{
    put_number(fix_below_32(bits), out)
}

/// The least raw number that is at least 65,536 times the float with these bits.
#[unsafe(no_mangle)]
pub extern "C" fn pw_fix_above_32(bits: u32, out: &mut i32) -> u32
    ensures { Puts (told_number (fix_above binary32 bits)) result out.old out.new }
{
    put_number(fix_above_32(bits), out)
}

/// As `pw_fix_below_32`, of the bits of a double.
#[unsafe(no_mangle)]
pub extern "C" fn pw_fix_below_64(bits: u64, out: &mut i32) -> u32
    ensures { Puts (told_number (fix_below binary64 bits)) result out.old out.new }
{
    put_number(fix_below_64(bits), out)
}

/// As `pw_fix_above_32`, of the bits of a double.
#[unsafe(no_mangle)]
pub extern "C" fn pw_fix_above_64(bits: u64, out: &mut i32) -> u32
    ensures { Puts (told_number (fix_above binary64 bits)) result out.old out.new }
{
    put_number(fix_above_64(bits), out)
}

/// The least box around a box of floats, whose corners are given by their bits.
#[unsafe(no_mangle)]
pub extern "C" fn pw_box_around_32(lo: &PwBits32, hi: &PwBits32, out: &mut PwBox) -> u32
    ensures { let low = lo.now.x ∷ lo.now.y ∷ lo.now.z ∷ [] in let high = hi.now.x ∷ hi.now.y ∷ hi.now.z ∷ [] in
        Puts (told_box (box_around binary32 low high)) result out.old out.new }
{
    match box_around_32(lo, hi) {
        Ok(body) => {
            *out = body;
            OK
        }
        Err(status) => status,
    }
}

/// The least box around a box of doubles, whose corners are given by their bits.
#[unsafe(no_mangle)]
pub extern "C" fn pw_box_around_64(lo: &PwBits64, hi: &PwBits64, out: &mut PwBox) -> u32
    ensures { let low = lo.now.x ∷ lo.now.y ∷ lo.now.z ∷ [] in let high = hi.now.x ∷ hi.now.y ∷ hi.now.z ∷ [] in
        Puts (told_box (box_around binary64 low high)) result out.old out.new }
{
    match box_around_64(lo, hi) {
        Ok(body) => {
            *out = body;
            OK
        }
        Err(status) => status,
    }
}

fn put_number(number: Result<i32, FloatFault>, out: &mut i32) -> u32
    ensures { Puts (told_number number) result out.old out.new }
{
    match number {
        Ok(number) => {
            *out = number;
            OK
        }
        Err(fault) => fault_of(fault),
    }
}
