//! A box of floats, given by their bits, as a box of fixed-point numbers.

ghost use Rattle.std.specs.Prelude.{◌≡◌, [], ◌∷◌};
ghost use Rattle.float_bounds.specs.Format.{binary32, binary64};
ghost use Rattle.float_bounds.specs.Around.{box_around};
ghost use Rattle.held_world.specs.Floats.{fault_of, told_box};

use crate::plain::{PwBox, box_out};
use crate::{INVERTED, NOT_A_NUMBER, OUT_OF_RANGE};
use fixed_box::FBox;
use float_bounds::FloatFault;

/// The bits of three floats of binary32.
#[repr(C)]
#[derive(Clone, Copy)]
pub struct PwBits32 {
    pub x: u32,
    pub y: u32,
    pub z: u32,
}

/// The bits of three floats of binary64.
#[repr(C)]
#[derive(Clone, Copy)]
pub struct PwBits64 {
    pub x: u64,
    pub y: u64,
    pub z: u64,
}

/// The status of a float's fault.
pub fn fault_of(fault: FloatFault) -> u32
    ensures { result ≡ fault_of fault }
{
    match fault {
        FloatFault::NotANumber => NOT_A_NUMBER,
        FloatFault::OutOfRange => OUT_OF_RANGE,
        FloatFault::Inverted => INVERTED,
    }
}

/// The least box that holds the box of floats between two corners, or the status of its first fault: see `box_around_32` of
/// `float_bounds`.
pub fn box_around_32(lo: &PwBits32, hi: &PwBits32) -> Result<PwBox, u32>
    ensures { result ≡ told_box (box_around binary32 (lo.now.x ∷ lo.now.y ∷ lo.now.z ∷ []) (hi.now.x ∷ hi.now.y ∷ hi.now.z ∷ [])) }
{
    box_told(&float_bounds::box_around_32([lo.x, lo.y, lo.z], [hi.x, hi.y, hi.z]))
}

/// As `box_around_32`, of doubles.
pub fn box_around_64(lo: &PwBits64, hi: &PwBits64) -> Result<PwBox, u32>
    ensures { result ≡ told_box (box_around binary64 (lo.now.x ∷ lo.now.y ∷ lo.now.z ∷ []) (hi.now.x ∷ hi.now.y ∷ hi.now.z ∷ [])) }
{
    box_told(&float_bounds::box_around_64([lo.x, lo.y, lo.z], [hi.x, hi.y, hi.z]))
}

fn box_told(around: &Result<FBox, FloatFault>) -> Result<PwBox, u32>
    ensures { result ≡ told_box around.now }
{
    match around {
        Ok(body) => Ok(box_out(body)),
        Err(fault) => Err(fault_of(*fault)),
    }
}
