//! The places of the bits that are set in a mask of eight lanes.

ghost use Rattle.std.specs.Prelude.{◌≡◌, ◌<◌, ◌≤◌, ◌^◌, ◌++◌, All, OnOk, take, vec_len};
ghost use Rattle.lane_boxes.specs.Bits.{set_places};

use fixed_box::NoMemory;

// Appends the places of the bits that are set, counted from a number on. What was there stays, after an `Err` too.
pub(crate) fn push_places(mask: u8, from: usize, out: &mut Vec<u32>) -> Result<(), NoMemory>
    requires start { from ≤ 2 ^ 32 }
    requires small { All (λ k. k < 2 ^ 32) (set_places 8 from mask) }
    ensures ok { OnOk result (out.new.items ≡ out.old.items ++ set_places 8 from mask) }
    ensures kept { take (vec_len out.old) out.new.items ≡ out.old.items }
{
    let mut rest = mask;
    let mut at = from;
    'bits: while rest != 0 {
        if rest % 2 == 1 {
            out.push(at as u32)?;
        }
        rest /= 2;
        at += 1;
    }
    Ok(())
}
