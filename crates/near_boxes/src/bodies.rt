//! What an owner tells of its boxes: which are asked for, and where each is.

ghost use Rattle.std.specs.Prelude.{◌≡◌};
ghost use Rattle.std.specs.Ordering.{nat_cmp};
ghost use Rattle.std.specs.FinMap as map;
ghost use Rattle.fixed_box.specs.Bounds.{Bounds};
ghost use Rattle.near_boxes.specs.Bodies.{AreInSpace};

use fixed_box::FBox;

/// Boxes under slots, as the owner of an index has them: all that the index keeps, or those of them that are asked for.
pub trait Bodies {
    /// The present slots, each with its box.
    ghost bodies: { Self → map.FinMap nat_cmp Bounds };

    /// The box of a slot, and `None` exactly where the slot is absent.
    fn body(&self, slot: u32) -> Option<FBox>
        ensures body { result ≡ map.get (bodies self.now) slot }
        // The map's boxes have 32 bits, those of slots that weren't asked for too.
        ensures in_space { AreInSpace (bodies self.now) };
}
