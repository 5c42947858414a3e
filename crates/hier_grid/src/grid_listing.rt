//! The list of all boxes by bucket, and whether it is up to date.

ghost use Rattle.std.specs.Prelude.{◌≡◌, ◌<◌, is_some, IfSome};
ghost use Rattle.std.specs.FinMap as map;
ghost use Rattle.std.specs.Ordering.{nat_cmp};
ghost use Rattle.fixed_box.specs.Bounds.{Bounds};
ghost use Rattle.hier_grid.specs.Listing.{IsListing};

use cell_table::BucketList;
use fixed_box::{FBox, NoMemory, SLOTS};
use grid_boxes::{BucketBoxes, GridBoxes};
use std::alloc::Global;

/// All boxes by bucket, and whether they are the boxes as they are now.
#[derive(Drop)]
pub(crate) struct GridListing {
    boxes: BucketBoxes,
    fresh: bool,
}

impl GridListing {
    /// Nothing is listed. It takes no memory.
    pub(crate) fn new(alloc: Global) -> GridListing
        ensures { (bodies : map.FinMap nat_cmp Bounds) → IsListing bodies result }
    {
        GridListing {
            boxes: BucketBoxes::new(alloc),
            fresh: false,
        }
    }

    /// A slot gets a box, in place of one that it may have.
    pub(crate) fn note_box(&mut self, slot: u32, body: &FBox)
        requires { slot < SLOTS }
        ensures { (bodies : map.FinMap nat_cmp Bounds) → IsListing bodies self.old → IsListing (map.insert bodies slot body.now) self.new }
    {
        self.fresh = false;
        self.boxes.note_box(slot, body);
    }

    /// A slot has no box any more.
    pub(crate) fn note_gone(&mut self, slot: u32)
        ensures { (bodies : map.FinMap nat_cmp Bounds) → IsListing bodies self.old → IsListing (map.remove bodies slot) self.new }
    {
        self.fresh = false;
        self.boxes.note_gone(slot);
    }

    /// Copies all boxes where that pays, if any has changed since it was done last.
    pub(crate) fn renew(&mut self, kept: &GridBoxes, pays: bool) -> Result<(), NoMemory>
        requires { IsListing kept.now self.old }
        ensures { IsListing kept.now self.new }
    {
        if pays && !self.fresh {
            self.boxes.fill(kept)?;
            self.fresh = true;
        }
        Ok(())
    }

    /// The copied boxes, if they are those that are there now.
    pub(crate) fn current(&self) -> Option<&BucketBoxes>
        ensures fresh { is_some result ≡ self.now.fresh }
        ensures same { IfSome result (λ boxes. boxes.now ≡ self.now.boxes) }
    {
        if self.fresh { Some(&self.boxes) } else { None }
    }

    /// The slots by bucket as they were copied last, if boxes lay in heaps then, which is a hint of where they lie now.
    pub(crate) fn heaps(&self) -> Option<&BucketList> {
        self.boxes.heaps()
    }
}
