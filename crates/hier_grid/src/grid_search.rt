//! The search for pairs of boxes: along their copies by bucket if these are fresh, or else along the rings of links.

ghost use Rattle.std.specs.Prelude.{◌≡◌, true, OnOk};
ghost use Rattle.grid_cells.specs.Cells.{cell_of};
ghost use Rattle.hier_grid.specs.Listing.{IsListing};
ghost use Rattle.hier_grid.specs.Search.{IsDue, Finds, FindsAll, FindsRun, FindsSlot};

use crate::due_pairs::pairs_due;
use crate::found::Found;
use crate::grid_listing::GridListing;
use crate::pair_search::pairs_of_all;
use crate::ring_search::pairs_by_rings;
use crate::searched::Searched;
use fixed_box::NoMemory;
use grid_boxes::{GridBoxes, SlotBox};
use std::marker::Model;

/// What a search for pairs reads: the boxes, and once more by bucket where they are listed so; else the rings of links are
/// followed.
#[derive(Drop)]
pub(crate) struct GridSearch<'a> {
    kept: &'a GridBoxes,
    listed: Option<Searched<'a>>,
    // A level above those of all boxes.
    end: u8,
}

impl<'a> Model for GridSearch<'a> {
    ghost use Rattle.std.specs.Prelude.{◌≡◌, IfSome};
    ghost use Rattle.std.specs.Ordering.{nat_cmp};
    ghost use Rattle.std.specs.Coded.{coded_ℕ};
    ghost use Rattle.std.specs.FinMap.{FinMap, code};
    ghost use Rattle.fixed_box.specs.Bounds.{Bounds, coded_bounds};
    ghost use Rattle.grid_boxes.specs.Candidates.{IsEnd};

    ghost Value = { FinMap nat_cmp Bounds };

    ghost coded = { code coded_ℕ coded_bounds };

    ghost view = { λ s. s.kept.now };

    ghost invariant = { λ s. IfSome s.listed (λ boxes. boxes.bodies ≡ s.kept.now) × IsEnd s.kept.now s.end };
}

impl GridSearch<'_> {
    /// A search among all boxes.
    pub(crate) fn new<'a>(kept: &'a GridBoxes, listing: &'a GridListing) -> GridSearch<'a>
        requires { IsListing kept.now listing.now }
        ensures { result ≡ kept.now }
    {
        let end = kept.levels_end();
        let listed = match listing.current() {
            Some(copied) => Some(Searched::new(kept, copied, end)),
            None => None,
        };
        GridSearch { kept, listed, end }
    }

    /// Finds the pairs of all boxes, and answers how many boxes were compared.
    pub(crate) fn all_pairs(&self, slots: &mut Vec<u32>, found: &mut Found) -> Result<u64, NoMemory>
        ensures { OnOk result (FindsAll self.now found.new.pairs.items) }
    {
        match &self.listed {
            Some(boxes) => pairs_of_all(boxes, found),
            None => self.all_pairs_by_slot(slots, found),
        }
    }

    // The same by slot, rising. The slots are listed first.
    fn all_pairs_by_slot(&self, slots: &mut Vec<u32>, found: &mut Found) -> Result<u64, NoMemory>
        ensures { OnOk result (FindsAll self.now found.new.pairs.items) }
    {
        self.kept.boxes().list(slots)?;
        let looked = self.pairs_of_run(slots, found)?;
        Ok(looked)
    }

    /// Finds the pairs that some slots are to find, each at least once, and answers how many boxes were compared.
    pub(crate) fn pairs_of_run(&self, slots: &[u32], found: &mut Found) -> Result<u64, NoMemory>
        ensures { OnOk result (FindsRun self.now slots.now found.new.pairs.items) }
    {
        found.clear();
        let mut rest = slots;
        'slots: while let [slot, more @ ..] = rest {
            self.pairs_of_slot(*slot, found)?;
            rest = more;
        }
        Ok(found.looked)
    }

    // Finds the pairs of a slot with its partners, if it is present.
    fn pairs_of_slot(&self, slot: u32, found: &mut Found) -> Result<(), NoMemory>
        ensures { OnOk result (FindsSlot self.now slot found.old.pairs.items found.new.pairs.items) }
    {
        let Some(body) = self.kept.boxes().box_of(slot) else {
            return Ok(());
        };
        self.pairs_of_box(&SlotBox { slot, body }, found)?;
        Ok(())
    }

    // Finds the pairs of a slot with those partners that it is to find.
    fn pairs_of_box(&self, own: &SlotBox, found: &mut Found) -> Result<(), NoMemory>
        ensures { OnOk result (Finds self.now own.now true (IsDue cell_of own.now.slot own.now.body) found.old.pairs.items found.new.pairs.items) }
    {
        match &self.listed {
            Some(boxes) => pairs_due(boxes, own, found),
            None => pairs_by_rings(self.kept, self.end, own, found),
        }
    }
}
