//! The broad phase over the grid: boxes come, move and go in their cells, and all pairs are sought anew.

ghost use Rattle.std.specs.Prelude.{◌≡◌, ◌↔◌, ◌<◌, ◌≤◌, ◌^◌, true, false, length, refl, Ok, None, is_some, IfOk, IfSome};
ghost use Rattle.std.specs.FinMap as map;
ghost use Rattle.std.specs.List.{All};
ghost use Rattle.broad_index.specs.Fresh.{IsFresh};
ghost use Rattle.grid_boxes.specs.Grid.{AreKeyed};
ghost use Rattle.hier_grid.specs.Search.{FindsRun};
ghost use Rattle.slot_lists.specs.Present.{present};

use crate::found::Found;
use crate::grid_listing::GridListing;
use crate::grid_search::GridSearch;
use crate::hits::{push_hits, push_reach};
use crate::visits::show_boxes;
use broad_index::{
    BroadPhase, FEWEST_SOUGHT, Pair, PairSeeker, Query, Seeker, Visitor, join_pieces,
    push_rising_pairs, settle_pairs,
};
use cell_table::{BucketList, CellTable};
use fixed_box::{FBox, NoMemory, SLOTS};
use grid_boxes::{GridBoxes, SlotBox};
use std::alloc::Global;
use std::marker::Model;

// The list by bucket pays where so many searches share its walk over 16,384 buckets; fewer follow the rings of links.
const LISTED_FROM: u32 = 1_024;

/// The boxes in cells of eleven levels, whose sides are 2^12 to 2^32 raw units.
///
/// A box lies at the least level whose cells are longer than its longest side, in the cell of its lower corner. So it
/// reaches at most into the next cell on each axis, and what it meets lies in the cells beside it. A pair is found from
/// the box of the lower level, or on one level from the box whose cell comes first in the order of x, y and z, which looks
/// at half of the cells about it, and in one cell from the lower slot, or from the one that is copied first. Where a level
/// has fewer boxes than cells lie beside
/// a box, all of them are compared with it in place of a look at those cells.
///
/// Where 1,024 or more slots are present in `pairs`, and where `pairs_with` searches by pieces, all boxes are first copied in
/// the order of the buckets of their cells, in 28 bytes each, once for all pieces and until a box changes. That walks over
/// 16,384 buckets. Where a bucket has many boxes, all stand in packets of eight too, in 24 bytes each, and eight are compared at
/// once. `pairs` with fewer slots and no such copies at hand, and a query, follow the links between the slots of a
/// bucket instead.
///
/// Each level costs a search some nine rows of cells. So where the hull of all boxes has cells to spare, boxes of low levels
/// are copied as if they lay at a higher one: a box is shorter than the cells of each level from its own on. Of two boxes the
/// one whose copy stands first then finds their pair; in a search by pieces their own cells decide, and a raised box looks at
/// all cells beside it. Another table of cells is made for that, and kept: from then on each change is made there too.
///
/// A ray or a segment is followed through the cells of a level: their block is cut in two again and again about the line's
/// path, and a part that the line misses is passed by. The block reaches no further than a hull, which grows with each box
/// that comes or moves, and shrinks only where no box is left. A level through which the line would take more steps than there are sixteenths of
/// its boxes is scanned.
///
/// `visit` shows a visitor rings about the place that it prefers: the first one reaches as far as a cell of the level with most
/// boxes, each later one twice as far, or four times if the ring before it had none, until the visitor looks no farther. If it looks along a line, eight parts of the line's way are shown, one
/// after another, until the visitor admits nothing that is left. Each takes a list for what it finds.
///
/// Changes take no memory, and a time that doesn't grow with the number of boxes; `new` takes some, and so does a search for
/// pairs. A query takes none but what the caller's list grows by: its candidates, more than its hits, stand behind what is
/// there until they are tested. So no query takes memory where the list is kept and has grown once.
#[derive(Drop)]
pub struct HierGrid {
    kept: GridBoxes,
    listing: GridListing,
    slots: Vec<u32>,
    found: Found,
    looked: u64,
}

impl Model for HierGrid {
    ghost use Rattle.std.specs.Ordering.{nat_cmp};
    ghost use Rattle.std.specs.Coded.{coded_ℕ};
    ghost use Rattle.std.specs.FinMap.{FinMap, code};
    ghost use Rattle.fixed_box.specs.Bounds.{Bounds, coded_bounds};
    ghost use Rattle.hier_grid.specs.Listing.{IsListing};

    ghost Value = { FinMap nat_cmp Bounds };

    ghost coded = { code coded_ℕ coded_bounds };

    ghost view = { λ g. g.kept };

    ghost invariant = { λ g. IsListing g.kept g.listing };
}

impl HierGrid {
    /// A grid with no box, with the memory for all slots.
    pub fn new(alloc: Global) -> Result<HierGrid, NoMemory>
        ensures { IfOk result (λ grid. IsFresh grid false 0) }
    {
        Ok(HierGrid {
            kept: GridBoxes::new(alloc)?,
            listing: GridListing::new(alloc),
            slots: Vec::new(alloc),
            found: Found::new(alloc),
            looked: 0,
        })
    }

    /// The table of cells: exactly the present slots have keys, each the level and the cell of its box.
    pub fn cells(&self) -> &CellTable
        ensures { AreKeyed self.now result.now }
    {
        self.kept.cells()
    }

    /// The boxes as the grid keeps them.
    pub(crate) fn kept(&self) -> &GridBoxes
        ensures { result.now ≡ self.now }
    {
        &self.kept
    }

    /// Where boxes lie in heaps, if that is known.
    pub(crate) fn heaps(&self) -> Option<&BucketList> {
        self.listing.heaps()
    }

    /// How many comparisons of two exact boxes `pairs` and `pairs_with` have made, as far as 64 bits go.
    pub fn looked(&self) -> u64 {
        self.looked
    }
}

impl Seeker for HierGrid {
    ghost bodies = { λ grid. grid };

    // Its cost isn't told: which cells are looked at is free.
    ghost costs = { λ _. None };

    /// Answers the number of comparisons of two exact boxes.
    fn seek(&self, slot: u32, out: &mut Vec<u32>) -> Result<u32, NoMemory> {
        match self.kept.boxes().box_of(slot) {
            Some(body) => push_reach(
                &self.kept,
                self.listing.heaps(),
                &SlotBox { slot, body },
                out,
            ),
            None => Ok(0),
        }
    }
}

impl PairSeeker for HierGrid {
    ghost bodies = { λ grid. grid };

    // What it costs is free.
    ghost seeks = { λ grid slots pairs _. FindsRun grid slots pairs };

    /// Answers the number of comparisons of two exact boxes.
    fn seek_pairs(&self, alloc: Global, slots: &[u32]) -> Result<(Vec<Pair>, u64), NoMemory> {
        let mut found = Found::new(alloc);
        let search = GridSearch::new(&self.kept, &self.listing);
        let looked = search.pairs_of_run(slots, &mut found)?;
        // in this thread, so that the pieces are only merged behind
        settle_pairs(&mut found.pairs);
        Ok((found.pairs, looked))
    }
}

impl BroadPhase for HierGrid {
    const COUNTS: bool = false;

    ghost bodies = { λ grid. grid };

    // No change takes memory.
    ghost spent = { λ _. false };

    ghost COUNTS = { false };

    ghost RUNS_OUT = { false };

    ghost exchanges = { λ _. 0 };

    // It changes nothing.
    ghost paired = { λ old new. new ≡ old };

    ghost sought = { λ grid. present grid };

    ghost seeks = { λ grid slots pairs _. FindsRun grid slots pairs };

    type Shared = HierGrid;

    ghost uncounted = { λ _ _. refl };

    ghost lasting = { λ _ _. refl };

    fn add(&mut self, slot: u32, body: FBox) -> Result<(), NoMemory>
        requires small { slot < SLOTS }
        requires absent { map.contains_key self.old slot ≡ false }
        // It takes no memory.
        ensures answer { result ≡ Ok tt }
        ensures bodies { self.new ≡ map.insert self.old slot body }
    {
        self.listing.note_box(slot, &body);
        self.kept.put(slot, body);
        Ok(())
    }

    fn shift(&mut self, slot: u32, body: FBox) -> Result<(), NoMemory>
        requires small { slot < SLOTS }
        requires present { map.contains_key self.old slot ≡ true }
        // It takes no memory.
        ensures answer { result ≡ Ok tt }
        ensures bodies { self.new ≡ map.insert self.old slot body }
    {
        self.listing.note_box(slot, &body);
        self.kept.set(slot, body);
        Ok(())
    }

    fn leave(&mut self, slot: u32)
        requires present { map.contains_key self.old slot ≡ true }
        ensures gone { self.new ≡ map.remove self.old slot }
    {
        self.listing.note_gone(slot);
        self.kept.take(slot);
    }

    fn pairs(&mut self, out: &mut Vec<Pair>) -> Result<(), NoMemory> {
        let many = self.kept.boxes().len() >= LISTED_FROM;
        self.listing.renew(&self.kept, many)?;
        let search = GridSearch::new(&self.kept, &self.listing);
        let looked = search.all_pairs(&mut self.slots, &mut self.found)?;
        push_rising_pairs(&mut self.found.pairs, out)?;
        self.looked = self.looked.saturating_add(looked);
        Ok(())
    }

    fn hits(&self, query: &Query, out: &mut Vec<u32>) -> Result<(), NoMemory> {
        push_hits(&self.kept, self.listing.heaps(), query, out)
    }

    fn visit<V: Visitor>(&self, room: &mut Vec<u32>, visitor: &mut V) -> Result<(), NoMemory> {
        show_boxes(self, room, visitor)
    }

    fn descends(&self) -> bool {
        true
    }

    fn box_of(&self, slot: u32) -> Option<FBox> {
        self.kept.boxes().box_of(slot)
    }

    fn len(&self) -> u32 {
        self.kept.boxes().len()
    }

    fn exchanges(&self) -> u64 {
        0
    }

    fn clear_exchanges(&mut self) {}

    // It copies all boxes, once for all pieces.
    fn prepare(&mut self) -> Result<(), NoMemory> {
        self.listing.renew(&self.kept, true)
    }

    // Each present slot is sought.
    fn pays_threads(&self) -> bool
        ensures { (result ≡ true) ↔ (FEWEST_SOUGHT ≤ length (present self.now)) }
    {
        self.kept.boxes().len() as usize >= FEWEST_SOUGHT
    }

    // Several threads search wherever they may.
    fn share(&self, alloc: Global) -> Result<Option<(&HierGrid, Vec<u32>)>, NoMemory>
        ensures shares { IfOk result (λ shared. is_some shared ≡ true) }
        ensures index { IfOk result (λ shared. IfSome shared (λ s. s.0.now ≡ self.now)) }
        ensures slots { IfOk result (λ shared. IfSome shared (λ s. s.1.items ≡ present self.now)) }
        ensures present { IfOk result (λ shared. IfSome shared (λ s. All (λ slot. map.contains_key self.now slot ≡ true) s.1.items)) }
        ensures few { IfOk result (λ shared. IfSome shared (λ s. length s.1.items < 2 ^ 32)) }
    {
        let slots = self.kept.boxes().present(alloc)?;
        Ok(Some((self, slots)))
    }

    fn merge(&mut self, found: Vec<(Vec<Pair>, u64)>, out: &mut Vec<Pair>) -> Result<(), NoMemory> {
        let looked = join_pieces(&found, self.looked, &mut self.found.pairs)?;
        push_rising_pairs(&mut self.found.pairs, out)?;
        self.looked = looked;
        Ok(())
    }
}
