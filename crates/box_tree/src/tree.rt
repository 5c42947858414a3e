//! The broad phase over the tree: boxes come, move and go, and pairs are sought for touched slots alone.

ghost use Rattle.std.specs.Prelude.{◌≡◌, ◌↔◌, ℕ, ◌≤◌, ◌<◌, ◌^◌, ◌++◌, true, false, None, Some, is_some, Ok, IfOk, IfSome, OnOk, OnErr};
ghost use Rattle.std.specs.Prelude.{IsTrue, count_by, length, map as mapped, slice_set, refl};
ghost use Rattle.std.specs.FinMap as map;
ghost use Rattle.std.specs.List.{All};
ghost use Rattle.fixed_box.specs.Bounds.{Bounds, encloses, fattened};
ghost use Rattle.broad_index.specs.Found.{found};
ghost use Rattle.broad_index.specs.Fresh.{IsFresh};
ghost use Rattle.broad_index.specs.Held.{Holds};
ghost use Rattle.tree_search.specs.Visits.{visits_by_in};
ghost use Rattle.tree_nodes.specs.Tree.{height_in, leaves_in, IsTreeIn};
ghost use Rattle.fixed_box.specs.declared.TheConstants.{SLOTS};
ghost use Rattle.box_tree.specs.declared.TheConstants.{MARGIN};
ghost use Rattle.box_tree.specs.Boxes.{no_boxes as outset, shifted, told, fat_entry, cost, searched, shared_slots, Finds};

use crate::Moved;
use crate::renewal::renew;
use crate::room::Room;
use crate::search::reach;
use crate::touched::{push_shared, search_run, search_touched};
use crate::tree_boxes::TreeBoxes;
use crate::tree_listing::TreeListing;
use broad_index::{
    BroadPhase, FEWEST_SOUGHT, Pair, PairSeeker, Query, Seeker, Visitor, holding_laws, join_pieces,
    keeping_laws, pays_threads, push_rising_slots, settle_pairs, settle_slots_from,
};
use fixed_box::{FBox, NoMemory};
use slot_lists::SlotMarks;
use std::alloc::Global;
use std::marker::Model;
use tree_nodes::{MOST_HEIGHT, Nodes};
use tree_search::{SearchRoom, TreeFindings, push_hits};

/// Moving boxes under slots, in a balanced tree of fat boxes that keeps the pairs it found. Other engines call it a dynamic
/// AABB tree: its leaves are proxies, a fat box is an enlarged AABB, the touched slots are a move buffer, and the kept pairs
/// a pair cache.
///
/// A leaf's fat box is the box with a margin of [`MARGIN`] around it. A box that moves inside it changes nothing of the
/// tree. Each slot that comes, moves or goes is touched, and `pairs` seeks for touched slots alone, by one descent each:
/// the pairs of the others are kept from the last call. So a frame costs the moved boxes and the pairs.
///
/// A leaf whose fat box changes moves in its place, or is put where it fits best. After some such changes for each leaf the
/// tree is rebuilt, so that a search looks at few nodes however long the boxes move. Where many slots are touched, `pairs`
/// lists the nodes in preorder and searches for eight slots at once whose leaves stand side by side, and so does each piece of
/// `pairs_with`, for which the nodes are listed once.
///
/// Changes take no memory; `new` and every search do. The structure is never spent.
#[derive(Drop)]
pub struct BoxTree {
    boxes: TreeBoxes,
    // Which slots are touched.
    marks: SlotMarks,
    // The pairs that were found last. Those with a touched slot may be wrong by now.
    kept: Vec<Pair>,
    looked: u64,
    listing: TreeListing,
    room: Room,
}

impl Model for BoxTree {
    ghost use Rattle.box_tree.specs.Boxes.{Boxes, coded_boxes};
    ghost use Rattle.slot_lists.specs.SlotMap.{map_of};
    ghost use Rattle.box_tree.specs.Whole.{Whole};

    ghost Value = { Boxes };

    ghost coded = { coded_boxes };

    ghost view = { λ t. record {
      bodies = map_of t.boxes.bodies;
      fats = map_of t.boxes.fats;
      tree = t.boxes.tree;
      touched = t.marks;
      looked = t.looked;
    } };

    ghost invariant = { λ t. Whole t.boxes t.marks t.kept.items t.listing };
}

impl BoxTree {
    /// No box, with room for all that there may be.
    pub fn new(alloc: Global) -> Result<BoxTree, NoMemory>
        ensures fresh { IfOk result (λ tree. IsFresh tree.bodies false 0) }
        ensures none { IfOk result (λ tree. tree ≡ outset) }
    {
        Ok(BoxTree {
            boxes: TreeBoxes::new(alloc)?,
            marks: SlotMarks::new(alloc)?,
            kept: Vec::new(alloc),
            looked: 0,
            listing: TreeListing::new(alloc),
            room: Room::new(alloc)?,
        })
    }

    /// Does what `shift` does, and tells whether the slot has another fat box: exactly where the new box isn't inside the
    /// old one.
    pub fn shift_told(&mut self, slot: u32, body: FBox) -> Moved
        requires present { map.contains_key self.old.bodies slot ≡ true }
        ensures told { result ≡ told self.old.fats slot body }
        ensures bodies { self.new.bodies ≡ map.insert self.old.bodies slot body }
        ensures fats { self.new.fats ≡ shifted self.old.fats slot body }
        ensures touched { self.new.touched ≡ slice_set self.old.touched slot true }
        ensures looked { self.new.looked ≡ self.old.looked }
    {
        keeping_laws();
        self.listing.fresh = false;
        let moved = self.boxes.set(slot, body);
        self.marks.set(slot);
        moved
    }

    /// Does what `hits` does, and answers how many nodes it looked at: the top, and the children of each node whose hull the query
    /// meets. It keeps what it finds in `out`.
    pub fn hits_told(&self, query: &Query, out: &mut Vec<u32>) -> Result<u32, NoMemory>
        ensures ok { OnOk result (out.new.items ≡ out.old.items ++ found self.now.bodies query.now) }
        ensures count { IfOk result (λ n. n ≡ visits_by_in self.now.tree query.now) }
        ensures err { OnErr result (out.new.items ≡ out.old.items) }
    {
        holding_laws();
        self.boxes.kept_law();
        let before = out.len();
        match push_hits(&self.boxes.boxed_tree(), query, out) {
            Ok(count) => {
                settle_slots_from(before, out);
                Ok(count)
            }
            Err(e) => {
                out.truncate(before);
                Err(e)
            }
        }
    }

    /// The fat box of a slot, and `None` exactly where the slot is absent.
    pub fn fat_of(&self, slot: u32) -> Option<FBox>
        ensures fat { result ≡ map.get self.now.fats slot }
        ensures none { (result ≡ None) ↔ (map.contains_key self.now.bodies slot ≡ false) }
        ensures inside { (body : Bounds) → map.get self.now.bodies slot ≡ Some body →
            IfSome result (λ fat. IsTrue (encloses fat body)) }
    {
        self.boxes.fat_of(slot)
    }

    /// The kept tree. Its leaves have exactly the present slots, each with its fat box.
    pub fn nodes(&self) -> &Nodes
        ensures value { result.now ≡ self.now.tree }
        ensures tree { IsTreeIn self.now.tree }
        ensures leaves { Holds self.now.fats (mapped fat_entry (leaves_in self.now.tree)) }
        ensures present { (slot : ℕ) → map.contains_key self.now.fats slot ≡ map.contains_key self.now.bodies slot }
    {
        self.boxes.nodes()
    }

    /// The height of the tree, at most 18.
    pub fn height(&self) -> u8
        ensures value { result ≡ height_in self.now.tree }
        ensures most { result ≤ MOST_HEIGHT }
    {
        self.boxes.nodes().height()
    }

    /// How many nodes `pairs` and `pairs_with` have looked at. It stops at its greatest value.
    pub fn looked(&self) -> u64
        ensures value { result ≡ self.now.looked }
        ensures marks { length self.now.touched ≡ SLOTS }
    {
        // its clause says how many marks there are, as `marks` does here
        let _marks = self.marks.as_slice();
        self.looked
    }
}

impl BroadPhase for BoxTree {
    const COUNTS: bool = false;

    ghost bodies = { λ tree. tree.bodies };

    ghost spent = { λ _. false };

    ghost COUNTS = { false };

    ghost RUNS_OUT = { false };

    ghost exchanges = { λ _. 0 };

    ghost paired = { λ old new. new ≡ searched old };

    ghost sought = { λ tree. shared_slots tree };

    ghost seeks = { λ tree slots pairs number. Finds tree slots pairs number };

    type Shared = BoxTree;

    ghost uncounted = { λ _ _. refl };

    ghost lasting = { λ _ _. refl };

    fn add(&mut self, slot: u32, body: FBox) -> Result<(), NoMemory>
        requires small { slot < SLOTS }
        requires absent { map.contains_key self.old.bodies slot ≡ false }
        // It takes no memory.
        ensures answer { result ≡ Ok tt }
        ensures bodies { self.new.bodies ≡ map.insert self.old.bodies slot body }
        ensures fats { self.new.fats ≡ map.insert self.old.fats slot (fattened body MARGIN) }
        ensures touched { self.new.touched ≡ slice_set self.old.touched slot true }
        ensures looked { self.new.looked ≡ self.old.looked }
    {
        keeping_laws();
        self.listing.fresh = false;
        self.boxes.put(slot, body);
        self.marks.set(slot);
        Ok(())
    }

    fn shift(&mut self, slot: u32, body: FBox) -> Result<(), NoMemory>
        requires present { map.contains_key self.old.bodies slot ≡ true }
        // It takes no memory.
        ensures answer { result ≡ Ok tt }
        ensures bodies { self.new.bodies ≡ map.insert self.old.bodies slot body }
        ensures fats { self.new.fats ≡ shifted self.old.fats slot body }
        ensures touched { self.new.touched ≡ slice_set self.old.touched slot true }
        ensures looked { self.new.looked ≡ self.old.looked }
    {
        self.shift_told(slot, body);
        Ok(())
    }

    fn leave(&mut self, slot: u32)
        requires present { map.contains_key self.old.bodies slot ≡ true }
        ensures gone { self.new.bodies ≡ map.remove self.old.bodies slot }
        ensures fats { self.new.fats ≡ map.remove self.old.fats slot }
        ensures touched { self.new.touched ≡ slice_set self.old.touched slot true }
        ensures looked { self.new.looked ≡ self.old.looked }
    {
        keeping_laws();
        self.listing.fresh = false;
        self.boxes.take(slot);
        self.marks.set(slot);
    }

    fn pairs(&mut self, out: &mut Vec<Pair>) -> Result<(), NoMemory> {
        let looked = search_touched(
            &self.boxes,
            &self.marks,
            self.looked,
            &mut self.listing,
            &mut self.room,
        )?;
        renew(&mut self.kept, &mut self.marks, &mut self.room, out)?;
        self.looked = looked;
        Ok(())
    }

    fn hits(&self, query: &Query, out: &mut Vec<u32>) -> Result<(), NoMemory> {
        self.hits_told(query, out)?;
        Ok(())
    }

    // It needs no room.
    fn visit<V: Visitor>(&self, _room: &mut Vec<u32>, visitor: &mut V) -> Result<(), NoMemory> {
        self.boxes.show(visitor)
    }

    fn descends(&self) -> bool {
        true
    }

    fn box_of(&self, slot: u32) -> Option<FBox> {
        self.boxes.box_of(slot)
    }

    // Each present slot has one leaf.
    fn len(&self) -> u32 {
        self.boxes.len()
    }

    fn exchanges(&self) -> u64 {
        0
    }

    fn clear_exchanges(&mut self)
        ensures { self.new ≡ self.old }
    {}

    // Lists the nodes once for all pieces.
    fn prepare(&mut self) -> Result<(), NoMemory> {
        self.listing.refresh(&self.boxes)
    }

    // Each touched slot that is present is sought; those that left count here too.
    fn pays_threads(&self) -> bool
        ensures { (result ≡ true) ↔ (FEWEST_SOUGHT ≤ count_by (λ mark. mark) self.now.touched) }
    {
        pays_threads(self.marks.as_slice())
    }

    // Several threads search wherever they may.
    fn share(&self, alloc: Global) -> Result<Option<(&BoxTree, Vec<u32>)>, NoMemory>
        ensures shares { IfOk result (λ shared. is_some shared ≡ true) }
        ensures index { IfOk result (λ shared. IfSome shared (λ s. s.0.now ≡ self.now)) }
        ensures slots { IfOk result (λ shared. IfSome shared (λ s. s.1.items ≡ shared_slots self.now)) }
        ensures present { IfOk result (λ shared. IfSome shared (λ s. All (λ slot. map.contains_key self.now.bodies slot ≡ true) s.1.items)) }
        ensures few { IfOk result (λ shared. IfSome shared (λ s. length s.1.items < 2 ^ 32)) }
    {
        self.boxes.kept_law();
        let mut slots = Vec::new(alloc);
        push_shared(&self.boxes, &self.listing, &self.marks, &mut slots)?;
        Ok(Some((self, slots)))
    }

    fn merge(&mut self, found: Vec<(Vec<Pair>, u64)>, out: &mut Vec<Pair>) -> Result<(), NoMemory> {
        holding_laws();
        keeping_laws();
        self.boxes.kept_law();
        let counted = join_pieces(&found, self.looked, &mut self.room.found.pairs)?;
        renew(&mut self.kept, &mut self.marks, &mut self.room, out)?;
        self.looked = counted;
        Ok(())
    }
}

impl PairSeeker for BoxTree {
    ghost bodies = { λ tree. tree.bodies };

    ghost seeks = { λ tree slots pairs number. Finds tree slots pairs number };

    fn seek_pairs(&self, alloc: Global, slots: &[u32]) -> Result<(Vec<Pair>, u64), NoMemory> {
        holding_laws();
        keeping_laws();
        self.boxes.kept_law();
        let mut found = TreeFindings::new(alloc);
        let cost = search_run(
            &self.boxes,
            &self.listing,
            slots,
            0,
            &mut SearchRoom::new(alloc)?,
            &mut found,
        )?;
        // in this thread, so that the pieces are only merged behind
        settle_pairs(&mut found.pairs);
        Ok((found.pairs, cost))
    }
}

impl Seeker for BoxTree {
    ghost bodies = { λ tree. tree.bodies };

    ghost costs = { λ tree. Some (cost tree) };

    fn seek(&self, slot: u32, out: &mut Vec<u32>) -> Result<u32, NoMemory> {
        holding_laws();
        self.boxes.kept_law();
        let alloc = *out.allocator();
        let mut met = Vec::new(alloc);
        let mut reached = Vec::new(alloc);
        let count = reach(&self.boxes, slot, &mut met, &mut reached)?;
        push_rising_slots(&mut reached, out)?;
        Ok(count)
    }
}
