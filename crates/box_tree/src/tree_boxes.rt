//! Exact boxes under slots, each inside the fat box of its leaf.

ghost use Rattle.std.specs.Prelude.{◌≡◌, OnOk, List, ◌++◌, ◌↔◌, ℕ, ◌<◌, true, false, None, Some, IfOk, IfSome, IsTrue, map as mapped, slice_index_or};
ghost use Rattle.std.specs.FinMap as map;
ghost use Rattle.fixed_box.specs.Bounds.{Bounds, encloses, fattened};
ghost use Rattle.fixed_box.specs.declared.TheConstants.{SLOTS};
ghost use Rattle.slot_lists.specs.SlotMap.{map_of};
ghost use Rattle.broad_index.specs.Held.{Holds};
ghost use Rattle.tree_nodes.specs.Tree.{leaves_in, IsTreeIn};
ghost use Rattle.box_tree.specs.declared.TheConstants.{MARGIN};
ghost use Rattle.box_tree.specs.Boxes.{fat_entry, shifted, told};
ghost use Rattle.tree_search.specs.Exact.{exact_in, IsInsideIn};
ghost use Rattle.box_tree.specs.Ties.{HaveLeaves};

use crate::leaves::Leaves;
use crate::{MARGIN, Moved};
use broad_index::{Visitor, holding_laws};
use fixed_box::{FBox, NoMemory};
use slot_lists::no_boxes;
use std::alloc::Global;
use std::marker::Model;
use tree_nodes::Nodes;
use tree_search::{BoxedTree, show_boxes};

/// The boxes under their slots, each inside the fat box of its leaf. Only `new` takes memory.
#[derive(Drop)]
pub(crate) struct TreeBoxes {
    bodies: Vec<Option<FBox>>,
    leaves: Leaves,
}

impl Model for TreeBoxes {
    ghost use Rattle.std.specs.Prelude.{◌≡◌, length};
    ghost use Rattle.fixed_box.specs.declared.TheConstants.{SLOTS};
    ghost use Rattle.box_tree.specs.Ties.{BoxLists, coded_box_lists, AreFat};

    ghost Value = { BoxLists };

    ghost coded = { coded_box_lists };

    ghost view = { λ k. record { bodies = k.bodies.items; fats = k.leaves.fats; tree = k.leaves.tree } };

    ghost invariant = { λ k. (length k.bodies.items ≡ SLOTS) × AreFat k.leaves.fats k.bodies.items };
}

impl TreeBoxes {
    /// No box, with room for all that there may be.
    pub(crate) fn new(alloc: Global) -> Result<TreeBoxes, NoMemory>
        ensures bodies { IfOk result (λ boxes. map_of boxes.bodies ≡ map.empty) }
        ensures fats { IfOk result (λ boxes. map_of boxes.fats ≡ map.empty) }
        ensures tree { IfOk result (λ boxes. boxes.tree ≡ None) }
    {
        Ok(TreeBoxes {
            bodies: no_boxes(alloc)?,
            leaves: Leaves::new(alloc)?,
        })
    }

    /// A law for proofs, with nothing to run: each box has a leaf, and lies in its fat box.
    pub(crate) fn kept_law(&self)
        ensures kept { HaveLeaves self.now.tree self.now.bodies self.now.fats }
        ensures inside { IsInsideIn self.now.bodies self.now.tree }
        ensures held { Holds (map_of self.now.bodies) (exact_in self.now.bodies self.now.tree) }
    {
        self.leaves.leaf_law();
    }

    /// The tree. Its leaves have exactly the present slots, each with its fat box.
    pub(crate) fn nodes(&self) -> &Nodes
        ensures value { result.now ≡ self.now.tree }
        ensures tree { IsTreeIn self.now.tree }
        ensures leaves { Holds (map_of self.now.fats) (mapped fat_entry (leaves_in self.now.tree)) }
        ensures present { (slot : ℕ) → map.contains_key (map_of self.now.fats) slot ≡ map.contains_key (map_of self.now.bodies) slot }
    {
        self.leaves.leaf_law();
        self.leaves.nodes()
    }

    /// What a search reads of them.
    pub(crate) fn boxed_tree(&self) -> BoxedTree<'_>
        ensures bodies { result.bodies ≡ self.now.bodies }
        ensures tree { result.tree ≡ self.now.tree }
    {
        self.kept_law();
        BoxedTree::new(self.leaves.nodes(), &self.bodies)
    }

    /// Shows the boxes to a visitor, except those in hulls that it doesn't admit.
    pub(crate) fn show<V: Visitor>(&self, visitor: &mut V) -> Result<(), NoMemory>
        ensures seen { OnOk result ((seen : List (ℕ × Bounds)) → V.saw visitor.old seen
            → V.saw visitor.new (seen ++ map.entries (map_of self.now.bodies))) }
        ensures kept { OnOk result (V.keeps visitor.old visitor.new) }
    {
        holding_laws();
        self.kept_law();
        show_boxes(&self.boxed_tree(), visitor)
    }

    /// How many slots are present. It looks at none of them.
    pub(crate) fn len(&self) -> u32
        ensures { result ≡ map.len (map_of self.now.bodies) }
    {
        self.leaves.leaf_law();
        self.leaves.nodes().len() as u32
    }

    /// The boxes by their slots.
    pub(crate) fn bodies(&self) -> &[Option<FBox>]
        ensures { result.now ≡ self.now.bodies }
    {
        &self.bodies
    }

    /// The box of a slot, and `None` where the slot is absent.
    pub(crate) fn box_of(&self, slot: u32) -> Option<FBox>
        ensures value { result ≡ map.get (map_of self.now.bodies) slot }
        ensures listed { result ≡ slice_index_or self.now.bodies slot None }
    {
        let slot = slot as usize;
        if slot < self.bodies.len() {
            self.bodies[slot]
        } else {
            None
        }
    }

    /// The fat box of a slot, and `None` exactly where the slot is absent.
    pub(crate) fn fat_of(&self, slot: u32) -> Option<FBox>
        ensures value { result ≡ map.get (map_of self.now.fats) slot }
        ensures none { (result ≡ None) ↔ (map.contains_key (map_of self.now.bodies) slot ≡ false) }
        ensures inside { (body : Bounds) → map.get (map_of self.now.bodies) slot ≡ Some body →
            IfSome result (λ fat. IsTrue (encloses fat body)) }
    {
        if self.box_of(slot).is_some() {
            Some(self.leaves.fat_of(slot))
        } else {
            None
        }
    }

    /// Puts a box under an absent slot.
    pub(crate) fn put(&mut self, slot: u32, body: FBox)
        requires small { slot < SLOTS }
        requires absent { map.contains_key (map_of self.old.bodies) slot ≡ false }
        ensures bodies { map_of self.new.bodies ≡ map.insert (map_of self.old.bodies) slot body }
        ensures fats { map_of self.new.fats ≡ map.insert (map_of self.old.fats) slot (fattened body MARGIN) }
    {
        self.leaves.leaf_law();
        self.bodies[slot as usize] = Some(body);
        self.leaves.add(slot, body.fatten(MARGIN));
    }

    /// Gives a present slot another box, and tells whether it has another fat box.
    pub(crate) fn set(&mut self, slot: u32, body: FBox) -> Moved
        requires present { map.contains_key (map_of self.old.bodies) slot ≡ true }
        ensures told { result ≡ told (map_of self.old.fats) slot body }
        ensures bodies { map_of self.new.bodies ≡ map.insert (map_of self.old.bodies) slot body }
        ensures fats { map_of self.new.fats ≡ shifted (map_of self.old.fats) slot body }
        ensures small { slot < SLOTS }
    {
        self.leaves.leaf_law();
        let at = slot as usize;
        self.bodies[at] = Some(body);
        if self.leaves.fat_of(slot).holds_box(&body) {
            return Moved::Inside;
        }
        self.leaves.relink(slot, body.fatten(MARGIN));
        Moved::Relinked
    }

    /// Takes a present slot out.
    pub(crate) fn take(&mut self, slot: u32)
        requires present { map.contains_key (map_of self.old.bodies) slot ≡ true }
        ensures bodies { map_of self.new.bodies ≡ map.remove (map_of self.old.bodies) slot }
        ensures fats { map_of self.new.fats ≡ map.remove (map_of self.old.fats) slot }
        ensures small { slot < SLOTS }
    {
        self.leaves.leaf_law();
        self.bodies[slot as usize] = None;
        self.leaves.take(slot);
    }
}
