//! Fat boxes under slots as leaves of a tree, and when a changed tree is rebuilt.

ghost use Rattle.std.specs.Prelude.{◌≡◌, ◌<◌, ◌≤◌, true, None, Some, is_some, slice_index_or, slice_set, IfOk, ℕ};
ghost use Rattle.fixed_box.specs.declared.TheConstants.{SLOTS};
ghost use Rattle.box_tree.specs.Ties.{Leafed};

use fixed_box::{FBox, NoMemory, SLOTS};
use std::alloc::Global;
use std::marker::Model;
use tree_nodes::{Nodes, tree_laws};

// The fewest changes of a tree between two rebuilds.
const FEWEST_CHANGES: usize = 16;

// How many changes there are between two rebuilds for each leaf. With more of them searches cost more than rebuilds do.
const CHANGES_PER_LEAF: usize = 8;

/// Fat boxes under slots, each a leaf of a tree. Only `new` takes memory.
///
/// A leaf whose fat box changes moves in its place, or is put where it fits best. After some such changes for each leaf the
/// tree is rebuilt.
#[derive(Drop)]
pub(crate) struct Leaves {
    // A leaf's node has its slot and its fat box.
    nodes: Nodes,
    // Of each slot that has a leaf the number of the leaf.
    numbers: Vec<usize>,
    // How many more changes of the tree there are before it is rebuilt.
    until_rebuild: usize,
}

impl Model for Leaves {
    ghost use Rattle.box_tree.specs.Ties.{LeafLists, coded_leaf_lists, fats_by, Ties};
    ghost use Rattle.tree_nodes.specs.Tree.{leaves_in};

    ghost Value = { LeafLists };

    ghost coded = { coded_leaf_lists };

    ghost view = { λ l. record { fats = fats_by (leaves_in l.nodes); tree = l.nodes } };

    ghost invariant = { λ l. Ties l.nodes l.numbers.items };
}

impl Leaves {
    /// No leaf, with room for all that there may be.
    pub(crate) fn new(alloc: Global) -> Result<Leaves, NoMemory>
        ensures tree { IfOk result (λ leaves. leaves.tree ≡ None) }
        ensures fats { IfOk result (λ leaves. (k : ℕ) → slice_index_or leaves.fats k None ≡ None) }
    {
        Ok(Leaves {
            nodes: Nodes::new(alloc)?,
            numbers: vec![in alloc; 0; SLOTS as usize]?,
            until_rebuild: 0,
        })
    }

    /// A law for proofs, with nothing to run: the leaves of the tree are the slots with fat boxes.
    pub(crate) fn leaf_law(&self)
        ensures { Leafed self.now.tree self.now.fats }
    {
        // what a value keeps is known where it is read
        let _numbers = &self.numbers;
    }

    /// The tree.
    pub(crate) fn nodes(&self) -> &Nodes
        ensures { result.now ≡ self.now.tree }
    {
        &self.nodes
    }

    /// The fat box of a slot that has one: it stands in the leaf's node.
    pub(crate) fn fat_of(&self, slot: u32) -> FBox
        requires { is_some (slice_index_or self.now.fats slot None) ≡ true }
        ensures { slice_index_or self.now.fats slot None ≡ Some result }
    {
        tree_laws();
        self.nodes.node(self.numbers[slot as usize]).bounds
    }

    /// Gives a slot that has none a leaf.
    pub(crate) fn add(&mut self, slot: u32, fat: FBox)
        requires small { slot < SLOTS }
        requires absent { slice_index_or self.old.fats slot None ≡ None }
        ensures { self.new.fats ≡ slice_set self.old.fats slot (Some fat) }
    {
        self.put(slot, fat);
        self.count_change();
    }

    /// Gives the leaf of a slot another box.
    pub(crate) fn relink(&mut self, slot: u32, fat: FBox)
        requires { is_some (slice_index_or self.old.fats slot None) ≡ true }
        ensures { self.new.fats ≡ slice_set self.old.fats slot (Some fat) }
    {
        self.renew(slot, fat);
        self.count_change();
    }

    /// Takes the leaf of a slot away.
    pub(crate) fn take(&mut self, slot: u32)
        requires { is_some (slice_index_or self.old.fats slot None) ≡ true }
        ensures { self.new.fats ≡ slice_set self.old.fats slot None }
    {
        tree_laws();
        self.nodes.drop_leaf(self.numbers[slot as usize]);
    }

    // Counts a change of the tree, and rebuilds it after some for each leaf: the more it is changed, the more nodes a
    // search looks at.
    fn count_change(&mut self)
        ensures { self.new.fats ≡ self.old.fats }
    {
        if 0 < self.until_rebuild {
            self.until_rebuild -= 1;
        } else {
            let changes = self.nodes.rebuild().saturating_mul(CHANGES_PER_LEAF);
            self.until_rebuild = changes.max(FEWEST_CHANGES);
        }
    }

    // Puts a leaf where it fits best.
    fn put(&mut self, slot: u32, fat: FBox)
        requires small { slot < SLOTS }
        requires absent { slice_index_or self.old.fats slot None ≡ None }
        ensures { self.new.fats ≡ slice_set self.old.fats slot (Some fat) }
    {
        self.numbers[slot as usize] = self.nodes.add_leaf(slot, fat);
    }

    // Gives the leaf of a slot another box in its place.
    fn move_in_place(&mut self, slot: u32, fat: FBox)
        requires { is_some (slice_index_or self.old.fats slot None) ≡ true }
        ensures { self.new.fats ≡ slice_set self.old.fats slot (Some fat) }
    {
        tree_laws();
        self.nodes.move_leaf(self.numbers[slot as usize], fat);
    }

    // Moves a leaf in its place where its box stays near, and else puts it where it fits best.
    fn renew(&mut self, slot: u32, fat: FBox)
        requires { is_some (slice_index_or self.old.fats slot None) ≡ true }
        ensures { self.new.fats ≡ slice_set self.old.fats slot (Some fat) }
    {
        self.leaf_law();
        if is_near(&self.fat_of(slot), &fat) {
            self.move_in_place(slot, fat);
        } else {
            self.take(slot);
            self.put(slot, fat);
        }
    }
}

// Whether a leaf may stay in its place, for speed alone: in a grid whose cells are at least four times as long as the box,
// its lower corner stays in its cell. So no leaf that is only moved goes far from where it was put, however often it moves.
// In shorter cells more leaves are dropped and added than searches gain by it, and in longer ones searches look at more.
fn is_near(old: &FBox, fat: &FBox) -> bool {
    let bits = (34 - fat.longest_side().leading_zeros()).min(32);
    let (from, to) = (old.lo(), fat.lo());
    is_one_cell(from.x, to.x, bits)
        && is_one_cell(from.y, to.y, bits)
        && is_one_cell(from.z, to.z, bits)
}

// Whether two coordinates lie in one cell of a grid with sides of `2^bits` raw units.
fn is_one_cell(a: i32, b: i32, bits: u32) -> bool
    requires { bits ≤ 32 }
{
    i64::from(a) >> bits == i64::from(b) >> bits
}
