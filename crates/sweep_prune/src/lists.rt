//! The endpoints of all boxes in order, one list for each axis, and how a node is carried to its place.

ghost use Rattle.std.specs.Prelude.{◌≡◌, ◌<◌, ◌+◌, ◌*◌, true, false, ◌++◌, ◌∷◌, [], ℕ, List, IfOk, OnOk, take, vec_len};
ghost use Rattle.endpoint_list.specs.NodeList.{has, first_of, IsDistinct};
ghost use Rattle.sweep_prune.specs.Core.{appended, entered, withdrawn, left};
ghost use Rattle.sweep_prune.specs.Places.{on, with_on};
ghost use Rattle.sweep_prune.specs.declared.axis.Axis.{Axis};

use crate::Axis;
use endpoint_list::{EndList, NODES};
use fixed_box::{NoMemory, SLOTS};
use std::alloc::Global;

/// A list of endpoints for each axis.
#[derive(Drop)]
pub struct Lists {
    pub x: EndList,
    pub y: EndList,
    pub z: EndList,
}

impl Lists {
    // Three empty lists, with the memory for all nodes.
    pub(crate) fn new(alloc: Global) -> Result<Lists, NoMemory>
        ensures { IfOk result (λ lists. lists ≡ record { x = []; y = []; z = [] }) }
    {
        Ok(Lists {
            x: EndList::new(alloc)?,
            y: EndList::new(alloc)?,
            z: EndList::new(alloc)?,
        })
    }

    // The list of an axis.
    pub(crate) fn list(&self, axis: Axis) -> &EndList
        ensures { result.now ≡ on axis self.now }
    {
        match axis {
            Axis::X => &self.x,
            Axis::Y => &self.y,
            Axis::Z => &self.z,
        }
    }

    // A node changes places with the next one on an axis.
    #[inline(always)]
    pub(crate) fn exchange(&mut self, axis: Axis, node: u32, other: u32)
        requires next { (before : List ℕ) × (after : List ℕ) × (on axis self.old ≡ before ++ node ∷ other ∷ after) }
        ensures { (before after : List ℕ) → on axis self.old ≡ before ++ node ∷ other ∷ after
            → self.new ≡ with_on axis (before ++ other ∷ node ∷ after) self.old }
    {
        match axis {
            Axis::X => self.x.exchange_neighbours(node, other),
            Axis::Y => self.y.exchange_neighbours(node, other),
            Axis::Z => self.z.exchange_neighbours(node, other),
        }
    }

    // A node comes to stand before another one on an axis, or last.
    pub(crate) fn carry(&mut self, axis: Axis, node: u32, after: Option<u32>)
        requires small { node < NODES }
        requires distinct { IsDistinct (on axis self.old) }
        requires cut { (front : List ℕ) × (back : List ℕ) × (ys : List ℕ) × (zs : List ℕ)
            × (on axis self.old ≡ front ++ node ∷ back) × (front ++ back ≡ ys ++ zs) × (after ≡ first_of zs) }
        ensures { (front back ys zs : List ℕ) → on axis self.old ≡ front ++ node ∷ back → front ++ back ≡ ys ++ zs
            → after ≡ first_of zs → self.new ≡ with_on axis (ys ++ node ∷ zs) self.old }
    {
        match axis {
            Axis::X => carry(&mut self.x, node, after),
            Axis::Y => carry(&mut self.y, node, after),
            Axis::Z => carry(&mut self.z, node, after),
        }
    }

    // A slot's nodes come last on each list.
    pub(crate) fn enter(&mut self, slot: u32)
        requires small { slot < SLOTS }
        requires no_min { (axis : Axis) → has (2 * slot) (on axis self.old) ≡ false }
        requires no_max { (axis : Axis) → has (2 * slot + 1) (on axis self.old) ≡ false }
        ensures { self.new ≡ entered slot self.old }
    {
        append(&mut self.x, slot);
        append(&mut self.y, slot);
        append(&mut self.z, slot);
    }

    // A slot's nodes leave each list.
    pub(crate) fn quit(&mut self, slot: u32)
        requires small { slot < SLOTS }
        requires distinct { (axis : Axis) → IsDistinct (on axis self.old) }
        requires min { (axis : Axis) → has (2 * slot) (on axis self.old) ≡ true }
        requires max { (axis : Axis) → has (2 * slot + 1) (on axis self.old) ≡ true }
        ensures { self.new ≡ left slot self.old }
    {
        withdraw(&mut self.x, slot);
        withdraw(&mut self.y, slot);
        withdraw(&mut self.z, slot);
    }
}

// A node comes to stand before another one, or last.
fn carry(list: &mut EndList, node: u32, after: Option<u32>)
    requires small { node < NODES }
    requires distinct { IsDistinct list.old }
    requires cut { (front : List ℕ) × (back : List ℕ) × (ys : List ℕ) × (zs : List ℕ)
        × (list.old ≡ front ++ node ∷ back) × (front ++ back ≡ ys ++ zs) × (after ≡ first_of zs) }
    ensures { (front back ys zs : List ℕ) → list.old ≡ front ++ node ∷ back → front ++ back ≡ ys ++ zs
        → after ≡ first_of zs → list.new ≡ ys ++ node ∷ zs }
{
    list.unlink(node);
    match after {
        Some(other) => list.put_before(node, other),
        None => list.push_last(node),
    }
}

// Puts a slot's minimum and then its maximum last.
fn append(list: &mut EndList, slot: u32)
    requires small { slot < SLOTS }
    requires no_min { has (2 * slot) list.old ≡ false }
    requires no_max { has (2 * slot + 1) list.old ≡ false }
    ensures { list.new ≡ appended slot list.old }
{
    list.push_last(2 * slot);
    list.push_last(2 * slot + 1);
}

// Takes a slot's nodes out.
fn withdraw(list: &mut EndList, slot: u32)
    requires small { slot < SLOTS }
    requires distinct { IsDistinct list.old }
    requires min { has (2 * slot) list.old ≡ true }
    requires max { has (2 * slot + 1) list.old ≡ true }
    ensures { list.new ≡ withdrawn slot list.old }
{
    list.unlink(2 * slot);
    list.unlink(2 * slot + 1);
}

// Appends the nodes of a list in its order. What was there stays, after an `Err` too.
pub(crate) fn push_nodes(list: &EndList, out: &mut Vec<u32>) -> Result<(), NoMemory>
    ensures ok { OnOk result (out.new.items ≡ out.old.items ++ list.now) }
    ensures kept { take (vec_len out.old) out.new.items ≡ out.old.items }
{
    let mut at = list.first();
    'nodes: while let Some(node) = at {
        out.push(node)?;
        at = list.next(node);
    }
    Ok(())
}
