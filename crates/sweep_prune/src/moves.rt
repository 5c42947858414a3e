//! A box that moves or comes in: each of its endpoints walks to its new place on each axis.

ghost use Rattle.std.specs.Prelude.{◌≡◌, ◌+◌, ◌<◌, ◌≤◌, ◌^◌, ℕ, true, false, Some, OnOk, ◌-◌, ◌*◌, List, ◌/◌, length, slice_index, slice_set};
ghost use Rattle.std.specs.Ordering.{nat_cmp};
ghost use Rattle.std.specs.FinMap.{FinMap, get, contains_key};
ghost use Rattle.fixed_box.specs.Bounds.{Bounds};
ghost use Rattle.sweep_prune.specs.Core.{entered, appended};
ghost use Rattle.sweep_prune.specs.Sweep.{SweepKeeps, SweepMoved, SweepAdded, AxisKeeps, AxisMoved, AxisAdded};
ghost use Rattle.sweep_prune.specs.declared.lists.Lists.{Lists};
ghost use Rattle.sweep_prune.specs.Keyed.{coord};
ghost use Rattle.sweep_prune.specs.Places.{on, with_on};
ghost use Rattle.sweep_prune.specs.Walks.{MayMove, Moved, MayMoveTwo, MovedTwo, Rising, IsFreeKey, Rekeyed};
ghost use Rattle.endpoint_list.specs.NodeList.{has};

use crate::Axis;
use crate::counted_lists::Core;
use crate::direction::Direction;
use crate::key_number::key_numbers;
use crate::sweep::walk;
use endpoint_list::NODES;
use fixed_box::{FBox, NoMemory, SLOTS};

// The keys of all nodes on each axis, as numbers, by node.
#[derive(Drop)]
pub(crate) struct Keys {
    pub(crate) x: Vec<u64>,
    pub(crate) y: Vec<u64>,
    pub(crate) z: Vec<u64>,
}

// A present slot gets another box.
pub(crate) fn move_box(
    core: &mut Core,
    keys: &mut Keys,
    slot: u32,
    body: FBox,
) -> Result<(), NoMemory>
    requires slot { slot < SLOTS }
    requires ready { (bodies : FinMap nat_cmp Bounds)
        × SweepKeeps bodies keys.old.x.items keys.old.y.items keys.old.z.items core.old.lists
        × (contains_key bodies slot ≡ true) }
    requires countable { core.old.exchanged ≤ 2 ^ 63 }
    ensures { OnOk result ((bodies : FinMap nat_cmp Bounds) (was : Bounds)
        → SweepKeeps bodies keys.old.x.items keys.old.y.items keys.old.z.items core.old.lists
        → get bodies slot ≡ Some was
        → SweepMoved bodies slot was body keys.new.x.items keys.new.y.items keys.new.z.items core.old core.new) }
{
    move_axis(core, Axis::X, &mut keys.x, slot, body)?;
    move_axis(core, Axis::Y, &mut keys.y, slot, body)?;
    move_axis(core, Axis::Z, &mut keys.z, slot, body)
}

// A slot whose nodes stand last on each axis gets its places.
pub(crate) fn place_box(
    core: &mut Core,
    keys: &mut Keys,
    slot: u32,
    body: FBox,
) -> Result<(), NoMemory>
    requires slot { slot < SLOTS }
    requires ready { (bodies : FinMap nat_cmp Bounds) × (ls : Lists)
        × SweepKeeps bodies keys.old.x.items keys.old.y.items keys.old.z.items ls × (contains_key bodies slot ≡ false)
        × (core.old.lists ≡ entered slot ls) }
    requires countable { core.old.exchanged ≤ 2 ^ 63 }
    ensures { OnOk result ((bodies : FinMap nat_cmp Bounds) (ls : Lists)
        → SweepKeeps bodies keys.old.x.items keys.old.y.items keys.old.z.items ls → contains_key bodies slot ≡ false
        → core.old.lists ≡ entered slot ls
        → SweepAdded bodies slot body keys.new.x.items keys.new.y.items keys.new.z.items core.old core.new) }
{
    place_axis(core, Axis::X, &mut keys.x, slot, body)?;
    place_axis(core, Axis::Y, &mut keys.y, slot, body)?;
    place_axis(core, Axis::Z, &mut keys.z, slot, body)
}

// A present slot gets another box on an axis.
pub(crate) fn move_axis(
    core: &mut Core,
    axis: Axis,
    keys: &mut Vec<u64>,
    slot: u32,
    body: FBox,
) -> Result<(), NoMemory>
    requires slot { slot < SLOTS }
    requires ready { (bodies : FinMap nat_cmp Bounds)
        × AxisKeeps bodies (coord axis) keys.old.items (on axis core.old.lists)
        × (contains_key bodies slot ≡ true) }
    requires countable { core.old.exchanged + 2 * NODES < 2 ^ 64 - 1 }
    ensures counted { OnOk result (core.old.exchanged ≤ core.new.exchanged) }
    ensures bounded { OnOk result (core.new.exchanged ≤ core.old.exchanged + 2 * NODES) }
    ensures others { OnOk result (core.new.lists ≡ with_on axis (on axis core.new.lists) core.old.lists) }
    ensures moved { OnOk result ((bodies : FinMap nat_cmp Bounds) (was : Bounds)
        → AxisKeeps bodies (coord axis) keys.old.items (on axis core.old.lists) → get bodies slot ≡ Some was
        → AxisMoved bodies slot was body (coord axis) keys.new.items (on axis core.new.lists)
        (core.new.exchanged - core.old.exchanged)) }
{
    let (lo, hi) = key_numbers(body, axis, slot);
    move_ends(core, axis, keys, slot, lo, hi)
}

// A slot whose nodes stand last gets its place on an axis. It comes from above all.
pub(crate) fn place_axis(
    core: &mut Core,
    axis: Axis,
    keys: &mut Vec<u64>,
    slot: u32,
    body: FBox,
) -> Result<(), NoMemory>
    requires slot { slot < SLOTS }
    requires ready { (bodies : FinMap nat_cmp Bounds) × (l : List ℕ) × AxisKeeps bodies (coord axis) keys.old.items l
        × (contains_key bodies slot ≡ false) × (on axis core.old.lists ≡ appended slot l) }
    requires countable { core.old.exchanged + 2 * NODES < 2 ^ 64 - 1 }
    ensures counted { OnOk result (core.old.exchanged ≤ core.new.exchanged) }
    ensures bounded { OnOk result (core.new.exchanged ≤ core.old.exchanged + 2 * NODES) }
    ensures others { OnOk result (core.new.lists ≡ with_on axis (on axis core.new.lists) core.old.lists) }
    ensures added { OnOk result ((bodies : FinMap nat_cmp Bounds) (l : List ℕ)
        → AxisKeeps bodies (coord axis) keys.old.items l
        → contains_key bodies slot ≡ false → on axis core.old.lists ≡ appended slot l
        → AxisAdded bodies slot body (coord axis) keys.new.items (on axis core.new.lists)
        (core.new.exchanged - core.old.exchanged)) }
{
    keys[(2 * slot) as usize] = u64::MAX - 1;
    keys[(2 * slot + 1) as usize] = u64::MAX;
    let (lo, hi) = key_numbers(body, axis, slot);
    move_ends(core, axis, keys, slot, lo, hi)
}

// Both nodes of a slot get other keys. The one that leaves the old interval walks first, so that the two never pass.
pub(crate) fn move_ends(
    core: &mut Core,
    axis: Axis,
    keys: &mut [u64],
    slot: u32,
    lo: u64,
    hi: u64,
) -> Result<(), NoMemory>
    requires keys { length keys.old ≡ NODES }
    requires slot { slot < SLOTS }
    requires ready { MayMove (λ n. slice_index keys.old n) slot lo hi (on axis core.old.lists) }
    requires countable { core.old.exchanged + 2 * NODES < 2 ^ 64 - 1 }
    requires short { length (on axis core.old.lists) ≤ NODES }
    ensures counted { OnOk result (core.old.exchanged ≤ core.new.exchanged) }
    ensures keys { OnOk result (keys.new ≡ slice_set (slice_set keys.old (2 * slot) lo) (2 * slot + 1) hi) }
    ensures moved { OnOk result (Moved (λ n. slice_index keys.old n) (λ n. slice_index keys.new n) slot
        (on axis core.old.lists) (on axis core.new.lists) (core.new.exchanged - core.old.exchanged)) }
    ensures others { OnOk result (core.new.lists ≡ with_on axis (on axis core.new.lists) core.old.lists) }
{
    let min = 2 * slot;
    let max = 2 * slot + 1;
    if lo < keys[min as usize] {
        rekey_two(core, axis, keys, (min, lo), (max, hi))
    } else {
        rekey_two(core, axis, keys, (max, hi), (min, lo))
    }
}

// Both nodes of a slot get other keys: each node with its key, in this order.
fn rekey_two(
    core: &mut Core,
    axis: Axis,
    keys: &mut [u64],
    first: (u32, u64),
    second: (u32, u64),
) -> Result<(), NoMemory>
    requires keys { length keys.old ≡ NODES }
    requires first { first.0 < NODES }
    requires second { second.0 < NODES }
    requires ready { MayMoveTwo (λ n. slice_index keys.old n) (first.0 / 2) first.0 second.0 first.1 second.1 (on axis core.old.lists) }
    requires countable { core.old.exchanged + 2 * NODES < 2 ^ 64 - 1 }
    requires short { length (on axis core.old.lists) ≤ NODES }
    ensures counted { OnOk result (core.old.exchanged ≤ core.new.exchanged) }
    ensures keys { OnOk result (keys.new ≡ slice_set (slice_set keys.old first.0 first.1) second.0 second.1) }
    ensures both { OnOk result (MovedTwo (λ n. slice_index keys.old n) (λ n. slice_index keys.new n) (first.0 / 2) first.0 second.0 first.1 second.1
        (on axis core.old.lists) (on axis core.new.lists) (core.new.exchanged - core.old.exchanged)) }
    ensures others { OnOk result (core.new.lists ≡ with_on axis (on axis core.new.lists) core.old.lists) }
{
    rekey(core, axis, keys, first.0, first.1)?;
    rekey(core, axis, keys, second.0, second.1)
}

// A node gets another key and walks to its place. Its direction is a constant at each call, so that no step asks for it.
pub(crate) fn rekey(
    core: &mut Core,
    axis: Axis,
    keys: &mut [u64],
    node: u32,
    key: u64,
) -> Result<(), NoMemory>
    requires keys { length keys.old ≡ NODES }
    requires node { node < NODES }
    requires rising { Rising (λ n. slice_index keys.old n) (on axis core.old.lists) }
    requires present { has node (on axis core.old.lists) ≡ true }
    requires free { IsFreeKey (λ n. slice_index keys.old n) node key (on axis core.old.lists) }
    requires countable { core.old.exchanged + length (on axis core.old.lists) < 2 ^ 64 - 1 }
    ensures counted { OnOk result (core.old.exchanged ≤ core.new.exchanged) }
    ensures keys { keys.new ≡ slice_set keys.old node key }
    ensures rekeyed { OnOk result (Rekeyed (λ n. slice_index keys.old n) (λ n. slice_index (slice_set keys.old node key) n)
        node (on axis core.old.lists) (on axis core.new.lists) (core.new.exchanged - core.old.exchanged)) }
    ensures others { OnOk result (core.new.lists ≡ with_on axis (on axis core.new.lists) core.old.lists) }
{
    let down = key < keys[node as usize];
    keys[node as usize] = key;
    if down {
        walk(core, axis, keys, node, Direction::Down)
    } else {
        walk(core, axis, keys, node, Direction::Up)
    }
}
