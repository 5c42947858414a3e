//! A sweep keeps its endpoints in order, counts overlaps, and counts exchanges.

ghost use Rattle.std.specs.Prelude.{◌≡◌, ◌<◌, false, OnOk};

mod by_hand;

use crate::endpoints::next_of;
use broad_index::{BroadPhase, Pair};
use by_hand::{enter_slot, exchange_at, quit_slot};
use endpoint_list::EndList;
use fixed_box::{FBox, NoMemory, Point, SLOTS};
use std::alloc::Global;
use std::process::Abort;
use std::test::Fail;
use sweep_prune::walk::{Core, clear};
use sweep_prune::{Axis, Sap};

const PAIR: Pair = Pair { a: 0, b: 1 };

// A box of one unit, so far along the x axis.
fn unit_at(x: i32) -> Option<FBox> {
    let lo = Point {
        x: x.wrapping_mul(65_536),
        y: 0,
        z: 0,
    };
    let hi = Point {
        x: lo.x.wrapping_add(65_536),
        y: 65_536,
        z: 65_536,
    };
    FBox::new(lo, hi)
}

fn same_number(rt: &impl Abort, what: &str, number: u64, wanted: u64) {
    assert_eq!(rt; number, wanted, "{what}");
}

fn same_numbers(rt: &impl Abort, what: &str, numbers: &[u32], wanted: &[u32]) {
    assert_eq!(rt; numbers, wanted, "{what}");
}

// Puts a box of one unit under a slot, or moves the one that is there, and counts exchanges anew.
fn put_unit(sap: &mut Sap, slot: u32, x: i32) -> Result<(), Fail>
    requires { slot < SLOTS }
    ensures { OnOk result (sap.new.spent ≡ false) }
{
    let body = unit_at(x).ok_or("a box")?;
    put(sap, slot, body)?;
    Ok(())
}

fn put(sap: &mut Sap, slot: u32, body: FBox) -> Result<(), NoMemory>
    requires { slot < SLOTS }
    ensures { OnOk result (sap.new.spent ≡ false) }
{
    sap.clear_exchanges();
    if sap.box_of(slot).is_some() {
        sap.shift(slot, body)
    } else {
        sap.add(slot, body)
    }
}

// Two boxes that touch come.
fn touch(rt: &impl Abort, alloc: Global, sap: &mut Sap) -> Result<(), Fail> {
    put_unit(sap, 0, 0)?;
    put_unit(sap, 1, 1)?;
    let mut order = Vec::new(alloc);
    sap.order(Axis::X, &mut order)?;
    sap.order(Axis::Y, &mut order)?;
    same_numbers(rt, "nodes on x and y", &order, &[0, 2, 1, 3, 0, 2, 1, 3]);
    same_number(rt, "exchanges as the second comes", sap.exchanges(), 3);
    same_number(rt, "boxes", u64::from(sap.len()), 2);
    if sap.box_of(0).is_some() && sap.box_of(1).is_some() {
        same_number(rt, "axes", u64::from(sap.overlap(0, 1)), 3);
    }
    Ok(())
}

// The first of them moves away.
fn part(rt: &impl Abort, alloc: Global, sap: &mut Sap) -> Result<(), Fail> {
    put_unit(sap, 0, 3)?;
    let mut order = Vec::new(alloc);
    sap.order(Axis::X, &mut order)?;
    same_numbers(rt, "nodes on x", &order, &[2, 3, 0, 1]);
    same_number(rt, "exchanges as the first moves", sap.exchanges(), 3);
    same_number(rt, "count", u64::from(sap.core().count(PAIR)), 2);
    Ok(())
}

fn touch_and_part(rt: &impl Abort, alloc: Global, sap: &mut Sap) -> Result<(), Fail> {
    touch(rt, alloc, sap)?;
    part(rt, alloc, sap)
}

// A test owns its boxes, and what is done with them stands in functions that borrow them: where a function may return,
// its proof drops each field of each value that it owns.
#[test]
fn boxes_that_touch_overlap_until_one_moves_away(rt: HostRuntime) -> Result<(), Fail> {
    let mut sap = Sap::new(rt.alloc())?;
    let done = touch_and_part(&rt, rt.alloc(), &mut sap);
    drop(sap);
    done
}

// The node after another, where there are both.
fn after(list: &EndList, node: Option<u32>) -> Option<u32> {
    next_of(list, node?)
}

// The first four nodes on an axis.
fn compare_nodes(rt: &impl Abort, core: &Core, axis: Axis, what: &str, wanted: [Option<u32>; 4]) {
    let list = core.list(axis);
    let first = list.first();
    let second = after(list, first);
    let third = after(list, second);
    let fourth = after(list, third);
    assert_eq!(rt; [first, second, third, fourth], wanted, "{what}");
}

// The middle nodes of two slots change places on an axis, and then the slots overlap on so many.
fn exchange_on(rt: &impl Abort, core: &mut Core, axis: Axis, count: u64) -> Result<(), NoMemory> {
    compare_nodes(
        rt,
        core,
        axis,
        "before",
        [Some(0), Some(1), Some(2), Some(3)],
    );
    exchange_at(core, axis, 1)?;
    compare_nodes(
        rt,
        core,
        axis,
        "after",
        [Some(0), Some(2), Some(1), Some(3)],
    );
    same_number(rt, "count after", u64::from(core.count(PAIR)), count);
    Ok(())
}

// Two slots come, and change places on each axis.
fn exchange_each(rt: &impl Abort, core: &mut Core) -> Result<(), NoMemory> {
    enter_slot(core, 0);
    enter_slot(core, 1);
    same_number(rt, "count at first", u64::from(core.count(PAIR)), 0);
    exchange_on(rt, core, Axis::X, 1)?;
    exchange_on(rt, core, Axis::Y, 2)?;
    exchange_on(rt, core, Axis::Z, 3)?;
    same_number(rt, "exchanges", core.exchanged(), 3);
    Ok(())
}

// The first of the two leaves.
fn quit_first(rt: &impl Abort, core: &mut Core) {
    quit_slot(core, 0);
    same_number(rt, "count without a slot", u64::from(core.count(PAIR)), 0);
    compare_nodes(
        rt,
        core,
        Axis::X,
        "nodes on x",
        [Some(2), Some(3), None, None],
    );
    compare_nodes(
        rt,
        core,
        Axis::Y,
        "nodes on y",
        [Some(2), Some(3), None, None],
    );
    compare_nodes(
        rt,
        core,
        Axis::Z,
        "nodes on z",
        [Some(2), Some(3), None, None],
    );
    clear(core);
    same_number(rt, "exchanges when cleared", core.exchanged(), 0);
}

fn exchange_and_quit(rt: &impl Abort, core: &mut Core) -> Result<(), Fail> {
    exchange_each(rt, core)?;
    quit_first(rt, core);
    Ok(())
}

#[test]
fn counts_follow_each_single_exchange(rt: HostRuntime) -> Result<(), Fail> {
    let mut core = Core::new(rt.alloc())?;
    let done = exchange_and_quit(&rt, &mut core);
    drop(core);
    done
}
