//! Handles: slots given again under new generations, changes of live boxes, and which two may pair.

use fixed_box::{FBox, Point, SLOTS};
use live_table::{Full, Group, Handle, Live, LiveTable, Masks, Stale, may_pair};
use std::test::Fail;

const ALL: Masks = Masks {
    is: 1,
    sees: 0xffff_ffff,
};

const NOBODYS: Group = Group {
    owner: 0,
    fixed: false,
};

// The flat box at a point of the x axis.
fn body_at(x: i32) -> Option<FBox> {
    let at = Point { x, y: 0, z: 0 };
    FBox::new(at, at)
}

fn under(slot: u32, generation: u32) -> Handle {
    Handle { slot, generation }
}

fn live(handle: Handle, body: FBox, masks: Masks) -> Live {
    Live {
        handle,
        body,
        masks,
        group: NOBODYS,
    }
}

fn give(table: &mut LiveTable, body: FBox) -> Result<Handle, Full> {
    table.give(body, ALL, NOBODYS)
}

#[test]
fn freed_slots_are_given_again_under_a_new_generation(rt: HostRuntime) -> Result<(), Fail> {
    let body = body_at(0).ok_or("a flat box")?;
    let mut table = LiveTable::new(rt.alloc())?;
    for slot in 0..3 {
        assert_eq!(rt; give(&mut table, body), Ok(under(slot, 0)));
    }
    for slot in [1, 0] {
        table.take(under(slot, 0))?;
    }
    for slot in 0..2 {
        assert_eq!(rt; table.next(), Some(under(slot, 1)));
        assert_eq!(rt; give(&mut table, body), Ok(under(slot, 1)));
    }
    assert_eq!(rt; table.next(), Some(under(3, 0)));
    for slot in [1, 9000] {
        assert_eq!(rt; table.find(under(slot, 0)), Err(Stale), "slot {slot}");
    }
    Ok(())
}

#[test]
fn each_change_shows_in_the_live_box(rt: HostRuntime) -> Result<(), Fail> {
    let here = body_at(0).ok_or("a flat box")?;
    let there = body_at(65_536).ok_or("a flat box")?;
    let mut table = LiveTable::new(rt.alloc())?;
    let handle = give(&mut table, here)?;
    let masks = Masks { is: 2, sees: 4 };
    assert_eq!(rt; table.find(handle), Ok(live(handle, here, ALL)));
    table.set_box(handle, there)?;
    table.set_masks(handle, masks)?;
    assert_eq!(rt; table.at(0), Some(live(handle, there, masks)));
    assert_eq!(rt; (table.len(), table.given()), (1, 1));
    assert_eq!(rt; table.take(handle), Ok(live(handle, there, masks)));
    assert_eq!(rt; (table.at(0), table.len(), table.given()), (None, 0, 1));
    Ok(())
}

#[test]
fn changes_that_are_undone_leave_no_trace(rt: HostRuntime) -> Result<(), Fail> {
    let body = body_at(0).ok_or("a flat box")?;
    let mut table = LiveTable::new(rt.alloc())?;
    let kept = give(&mut table, body)?;
    let undone = give(&mut table, body)?;
    table.find(undone)?;
    table.ungive(undone);
    assert_eq!(rt; (table.at(1), table.len(), table.given()), (None, 1, 1));
    take_and_put_back(&mut table, kept)?;
    assert_eq!(rt; table.at(0), Some(live(kept, body, ALL)));
    assert_eq!(rt; (table.len(), table.given()), (1, 1));
    assert_eq!(rt; give(&mut table, body), Ok(undone));
    Ok(())
}

fn take_and_put_back(table: &mut LiveTable, handle: Handle) -> Result<(), Stale> {
    let live = table.take(handle)?;
    table.put_back(live);
    Ok(())
}

#[test]
fn a_table_is_full_at_8192_boxes(rt: HostRuntime) -> Result<(), Fail> {
    let body = body_at(0).ok_or("a flat box")?;
    let mut table = LiveTable::new(rt.alloc())?;
    for slot in 0..SLOTS {
        assert_eq!(rt; give(&mut table, body), Ok(under(slot, 0)));
    }
    assert_eq!(rt; give(&mut table, body), Err(Full));
    assert_eq!(rt; table.next(), None);
    for slot in [SLOTS - 1, 4000, 63, 64] {
        table.take(under(slot, 0))?;
    }
    for slot in [63, 64, 4000, SLOTS - 1] {
        assert_eq!(rt; give(&mut table, body), Ok(under(slot, 1)));
    }
    assert_eq!(rt; give(&mut table, body), Err(Full));
    Ok(())
}

#[test]
fn boxes_may_pair_where_each_sees_the_other(rt: HostRuntime) -> Result<(), Fail> {
    for (a, b, want) in [
        ((1, 0xffff_ffff, 0, false), (1, 0xffff_ffff, 0, false), true),
        ((1, 2, 0, false), (2, 1, 0, false), true),
        ((1, 2, 0, false), (1, 2, 0, false), false),
        ((1, 2, 0, false), (2, 2, 0, false), false),
        (
            (0, 0xffff_ffff, 0, false),
            (0xffff_ffff, 0xffff_ffff, 0, false),
            false,
        ),
        ((1, 1, 5, false), (1, 1, 5, false), false),
        ((1, 1, 5, false), (1, 1, 4, false), true),
        ((1, 1, 5, false), (1, 1, 0, true), true),
        ((1, 1, 0, true), (1, 1, 0, true), false),
        ((1, 1, 5, true), (1, 1, 4, true), false),
    ] {
        let first = boxed(a)?;
        let second = boxed(b)?;
        assert_eq!(rt; may_pair(&first, &second), want, "{first:?} and {second:?}");
        assert_eq!(rt; may_pair(&second, &first), want, "{second:?} and {first:?}");
    }
    Ok(())
}

fn boxed(labels: (u32, u32, u32, bool)) -> Result<Live, Fail> {
    let (is, sees, owner, fixed) = labels;
    Ok(Live {
        handle: under(0, 0),
        body: body_at(0).ok_or("a flat box")?,
        masks: Masks { is, sees },
        group: Group { owner, fixed },
    })
}
