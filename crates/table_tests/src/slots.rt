//! Boxes under slots: put, set, taken and listed.

ghost use Rattle.std.specs.Prelude.{◌<◌};

use fixed_box::{FBox, Fix, Point, SLOTS};
use slot_lists::SlotBoxes;
use std::test::Fail;

fn cube(low: Fix) -> Option<FBox> {
    let lo = Point {
        x: low,
        y: low,
        z: low,
    };
    FBox::new(lo, lo)
}

// Puts a box under a slot, where it has none.
fn put(boxes: &mut SlotBoxes, slot: u32, body: FBox)
    requires { slot < SLOTS }
{
    if boxes.box_of(slot).is_none() {
        boxes.put(slot, body);
    }
}

// Gives a slot another box, where it has one.
fn set(boxes: &mut SlotBoxes, slot: u32, body: FBox) {
    if boxes.box_of(slot).is_some() {
        boxes.set(slot, body);
    }
}

// Takes a slot out, where it has a box.
fn take(boxes: &mut SlotBoxes, slot: u32) {
    if boxes.box_of(slot).is_some() {
        boxes.take(slot);
    }
}

#[test]
fn boxes_come_and_go_under_their_slots(rt: HostRuntime) -> Result<(), Fail> {
    let alloc = rt.alloc();
    let one = cube(1).ok_or("one")?;
    let two = cube(2).ok_or("two")?;
    let mut boxes = SlotBoxes::new(alloc)?;
    put(&mut boxes, 7, one);
    put(&mut boxes, 0, one);
    put(&mut boxes, 8191, two);
    set(&mut boxes, 0, two);
    take(&mut boxes, 7);
    assert_eq!(rt; boxes.box_of(0), Some(two));
    assert_eq!(rt; boxes.box_of(7), None);
    assert_eq!(rt; boxes.box_of(8192), None);
    assert_eq!(rt; boxes.len(), 2);
    let mut slots = boxes.present(alloc)?;
    assert_eq!(rt; slots.as_slice(), [0, 8191].as_slice());
    take(&mut boxes, 0);
    boxes.list(&mut slots)?;
    assert_eq!(rt; slots.as_slice(), [8191].as_slice());
    Ok(())
}
