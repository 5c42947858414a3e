//! Boxes in columns are scanned eight at a time, whatever their number.

use fixed_box::{FBox, NoMemory, Point};
use lane_boxes::{BoxPacket, Columns};
use std::process::Abort;
use std::test::Fail;

fn at(x: i32, y: i32, z: i32) -> Point {
    Point { x, y, z }
}

// The flat box at a point of the x axis.
fn flat(x: i32) -> Option<FBox> {
    FBox::new(at(x, 0, 0), at(x, 0, 0))
}

// The box at a place, where there is one.
fn box_in(boxes: &Columns, place: usize) -> Option<FBox> {
    if place < boxes.len() {
        Some(boxes.box_at(place))
    } else {
        None
    }
}

fn same_mask(rt: &impl Abort, boxes: &Columns, place: usize, region: &FBox, mask: u8) {
    if place <= boxes.len() {
        assert_eq!(rt; boxes.overlap_mask(place, region), mask);
    }
}

fn same_places(rt: &impl Abort, places: &[u32], wanted: &[u32]) {
    assert_eq!(rt; places, wanted);
}

fn same_box(rt: &impl Abort, boxes: &Columns, place: usize, body: Option<FBox>) {
    assert_eq!(rt; box_in(boxes, place), body);
}

// Scans few boxes: all, those from a place on, and those that hold the region's lower corner.
fn scan(
    boxes: &Columns,
    from: usize,
    region: &FBox,
    places: &mut Vec<u32>,
) -> Result<(), NoMemory> {
    let len = boxes.len();
    if len < 1_000 && from <= len {
        boxes.scan(region, places)?;
        boxes.scan_from(from, region, places)?;
        boxes.scan_point(&region.lo(), places)?;
    }
    Ok(())
}

// Nine flat boxes come, one for each unit.
fn push_nine(boxes: &mut Columns) -> Result<(), Fail> {
    for k in 0..9 {
        boxes.push(flat(k).ok_or("a flat box")?)?;
    }
    Ok(())
}

fn scan_nine(rt: &impl Abort, boxes: &mut Columns, places: &mut Vec<u32>) -> Result<(), Fail> {
    push_nine(boxes)?;
    let region = FBox::new(at(2, 0, 0), at(8, 0, 0)).ok_or("a region")?;
    same_mask(rt, boxes, 0, &region, 0b1111_1100);
    same_mask(rt, boxes, 8, &region, 1);
    same_mask(rt, boxes, 9, &region, 0);
    scan(boxes, 7, &region, places)?;
    same_places(rt, places, &[2, 3, 4, 5, 6, 7, 8, 7, 8, 2]);
    Ok(())
}

// A test owns its boxes, and what is done with them stands in functions that borrow them: where a function may return,
// its proof drops each field of each value that it owns.
#[test]
fn nine_flat_boxes_on_a_line(rt: HostRuntime) -> Result<(), Fail> {
    let mut boxes = Columns::new(rt.alloc());
    let mut places = Vec::new(rt.alloc());
    let done = scan_nine(&rt, &mut boxes, &mut places);
    drop(boxes);
    done
}

// The last of nine takes the place of the third, and one more finds room.
fn swap_one(rt: &impl Abort, boxes: &mut Columns) -> Result<(), Fail> {
    push_nine(boxes)?;
    let last = flat(8).ok_or("a flat box")?;
    if boxes.len() == 9 {
        boxes.swap_out(2);
    }
    same_box(rt, boxes, 2, Some(last));
    same_box(rt, boxes, 8, None);
    boxes.reserve(3)?;
    if boxes.spare() > 0 {
        boxes.push_reserved(last);
    }
    same_box(rt, boxes, 8, Some(last));
    Ok(())
}

#[test]
fn the_last_of_nine_boxes_takes_the_place_of_one(rt: HostRuntime) -> Result<(), Fail> {
    let mut boxes = Columns::new(rt.alloc());
    let done = swap_one(&rt, &mut boxes);
    drop(boxes);
    done
}

#[test]
fn a_packet_is_tested_with_one_box(rt: HostRuntime) -> Result<(), Fail> {
    let here = flat(0).ok_or("a flat box")?;
    let there = flat(9).ok_or("a flat box")?;
    let packet = BoxPacket::new(&[here, there, here, there, there, there, there, here]);
    assert_eq!(rt; packet.overlap_mask(&here), 0b1000_0101);
    Ok(())
}
