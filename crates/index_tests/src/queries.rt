//! Queries are answered in pieces, two of them at once.

use broad_index::{BroadPhase, PlainIndex, Query};
use fixed_box::{FBox, NoMemory, Point};
use par_phase::hits_many;
use std::alloc::Global;
use std::test::Fail;
use test_gates::{Entries, Meeting};

fn at(x: i32) -> Point {
    Point { x, y: 0, z: 0 }
}

// Slots 4 and 2 hold one box.
fn two_alike(alloc: Global, here: FBox) -> Result<PlainIndex, NoMemory> {
    let mut index = PlainIndex::new(alloc)?;
    index.add(4, here)?;
    index.add(2, here)?;
    Ok(index)
}

#[test]
fn three_queries_give_three_lists(rt: HostRuntime) -> Result<(), Fail> {
    let here = FBox::new(at(0), at(2)).ok_or("a box")?;
    let there = FBox::new(at(5), at(6)).ok_or("a box")?;
    let index = two_alike(rt.alloc(), here)?;
    let gate = Entries::new();
    let queries = [
        Query::Region(here),
        Query::Region(there),
        Query::Spot(at(1)),
    ];
    let lists = hits_many(&rt, rt.alloc(), &index, &queries, 2, &gate)?;
    assert_eq!(rt; lists.len(), 3);
    assert_eq!(rt; lists[0].as_slice(), [2, 4].as_slice());
    assert!(rt; lists[1].is_empty());
    assert_eq!(rt; lists[2].as_slice(), [2, 4].as_slice());
    assert_eq!(rt; gate.counts(), [1, 1, 0]);
    Ok(())
}

#[test]
fn no_query_enters_no_piece(rt: HostRuntime) -> Result<(), Fail> {
    let here = FBox::new(at(0), at(2)).ok_or("a box")?;
    let index = two_alike(rt.alloc(), here)?;
    let gate = Entries::new();
    let lists = hits_many(&rt, rt.alloc(), &index, &[], 2, &gate)?;
    assert!(rt; lists.is_empty());
    assert_eq!(rt; gate.counts(), [0, 0, 0]);
    Ok(())
}

#[test]
fn two_pieces_run_at_once(rt: HostRuntime) -> Result<(), Fail> {
    let here = FBox::new(at(0), at(2)).ok_or("a box")?;
    let index = two_alike(rt.alloc(), here)?;
    let gate = Meeting::new();
    let queries = [Query::Region(here), Query::Spot(at(1))];
    let lists = hits_many(&rt, rt.alloc(), &index, &queries, 2, &gate)?;
    assert_eq!(rt; gate.met(), 2);
    assert_eq!(rt; lists.len(), 2);
    Ok(())
}
