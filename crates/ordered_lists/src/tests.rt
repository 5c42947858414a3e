//! Ties, and how many members the front has.

use super::*;
use std::test::Fail;

// An entry of a ray or a cast, or a square of a distance, with the slot that breaks ties.
#[derive(Clone, Copy, Debug, PartialEq, Eq, PartialOrd, Ord, Drop)]
struct Reached {
    at: u64,
    slot: u32,
}

#[test]
fn equal_members_stand_side_by_side(rt: HostRuntime) -> Result<(), Fail> {
    let mut numbers: Vec<u32> = vec![in rt.alloc(); 3, 1, 2, 1, 3]?;
    put_in_order(&mut numbers);
    assert_eq!(rt; numbers.as_slice(), [1, 1, 2, 3, 3].as_slice());
    Ok(())
}

#[test]
fn ties_of_place_are_broken_by_slot(rt: HostRuntime) -> Result<(), Fail> {
    let mut reached = vec![in rt.alloc();
        Reached { at: 9, slot: 1 },
        Reached { at: 4, slot: 7 },
        Reached { at: 4, slot: 2 },
    ]?;
    put_in_order(&mut reached);
    assert_eq!(rt; reached[0].slot, 2);
    assert_eq!(rt; reached[1].slot, 7);
    assert_eq!(rt; reached[2].slot, 1);
    Ok(())
}

// Of none, of some, of as many as there are, and of more than there are.
#[test]
fn the_front_is_chosen_and_appended(rt: HostRuntime) -> Result<(), Fail> {
    for (want, front) in [
        (0, [8].as_slice()),
        (1, [8, 1].as_slice()),
        (4, [8, 1, 1, 2, 3].as_slice()),
        (5, [8, 1, 1, 2, 3, 3].as_slice()),
        (6, [8, 1, 1, 2, 3, 3].as_slice()),
    ] {
        let mut out: Vec<u32> = vec![in rt.alloc(); 8]?;
        push_front_in_order(&mut [3, 1, 2, 1, 3], want, &mut out)?;
        assert_eq!(rt; out.as_slice(), front);
    }
    Ok(())
}
