//! Nodes of a list change places, come and go.

use endpoint_list::{EndList, NODES, list_laws};
use std::test::Fail;

// The node after a present one.
pub(crate) fn next_of(list: &EndList, node: u32) -> Option<u32> {
    list_laws();
    if list.has(node) {
        list.next(node)
    } else {
        None
    }
}

// The node before a present one.
fn prev_of(list: &EndList, node: u32) -> Option<u32> {
    list_laws();
    if list.has(node) {
        list.prev(node)
    } else {
        None
    }
}

// Takes a node out, where it is present.
fn take(list: &mut EndList, node: u32) {
    list_laws();
    if list.has(node) {
        list.unlink(node);
    }
}

// Puts an absent node before a present one.
fn put(list: &mut EndList, node: u32, other: u32) {
    list_laws();
    if node < NODES && !list.has(node) && list.has(other) {
        list.put_before(node, other);
    }
}

#[test]
fn neighbours_change_places_and_nodes_go_and_come(rt: HostRuntime) -> Result<(), Fail> {
    let mut list = EndList::new(rt.alloc())?;
    assert_eq!(rt; (list.first(), list.last()), (None, None));
    list.push_last(0);
    list.push_last(1);
    list.push_last(4);
    list.exchange_with_next(0);
    for (node, before, after) in [
        (1, None, Some(0)),
        (0, Some(1), Some(4)),
        (4, Some(0), None),
    ] {
        assert_eq!(rt; prev_of(&list, node), before, "before {node}");
        assert_eq!(rt; next_of(&list, node), after, "after {node}");
    }
    take(&mut list, 0);
    assert_eq!(rt; (list.first(), list.last()), (Some(1), Some(4)));
    assert_eq!(rt; (next_of(&list, 1), prev_of(&list, 4)), (Some(4), Some(1)));
    put(&mut list, 16_383, 4);
    put(&mut list, 6, 1);
    assert_eq!(rt;
        (prev_of(&list, 4), prev_of(&list, 1)),
        (Some(16_383), Some(6))
    );
    assert_eq!(rt; (list.first(), next_of(&list, 1)), (Some(6), Some(16_383)));
    assert_eq!(rt;
        (list.has(0), list.has(1), list.has(16_384)),
        (false, true, false)
    );
    Ok(())
}
