//! Pieces of a list are entered once each, and answered in order.

ghost use Rattle.std.specs.Prelude.{◌≡◌, Ok};

use fixed_box::NoMemory;
use std::test::Fail;
use test_gates::Entries;
use work_pieces::{by_pieces, by_runs};

fn same(item: &u32) -> Result<u32, NoMemory>
    ensures { result ≡ Ok item.now }
{
    Ok(*item)
}

#[test]
fn each_piece_is_entered_once(rt: HostRuntime) -> Result<(), Fail> {
    let gate = Entries::new();
    let answers = by_pieces(&rt, rt.alloc(), &[7, 5, 9], 2, &gate, &|item| same(item))?;
    assert_eq!(rt; answers.as_slice(), [7, 5, 9].as_slice());
    assert_eq!(rt; gate.counts(), [1, 1, 0]);
    Ok(())
}

#[test]
fn no_item_enters_no_piece(rt: HostRuntime) -> Result<(), Fail> {
    let gate = Entries::new();
    let answers = by_pieces(&rt, rt.alloc(), &[], 4, &gate, &|item| same(item))?;
    assert!(rt; answers.is_empty());
    assert_eq!(rt; gate.counts(), [0, 0, 0]);
    Ok(())
}

#[test]
fn one_worker_does_one_piece(rt: HostRuntime) -> Result<(), Fail> {
    let gate = Entries::new();
    let answers = by_pieces(&rt, rt.alloc(), &[7, 5, 9], 1, &gate, &|item| same(item))?;
    assert_eq!(rt; answers.as_slice(), [7, 5, 9].as_slice());
    assert_eq!(rt; gate.counts(), [1, 0, 0]);
    Ok(())
}

fn count(run: &[u32]) -> Result<usize, NoMemory> {
    Ok(run.len())
}

#[test]
fn pieces_are_answered_as_wholes(rt: HostRuntime) -> Result<(), Fail> {
    let gate = Entries::new();
    let counts = by_runs(&rt, rt.alloc(), &[7, 5, 9], 2, &gate, &|run| count(run))?;
    assert_eq!(rt; counts.as_slice(), [2, 1].as_slice());
    assert_eq!(rt; gate.counts(), [1, 1, 0]);
    Ok(())
}
