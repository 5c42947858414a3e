//! Marks of a world: how many are held, and going back over a change.

ghost use Rattle.std.specs.Prelude.{◌≡◌, true, false, OnOk};
ghost use Rattle.live_table.specs.Bodies.{bodies_of};
ghost use Rattle.pair_events.specs.PairEvents.{is_in_order};
ghost use Rattle.world_marks.specs.Undone.{CanUndo};

use broad_index::{BroadPhase, PlainIndex};
use fixed_box::{FBox, NoMemory, Point};
use live_table::{Group, Handle, LiveTable, Masks};
use pair_events::{HPair, PairTable};
use std::alloc::Global;
use std::test::Fail;
use world_marks::{Marks, Restored, Undo};

const SEEN: Masks = Masks { is: 1, sees: 1 };

const NOBODYS: Group = Group {
    owner: 0,
    fixed: false,
};

// The flat box at a point of the x axis.
fn body_at(x: i32) -> Option<FBox> {
    let at = Point { x, y: 0, z: 0 };
    FBox::new(at, at)
}

// A box comes into the table, and the index follows.
fn enter(body: FBox, index: &mut PlainIndex, table: &mut LiveTable) -> Result<Handle, Fail>
    requires sound { index.old.spent ≡ false }
    requires boxes { index.old.bodies ≡ bodies_of table.old.entries }
    ensures sound { OnOk result (index.new.spent ≡ false) }
    ensures boxes { OnOk result (index.new.bodies ≡ bodies_of table.new.entries) }
{
    let handle = table.give(body, SEEN, NOBODYS)?;
    index.add(handle.slot, body)?;
    Ok(handle)
}

// Goes back over one change, and over a frame with these former pairs, to a world of 3 frames and 5 exchanges.
fn go_back(
    undo: &Undo,
    former: Vec<HPair>,
    index: &mut PlainIndex,
    table: &mut LiveTable,
    pairs: &mut PairTable,
) -> Result<Option<Restored>, NoMemory>
    requires sound { index.old.spent ≡ false }
    requires boxes { index.old.bodies ≡ bodies_of table.old.entries }
    requires can { CanUndo undo.now table.old }
    requires order { is_in_order former.items ≡ true }
    ensures sound { OnOk result (index.new.spent ≡ false) }
    ensures boxes { OnOk result (index.new.bodies ≡ bodies_of table.new.entries) }
{
    let mut marks = Marks::new(*former.allocator())?;
    marks.mark(3, 5);
    marks.room()?;
    marks.note(*undo);
    marks.keep(former);
    marks.back(index, table, pairs)
}

// Goes back over one change alone.
fn undo_change(
    alloc: Global,
    undo: &Undo,
    index: &mut PlainIndex,
    table: &mut LiveTable,
) -> Result<(), NoMemory>
    requires sound { index.old.spent ≡ false }
    requires boxes { index.old.bodies ≡ bodies_of table.old.entries }
    requires can { CanUndo undo.now table.old }
    ensures sound { OnOk result (index.new.spent ≡ false) }
    ensures boxes { OnOk result (index.new.bodies ≡ bodies_of table.new.entries) }
{
    let mut pairs = PairTable::new(alloc);
    go_back(undo, Vec::new(alloc), index, table, &mut pairs)?;
    Ok(())
}

// Gives a box and goes back. It answers whether nothing was ever given.
fn give_and_back(
    alloc: Global,
    body: FBox,
    index: &mut PlainIndex,
    table: &mut LiveTable,
) -> Result<bool, Fail>
    requires sound { index.old.spent ≡ false }
    requires boxes { index.old.bodies ≡ bodies_of table.old.entries }
    ensures sound { OnOk result (index.new.spent ≡ false) }
    ensures boxes { OnOk result (index.new.bodies ≡ bodies_of table.new.entries) }
{
    let handle = enter(body, index, table)?;
    table.find(handle)?;
    undo_change(alloc, &Undo::Given { handle }, index, table)?;
    Ok(table.given() == 0 && table.at(0).is_none() && index.box_of(0).is_none())
}

#[test]
fn a_give_is_undone(rt: HostRuntime) -> Result<(), Fail> {
    let alloc = rt.alloc();
    let here = body_at(0).ok_or("a flat box")?;
    let mut index = PlainIndex::new(alloc)?;
    let mut table = LiveTable::new(alloc)?;
    assert!(rt; give_and_back(alloc, here, &mut index, &mut table)?);
    Ok(())
}

#[test]
fn sixty_four_marks_are_held_and_no_more(rt: HostRuntime) -> Result<(), Fail> {
    let mut marks = Marks::new(rt.alloc())?;
    for frames in 0..64 {
        assert!(rt; marks.mark(frames, 0));
    }
    assert!(rt; !marks.mark(64, 0));
    assert_eq!(rt; marks.held(), 64);
    // room for one more change is room for few, so that many marks with a change each take little memory
    marks.room()?;
    assert!(rt; marks.spare() > 0);
    assert!(rt; marks.spare() <= 16);
    Ok(())
}

#[test]
fn without_a_mark_there_is_no_way_back(rt: HostRuntime) -> Result<(), Fail> {
    let mut index = PlainIndex::new(rt.alloc())?;
    let mut table = LiveTable::new(rt.alloc())?;
    let mut pairs = PairTable::new(rt.alloc());
    let mut marks = Marks::new(rt.alloc())?;
    let restored = marks.back(&mut index, &mut table, &mut pairs)?;
    assert!(rt; restored.is_none());
    Ok(())
}
