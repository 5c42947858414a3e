//! Tests of the table of cells: slots come, go and are found in order.

ghost use Rattle.std.specs.Prelude.{◌<◌};

use cell_table::{CellKey, CellTable, LEVELS};
use fixed_box::{NoMemory, SLOTS};
use std::process::Abort;
use std::test::Fail;

// The cell of level 0 at a place on the x axis.
fn cell_at(x: i32) -> CellKey
    ensures { result.level < LEVELS }
{
    CellKey {
        level: 0,
        x,
        y: 0,
        z: 1,
    }
}

// Gives a slot a key, where it has none.
fn put(table: &mut CellTable, slot: u32, key: CellKey)
    requires small { slot < SLOTS }
    requires level { key.level < LEVELS }
{
    if table.key_of(slot).is_none() {
        table.put(slot, key);
    }
}

// Takes a slot's key away, where it has one.
fn take(table: &mut CellTable, slot: u32)
    requires { slot < SLOTS }
{
    if table.key_of(slot).is_some() {
        table.take(slot);
    }
}

fn same_slots(rt: &impl Abort, slots: &[u32], wanted: &[u32]) {
    assert_eq!(rt; slots, wanted);
}

fn same_key(rt: &impl Abort, table: &CellTable, slot: u32, key: Option<CellKey>) {
    assert_eq!(rt; table.key_of(slot), key);
}

fn put_and_take(
    rt: &impl Abort,
    table: &mut CellTable,
    slots: &mut Vec<u32>,
) -> Result<(), NoMemory> {
    let key = cell_at(-1);
    put(table, 7, key);
    put(table, 3, key);
    table.each_in(&key, slots)?;
    table.each_at(0, slots)?;
    table.each_in(&cell_at(0), slots)?;
    table.each_at(1, slots)?;
    same_slots(rt, slots, &[3, 7, 3, 7]);
    same_slots(rt, &[table.level_len(0), table.level_len(1)], &[2, 0]);
    same_key(rt, table, 7, Some(key));
    take(table, 7);
    same_key(rt, table, 7, None);
    slots.clear();
    table.each_in(&key, slots)?;
    same_slots(rt, slots, &[3]);
    Ok(())
}

// A test owns its table, and what is done with it stands in functions that borrow it: where a function may return, its
// proof drops each field of each value that it owns.
#[test]
fn slots_of_one_cell_are_found_in_order(rt: HostRuntime) -> Result<(), Fail> {
    let mut table = CellTable::new(rt.alloc())?;
    let mut slots = Vec::new(rt.alloc());
    let done = put_and_take(&rt, &mut table, &mut slots);
    drop(table);
    done?;
    Ok(())
}
