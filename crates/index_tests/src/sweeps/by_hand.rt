//! Changes of a core by hand, each where the core allows it.

use endpoint_list::list_laws;
use fixed_box::{NoMemory, SLOTS};
use sweep_prune::Axis;
use sweep_prune::walk::{Core, enter, exchange, quit};

// Puts a slot in, where it is absent.
pub(super) fn enter_slot(core: &mut Core, slot: u32) {
    if slot < SLOTS && !core.list(Axis::X).has(2 * slot) {
        enter(core, slot);
    }
}

// Takes a slot out, where it is present.
pub(super) fn quit_slot(core: &mut Core, slot: u32) {
    if slot < SLOTS && core.list(Axis::X).has(2 * slot) {
        quit(core, slot);
    }
}

// A node changes places with the next one, where that is of another slot.
pub(super) fn exchange_at(core: &mut Core, axis: Axis, node: u32) -> Result<(), NoMemory> {
    list_laws();
    if !core.list(axis).has(node) || core.exchanged() == u64::MAX {
        return Ok(());
    }
    let Some(other) = core.list(axis).next(node) else {
        return Ok(());
    };
    if node / 2 != other / 2 {
        exchange(core, axis, node)?;
    }
    Ok(())
}
