//! The table of live boxes: each call looks a handle up, or changes one slot.

ghost use Rattle.std.specs.Prelude.{◌≡◌, ◌+◌, ◌<◌, ◌↔◌, true, false, length, IfOk, OnOk, OnErr, IsErr, IfSome, IsNone, is_ok, is_some};
ghost use Rattle.std.specs.FinMap.{insert, remove, get, contains_key, empty};
ghost use Rattle.std.specs.List.{sum};
ghost use Rattle.std.specs.Result.{result_ok};
ghost use Rattle.live_table.specs.Bodies.{bodies_of, body_of};
ghost use Rattle.live_table.specs.Entries.{slot_of, live_at, entry_at};
ghost use Rattle.live_table.specs.Table.{empty_table, next_handle, after_give, after_set_box, after_set_masks, after_take, after_ungive, after_put_back};
ghost use Rattle.live_table.specs.Table.{after_set_group, IsTable, IsVacated, least_free, IsLeastFree};

use crate::freed_slots::FreedSlots;
use crate::slot::{Slot, gives_so_far, least_open, open_slot};
use crate::{Full, Group, Handle, Live, MOST_GIVES, Masks, Stale};
use fixed_box::{FBox, NoMemory, SLOTS, space_law};
use std::alloc::Global;
use std::marker::Model;

/// The live boxes of a scene, at most `SLOTS`, each under a handle.
///
/// Clauses see the live boxes in order of their slots, and how often each slot was given. They say of each call what becomes
/// of the map from slot to box, which is what an index has of the live boxes. Only `new` takes memory.
#[derive(Drop)]
pub struct LiveTable {
    // The slots that were ever given, with room for all.
    slots: Vec<Slot>,
    freed: FreedSlots,
    len: u32,
    given: u64,
}

impl Model for LiveTable {
    ghost use Rattle.std.specs.Prelude.{◌≤◌, vec_capacity};
    ghost use Rattle.fixed_box.specs.declared.TheConstants.{SLOTS};
    ghost use Rattle.live_table.specs.Slots.{entries_of, gives_of, AreInStep};
    ghost use Rattle.live_table.specs.Table.{Table};

    ghost Value = { Table };

    ghost view = { λ t. record { entries = entries_of t.slots.items; gives = gives_of t.slots.items } };

    ghost invariant = { λ t. (SLOTS ≤ vec_capacity t.slots) × AreInStep t.slots.items t.freed t.len t.given };
}

impl LiveTable {
    /// A table with no live box, and room for all that it may ever have.
    pub fn new(alloc: Global) -> Result<LiveTable, NoMemory>
        ensures empty { IfOk result (λ table. table ≡ empty_table) }
        ensures bodies { IfOk result (λ table. bodies_of table.entries ≡ empty) }
        ensures table { IfOk result IsTable }
    {
        Ok(LiveTable {
            slots: Vec::with_capacity(alloc, SLOTS as usize)?,
            freed: FreedSlots::new(alloc)?,
            len: 0,
            given: 0,
        })
    }

    /// The number of live boxes.
    pub fn len(&self) -> u32
        ensures len { result ≡ length self.now.entries }
        ensures table { IsTable self.now }
    {
        self.len
    }

    /// How many gives were `Ok` and weren't undone by `ungive`, those of boxes that were taken since among them.
    pub fn given(&self) -> u64
        ensures { result ≡ sum self.now.gives }
    {
        self.given
    }

    /// The live box with a slot.
    #[inline]
    pub fn at(&self, slot: u32) -> Option<Live>
        ensures at { result ≡ live_at slot self.now.entries }
        ensures table { IsTable self.now }
    {
        let slot = slot as usize;
        if slot < self.slots.len() {
            self.slots[slot].live
        } else {
            None
        }
    }

    /// The live box with the handle, or `Stale` where no live box has this slot and this generation.
    #[inline]
    pub fn find(&self, handle: Handle) -> Result<Live, Stale>
        ensures found { result_ok result ≡ entry_at handle self.now.entries }
        ensures handle { IfOk result (λ live. live.handle ≡ handle) }
        ensures table { IsTable self.now }
    {
        match self.at(handle.slot) {
            Some(live) => {
                if live.handle.generation == handle.generation {
                    Ok(live)
                } else {
                    Err(Stale)
                }
            }
            None => Err(Stale),
        }
    }

    /// The handle that the next box gets. `None` comes where no slot is free.
    pub fn next(&self) -> Option<Handle>
        ensures handle { IfSome result (λ handle. handle ≡ next_handle self.now) }
        ensures full { IsNone result ↔ (least_free self.now ≡ SLOTS) }

        // What follows for the handle.
        ensures small { IfSome result (λ handle. handle.slot < SLOTS) }
        ensures free { IfSome result (λ handle. IsLeastFree handle.slot self.now) }
        ensures absent { IfSome result (λ handle. contains_key (bodies_of self.now.entries) handle.slot ≡ false) }
    {
        let slot = least_open(&self.slots, &self.freed)?;
        let generation = gives_so_far(&self.slots, slot);
        Some(Handle { slot, generation })
    }

    /// Gives a box the least slot that no live box has and that was given fewer than `MOST_GIVES` times. `Full` comes where
    /// there is none. While fewer gives than that were counted in all, it comes where `SLOTS` boxes are live.
    pub fn give(&mut self, body: FBox, masks: Masks, group: Group) -> Result<Handle, Full>
        ensures handle { IfOk result (λ handle. handle ≡ next_handle self.old) }
        ensures given { OnOk result (self.new ≡ after_give self.old body masks group) }
        ensures full { IsErr result ↔ (least_free self.old ≡ SLOTS) }
        ensures few { sum self.old.gives < MOST_GIVES → (IsErr result ↔ (length self.old.entries ≡ SLOTS)) }
        ensures err { OnErr result (self.new ≡ self.old) }

        // What follows for the handle, for the map of the boxes, for the number of gives and for the table.
        ensures small { IfOk result (λ handle. handle.slot < SLOTS) }
        ensures free { IfOk result (λ handle. IsLeastFree handle.slot self.old) }
        ensures absent { IfOk result (λ handle. contains_key (bodies_of self.old.entries) handle.slot ≡ false) }
        ensures bodies { IfOk result (λ handle. bodies_of self.new.entries ≡ insert (bodies_of self.old.entries) handle.slot body) }
        ensures count { OnOk result (sum self.new.gives ≡ sum self.old.gives + 1) }
        ensures table { IsTable self.new }
    {
        space_law(&body);
        let Some(slot) = open_slot(&mut self.slots, &mut self.freed) else {
            return Err(Full);
        };
        let place = &mut self.slots[slot as usize];
        let handle = Handle {
            slot,
            generation: place.gives,
        };
        place.gives += 1;
        place.live = Some(Live {
            handle,
            body,
            masks,
            group,
        });
        self.len += 1;
        self.given += 1;
        Ok(handle)
    }

    /// Gives the handle's box other bounds.
    pub fn set_box(&mut self, handle: Handle, body: FBox) -> Result<(), Stale>
        ensures known { is_ok result ≡ is_some (entry_at handle self.old.entries) }
        ensures after { self.new ≡ after_set_box self.old handle body }
        ensures err { OnErr result (self.new ≡ self.old) }
        ensures small { OnOk result (handle.slot < SLOTS) }
        ensures present { OnOk result (contains_key (bodies_of self.old.entries) handle.slot ≡ true) }
        ensures former { OnOk result (get (bodies_of self.old.entries) handle.slot ≡ body_of handle self.old.entries) }
        ensures bodies { OnOk result (bodies_of self.new.entries ≡ insert (bodies_of self.old.entries) handle.slot body) }
        ensures table { IsTable self.new }
    {
        space_law(&body);
        let moved = self.find(handle)?;
        self.slots[handle.slot as usize].live = Some(Live { body, ..moved });
        Ok(())
    }

    /// Gives the handle's box other masks.
    pub fn set_masks(&mut self, handle: Handle, masks: Masks) -> Result<(), Stale>
        ensures known { is_ok result ≡ is_some (entry_at handle self.old.entries) }
        ensures after { self.new ≡ after_set_masks self.old handle masks }
        ensures err { OnErr result (self.new ≡ self.old) }
        ensures small { OnOk result (handle.slot < SLOTS) }
        ensures bodies { bodies_of self.new.entries ≡ bodies_of self.old.entries }
        ensures table { IsTable self.new }
    {
        let live = self.find(handle)?;
        self.slots[handle.slot as usize].live = Some(Live { masks, ..live });
        Ok(())
    }

    /// Gives the handle's box another owner and fixed mark.
    pub fn set_group(&mut self, handle: Handle, group: Group) -> Result<(), Stale>
        ensures known { is_ok result ≡ is_some (entry_at handle self.old.entries) }
        ensures after { self.new ≡ after_set_group self.old handle group }
        ensures err { OnErr result (self.new ≡ self.old) }
        ensures small { OnOk result (handle.slot < SLOTS) }
        ensures bodies { bodies_of self.new.entries ≡ bodies_of self.old.entries }
        ensures table { IsTable self.new }
    {
        let live = self.find(handle)?;
        self.slots[handle.slot as usize].live = Some(Live { group, ..live });
        Ok(())
    }

    /// Takes the handle's box out. Its slot is free again, if it was given fewer than `MOST_GIVES` times.
    pub fn take(&mut self, handle: Handle) -> Result<Live, Stale>
        ensures found { result_ok result ≡ entry_at handle self.old.entries }
        ensures handle { IfOk result (λ live. live.handle ≡ handle) }
        ensures after { self.new ≡ after_take self.old handle }
        ensures err { OnErr result (self.new ≡ self.old) }
        ensures small { OnOk result (handle.slot < SLOTS) }
        ensures present { OnOk result (contains_key (bodies_of self.old.entries) handle.slot ≡ true) }
        ensures bodies { OnOk result (bodies_of self.new.entries ≡ remove (bodies_of self.old.entries) handle.slot) }
        ensures vacated { IfOk result (λ live. IsVacated live self.new) }
        ensures table { IsTable self.new }
    {
        let taken = self.find(handle)?;
        let place = &mut self.slots[handle.slot as usize];
        place.live = None;
        let again = place.gives < MOST_GIVES;
        self.freed.set(handle.slot, again);
        self.len -= 1;
        Ok(taken)
    }

    /// Undoes a give: takes the handle's box out, and its slot was given once less. A live box has the handle.
    pub fn ungive(&mut self, handle: Handle)
        requires live { is_some (entry_at handle self.old.entries) ≡ true }
        ensures after { self.new ≡ after_ungive self.old handle }

        // What follows for the map of the boxes, for the number of gives and for the table.
        ensures small { handle.slot < SLOTS }
        ensures present { contains_key (bodies_of self.old.entries) handle.slot ≡ true }
        ensures bodies { bodies_of self.new.entries ≡ remove (bodies_of self.old.entries) handle.slot }
        ensures count { sum self.new.gives + 1 ≡ sum self.old.gives }
        ensures table { IsTable self.new }
    {
        let Ok(_) = self.find(handle) else {
            unreachable!()
        };
        let place = &mut self.slots[handle.slot as usize];
        place.gives -= 1;
        place.live = None;
        self.freed.put(handle.slot);
        self.len -= 1;
        self.given -= 1;
    }

    /// Undoes a `take`: puts the box back under its handle. No live box has its slot, and the slot wasn't given since.
    pub fn put_back(&mut self, live: Live)
        requires vacated { IsVacated live self.old }
        ensures after { self.new ≡ after_put_back self.old live }

        // What follows for the map of the boxes and for the table.
        ensures absent { contains_key (bodies_of self.old.entries) (slot_of live) ≡ false }
        ensures bodies { bodies_of self.new.entries ≡ insert (bodies_of self.old.entries) (slot_of live) live.body }
        ensures table { IsTable self.new }
    {
        space_law(&live.body);
        let slot = live.handle.slot;
        self.slots[slot as usize].live = Some(live);
        self.freed.unmark(slot);
        self.len += 1;
    }
}
