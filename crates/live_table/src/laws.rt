//! Laws of tables for proofs above: undoing, the end of a slot, stale handles, and the map of the boxes.

ghost use Rattle.std.specs.Prelude.{◌≡◌, ◌<◌, ◌≤◌, IsTrue, true, false, Some, None, is_some, List, length};
ghost use Rattle.std.specs.FinMap.{insert, remove, contains_key};
ghost use Rattle.std.specs.List.{sum};
ghost use Rattle.fixed_box.specs.Bounds.{Bounds, meets};
ghost use Rattle.fixed_box.specs.Space.{space};
ghost use Rattle.fixed_box.specs.declared.TheConstants.{SLOTS};
ghost use Rattle.live_table.specs.declared.TheConstants.{MOST_GIVES};
ghost use Rattle.live_table.specs.declared.group.Group.{Group};
ghost use Rattle.live_table.specs.declared.handle.Handle.{Handle};
ghost use Rattle.live_table.specs.declared.masks.Masks.{Masks};
ghost use Rattle.live_table.specs.declared.live.Live.{Live};
ghost use Rattle.live_table.specs.Bodies.{bodies_of};
ghost use Rattle.live_table.specs.Changes.{TableChange, after_change, after_changes, IsGone};
ghost use Rattle.live_table.specs.Entries.{slot_of, entry_at};
ghost use Rattle.live_table.specs.Table.{Table, IsTable, IsVacated, least_free, IsLeastFree, next_handle, after_give, after_set_box, after_set_masks};
ghost use Rattle.live_table.specs.Table.{after_set_group, after_take, after_ungive, after_put_back};

/// Laws of tables for proofs, with nothing to run: `ungive` undoes `give`, `put_back` undoes `take`, and `set_box`, `set_masks` and
/// `set_group` undo themselves. What each of these asks for holds then.
pub fn undo_laws()
    ensures given { (t : Table) (body : Bounds) (masks : Masks) (group : Group) → IsTable t → IsLeastFree (least_free t) t
        → least_free t < SLOTS → after_ungive (after_give t body masks group) (next_handle t) ≡ t }
    ensures moved { (t : Table) (handle : Handle) (body : Bounds) (live : Live) → IsTable t → entry_at handle t.entries ≡ Some live
        → after_set_box (after_set_box t handle body) handle live.body ≡ t }
    ensures masked { (t : Table) (handle : Handle) (masks : Masks) (live : Live) → IsTable t → entry_at handle t.entries ≡ Some live
        → after_set_masks (after_set_masks t handle masks) handle live.masks ≡ t }
    ensures grouped { (t : Table) (handle : Handle) (group : Group) (live : Live) → IsTable t → entry_at handle t.entries ≡ Some live
        → after_set_group (after_set_group t handle group) handle live.group ≡ t }
    ensures taken { (t : Table) (handle : Handle) (live : Live) → IsTable t → entry_at handle t.entries ≡ Some live
        → after_put_back (after_take t handle) live ≡ t }
    ensures given_lives { (t : Table) (body : Bounds) (masks : Masks) (group : Group) → IsLeastFree (least_free t) t
        → is_some (entry_at (next_handle t) (after_give t body masks group).entries) ≡ true }
    ensures moved_lives { (t : Table) (handle : Handle) (body : Bounds)
        → is_some (entry_at handle (after_set_box t handle body).entries) ≡ is_some (entry_at handle t.entries) }
    ensures masked_lives { (t : Table) (handle : Handle) (masks : Masks)
        → is_some (entry_at handle (after_set_masks t handle masks).entries) ≡ is_some (entry_at handle t.entries) }
    ensures grouped_lives { (t : Table) (handle : Handle) (group : Group)
        → is_some (entry_at handle (after_set_group t handle group).entries) ≡ is_some (entry_at handle t.entries) }
    ensures vacated { (t : Table) (handle : Handle) (live : Live) → IsTable t → entry_at handle t.entries ≡ Some live
        → IsVacated live (after_take t handle) }
{}

/// So often a slot is given, and with another number this crate has no proof. While fewer gives than that were counted in all,
/// no slot is free only where each has a live box; and where each has one, none is free.
pub fn give_law()
    ensures most { MOST_GIVES ≡ 4294967295 }
    ensures open { (t : Table) → IsTable t → sum t.gives < MOST_GIVES → least_free t ≡ SLOTS → length t.entries ≡ SLOTS }
    ensures full { (t : Table) → IsTable t → length t.entries ≡ SLOTS → least_free t ≡ SLOTS }
{}

/// A law for whoever keeps handles: once its box was taken a handle is stale for ever, whatever is given, changed or taken
/// afterwards, while nothing is undone. So what a game still has of a box that is gone never names another box by chance. And
/// a handle whose slot is `SLOTS` or above names no box, under any generation.
pub fn gone_law()
    ensures taken { (t : Table) (handle : Handle) (live : Live) → IsTable t → entry_at handle t.entries ≡ Some live
        → IsGone handle (after_take t handle) }
    ensures kept { (t : Table) (handle : Handle) (change : TableChange) → IsGone handle t → IsGone handle (after_change t change) }
    ensures gone { (t : Table) (changes : List TableChange) (handle : Handle) → IsGone handle t
        → entry_at handle (after_changes t changes).entries ≡ None }
    ensures past { (t : Table) (handle : Handle) → IsTable t → SLOTS ≤ handle.slot → entry_at handle t.entries ≡ None }
{}

/// Laws of the map from slot to box for proofs, with nothing to run: what the calls that undo a change make of it, said of
/// tables alone, and that a table comes of each. By them an index goes a way back before the table does.
pub fn map_laws()
    ensures small { (t : Table) (handle : Handle) → IsTable t → is_some (entry_at handle t.entries) ≡ true → handle.slot < SLOTS }
    ensures present { (t : Table) (handle : Handle) → IsTable t → is_some (entry_at handle t.entries) ≡ true
        → contains_key (bodies_of t.entries) handle.slot ≡ true }
    ensures ungiven { (t : Table) (handle : Handle) → IsTable t → is_some (entry_at handle t.entries) ≡ true
        → bodies_of (after_ungive t handle).entries ≡ remove (bodies_of t.entries) handle.slot }
    ensures ungiven_table { (t : Table) (handle : Handle) → IsTable t → is_some (entry_at handle t.entries) ≡ true
        → IsTable (after_ungive t handle) }
    ensures moved { (t : Table) (handle : Handle) (body : Bounds) → IsTable t → is_some (entry_at handle t.entries) ≡ true
        → bodies_of (after_set_box t handle body).entries ≡ insert (bodies_of t.entries) handle.slot body }
    ensures moved_table { (t : Table) (handle : Handle) (body : Bounds) → IsTable t → IsTrue (meets space body)
        → IsTable (after_set_box t handle body) }
    ensures masked { (t : Table) (handle : Handle) (masks : Masks)
        → bodies_of (after_set_masks t handle masks).entries ≡ bodies_of t.entries }
    ensures masked_table { (t : Table) (handle : Handle) (masks : Masks) → IsTable t → IsTable (after_set_masks t handle masks) }
    ensures grouped { (t : Table) (handle : Handle) (group : Group)
        → bodies_of (after_set_group t handle group).entries ≡ bodies_of t.entries }
    ensures grouped_table { (t : Table) (handle : Handle) (group : Group) → IsTable t → IsTable (after_set_group t handle group) }
    ensures vacant { (t : Table) (live : Live) → IsTable t → IsVacated live t → contains_key (bodies_of t.entries) (slot_of live) ≡ false }
    ensures put_back { (t : Table) (live : Live) → IsTable t → IsVacated live t
        → bodies_of (after_put_back t live).entries ≡ insert (bodies_of t.entries) (slot_of live) live.body }
    ensures put_back_table { (t : Table) (live : Live) → IsTable t → IsVacated live t → IsTrue (meets space live.body)
        → IsTable (after_put_back t live) }
{}
