//! Laws of worlds for proofs: what an answer says, what a stale handle changes, and where counting ends.

ghost use Rattle.std.specs.Prelude.{◌≡◌, ◌≢◌, ◌↔◌, ◌^◌, ◌*◌, ◌≤◌, Bool, Option, Some, Result, Err, List, true, false};
ghost use Rattle.fixed_box.specs.Bounds.{Bounds};
ghost use Rattle.fixed_box.specs.declared.TheConstants.{SLOTS};
ghost use Rattle.live_table.specs.Table.{IsTable};
ghost use Rattle.box_world.specs.declared.TheConstants.{MOST_FRAMES_COUNTED, MOST_EXCHANGES};
ghost use Rattle.box_world.specs.declared.refusal.Refusal.{Refusal};
ghost use Rattle.box_world.specs.declared.refusal.Refusal.TheVariants.{NoMemory};
ghost use Rattle.live_table.specs.declared.handle.Handle.{Handle};
ghost use Rattle.live_table.specs.declared.group.Group.{Group};
ghost use Rattle.live_table.specs.declared.masks.Masks.{Masks};
ghost use Rattle.live_table.specs.Changes.{IsGone};
ghost use Rattle.box_world.specs.Steps.{Step, world_after};
ghost use Rattle.box_world.specs.World.{World, moved, masked, regrouped, removed, counted, exchanges_of_add, exchanges_of_move};
ghost use Rattle.box_world.specs.Answers.{Answers, State, is_live, add_refusal, shift_refusal, change_refusal, frame_refusal};

use broad_index::exchange_laws;

/// A law for proofs, with nothing to run: with other ends of counting this crate has no proof.
pub fn count_law()
    ensures frames { MOST_FRAMES_COUNTED ≡ 18446744073709551615 }
    ensures exchanges { MOST_EXCHANGES ≡ 2 ^ 62 }
{}

/// A law of answers for proofs, with nothing to run: a call is refused for a cause other than want of memory exactly where the
/// world isn't spent and that cause stands. Want of memory is no such cause.
pub fn answer_law<A>()
    ensures exactly { (cause : Option Refusal) (refusal : Refusal) (result : Result A Refusal) (after old new : State) → refusal ≢ NoMemory
        → cause ≢ Some NoMemory → Answers cause after result old new
        → (result ≡ Err refusal) ↔ ((old.spent ≡ false) × (cause ≡ Some refusal)) }
    ensures add { (w : World) → add_refusal w ≢ Some NoMemory }
    ensures shift { (w : World) (handle : Handle) → shift_refusal w handle ≢ Some NoMemory }
    ensures change { (w : World) (handle : Handle) → change_refusal w handle ≢ Some NoMemory }
    ensures frame { (w : World) → frame_refusal w ≢ Some NoMemory }
{}

/// A law for proofs, with nothing to run: a change by a handle that no live box has is none.
pub fn stale_law()
    ensures moved { (counts : Bool) (w : World) (handle : Handle) (body : Bounds) → is_live w handle ≡ false → moved counts w handle body ≡ w }
    ensures masked { (w : World) (handle : Handle) (masks : Masks) → is_live w handle ≡ false → masked w handle masks ≡ w }
    ensures regrouped { (w : World) (handle : Handle) (group : Group) → is_live w handle ≡ false → regrouped w handle group ≡ w }
    ensures removed { (w : World) (handle : Handle) → is_live w handle ≡ false → removed w handle ≡ w }
{}

/// A law for proofs, with nothing to run: a change counts at most so many exchanges. On each of three axes two endpoints pass at most
/// two of each slot.
pub fn exchange_law()
    ensures added { (counts : Bool) (w : World) (body : Bounds) → IsTable w.table → counted counts (exchanges_of_add w body) ≤ 12 * SLOTS }
    ensures moved { (counts : Bool) (w : World) (handle : Handle) (body : Bounds) → IsTable w.table
        → counted counts (exchanges_of_move w handle body) ≤ 12 * SLOTS }
{
    exchange_laws();
}

/// A law for whoever keeps handles: once its box was removed a handle is stale for ever, whatever comes, moves or goes afterwards and
/// however many frames end, while nobody goes back. And a handle whose slot is `SLOTS` or above names no box, under any generation.
pub fn gone_law()
    ensures removed { (w : World) (handle : Handle) → IsTable w.table → is_live w handle ≡ true → IsGone handle (removed w handle).table }
    ensures gone { (counts : Bool) (w : World) (steps : List Step) (handle : Handle) → IsGone handle w.table
        → is_live (world_after counts w steps) handle ≡ false }
    ensures past { (w : World) (handle : Handle) → IsTable w.table → SLOTS ≤ handle.slot → is_live w handle ≡ false }
{
    live_table::gone_law();
}
