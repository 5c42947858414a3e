//! How large the numbers of a world can be after so many lines, for proofs.

ghost use Rattle.std.specs.Prelude.{◌≡◌, ◌≢◌, ℕ, ◌+◌, ◌<◌, ◌^◌, Bool, true, List, Option, Some};
ghost use Rattle.box_world.specs.Answers.{add_refusal, shift_refusal, frame_refusal};
ghost use Rattle.box_world.specs.World.{World as Boxes, beginning};
ghost use Rattle.box_world.specs.declared.refusal.Refusal.TheVariants.{Exhausted};
ghost use Rattle.live_table.specs.Table.{IsTable};
ghost use Rattle.live_table.specs.declared.handle.Handle.{Handle};
ghost use Rattle.scene_words.specs.declared.command.Command.{Command};
ghost use Rattle.play_rules.specs.Counted.{IsSmall, IsCounted};
ghost use Rattle.play_rules.specs.Course.{run_from};
ghost use Rattle.play_rules.specs.Play.{playing, played};
ghost use Rattle.play_rules.specs.World.{World, opening, after};

use box_world::exchange_law;
use live_table::give_law;

/// Laws for proofs, with nothing to run: the numbers of a world rise by at most a line's worth with each line, whatever its
/// marks lead back to. So in a play of fewer than 2^28 lines no call of a world finds a number at its end.
pub fn count_laws()
    ensures opening { IsCounted 0 beginning }
    ensures after { (counts : Bool) (n : ℕ) (w : World) (c : Command) → IsTable w.time.now.table → IsCounted n w.time
        → IsCounted (n + 1) (after counts w c).time }
    ensures add { (n : ℕ) (w : Boxes) → IsTable w.table → n < 2 ^ 28 → IsSmall n w → add_refusal w ≢ Some Exhausted }
    ensures shift { (n : ℕ) (w : Boxes) (handle : Handle) → n < 2 ^ 28 → IsSmall n w → shift_refusal w handle ≢ Some Exhausted }
    ensures frame { (n : ℕ) (w : Boxes) → n < 2 ^ 28 → IsSmall n w → frame_refusal w ≢ Some Exhausted }
{
    exchange_law();
    give_law();
}

/// A law for proofs, with nothing to run: a play whose exchanges aren't counted has the report of one whose exchanges are, where they
/// aren't shown.
pub fn uncounted_law()
    ensures { (counts shows : Bool) (limit : ℕ) (lines : List (List ℕ)) → (shows ≡ true → counts ≡ true)
        → run_from (playing counts shows) limit opening 1 lines ≡ played shows limit lines }
{}
