//! That a made scene is never refused, for proofs.

ghost use Rattle.std.specs.Prelude.{◌≡◌, ℕ, ◌<◌, ◌≤◌, Bool, true, Some};
ghost use Rattle.fixed_box.specs.declared.TheConstants.{SLOTS};
ghost use Rattle.live_table.specs.declared.TheConstants.{MOST_GIVES};
ghost use Rattle.made_scene.specs.declared.TheConstants.{MOST_FRAMES};
ghost use Rattle.made_scene.specs.MadeScene.{made_scene, made_text};
ghost use Rattle.play_rules.specs.AllowedScene.{AreAllowed, after_all};
ghost use Rattle.play_rules.specs.Play.{played};
ghost use Rattle.play_rules.specs.World.{opening};
ghost use Rattle.play_rules.specs.declared.status.Status.TheVariants.{Done};
ghost use Rattle.scene_lines.specs.SceneLines.{lines};
ghost use Rattle.scene_lines.specs.declared.TheConstants.{MOST_LINES};
ghost use Rattle.scene_words.specs.declared.version.Version.TheVariants.{One};

use made_scene::made_scene_laws;
use play_rules::printed_scene_ends;

/// Laws for proofs, with nothing to run: a made scene is never refused. Its boxes keep the slots from 0 on, so each
/// removed box is live, and each added one finds a slot: until a slot was given as often as may be, which takes more frames than
/// that number.
pub fn made_scene_is_played()
    ensures allowed { (seed boxes count : ℕ) → 1 ≤ boxes → boxes ≤ SLOTS → count < MOST_GIVES → AreAllowed opening (made_scene seed boxes count) }
    ensures header { (seed boxes count : ℕ) → (after_all opening (made_scene seed boxes count)).version ≡ Some One }
    ensures done { (shows : Bool) (seed boxes count : ℕ) → 1 ≤ boxes → boxes ≤ SLOTS → count ≤ MOST_FRAMES
        → (played shows MOST_LINES (lines (made_text seed boxes count) true)).status ≡ Done }
{
    printed_scene_ends();
    made_scene_laws();
}
