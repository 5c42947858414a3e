//! That a scene of printed commands is played to its end, for proofs.

ghost use Rattle.std.specs.Prelude.{◌≡◌, ℕ, ◌≤◌, Bool, true, is_some, List, length};
ghost use Rattle.std.specs.List.{All};
ghost use Rattle.scene_lines.specs.SceneLines.{lines};
ghost use Rattle.scene_words.specs.Printed.{scene_text, is_of_one};
ghost use Rattle.scene_words.specs.Ranges.{IsInRange};
ghost use Rattle.scene_words.specs.declared.command.Command.{Command};
ghost use Rattle.play_rules.specs.AllowedScene.{AreAllowed, after_all};
ghost use Rattle.play_rules.specs.Play.{played};
ghost use Rattle.play_rules.specs.World.{opening};
ghost use Rattle.play_rules.specs.declared.status.Status.TheVariants.{Done};

use scene_words::printed_reads_back;

/// A law for proofs, with nothing to run: a scene of printed commands is played to its end, where it has no more lines
/// than it may, a header among them, and each command is one of version 1, in range and allowed where it stands. So a program that makes a
/// scene by such commands needs no answer for a refused line.
pub fn printed_scene_ends()
    ensures { (shows : Bool) (limit : ℕ) (cs : List Command) → length cs ≤ limit → All IsInRange cs → All (λ c. is_of_one c ≡ true) cs
        → AreAllowed opening cs → is_some (after_all opening cs).version ≡ true → (played shows limit (lines (scene_text cs) true)).status ≡ Done }
{
    printed_reads_back();
}
