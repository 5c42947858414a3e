//! That a scene which is upgraded has the same report, for proofs, with rows worked out by hand.

ghost use Rattle.std.specs.Prelude.{◌≡◌, ℕ, Bool, List, [], true, codes};
ghost use Rattle.pair_report.specs.declared.cause.Cause.TheVariants as cause;
ghost use Rattle.scene_lines.specs.SceneLines.{lines};
ghost use Rattle.play_rules.specs.Course.{whole};
ghost use Rattle.play_rules.specs.Play.{report};
ghost use Rattle.play_rules.specs.Upgrade.{upgraded};
ghost use Rattle.play_rules.specs.declared.status.Status.TheVariants.{Done, Refused};

use scene_words::{printed_reads_back, read_in_range};

/// A law for proofs, with nothing to run: a scene that is upgraded whole has the same report as what it is upgraded to.
pub fn upgraded_plays_alike()
    ensures { (shows : Bool) (limit : ℕ) (scene : List (List ℕ)) → (upgraded limit scene).status ≡ Done
        → report shows limit (lines (whole (upgraded limit scene)) true) ≡ report shows limit scene }
{
    read_in_range();
    printed_reads_back();
}

/// Scenes with what they are upgraded to, computed from the definitions. It does nothing.
pub fn worked_upgrades()
    ensures blank_and_comment { whole (upgraded 9 (lines (codes "scene 1\n\nadd 0 0 0 1 1 1 # a\r\nframe") true))
        ≡ codes "scene 2\n\nadd 0.00000 0.00000 0.00000 1.00000 1.00000 1.00000 1 ffffffff\nframe\n" }
    ensures done { (upgraded 9 (lines (codes "scene 1\n\nadd 0 0 0 1 1 1 # a\r\nframe") true)).status ≡ Done }
    ensures begun { whole (upgraded 9 (lines (codes "scene 1\nframe\nmov") true)) ≡ codes "scene 2\nframe\n" }
    ensures refused { (upgraded 9 (lines (codes "scene 1\nframe\nmov") true)).status ≡ Refused 3 cause.Word }
    ensures nothing { whole (upgraded 9 []) ≡ [] }
    ensures no_header { (upgraded 9 []).status ≡ Refused 1 cause.Header }
    ensures too_many { (upgraded 2 (lines (codes "scene 2\nmark\nback\n") true)).status ≡ Refused 3 cause.Lines }
{}
