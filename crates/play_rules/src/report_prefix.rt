//! That the replies to a part of a scene begin its report, for proofs.

ghost use Rattle.std.specs.Prelude.{ℕ, Bool, List, true, false};
ghost use Rattle.scene_lines.specs.SceneLines.{lines, IsPrefix};
ghost use Rattle.play_rules.specs.Play.{played, report};

use scene_lines::line_laws;

/// The replies to the lines that end within the first bytes of a scene begin the report of the whole scene, whatever
/// follows these bytes. So what was reported before a read fault stays true. It does nothing.
pub fn replies_begin_report()
    ensures { (shows : Bool) (limit : ℕ) (front whole : List ℕ) → IsPrefix front whole
        → IsPrefix (played shows limit (lines front false)).replies (report shows limit (lines whole true)) }
{
    line_laws();
}
