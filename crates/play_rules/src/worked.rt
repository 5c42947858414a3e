//! Scenes of version 1 and their reports, worked out by hand.

ghost use Rattle.std.specs.Prelude.{◌≡◌, true, false, codes};
ghost use Rattle.scene_lines.specs.SceneLines.{lines};
ghost use Rattle.play_rules.specs.Play.{report};

/// Scenes with their reports, computed from the definitions that `play` is proved against. It does nothing.
pub fn worked_scenes()
    ensures nothing { report false 9 (lines (codes "") true)
        ≡ codes "refused 1 header\n" }
    ensures two_empty_lines { report false 9 (lines (codes "\n\n") true)
        ≡ codes "refused 3 header\n" }
    ensures one_frame { report false 9 (lines (codes "scene 1\nframe\n") true)
        ≡ codes "frame 1 0\nend 2 1 0\n" }
    // A shared face counts. The last line has no end.
    ensures shared_face { report false 9 (lines (codes "scene 1\r\nadd 0 0 0 1 1 1 # a\n\tadd 1 0 0 2 1 1\nframe") true)
        ≡ codes "add 0:0\nadd 1:0\nframe 1 1\nbegin 0:0 1:0\nend 4 1 2\n" }
    ensures moves { report false 9 (lines (codes "scene 1\nadd 0 0 0 1 1 1\nadd 1 0 0 2 1 1\nframe\nmove 1:0 5 0 0 6 1 1\nmove 1:0 1 0 0 2 1 1\nframe\n") true)
        ≡ codes "add 0:0\nadd 1:0\nframe 1 1\nbegin 0:0 1:0\nframe 2 1\nstay 0:0 1:0\nend 7 2 2\n" }
    // A slot that is given again has another box.
    ensures slot_again { report false 9
        (lines (codes "scene 1\nadd 0 0 0 1 1 1\nadd 1 0 0 2 1 1\nframe\nremove 0:0\nadd 0 0 0 1 1 1\nframe\nmove 0:0 9 9 9 9 9 9\n") true)
        ≡ codes "add 0:0\nadd 1:0\nframe 1 1\nbegin 0:0 1:0\nadd 0:1\nframe 2 1\nbegin 0:1 1:0\nover 0:0 1:0\nstale 0:0\nend 8 2 2\n" }
    ensures masks { report false 9 (lines (codes "scene 1\nadd 0 0 0 1 1 1 1 2\nadd 0 0 0 1 1 1 2 4\nframe\nmask 1:0 2 1\nframe\n") true)
        ≡ codes "add 0:0\nadd 1:0\nframe 1 0\nframe 2 1\nbegin 0:0 1:0\nend 6 2 2\n" }
    ensures ray { report false 9 (lines (codes "scene 1\nadd 1 2 3 1 2 3\nadd 1 2 3.00002 1 2 3.00002\nray 0 0 0 1 2 3\n") true)
        ≡ codes "add 0:0\nadd 1:0\nray 1 0:0\nend 4 0 2\n" }
    // A ray without a direction is a point. One along a face meets the box.
    ensures rays_within_and_along { report false 9 (lines (codes "scene 1\nadd 0 0 0 2 2 2\nray 1 1 1 0 0 0\nray 3 1 1 0 0 0\nray 0 2 1 1 0 0\n") true)
        ≡ codes "add 0:0\nray 1 0:0\nray 0\nray 1 0:0\nend 5 0 1\n" }
    ensures one_step_before_the_box { report false 9
        (lines (codes "scene 1\nadd 10 0 0 11 1 1\nray 0 0.5 0.5 -1 0 0\nseg 0 0.5 0.5 9.99998 0.5 0.5\nseg 0 0.5 0.5 10 0.5 0.5\n") true)
        ≡ codes "add 0:0\nray 0\nseg 0\nseg 1 0:0\nend 5 0 1\n" }
    // The compared products of this segment lie on both sides of 2^63.
    ensures across_all { report false 9 (lines (codes "scene 1\nadd -1 -1 -1 1 1 1\nseg -32768 -32768 -32768 32767.99999 32767.99999 32767.99999\n") true)
        ≡ codes "add 0:0\nseg 1 0:0\nend 3 0 1\n" }
    ensures boxes_of_a_group { report false 9
        (lines (codes "scene 1\nadd 0 0 0 0 0 0\nadd 9 9 9 9 9 9 2\nbox -1 -1 -1 9 9 9\nbox -1 -1 -1 9 9 9 1\npoint 9 9 9\n") true)
        ≡ codes "add 0:0\nadd 1:0\nbox 2 0:0 1:0\nbox 1 0:0\npoint 1 1:0\nend 6 0 2\n" }
    ensures too_many_lines { report false 3 (lines (codes "scene 1\nframe\nframe\nframe\n") true)
        ≡ codes "frame 1 0\nframe 2 0\nrefused 4 lines\n" }
    // The second add passes the first box's maximum on each axis. In the move, on x, the minimum passes two ends and the maximum one.
    ensures exchanges { report true 9
        (lines (codes "scene 1\nadd 0 0 0 1 1 1\nadd 1 0 0 2 1 1\nframe\nmove 0:0 3 0 0 4 1 1\nframe\n") true)
        ≡ codes "add 0:0\nadd 1:0\nframe 1 1\nbegin 0:0 1:0\nexchanges 3\nframe 2 0\nover 0:0 1:0\nexchanges 3\nend 6 2 2\n" }
    ensures just_enough_lines { report false 3 (lines (codes "scene 1\nframe\nframe\n") true)
        ≡ codes "frame 1 0\nframe 2 0\nend 3 2 0\n" }
    ensures inverted { report false 9 (lines (codes "scene 1\nframe\n\nadd 1 0 0 0 1 1\nframe\n") true)
        ≡ codes "frame 1 0\nrefused 4 inverted\n" }
{}
