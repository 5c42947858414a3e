//! Scenes of version 2 and their reports, worked out by hand.

ghost use Rattle.std.specs.Prelude.{◌≡◌, true, false, codes};
ghost use Rattle.scene_lines.specs.SceneLines.{lines};
ghost use Rattle.play_rules.specs.Play.{report};

/// Scenes of version 2 with their reports, and what version 1 refuses of them, computed from the definitions that `play` is proved
/// against. It does nothing.
pub fn worked_scenes_of_two()
    ensures owners { report false 99 (lines (codes "scene 2\nadd 0 0 0 1 1 1 owner 5\nadd 0 0 0 1 1 1 owner 5\nadd 0 0 0 1 1 1 fixed\nadd 0 0 0 1 1 1 owner 0 fixed\nframe\n") true)
        ≡ codes "add 0:0\nadd 1:0\nadd 2:0\nadd 3:0\nframe 1 4\nbegin 0:0 2:0\nbegin 0:0 3:0\nbegin 1:0 2:0\nbegin 1:0 3:0\nend 6 1 4\n" }
    ensures fixed_in_version_1 { report false 99 (lines (codes "scene 1\nadd 0 0 0 1 1 1 fixed\n") true)
        ≡ codes "refused 2 mask\n" }
    ensures no_owner { report false 99 (lines (codes "scene 2\nadd 0 0 0 1 1 1 owner x\n") true)
        ≡ codes "refused 2 owner\n" }
    // Boxes that a ray meets at one place come by their slots.
    ensures rays_by_entry { report false 99 (lines (codes "scene 2\nadd 5 0 0 6 1 1\nadd 2 0 0 3 1 1\nadd 2 0 0 9 1 1\nray 0 0.5 0.5 1 0 0\nray 0 0.5 0.5 1 0 0 entry\nray 2.5 0.5 0.5 1 0 0 1 entry\n") true)
        ≡ codes "add 0:0\nadd 1:0\nadd 2:0\nray 3 0:0 1:0 2:0\nray 3 1:0 2:0 0:0\nray 3 1:0 2:0 0:0\nend 7 0 3\n" }
    // The second cast stops one raw unit short of the box.
    ensures casts { report false 99 (lines (codes "scene 2\nadd 10 0 0 11 1 1\nadd 5 0 0 6 1 1\ncast 0 0 0 1 1 1 20 0 0\ncast 0 0 0 1 1 1 3.99998 0 0\ncast 0 0 0 1 1 1 4 0 0\n") true)
        ≡ codes "add 0:0\nadd 1:0\ncast 2 1:0 0:0\ncast 0\ncast 1 1:0\nend 6 0 2\n" }
    ensures casts_past_the_range { report false 99 (lines (codes "scene 2\nadd 32767 0 0 32767 0 0\ncast 32000 0 0 32000 0 0 32767 0 0\ncast 0 0 0 0 0 0 -32768 0 0\n") true)
        ≡ codes "add 0:0\ncast 1 0:0\ncast 0\nend 4 0 1\n" }
    ensures nearest { report false 99 (lines (codes "scene 2\nadd 0 0 0 1 1 1\nadd 3 0 0 4 1 1\nadd -3 0 0 -2 1 1\nnear 0.5 0.5 0.5 2\nnear 0.5 0.5 0.5 8192\nnear 0.5 0.5 0.5 3 2\n") true)
        ≡ codes "add 0:0\nadd 1:0\nadd 2:0\nnear 2 0:0 1:0\nnear 3 0:0 1:0 2:0\nnear 0\nend 7 0 3\n" }
    // The squares of the distances are 2^64 + 2^33 + 1 and 2^34.
    ensures nearest_across_all { report false 99 (lines (codes "scene 2\nadd 32767.99999 -32766 -32768 32767.99999 -32766 -32768\nadd -32768 -32768 -32766 -32768 -32768 -32766\nnear -32768 -32768 -32768 1\n") true)
        ≡ codes "add 0:0\nadd 1:0\nnear 1 1:0\nend 4 0 2\n" }
    ensures marks { report false 99 (lines (codes "scene 2\nadd 0 0 0 1 1 1\nadd 1 0 0 2 1 1\nframe\nmark\nremove 0:0\nadd 5 5 5 6 6 6\nframe\nback\nframe\nback\n") true)
        ≡ codes "add 0:0\nadd 1:0\nframe 1 1\nbegin 0:0 1:0\nmark 1\nadd 0:1\nframe 2 0\nover 0:0 1:0\nback 0\nframe 2 1\nstay 0:0 1:0\nnomark 0\nend 11 2 2\n" }
    ensures marks_with_exchanges { report true 99 (lines (codes "scene 2\nadd 0 0 0 1 1 1\nadd 1 0 0 2 1 1\nframe\nmark\nremove 0:0\nadd 5 5 5 6 6 6\nframe\nback\nframe\nback\n") true)
        ≡ codes "add 0:0\nadd 1:0\nframe 1 1\nbegin 0:0 1:0\nexchanges 3\nmark 1\nadd 0:1\nframe 2 0\nover 0:0 1:0\nexchanges 0\nback 0\nframe 2 1\nstay 0:0 1:0\nexchanges 0\nnomark 0\nend 11 2 2\n" }
    ensures most_marks { report false 99 (lines (codes "scene 2\nmark\nmark\nmark\nmark\nmark\nmark\nmark\nmark\nmark\nmark\nmark\nmark\nmark\nmark\nmark\nmark\nmark\nmark\nmark\nmark\nmark\nmark\nmark\nmark\nmark\nmark\nmark\nmark\nmark\nmark\nmark\nmark\nmark\nmark\nmark\nmark\nmark\nmark\nmark\nmark\nmark\nmark\nmark\nmark\nmark\nmark\nmark\nmark\nmark\nmark\nmark\nmark\nmark\nmark\nmark\nmark\nmark\nmark\nmark\nmark\nmark\nmark\nmark\nmark\nmark\n") true)
        ≡ codes "mark 1\nmark 2\nmark 3\nmark 4\nmark 5\nmark 6\nmark 7\nmark 8\nmark 9\nmark 10\nmark 11\nmark 12\nmark 13\nmark 14\nmark 15\nmark 16\nmark 17\nmark 18\nmark 19\nmark 20\nmark 21\nmark 22\nmark 23\nmark 24\nmark 25\nmark 26\nmark 27\nmark 28\nmark 29\nmark 30\nmark 31\nmark 32\nmark 33\nmark 34\nmark 35\nmark 36\nmark 37\nmark 38\nmark 39\nmark 40\nmark 41\nmark 42\nmark 43\nmark 44\nmark 45\nmark 46\nmark 47\nmark 48\nmark 49\nmark 50\nmark 51\nmark 52\nmark 53\nmark 54\nmark 55\nmark 56\nmark 57\nmark 58\nmark 59\nmark 60\nmark 61\nmark 62\nmark 63\nmark 64\nnomark 64\nend 66 0 0\n" }
{}
