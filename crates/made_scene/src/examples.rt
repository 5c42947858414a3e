//! A made scene of one box and one frame, worked out by hand.

ghost use Rattle.std.specs.Prelude.{◌≡◌, ◌++◌, codes};
ghost use Rattle.made_scene.specs.MadeScene.{made_text};

// The whole scene of one box and one frame, computed from the definitions.
fn worked_scene()
    ensures { made_text 42 1 1 ≡
        codes "scene 1\n"
        ++ codes "add 161.35941 123.28107 186.11406 169.25003 135.62482 196.95781 8 f\n"
        ++ codes "move 0:0 161.15433 123.25177 186.25664 169.04495 135.59552 197.10039\n"
        ++ codes "remove 0:0\n"
        ++ codes "add 191.77592 129.18748 230.12183 199.52592 133.70311 233.74683 2 f\n"
        ++ codes "box 191.77592 129.18748 230.12183 199.52592 133.70311 233.74683 ffffffff\n"
        ++ codes "point 191.77592 129.18748 230.12183 ffffffff\n"
        ++ codes "ray 0.00000 0.00000 0.00000 191.77592 129.18748 230.12183 ffffffff\n"
        ++ codes "seg 191.77592 129.18748 230.12183 191.77592 129.18748 230.12183 ffffffff\n"
        ++ codes "frame\n" }
{}
