//! What is known of the lines of made scenes, for proofs.

ghost use Rattle.std.specs.Prelude.{true, ◌≡◌, ◌≤◌, ◌+◌, ◌*◌, ℕ, length};
ghost use Rattle.std.specs.List.{All};
ghost use Rattle.fixed_box.specs.declared.TheConstants.{SLOTS};
ghost use Rattle.made_scene.specs.declared.TheConstants.{MOST_FRAMES};
ghost use Rattle.made_scene.specs.MadeScene.{made_scene};
ghost use Rattle.scene_words.specs.Printed.{is_of_one};
ghost use Rattle.scene_words.specs.Ranges.{IsInRange};

/// Laws of made scenes for proofs, with nothing to run. Each command lies within the range that a line can say, so that
/// its line reads back as the command, under version 1 too; and a header, the adds, and in each frame the moves and seven commands more are
/// all that there is.
pub fn made_scene_laws()
    ensures in_range { (seed boxes count : ℕ) → boxes ≤ SLOTS → count ≤ MOST_FRAMES → All IsInRange (made_scene seed boxes count) }
    ensures of_one { (seed boxes count : ℕ) → All (λ c. is_of_one c ≡ true) (made_scene seed boxes count) }
    ensures count { (seed boxes count : ℕ) → length (made_scene seed boxes count) ≡ 1 + boxes + count * (boxes + 7) }
{}

/// A law for proofs, with nothing to run: the most frames, as a number.
pub fn made_limits()
    ensures frames { MOST_FRAMES ≡ 100 }
{}
