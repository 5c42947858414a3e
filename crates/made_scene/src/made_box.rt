//! A box, its masks and its steps, made from words of the random generator.

ghost use Rattle.std.specs.Prelude.{◌≡◌, ◌<◌, ◌+◌, ◌*◌, ◌/◌, ◌%◌, pos, neg_ℤ, ◌+ℤ◌, ◌≤ℤ◌, IsTrue};
ghost use Rattle.fixed_box.specs.Point.{is_at_most};
ghost use Rattle.made_scene.specs.MadeScene.{word, later, made_bounds, made_masks, next_bounds, next_masks, past_box, step, stepped, moved};
ghost use Rattle.made_scene.specs.Ranges.{IsNear, IsNearPoint};

use fixed_box::{FBox, Fix, Point};
use live_table::Masks;
use rand_core::utils::NextWord;
use rand_pcg::Lcg64Xsh32;

/// The next word of 32 bits.
#[tactic(auto, unfolding(crate::specs::MadeScene::word, crate::specs::MadeScene::later))]
pub(crate) fn next_word(generator: &mut Lcg64Xsh32) -> u32
    ensures word { result ≡ word generator.old }
    ensures later { generator.new ≡ later generator.old }
{
    generator.next_word()
}

/// The box that the next four words make, and its masks.
#[tactic(auto, using(crate::proofs::Corners::made_in_order), unfolding(crate::specs::MadeScene::next_bounds, crate::specs::MadeScene::next_masks, crate::specs::MadeScene::past_box))]
pub(crate) fn next_box(generator: &mut Lcg64Xsh32) -> (FBox, Masks)
    ensures bounds { result.0 ≡ next_bounds generator.old }
    ensures masks { result.1 ≡ next_masks generator.old }
    ensures later { generator.new ≡ past_box generator.old }
{
    let w1 = next_word(generator);
    let w2 = next_word(generator);
    let w3 = next_word(generator);
    let w4 = next_word(generator);
    let body = between(lower_corner(w1, w2, w3), upper_corner(w1, w2, w3, w4));
    (body, masks_of(w4))
}

// Each coordinate is the upper 24 bits of a word: below 256 units.
fn lower_corner(w1: u32, w2: u32, w3: u32) -> Point
    ensures { result ≡ record { x = pos (w1 / 256); y = pos (w2 / 256); z = pos (w3 / 256) } }
{
    Point {
        x: (w1 / 256) as Fix,
        y: (w2 / 256) as Fix,
        z: (w3 / 256) as Fix,
    }
}

// The sides are from 1 unit to about 13 units.
fn upper_corner(w1: u32, w2: u32, w3: u32, w4: u32) -> Point
    ensures { result ≡ record {
      x = pos (w1 / 256 + 65536 + 3072 * (w4 % 256));
      y = pos (w2 / 256 + 65536 + 3072 * (w4 / 256 % 256));
      z = pos (w3 / 256 + 65536 + 3072 * (w4 / 65536 % 256));
    } }
{
    Point {
        x: (w1 / 256 + 65536 + 3072 * (w4 % 256)) as Fix,
        y: (w2 / 256 + 65536 + 3072 * (w4 / 256 % 256)) as Fix,
        z: (w3 / 256 + 65536 + 3072 * (w4 / 65536 % 256)) as Fix,
    }
}

// The box is in one of four groups, and sees all of them or the first three.
fn masks_of(w4: u32) -> Masks
    ensures { result ≡ made_masks w4 }
{
    let is = match w4 / 16777216 % 4 {
        0 => 1,
        1 => 2,
        2 => 4,
        _ => 8,
    };
    let sees = if w4 / 67108864 % 2 == 1 { 7 } else { 15 };
    Masks { is, sees }
}

// The box between two corners in order.
fn between(lo: Point, hi: Point) -> FBox
    requires { IsTrue (is_at_most lo hi) }
    ensures { result ≡ record { lo = lo; hi = hi } }
{
    match FBox::new(lo, hi) {
        Some(body) => body,
        None => unreachable!(),
    }
}

/// The box after the step of a word.
#[tactic(auto, using(crate::proofs::Corners::moved_in_order), unfolding(crate::specs::MadeScene::moved))]
pub(crate) fn moved_box(body: &FBox, word: u32) -> FBox
    requires { IsNear 99 body.now }
    ensures { result ≡ moved word body.now }
{
    between(stepped(body.lo(), word), stepped(body.hi(), word))
}

// One corner after that step.
fn stepped(corner: Point, word: u32) -> Point
    requires { IsNearPoint 99 corner }
    ensures { result ≡ stepped word corner }
{
    Point {
        x: stepped_part(corner.x, word % 256),
        y: stepped_part(corner.y, word / 256 % 256),
        z: stepped_part(corner.z, word / 65536 % 256),
    }
}

// A byte moves a part by half a unit at most, up or down.
fn stepped_part(part: Fix, byte: u32) -> Fix
    requires byte { byte < 256 }
    requires low { neg_ℤ (pos 10000000) ≤ℤ part }
    requires high { part ≤ℤ pos 30000000 }
    ensures { result ≡ part +ℤ step byte }
{
    part + (256 * byte as Fix - 32640)
}
