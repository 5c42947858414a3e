//! What the square and the nearest boxes are in the words of the subject, and worked examples.

ghost use Rattle.std.specs.Prelude.{◌≡◌, ◌≤◌, ℕ, IsTrue, List, ◌∷◌, []};
ghost use Rattle.std.specs.Ordering.{nat_cmp};
ghost use Rattle.std.specs.FinMap.{FinMap};
ghost use Rattle.fixed_box.specs.declared.point.Point.{Point};
ghost use Rattle.fixed_box.specs.Bounds.{Bounds, holds};
ghost use Rattle.fixed_box.specs.Point.{is_at_most};
ghost use Rattle.near_boxes.specs.declared.near.Near.{Near};
ghost use Rattle.near_boxes.specs.Nearest.{square, square_apart, spot, square_between};
ghost use Rattle.near_boxes.specs.Nearest.{nearest, nearest_of, nearest_about, nearest_about_of, AreNearest, AreNearestAbout};
ghost use Rattle.near_boxes.specs.Rows.{three_crates, middle, far_and_near, lowest, beside, low_end, high_end};

use crate::Near;
use ordered_lists::order_laws;

/// A law for proofs, with nothing to run: `square` is the square of the distance to the nearest point of a box. None of its
/// points is nearer, and one is as near.
pub fn square_law()
    ensures least { (at p : Point) (b : Bounds) → IsTrue (holds b p) → square at b ≤ square_between at p }
    ensures met { (at : Point) (b : Bounds) → IsTrue (is_at_most b.lo b.hi) →
        (p : Point) × (IsTrue (holds b p) × (square at b ≡ square_between at p)) }
{}

/// A law for proofs, with nothing to run: `square_apart` is the square of the distance between two boxes. No two points, one of each box,
/// are nearer, and two are as near. That of a point's `spot` is the point's `square`.
pub fn apart_law()
    ensures least { (a b : Bounds) (p q : Point) → IsTrue (holds a p) → IsTrue (holds b q) → square_apart a b ≤ square_between p q }
    ensures met { (a b : Bounds) → IsTrue (is_at_most a.lo a.hi) → IsTrue (is_at_most b.lo b.hi) →
        (p q : Point) × (IsTrue (holds a p) × (IsTrue (holds b q) × (square_apart a b ≡ square_between p q))) }
    ensures spot { (at : Point) (b : Bounds) → square at b ≡ square_apart (spot at) b }
{}

/// A law for proofs, with nothing to run, in the words of the subject: `nearest` has as many slots of the map as are wanted,
/// or all, each with its square, and each comes before all later ones and before every slot that is left out. One slot comes
/// before another where its box is nearer, or as near and its slot is lower. No other list is so.
pub fn nearest_law()
    ensures nearest { (bodies : FinMap nat_cmp Bounds) (at : Point) (want : ℕ) → AreNearest bodies at want (nearest bodies at want) }
    ensures only { (bodies : FinMap nat_cmp Bounds) (at : Point) (want : ℕ) (nears : List Near) →
        AreNearest bodies at want nears → nears ≡ nearest bodies at want }
{
    nearest_about_law();
}

/// The same of `nearest_about`, and that the nearest to a point are those nearest to its `spot`.
pub fn nearest_about_law()
    ensures nearest { (bodies : FinMap nat_cmp Bounds) (to : Bounds) (want : ℕ) → AreNearestAbout bodies to want (nearest_about bodies to want) }
    ensures only { (bodies : FinMap nat_cmp Bounds) (to : Bounds) (want : ℕ) (nears : List Near) →
        AreNearestAbout bodies to want nears → nears ≡ nearest_about bodies to want }
    ensures spot { (bodies : FinMap nat_cmp Bounds) (at : Point) (want : ℕ) → nearest bodies at want ≡ nearest_about bodies (spot at) want }
{
    order_laws::<Near>();
}

// Worked examples, in raw units squared.
fn nearest_examples()
    // The two crates at the same distance come in order of their slots.
    ensures two { nearest_of three_crates middle 2 ≡ record { slot = 0; square = 0 } ∷ record { slot = 1; square = 26843545600 } ∷ [] }
    ensures all { nearest_of three_crates middle 8192
        ≡ record { slot = 0; square = 0 } ∷ record { slot = 1; square = 26843545600 } ∷ record { slot = 2; square = 26843545600 } ∷ [] }
    ensures none { nearest_of [] middle 3 ≡ [] }
    // A square that wraps at 64 bits would put the far box first.
    ensures far { nearest_of far_and_near lowest 2 ≡ record { slot = 1; square = 17179869184 } ∷ record { slot = 0; square = 18446744082299486209 } ∷ [] }
{}

// Boxes that touch or lie in each other are 0 apart. From a point between two crates both are one unit off, and a box there
// that touches the second is nearer to it.
fn nearest_about_examples()
    ensures touching { square_apart (beside 1) (beside 0) ≡ 0 }
    ensures within { square_apart (beside 0) (beside 0) ≡ 0 }
    ensures both { nearest_about_of three_crates (spot (beside 2).lo) 2
        ≡ record { slot = 0; square = 4294967296 } ∷ record { slot = 1; square = 4294967296 } ∷ [] }
    ensures beside { nearest_about_of three_crates (beside 2) 2 ≡ record { slot = 1; square = 0 } ∷ record { slot = 0; square = 4294967296 } ∷ [] }
    // The two ends of space are as far apart as boxes can be.
    ensures far { square_apart low_end high_end ≡ 55340232195358851075 }
{}
