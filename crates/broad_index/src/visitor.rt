//! What is shown boxes one after another, and tells which of them need not be shown: a search for the first or the nearest.

ghost use Rattle.std.specs.Prelude.{◌≡◌, ℕ, ◌++◌, ◌∷◌, [], false, List, IsTrue, OnOk};
ghost use Rattle.std.specs.List.{All};
ghost use Rattle.std.specs.List.Sorted.{IsPermutation};
ghost use Rattle.fixed_box.specs.Bounds.{Bounds, encloses};
ghost use Rattle.broad_index.specs.Found.{query_meets};

use crate::Query;
use fixed_box::{FBox, NoMemory};

/// What a broad phase shows boxes to, which keeps of them what it looks for: the box that a ray meets first, or the nearest
/// few. The more it has seen, the fewer boxes it admits, so that a search passes by all that lie behind what is found.
/// (Box2D's ray-cast callback answers a shorter ray for that.)
pub trait Visitor {
    /// What it has become by the boxes that it was shown, each with its slot. Boxes that need not be shown count as seen.
    ghost saw: { Self → List (ℕ × Bounds) → Type 0 };

    /// What stays of it as it is shown boxes, as what it is asked for.
    ghost keeps: { Self → Self → Type 0 };

    /// What it looks for. A box that doesn't meet this need not be shown.
    fn query(&self) -> Query
        ensures missed { (seen more : List (ℕ × Bounds)) → saw self.now seen → All (λ e. query_meets result e.1 ≡ false) more → saw self.now (seen ++ more) };

    /// Whether a box may still count that lies in a hull. If not, no box in it need be shown.
    fn admits(&self, hull: &FBox) -> bool
        ensures passed { result ≡ false → (seen more : List (ℕ × Bounds)) → saw self.now seen
            → All (λ e. IsTrue (encloses hull.now e.1)) more → saw self.now (seen ++ more) };

    /// Which of two hulls to look into first: for speed alone, and no answer is wrong.
    fn prefers(&self, first: &FBox, second: &FBox) -> bool;

    /// Is shown a box with its slot.
    fn meet(&mut self, slot: u32, body: &FBox) -> Result<(), NoMemory>
        ensures seen { OnOk result ((seen : List (ℕ × Bounds)) → saw self.old seen → saw self.new (seen ++ (slot, body.now) ∷ [])) }
        ensures kept { OnOk result (keeps self.old self.new) };

    /// The order in which it is shown boxes doesn't matter.
    ghost any_order: { (visitor : Self) (seen other : List (ℕ × Bounds)) → IsPermutation seen other → saw visitor seen → saw visitor other };

    /// It keeps what it has,
    ghost keeps_itself: { (visitor : Self) → keeps visitor visitor };

    /// however often it is shown boxes.
    ghost keeps_on: { (first second third : Self) → keeps first second → keeps second third → keeps first third };
}
