//! The nearest boxes by one descent: the nearest so far stand in order, and what lies farther than all of them is passed by.

ghost use Rattle.std.specs.Prelude.{◌≡◌, ℕ, refl, IsTrue, ◌≤◌, ◌++◌, [], false, take, insert, IfOk, OnOk, length};
ghost use Rattle.std.proofs.Common.{◌∙◌};
ghost use Rattle.broad_index.specs.declared.query.Query.TheVariants.{Region};
ghost use Rattle.fixed_box.specs.Bounds.{meets};
ghost use Rattle.fixed_box.specs.Space.{space};
ghost use Rattle.fixed_box.specs.declared.TheConstants.{SLOTS};
ghost use Rattle.ordered_lists.specs.Ascending.{Ascends};
ghost use Rattle.ordered_lists.specs.Ordered.{placed};
ghost use Rattle.near_boxes.specs.Bodies.{AreInSpace, AreAmong};
ghost use Rattle.near_boxes.specs.Nearest.{nearest_about, near_cmp, square_apart, squared};
ghost use Rattle.near_boxes.specs.Search.{HasNearest, any_order, is_last_nearer, is_passed};
ghost use Rattle.near_boxes.specs.Within.{Reaches};

use crate::distance::square_apart;
use crate::{Bodies, Near};
use broad_index::{BroadPhase, Query, Visitor};
use fixed_box::{FBox, Fix, NoMemory, Point, box_laws, space_law};

// The nearest bodies among the boxes that were shown, at most so many.
#[derive(Drop)]
pub(crate) struct NearestSearch<'a, T: Bodies> {
    bodies: &'a T,
    to: FBox,
    want: usize,
    nears: Vec<Near>,
}

impl<T: Bodies> Visitor for NearestSearch<'_, T> {
    ghost saw = { λ s seen. HasNearest (T.bodies s.bodies.now) s.to s.want s.nears.items seen };

    ghost keeps = { λ a b. (T.bodies b.bodies.now ≡ T.bodies a.bodies.now) × (b.to ≡ a.to) × (b.want ≡ a.want) };

    ghost keeps_itself = { λ _. (refl, refl, refl) };

    ghost keeps_on = { λ _ _ _ f g. (g.0 ∙ f.0, g.1 ∙ f.1, g.2 ∙ f.2) };

    ghost any_order = { λ s. any_order (T.bodies s.bodies.now) s.to s.want s.nears.items };

    // As far as the last, once it has as many as it wants, since what is farther comes after it. Before that all of space.
    fn query(&self) -> Query {
        space_law(&self.to);
        let len = self.nears.len();
        if len == 0 || len < self.want {
            return Query::Region(all_of_space());
        }
        let reach = reach_of(self.nears[len - 1].square);
        Query::Region(self.to.fatten(reach))
    }

    // As far as the farthest a lower slot may come before it.
    fn admits(&self, hull: &FBox) -> bool {
        !is_passed(self.want, square_apart(&self.to, hull), &self.nears)
    }

    fn prefers(&self, first: &FBox, second: &FBox) -> bool {
        square_apart(&self.to, first) <= square_apart(&self.to, second)
    }

    fn meet(&mut self, slot: u32, body: &FBox) -> Result<(), NoMemory> {
        box_laws();
        let square = square_apart(&self.to, body);
        // first, since in a crowd most boxes lie farther than those it has
        if is_passed(self.want, square, &self.nears) {
            return Ok(());
        }
        if self.bodies.body(slot).is_none() {
            return Ok(());
        }
        place(Near { slot, square }, self.want, &mut self.nears)
    }
}

// The nearest bodies by one descent, in rising order, in the room of an empty list.
pub(crate) fn descend<B: BroadPhase, T: Bodies>(
    nears: Vec<Near>,
    slots: &mut Vec<u32>,
    index: &B,
    bodies: &T,
    to: &FBox,
    want: usize,
) -> Result<Vec<Near>, NoMemory>
    requires empty { nears.items ≡ [] }
    requires in_space { AreInSpace (T.bodies bodies.now) }
    requires among { AreAmong (T.bodies bodies.now) (B.bodies index.now) }
    ensures { IfOk result (λ found. found.items ≡ nearest_about (T.bodies bodies.now) to.now want) }
{
    space_law(to);
    let mut search = NearestSearch {
        bodies,
        to: *to,
        want,
        nears,
    };
    index.visit(slots, &mut search)?;
    Ok(search.nears)
}

// The least margin whose square is at least so much, or the greatest margin, which fattens any box to all of space.
fn reach_of(square: u128) -> u32
    ensures reaches { Reaches result square }
    ensures least { (margin : ℕ) → square ≤ squared margin → result ≤ margin }
{
    let narrow = u64::try_from(square).unwrap_or(u64::MAX);
    let below = narrow.isqrt();
    let root = if below * below < narrow {
        below + 1
    } else {
        below
    };
    u32::try_from(root).unwrap_or(u32::MAX)
}

// The box that all of space is.
fn all_of_space() -> FBox
    ensures { result ≡ space }
{
    let lo = Point {
        x: Fix::MIN,
        y: Fix::MIN,
        z: Fix::MIN,
    };
    let hi = Point {
        x: Fix::MAX,
        y: Fix::MAX,
        z: Fix::MAX,
    };
    FBox::new(lo, hi).unwrap()
}

// Whether there are enough, and the last is nearer than a square.
fn is_passed(want: usize, than: u128, nears: &[Near]) -> bool
    ensures { result ≡ is_passed want than nears.now }
{
    want <= nears.len() && is_last_nearer(nears, than)
}

// Whether the last is nearer than a square, as it is where there is none.
fn is_last_nearer(nears: &[Near], than: u128) -> bool
    ensures { result ≡ is_last_nearer than nears.now }
{
    let len = nears.len();
    len == 0 || nears[len - 1].square < than
}

// Puts one into its place among those that stand in order, and keeps the first so many.
fn place(near: Near, want: usize, nears: &mut Vec<Near>) -> Result<(), NoMemory>
    ensures { OnOk result (Ascends near_cmp nears.old.items → nears.new.items ≡ take want (placed near_cmp near nears.old.items)) }
{
    let at = place_of(&near, nears);
    nears.insert(at, near)?;
    nears.truncate(want);
    Ok(())
}

// How many of those that stand in order come before it: most of them, since boxes come about nearest first.
fn place_of(near: &Near, nears: &[Near]) -> usize
    ensures within { result ≤ length nears.now }
    ensures place { Ascends near_cmp nears.now → placed near_cmp near.now nears.now ≡ insert nears.now result near.now }
{
    let mut at = nears.len();
    'places: while 0 < at && !(nears[at - 1] < *near) {
        at -= 1;
    }
    at
}
