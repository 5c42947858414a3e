//! A visitor of exact boxes, which an index shows their skins.

ghost use Rattle.std.specs.Prelude.{◌≡◌, refl};
ghost use Rattle.std.proofs.Common.{◌∙◌};
ghost use Rattle.skin_index.specs.ExactShown.{SawExact, exact_any_order};

use crate::laned_boxes::LanedBoxes;
use broad_index::{Query, Visitor};
use fixed_box::{FBox, NoMemory, box_laws};
use prepared_query::enclosing_law;

// Shows a visitor the box of each slot of which it is shown the skin. A hull of skins encloses their boxes too, so it admits
// and prefers what the visitor does.
#[derive(Drop)]
pub(crate) struct ExactVisitor<'a, V> {
    pub(crate) bodies: &'a LanedBoxes,
    pub(crate) visitor: &'a mut V,
}

impl<'a, V> ExactVisitor<'a, V> {
    pub(crate) fn new(bodies: &'a LanedBoxes, visitor: &'a mut V) -> ExactVisitor<'a, V>
        ensures bodies { result.bodies.now ≡ bodies.now }
        ensures visitor { result.visitor ≡ visitor.entry }
    {
        ExactVisitor { bodies, visitor }
    }
}

impl<V: Visitor> Visitor for ExactVisitor<'_, V> {
    ghost saw = { λ s seen. SawExact s.bodies.now (V.saw s.visitor.now) seen };

    ghost keeps = { λ a b. (b.bodies.now ≡ a.bodies.now) × (b.visitor.ghost_name ≡ a.visitor.ghost_name) × V.keeps a.visitor.now b.visitor.now };

    ghost keeps_itself = { λ s. (refl, refl, V.keeps_itself s.visitor.now) };

    ghost keeps_on = { λ a b c f g. (g.0 ∙ f.0, g.1 ∙ f.1, V.keeps_on a.visitor.now b.visitor.now c.visitor.now f.2 g.2) };

    ghost any_order = { λ s. exact_any_order s.bodies.now (V.saw s.visitor.now) (V.any_order s.visitor.now) };

    // A box that doesn't meet it may have a skin that does: that is shown, and needn't be.
    fn query(&self) -> Query {
        box_laws();
        enclosing_law();
        self.visitor.query()
    }

    fn admits(&self, hull: &FBox) -> bool {
        box_laws();
        self.visitor.admits(hull)
    }

    fn prefers(&self, first: &FBox, second: &FBox) -> bool {
        self.visitor.prefers(first, second)
    }

    fn meet(&mut self, slot: u32, _skin: &FBox) -> Result<(), NoMemory> {
        match self.bodies.box_of(slot) {
            Some(body) => self.visitor.meet(slot, &body),
            None => Ok(()),
        }
    }
}
