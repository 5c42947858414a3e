//! The broad phase of boxes in skins: changes, and pairs and queries of the skins that the exact boxes decide.

ghost use Rattle.std.specs.Prelude.{◌≡◌, ◌&&◌, false, refl};
ghost use Rattle.std.proofs.Common.{ap};

use crate::exact::{keep_found, push_meeting};
use crate::exact_visitor::ExactVisitor;
use crate::mending::{mend, push_others};
use crate::skin::{is_inside, skin_of};
use crate::skinned_boxes::Skinned;
use broad_index::{BroadPhase, NoSeeker, Pair, Query, Visitor, keeping_laws, member_laws};
use fixed_box::{FBox, NoMemory, box_laws};
use prepared_query::enclosing_law;

impl<B: BroadPhase + Drop> BroadPhase for Skinned<B> {
    const COUNTS: bool = false;

    ghost bodies = { λ index. index.bodies };

    ghost spent = { λ index. B.RUNS_OUT && index.spent };

    ghost COUNTS = { false };

    // It takes room for all slots when it is made, so that memory may run out in a change only where it may inside.
    ghost RUNS_OUT = { B.RUNS_OUT };

    ghost exchanges = { λ _. 0 };

    // It changes nothing that is told.
    ghost paired = { λ old new. new ≡ old };

    type Shared = NoSeeker;

    ghost uncounted = { λ _ _. refl };

    ghost lasting = { λ index lasts. ap (λ runs. runs && index.spent) lasts };

    fn add(&mut self, slot: u32, body: FBox) -> Result<(), NoMemory> {
        if self.spent {
            return Err(NoMemory);
        }
        keeping_laws();
        // what an index counts of skins is told to nobody, and never comes to its end
        self.index.clear_exchanges();
        self.marked.mark(slot);
        self.spent = true;
        self.index.add(slot, skin_of(&None, &body))?;
        self.bodies.put(slot, body);
        self.spent = false;
        Ok(())
    }

    fn shift(&mut self, slot: u32, body: FBox) -> Result<(), NoMemory> {
        if self.spent {
            return Err(NoMemory);
        }
        if is_inside(&self.index.box_of(slot), &body) {
            self.bodies.set(slot, body);
            return Ok(());
        }
        keeping_laws();
        let before = self.bodies.box_of(slot);
        self.index.clear_exchanges();
        self.marked.mark(slot);
        self.spent = true;
        self.index.shift(slot, skin_of(&before, &body))?;
        self.bodies.set(slot, body);
        self.spent = false;
        Ok(())
    }

    fn leave(&mut self, slot: u32) {
        if self.spent {
            return;
        }
        keeping_laws();
        self.marked.mark(slot);
        self.index.leave(slot);
        self.bodies.take(slot);
    }

    fn pairs(&mut self, out: &mut Vec<Pair>) -> Result<(), NoMemory> {
        member_laws();
        box_laws();
        if self.spent {
            return Err(NoMemory);
        }
        if self.marked.are_few(self.index.len()) {
            let (index, room) = (&self.index, &mut self.room);
            room.found.clear();
            let mut rest = self.marked.slots.as_slice();
            'slots: while let [slot, more @ ..] = rest {
                if let Some(skin) = index.box_of(*slot) {
                    room.met.clear();
                    index.hits(&Query::Region(skin), &mut room.met)?;
                    push_others(*slot, &mut room.met, &mut room.found)?;
                }
                rest = more;
            }
            mend(&mut self.near, &self.marked, room)?;
        } else {
            self.marked.mark_all();
            self.near.clear();
            self.index.pairs(&mut self.near)?;
        }
        self.marked.clear();
        push_meeting(&self.bodies, &self.near, out)
    }

    fn hits(&self, query: &Query, out: &mut Vec<u32>) -> Result<(), NoMemory> {
        member_laws();
        enclosing_law();
        if self.spent {
            return Err(NoMemory);
        }
        let before = out.len();
        self.index.hits(query, out)?;
        keep_found(&self.bodies, query, before, out);
        Ok(())
    }

    fn visit<V: Visitor>(&self, room: &mut Vec<u32>, visitor: &mut V) -> Result<(), NoMemory> {
        member_laws();
        box_laws();
        if self.spent {
            return Err(NoMemory);
        }
        let mut exact = ExactVisitor::new(&self.bodies, visitor);
        self.index.visit(room, &mut exact)?;
        Ok(())
    }

    fn descends(&self) -> bool {
        self.index.descends()
    }

    fn box_of(&self, slot: u32) -> Option<FBox> {
        self.bodies.box_of(slot)
    }

    fn len(&self) -> u32 {
        self.bodies.len()
    }

    fn exchanges(&self) -> u64 {
        0
    }

    fn clear_exchanges(&mut self) {}
}
