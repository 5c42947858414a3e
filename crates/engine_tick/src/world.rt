//! Bodies under slots, over any broad phase: they come, move and go, and a tick tells which touch.

ghost use Rattle.std.specs.Prelude.{◌≡◌, ◌++◌, ◌<◌, [], true, false, OnOk, OnErr};
ghost use Rattle.std.specs.FinMap as map;
ghost use Rattle.std.specs.List.{All};
ghost use Rattle.broad_index.specs.Exchanges.{passed_by_add};
ghost use Rattle.broad_index.specs.Found.{found};
ghost use Rattle.broad_index.specs.Near.{near};
ghost use Rattle.engine_tick.specs.Colliding.{AreColliding, without};
ghost use Rattle.engine_tick.specs.Moves.{moved_all};
ghost use Rattle.engine_tick.specs.Touching.{AreTouching};

use crate::{Contacts, Kind};
use broad_index::{BroadPhase, Pair, Query, member_laws, order_laws};
use fixed_box::{FBox, NoMemory, SLOTS};

/// Where an engine's bodies are: a box for each of them, under a slot that the engine has chosen.
///
/// Each call but `box_of` and `hits` asks that memory hasn't run out in a change yet. A caller that was answered want of
/// memory by `enter`, `tick` or `frame` can't show that: it drops the world, makes another over a new index, and lets its
/// bodies enter it.
#[derive(Drop)]
pub struct World<B: Drop> {
    /// The structure that looks for pairs.
    pub index: B,
}

impl<B: BroadPhase + Drop> World<B> {
    /// A world with the boxes of an index.
    pub fn new(index: B) -> World<B>
        ensures { result.index ≡ index }
    {
        World { index }
    }

    /// A body comes in, under a slot that has none. After an `Err` the index is spent.
    pub fn enter(&mut self, slot: u32, body: FBox) -> Result<(), NoMemory>
        requires sound { B.spent self.old.index ≡ false }
        requires small { slot < SLOTS }
        requires absent { map.contains_key (B.bodies self.old.index) slot ≡ false }
        ensures entered { OnOk result (B.bodies self.new.index ≡ map.insert (B.bodies self.old.index) slot body) }
        ensures sound { OnOk result (B.spent self.new.index ≡ false) }
        // The count of exchanges begins anew with it.
        ensures counted { B.COUNTS ≡ true → OnOk result (B.exchanges self.new.index ≡ passed_by_add (B.bodies self.old.index) slot body) }
        ensures err { OnErr result (B.spent self.new.index ≡ true) }
    {
        // A count that begins anew has room.
        self.index.clear_exchanges();
        self.index.add(slot, body)
    }

    /// A body goes out.
    pub fn leave(&mut self, slot: u32)
        requires sound { B.spent self.old.index ≡ false }
        requires small { slot < SLOTS }
        requires present { map.contains_key (B.bodies self.old.index) slot ≡ true }
        ensures gone { B.bodies self.new.index ≡ map.remove (B.bodies self.old.index) slot }
        ensures sound { B.spent self.new.index ≡ false }
        ensures exchanges { B.exchanges self.new.index ≡ B.exchanges self.old.index }
    {
        self.index.leave(slot);
    }

    /// Moves bodies to where they are now, and puts the pairs that touch then into `touching`, in rising order.
    ///
    /// What `touching` had is dropped, and its memory serves again. If a body is moved twice, the later move counts.
    /// Each move begins a new count of exchanges, so the index's count tells nothing of the tick.
    pub fn tick(&mut self, moved: &[(u32, FBox)], touching: &mut Vec<Pair>) -> Result<(), NoMemory>
        requires sound { B.spent self.old.index ≡ false }
        requires small { All (λ m. m.0 < SLOTS) moved.now }
        requires present { All (λ m. map.contains_key (B.bodies self.old.index) m.0 ≡ true) moved.now }
        // The bodies are where the moves put them.
        ensures moved { OnOk result (B.bodies self.new.index ≡ moved_all (B.bodies self.old.index) moved.now) }
        // No pair of bodies that touch is missed, and no other pair is told.
        ensures touching { OnOk result (AreTouching (B.bodies self.new.index) touching.new.items) }
        ensures in_order { OnOk result (touching.new.items ≡ near (B.bodies self.new.index)) }
        ensures sound { OnOk result (B.spent self.new.index ≡ false) }
        ensures err { OnErr result (touching.new.items ≡ []) }
        // If a move ran out of memory the index is spent, and if the search did all moves are made.
        ensures left { OnErr result (B.spent self.new.index ≡ false → B.bodies self.new.index ≡ moved_all (B.bodies self.old.index) moved.now) }
    {
        order_laws();
        member_laws();
        touching.clear();
        self.move_all(moved)?;
        self.index.pairs(touching)
    }

    /// Ends a frame: moves bodies to where they are now, and tells which pairs of bodies collide then, which of them are new
    /// and which are over. `kinds` has the kind of each slot; a body whose slot is past its end collides with nobody.
    ///
    /// It costs what `tick` does, and a step for each pair that touches and for each that collided a frame before. The
    /// pairs of a body that left are over. A slot that was given to another body meanwhile is still the same one here.
    ///
    /// After an `Err` the index is as `tick` leaves it, and `contacts` has the pairs of the frame before and no event. So
    /// the next frame, of another world that the bodies have entered, tells all that has changed since.
    pub fn frame(
        &mut self,
        moved: &[(u32, FBox)],
        kinds: &[Kind],
        contacts: &mut Contacts,
    ) -> Result<(), NoMemory>
        requires sound { B.spent self.old.index ≡ false }
        requires small { All (λ m. m.0 < SLOTS) moved.now }
        requires present { All (λ m. map.contains_key (B.bodies self.old.index) m.0 ≡ true) moved.now }
        ensures moved { OnOk result (B.bodies self.new.index ≡ moved_all (B.bodies self.old.index) moved.now) }
        // No pair of bodies that collide is missed, and no other pair is told.
        ensures colliding { OnOk result (AreColliding (B.bodies self.new.index) kinds.now contacts.new.now.items) }
        // Those of them that weren't there a frame before, and those that were there and aren't any more.
        ensures began { OnOk result (contacts.new.began.items ≡ without contacts.old.now.items contacts.new.now.items) }
        ensures over { OnOk result (contacts.new.over.items ≡ without contacts.new.now.items contacts.old.now.items) }
        ensures sound { OnOk result (B.spent self.new.index ≡ false) }
        ensures kept { OnErr result (contacts.new.now.items ≡ contacts.old.now.items) }
        ensures silent { OnErr result ((contacts.new.began.items ≡ []) × (contacts.new.over.items ≡ [])) }
        ensures left { OnErr result (B.spent self.new.index ≡ false → B.bodies self.new.index ≡ moved_all (B.bodies self.old.index) moved.now) }
    {
        member_laws();
        contacts.clear_events();
        self.tick(moved, &mut contacts.touching)?;
        contacts.turn(kinds)
    }

    /// The box of a body, and `None` where the slot has none. It is one look-up.
    pub fn box_of(&self, slot: u32) -> Option<FBox>
        ensures { B.spent self.now.index ≡ false → result ≡ map.get (B.bodies self.now.index) slot }
    {
        self.index.box_of(slot)
    }

    /// Appends the bodies that meet a query, in rising order of their slots. After an `Err` all is as before.
    pub fn hits(&self, query: &Query, met: &mut Vec<u32>) -> Result<(), NoMemory>
        ensures sound { OnOk result (B.spent self.now.index ≡ false) }
        ensures met { OnOk result (met.new.items ≡ met.old.items ++ found (B.bodies self.now.index) query.now) }
        ensures err { OnErr result (met.new.items ≡ met.old.items) }
    {
        self.index.hits(query, met)
    }

    // Moves one body after the other.
    fn move_all(&mut self, moved: &[(u32, FBox)]) -> Result<(), NoMemory>
        requires sound { B.spent self.old.index ≡ false }
        requires small { All (λ m. m.0 < SLOTS) moved.now }
        requires present { All (λ m. map.contains_key (B.bodies self.old.index) m.0 ≡ true) moved.now }
        ensures moved { OnOk result (B.bodies self.new.index ≡ moved_all (B.bodies self.old.index) moved.now) }
        ensures sound { OnOk result (B.spent self.new.index ≡ false) }
        ensures err { OnErr result (B.spent self.new.index ≡ true) }
    {
        for one in moved {
            self.index.clear_exchanges();
            self.index.shift(one.0, one.1)?;
        }
        Ok(())
    }
}
