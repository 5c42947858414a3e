//! The stack of marks: mark, note what undoes each change, and go back to the newest.

ghost use Rattle.std.specs.Prelude.{◌≡◌, ◌≢◌, ◌<◌, ◌≤◌, ◌+◌, ◌^◌, ◌↔◌, ◌++◌, [], ◌∷◌, List, Bool, true, false, length, Ok, None, Some, IfOk, OnOk, is_some};
ghost use Rattle.std.specs.Prelude.{OnErr, not, nat_lt, drop, vec_len, vec_capacity};
ghost use Rattle.live_table.specs.Bodies.{bodies_of};
ghost use Rattle.live_table.specs.Table.{IsTable};
ghost use Rattle.world_marks.specs.declared.TheConstants.{MOST_MARKS};
ghost use Rattle.world_marks.specs.Marks.{Mark, Marked, fresh, with_newest, noted, keeping, or_kept, IsReturn, IsBack};
ghost use Rattle.world_marks.specs.Undone.{undone};

use crate::going_back::{undo_in_index, undo_in_table};
use crate::held::Held;
use crate::{MOST_MARKS, Restored, Undo};
use broad_index::BroadPhase;
use fixed_box::NoMemory;
use live_table::LiveTable;
use pair_events::{HPair, PairTable};
use std::alloc::Global;
use std::marker::Model;
use std::mem;

/// The marks of a world that are held, each with what undoes the changes since.
///
/// Clauses see the list of marks, the newest last, and how many more changes may be noted without memory.
#[derive(Drop)]
pub struct Marks {
    alloc: Global,
    // The other marks, with room for as many as may be held.
    older: Vec<Held>,
    newest: Option<Held>,
    // The empty list of a mark that was gone back to, for the next one.
    idle: Vec<Undo>,
}

impl Model for Marks {
    ghost use Rattle.std.specs.Prelude.{◌≡◌, ◌≤◌, [], vec_capacity, List, None};
    ghost use Rattle.world_marks.specs.declared.TheConstants.{MOST_MARKS};
    ghost use Rattle.world_marks.specs.HeldMarks.{IsHeld, marks_of, spare_of};
    ghost use Rattle.world_marks.specs.Marks.{Marked};

    ghost Value = { Marked };

    ghost view = { λ m. record { marks = marks_of m.older.items m.newest; spare = spare_of m.newest } };

    ghost invariant = { λ m. IsHeld (vec_capacity m.older) m.older.items m.newest m.idle.items };
}

impl Marks {
    /// No mark is held.
    pub fn new(alloc: Global) -> Result<Marks, NoMemory>
        ensures { IfOk result (λ marks. marks.marks ≡ []) }
    {
        Ok(Marks {
            alloc,
            older: Vec::with_capacity(alloc, MOST_MARKS as usize)?,
            newest: None,
            idle: Vec::new(alloc),
        })
    }

    /// The number of marks that are held.
    pub fn held(&self) -> u32
        ensures held { result ≡ length self.now.marks }
        ensures few { result ≤ MOST_MARKS }
    {
        match self.newest {
            Some(_) => self.older.len() as u32 + 1,
            None => 0,
        }
    }

    /// How many more changes may be noted before memory is asked for.
    pub fn spare(&self) -> usize
        ensures { result ≡ self.now.spare }
    {
        match &self.newest {
            Some(mark) => mark.undos.capacity() - mark.undos.len(),
            None => 1,
        }
    }

    /// Marks a world that has these frames and exchanges. Where `MOST_MARKS` are held it answers false, and changes nothing.
    pub fn mark(&mut self, frames: u64, exchanges: u64) -> bool
        ensures held { result ≡ nat_lt (length self.old.marks) MOST_MARKS }
        ensures marked { result ≡ true → self.new.marks ≡ self.old.marks ++ fresh frames exchanges ∷ [] }
        ensures same { result ≡ false → self.new ≡ self.old }
    {
        if self.held() == MOST_MARKS {
            return false;
        }
        let fresh = Held {
            frames,
            exchanges,
            kept: None,
            undos: mem::replace(&mut self.idle, Vec::new(self.alloc)),
        };
        if let Some(former) = self.newest.replace(fresh) {
            self.older.push_reserved(former);
        }
        true
    }

    /// Gives up the oldest marks, so many of them: nobody can go back to them any more, and the others lead to what they did. Where fewer
    /// are held it answers false, and changes nothing.
    ///
    /// It takes no memory. What the marks kept is freed, except one list of changes, which the next mark gets: so a ring of marks, in
    /// which the oldest goes where a new one comes, asks for no memory once its lists have grown.
    pub fn forget(&mut self, count: u32) -> bool
        ensures held { result ≡ not (nat_lt (length self.old.marks) count) }
        ensures forgotten { result ≡ true → self.new.marks ≡ drop count self.old.marks }
        ensures spare { count < length self.old.marks → self.new.spare ≡ self.old.spare }
        ensures same { result ≡ false → self.new ≡ self.old }
    {
        if self.held() < count {
            return false;
        }
        let count = count as usize;
        if count <= self.older.len() {
            forget_first(&mut self.older, count, &mut self.idle);
        } else {
            self.forget_all();
        }
        true
    }

    // No mark is held any more.
    fn forget_all(&mut self)
        ensures { self.new.marks ≡ [] }
    {
        self.older.clear();
        if let Some(newest) = self.newest.take() {
            self.idle = newest.emptied();
        }
    }

    /// Makes room for one more change. After an `Err` all is as before.
    pub fn room(&mut self) -> Result<(), NoMemory>
        ensures room { OnOk result (0 < self.new.spare) }
        ensures marks { self.new.marks ≡ self.old.marks }
        ensures err { OnErr result (self.new ≡ self.old) }
    {
        if let Some(mark) = &mut self.newest {
            mark.undos.reserve(1)?;
        }
        Ok(())
    }

    /// Notes what undoes a change, in the newest mark. Where no mark is held nothing changes.
    pub fn note(&mut self, undo: Undo)
        requires room { 0 < self.old.spare }
        ensures noted { self.new.marks ≡ with_newest (noted undo) self.old.marks }
        ensures spare { self.old.marks ≡ [] → self.new ≡ self.old }
        ensures taken { self.old.marks ≢ [] → self.new.spare + 1 ≡ self.old.spare }
    {
        if let Some(mark) = &mut self.newest {
            mark.note(undo);
        }
    }

    /// Keeps the pairs of the last frame in the newest mark, where that has none. Else they are dropped.
    pub fn keep(&mut self, last: Vec<HPair>)
        ensures kept { self.new.marks ≡ with_newest (keeping last.items) self.old.marks }
        ensures spare { self.new.spare ≡ self.old.spare }
    {
        if let Some(mark) = &mut self.newest {
            mark.keep(last);
        }
    }

    /// Whether the newest mark has pairs of its own, since a frame ended after it: then `back` makes them the last ones.
    pub fn keeps_pairs(&self) -> bool
        ensures newest { (older : List Mark) (mark : Mark) → self.now.marks ≡ older ++ mark ∷ [] → result ≡ is_some mark.kept }
        ensures none { self.now.marks ≡ [] → result ≡ false }
    {
        match &self.newest {
            Some(mark) => mark.kept.is_some(),
            None => false,
        }
    }

    /// Goes back to the newest mark, which is no longer held then. `None` comes where no mark is held.
    ///
    /// The index goes the whole way first, and counts its exchanges anew on it, so that nothing is said of their number
    /// afterwards. After an `Err` the index is spent, and all else is as before.
    pub fn back<B: BroadPhase>(
        &mut self,
        index: &mut B,
        table: &mut LiveTable,
        pairs: &mut PairTable,
    ) -> Result<Option<Restored>, NoMemory>
        requires sound { B.spent index.old ≡ false }
        requires boxes { B.bodies index.old ≡ bodies_of table.old.entries }
        requires newest { (older : List Mark) (mark : Mark) → self.old.marks ≡ older ++ mark ∷ [] → IsReturn mark table.old }
        ensures none { (result ≡ Ok None) ↔ (self.old.marks ≡ []) }
        ensures same { result ≡ Ok None → (self.new ≡ self.old) × (index.new ≡ index.old) × (table.new ≡ table.old) × (pairs.new ≡ pairs.old) }
        ensures gone_back { (older : List Mark) (mark : Mark) → self.old.marks ≡ older ++ mark ∷ [] →
            IfOk result (λ restored. IsBack older mark restored self.new.marks table.old table.new pairs.old pairs.new) }
        ensures sound { OnOk result (B.spent index.new ≡ false) }
        ensures boxes { OnOk result (B.bodies index.new ≡ bodies_of table.new.entries) }
        ensures table { self.old.marks ≢ [] → IsTable table.new }
        ensures spent { OnErr result (B.spent index.new ≡ true) }
        ensures err { OnErr result ((self.new ≡ self.old) × (table.new ≡ table.old) × (pairs.new ≡ pairs.old)) }
    {
        let Some(mut mark) = self.newest.take() else {
            return Ok(None);
        };
        if undo_in_index(&mark.undos, index, table).is_err() {
            self.newest = Some(mark);
            return Err(NoMemory);
        }
        undo_in_table(&mut mark.undos, table);
        let Held {
            frames,
            exchanges,
            kept,
            undos,
        } = mark;
        if let Some(last) = kept {
            pairs.set_last(last);
        }
        self.newest = self.older.pop();
        self.idle = undos;
        Ok(Some(Restored { frames, exchanges }))
    }
}

// Takes the first marks out, so many of them. The list of changes of the last one stays, emptied.
fn forget_first(older: &mut Vec<Held>, count: usize, idle: &mut Vec<Undo>)
    requires some { count ≤ vec_len older.old }
    ensures left { older.new.items ≡ drop count older.old.items }
    ensures room { vec_capacity older.new ≡ vec_capacity older.old }
    ensures empty { idle.old.items ≡ [] → idle.new.items ≡ [] }
{
    let mut left = count;
    'forgotten: while 0 < left {
        *idle = older.remove(0).emptied();
        left -= 1;
    }
}
