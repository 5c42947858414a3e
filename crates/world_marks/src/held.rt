//! A mark that is held: what its world had, and the journal of what undoes each change since.

ghost use Rattle.std.specs.Prelude.{◌≡◌, ◌<◌, ◌+◌, [], Some};
ghost use Rattle.world_marks.specs.HeldMarks.{mark_of, spare_of};
ghost use Rattle.world_marks.specs.Marks.{noted, keeping};

use crate::Undo;
use pair_events::HPair;

// A mark that is held.
#[derive(Drop)]
pub(crate) struct Held {
    pub frames: u64,
    pub exchanges: u64,
    // The pairs of the last frame before it, once another frame came.
    pub kept: Option<Vec<HPair>>,
    // What undoes each change since, the latest last.
    pub undos: Vec<Undo>,
}

impl Held {
    // Notes what undoes one more change. There is room for it.
    pub fn note(&mut self, undo: Undo)
        requires { 0 < spare_of (Some self.old) }
        ensures noted { mark_of self.new ≡ noted undo (mark_of self.old) }
        ensures spare { spare_of (Some self.new) + 1 ≡ spare_of (Some self.old) }
    {
        self.undos.push_reserved(undo);
    }

    // Its list of changes, emptied for another mark.
    pub fn emptied(self) -> Vec<Undo>
        ensures { result.items ≡ [] }
    {
        let Held {
            frames: _,
            exchanges: _,
            kept: _kept,
            mut undos,
        } = self;
        undos.clear();
        undos
    }

    // Keeps the pairs of the last frame, where there are none.
    pub fn keep(&mut self, last: Vec<HPair>)
        ensures kept { mark_of self.new ≡ keeping last.items (mark_of self.old) }
        ensures spare { spare_of (Some self.new) ≡ spare_of (Some self.old) }
    {
        if self.kept.is_none() {
            self.kept = Some(last);
        }
    }
}
