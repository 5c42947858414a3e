//! Boxes in skins over the tree, as one type, which has a name.

ghost use Rattle.std.specs.Prelude.{◌≡◌, false, IfOk, refl};
ghost use Rattle.broad_index.specs.Fresh.{IsFresh};

use box_tree::BoxTree;
use broad_index::{BroadPhase, NoSeeker, Pair, Query, Visitor};
use fixed_box::{FBox, NoMemory};
use skin_index::Skinned;
use std::alloc::Global;
use std::marker::Model;

/// Boxes in skins over the tree: the one `Skinned` that has a name. Each call is that of a `Skinned<BoxTree>`.
#[derive(Drop)]
pub struct SkinTree {
    skins: Skinned<BoxTree>,
}

impl Model for SkinTree {
    ghost use Rattle.broad_index.specs.Index.{Indexed, coded_index};

    ghost Value = { Indexed };

    ghost coded = { coded_index };

    ghost view = { λ s. s.skins };
}

impl SkinTree {
    /// No box.
    pub fn new(alloc: Global) -> Result<SkinTree, NoMemory>
        ensures { IfOk result (λ index. IsFresh index.bodies false 0) }
    {
        Ok(SkinTree {
            skins: Skinned::new(alloc, BoxTree::new(alloc)?)?,
        })
    }
}

impl BroadPhase for SkinTree {
    const COUNTS: bool = false;

    ghost bodies = { λ index. index.bodies };

    // All that a change needs is there from the outset, as in the tree.
    ghost spent = { λ _. false };

    ghost COUNTS = { false };

    ghost RUNS_OUT = { false };

    ghost exchanges = { λ _. 0 };

    // It changes nothing that is told.
    ghost paired = { λ old new. new ≡ old };

    type Shared = NoSeeker;

    ghost uncounted = { λ _ _. refl };

    ghost lasting = { λ _ _. refl };

    fn add(&mut self, slot: u32, body: FBox) -> Result<(), NoMemory> {
        self.skins.add(slot, body)
    }

    fn shift(&mut self, slot: u32, body: FBox) -> Result<(), NoMemory> {
        self.skins.shift(slot, body)
    }

    fn leave(&mut self, slot: u32) {
        self.skins.leave(slot);
    }

    fn pairs(&mut self, out: &mut Vec<Pair>) -> Result<(), NoMemory> {
        self.skins.pairs(out)
    }

    fn hits(&self, query: &Query, out: &mut Vec<u32>) -> Result<(), NoMemory> {
        self.skins.hits(query, out)
    }

    fn visit<V: Visitor>(&self, room: &mut Vec<u32>, visitor: &mut V) -> Result<(), NoMemory> {
        self.skins.visit(room, visitor)
    }

    fn descends(&self) -> bool {
        self.skins.descends()
    }

    fn box_of(&self, slot: u32) -> Option<FBox> {
        self.skins.box_of(slot)
    }

    fn len(&self) -> u32 {
        self.skins.len()
    }

    fn exchanges(&self) -> u64 {
        0
    }

    fn clear_exchanges(&mut self) {}
}
