//! What boxes in skins are kept as: the boxes, an index of the skins, and the pairs of the skins.

ghost use Rattle.std.specs.Prelude.{IfOk};
ghost use Rattle.broad_index.specs.Fresh.{IsFresh};

use crate::laned_boxes::LanedBoxes;
use crate::marked_skins::MarkedSkins;
use crate::mending::MendingRoom;
use broad_index::{BroadPhase, Pair};
use fixed_box::NoMemory;
use std::alloc::Global;
use std::marker::Model;

/// Boxes that move little, over any index: each box lies in a skin, a box around it, and the index has the skins. A box that
/// moves within its skin is stored, and the index hears nothing of it. Molecular dynamics calls the pairs of the skins a
/// neighbour list (Verlet, 1967), and physics engines a skin an enlarged AABB, its width a margin.
///
/// The pairs of the skins are kept, and slots that came, went or left their skins since are marked. `pairs` tests the boxes
/// of each kept pair: so a frame in which no box leaves its skin costs a look at each, whatever the index. For each marked slot
/// it first asks the index what its skin meets, one query by region, and mends the kept pairs by that in one pass. If more than
/// an eighth of the boxes are marked, and more than 16, it asks for all pairs anew. A query asks the index, and tests the boxes
/// that it finds. A box is kept here, in 61 bytes a slot, half of which are numbers that are compared at once, and its skin in the index.
///
/// It is for boxes that move by little in a tick, as bodies at rest or near it do. If most boxes jump, the index alone is
/// faster. How wide skins are is for speed alone, and no clause speaks of it.
///
/// An engine owns it where it would own the index: `BoxWorld<Skinned<BoxTree>>`. It searches on the caller's thread.
#[derive(Drop)]
pub struct Skinned<B: BroadPhase + Drop> {
    pub(crate) bodies: LanedBoxes,
    // It has the skins.
    pub(crate) index: B,
    // The pairs of the skins, right but for those of marked skins.
    pub(crate) near: Vec<Pair>,
    pub(crate) marked: MarkedSkins,
    pub(crate) room: MendingRoom,
    // Whether memory ran out in a change: it is set before the index may run out of it, and cleared after.
    pub(crate) spent: bool,
}

impl<B: BroadPhase + Drop> Model for Skinned<B> {
    ghost use Rattle.broad_index.specs.Index.{Indexed, coded_index};
    ghost use Rattle.skin_index.specs.Skins.{IsSkinned};

    ghost Value = { Indexed };

    ghost coded = { coded_index };

    ghost view = { λ s. record { bodies = s.bodies; spent = s.spent } };

    ghost invariant = { λ s. IsSkinned s.bodies (B.bodies s.index) (B.spent s.index) s.spent s.marked s.near.items };
}

impl<B: BroadPhase + Drop> Skinned<B> {
    /// No box, over an index that has none and that nobody else asks.
    pub fn new(alloc: Global, index: B) -> Result<Skinned<B>, NoMemory>
        requires { IsFresh (B.bodies index) (B.spent index) (B.exchanges index) }
        ensures { IfOk result (λ index. IsFresh index.bodies index.spent 0) }
    {
        Ok(Skinned {
            bodies: LanedBoxes::new(alloc)?,
            index,
            near: Vec::new(alloc),
            marked: MarkedSkins::new(alloc)?,
            room: MendingRoom::new(alloc),
            spent: false,
        })
    }
}
