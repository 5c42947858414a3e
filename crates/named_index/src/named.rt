//! The trait that gives each structure its name and makes an empty one.

ghost use Rattle.std.specs.Prelude.{◌≡◌, IfOk, refl};
ghost use Rattle.broad_index.specs.Fresh.{IsFresh};
ghost use Rattle.named_index.specs.Structures.{counts};
ghost use Rattle.named_index.specs.declared.structure.Structure.{Structure};
ghost use Rattle.named_index.specs.declared.structure.Structure.TheVariants.{Plain, Sap as SapNamed, Tree, Grid, Skin};

use crate::SkinTree;
use box_tree::BoxTree;
use broad_index::{BroadPhase, PlainIndex};
use fixed_box::NoMemory;
use hier_grid::HierGrid;
use std::alloc::Global;
use sweep_prune::Sap;

/// A structure that has a name.
pub trait Named: BroadPhase + Sync + Drop + Sized {
    /// Its name.
    ghost STRUCTURE: { Structure };

    /// An index with no box.
    fn made(alloc: Global) -> Result<Self, NoMemory>
        ensures fresh { IfOk result (λ index. IsFresh (Self.bodies index) (Self.spent index) (Self.exchanges index)) };

    /// It counts exchanges exactly where the structure of this name does.
    ghost counting: { Self.COUNTS ≡ counts STRUCTURE };
}

impl Named for PlainIndex {
    ghost STRUCTURE = { Plain };

    ghost counting = { refl };

    fn made(alloc: Global) -> Result<PlainIndex, NoMemory> {
        PlainIndex::new(alloc)
    }
}

impl Named for Sap {
    ghost STRUCTURE = { SapNamed };

    ghost counting = { refl };

    fn made(alloc: Global) -> Result<Sap, NoMemory> {
        Sap::new(alloc)
    }
}

impl Named for BoxTree {
    ghost STRUCTURE = { Tree };

    ghost counting = { refl };

    fn made(alloc: Global) -> Result<BoxTree, NoMemory> {
        BoxTree::new(alloc)
    }
}

impl Named for HierGrid {
    ghost STRUCTURE = { Grid };

    ghost counting = { refl };

    fn made(alloc: Global) -> Result<HierGrid, NoMemory> {
        HierGrid::new(alloc)
    }
}

impl Named for SkinTree {
    ghost STRUCTURE = { Skin };

    ghost counting = { refl };

    fn made(alloc: Global) -> Result<SkinTree, NoMemory> {
        SkinTree::new(alloc)
    }
}
