//! The broad phase itself: it keeps keys, endpoints and counts in step with a plain list of the boxes.

ghost use Rattle.std.specs.Prelude.{◌≡◌, ◌<◌, ◌++◌, ◌*◌, ℕ, true, false, IfOk, OnOk, OnErr};
ghost use Rattle.std.specs.FinMap as map;
ghost use Rattle.broad_index.specs.Fresh.{IsFresh};
ghost use Rattle.endpoint_list.specs.NodeList.{has};
ghost use Rattle.sweep_prune.specs.Keyed.{keyed};
ghost use Rattle.sweep_prune.specs.Overlaps.{axes};
ghost use Rattle.sweep_prune.specs.Places.{on, places};
ghost use Rattle.sweep_prune.specs.declared.axis.Axis.{Axis};

use crate::counted_lists::{Core, clear, enter, quit};
use crate::lists::push_nodes;
use crate::moves::{Keys, move_box, place_box};
use crate::{Axis, overlap_laws};
use broad_index::{BroadPhase, NoSeeker, Pair, PlainIndex, Query};
use endpoint_list::NODES;
use fixed_box::{FBox, NoMemory};
use std::alloc::Global;
use std::marker::Model;

/// Boxes whose endpoints stand sorted on each axis. Where endpoints change places, the counts of overlaps change with
/// them.
///
/// A change costs its exchanges, so boxes that move little between calls cost little, and `pairs` reads the counts. The
/// boxes themselves stand in a plain list, and a query tests each of them.
#[derive(Drop)]
pub struct Sap {
    plain: PlainIndex,
    core: Core,
    keys: Keys,
    spent: bool,
}

impl Model for Sap {
    ghost use Rattle.std.specs.Prelude.{◌≡◌, false};
    ghost use Rattle.sweep_prune.specs.State.{SapState, coded_sap};
    ghost use Rattle.sweep_prune.specs.Sweep.{SweepKeeps};

    ghost Value = { SapState };

    ghost coded = { coded_sap };

    ghost view = { λ s. record { bodies = s.plain.bodies; spent = s.spent; exchanges = s.core.exchanged } };

    ghost invariant = { λ s. s.spent ≡ false → (s.plain.spent ≡ false)
        × SweepKeeps s.plain.bodies s.keys.x.items s.keys.y.items s.keys.z.items s.core.lists };
}

impl Sap {
    /// A sweep with no box, and with the memory for all endpoints.
    pub fn new(alloc: Global) -> Result<Sap, NoMemory>
        ensures { IfOk result (λ sap. IsFresh sap.bodies sap.spent sap.exchanges) }
    {
        let plain = PlainIndex::new(alloc)?;
        let core = Core::new(alloc)?;
        let x = vec![in alloc; 0; NODES as usize]?;
        let y = vec![in alloc; 0; NODES as usize]?;
        let z = vec![in alloc; 0; NODES as usize]?;
        Ok(Sap {
            plain,
            core,
            keys: Keys { x, y, z },
            spent: false,
        })
    }

    /// Appends the nodes of all present slots in order of their keys on an axis. After an `Err` `out` is as before.
    pub fn order(&self, axis: Axis, out: &mut Vec<u32>) -> Result<(), NoMemory>
        requires sound { self.now.spent ≡ false }
        ensures ok { OnOk result (out.new.items ≡ out.old.items ++ keyed self.now.bodies axis) }
        ensures err { OnErr result (out.new.items ≡ out.old.items) }
    {
        let before = out.len();
        let pushed = push_nodes(self.core.list(axis), out);
        if pushed.is_err() {
            out.truncate(before);
        }
        pushed
    }

    /// The number of axes on which the boxes of two present slots overlap, as it is kept.
    pub fn overlap(&self, a: u32, b: u32) -> u8
        requires order { a < b }
        requires first { map.contains_key self.now.bodies a ≡ true }
        requires second { map.contains_key self.now.bodies b ≡ true }
        requires sound { self.now.spent ≡ false }
        ensures { result ≡ axes self.now.bodies a b }
    {
        self.core.count(Pair { a, b })
    }

    /// The lists with their counts and the number of exchanges.
    pub fn core(&self) -> &Core
        requires sound { self.now.spent ≡ false }
        ensures lists { (axis : Axis) → on axis result.now.lists ≡ keyed self.now.bodies axis }
        ensures present { (axis : Axis) (slot : ℕ) → has (2 * slot) (on axis result.now.lists)
            ≡ map.contains_key self.now.bodies slot }
        ensures counts { (a b : ℕ) → places result.now.lists a b ≡ axes self.now.bodies a b }
        ensures exchanged { result.now.exchanged ≡ self.now.exchanges }
    {
        &self.core
    }
}

impl BroadPhase for Sap {
    const COUNTS: bool = true;

    ghost bodies = { λ sap. sap.bodies };

    ghost spent = { λ sap. sap.spent };

    ghost COUNTS = { true };

    ghost RUNS_OUT = { true };

    ghost exchanges = { λ sap. sap.exchanges };

    // It changes nothing.
    ghost paired = { λ old new. new ≡ old };

    type Shared = NoSeeker;

    ghost uncounted = { λ _ counts. absurd cc };

    ghost lasting = { λ _ lasts. absurd cc };

    fn add(&mut self, slot: u32, body: FBox) -> Result<(), NoMemory> {
        if self.spent {
            return Err(NoMemory);
        }
        enter(&mut self.core, slot);
        let placed = place_box(&mut self.core, &mut self.keys, slot, body);
        if placed.is_err() {
            self.spent = true;
            return Err(NoMemory);
        }
        let added = self.plain.add(slot, body);
        if added.is_err() {
            self.spent = true;
            return Err(NoMemory);
        }
        Ok(())
    }

    fn shift(&mut self, slot: u32, body: FBox) -> Result<(), NoMemory> {
        if self.spent {
            return Err(NoMemory);
        }
        let moved = move_box(&mut self.core, &mut self.keys, slot, body);
        if moved.is_err() {
            self.spent = true;
            return Err(NoMemory);
        }
        self.plain.shift(slot, body)
    }

    fn leave(&mut self, slot: u32) {
        if self.spent {
            return;
        }
        quit(&mut self.core, slot);
        self.plain.leave(slot);
    }

    fn pairs(&mut self, out: &mut Vec<Pair>) -> Result<(), NoMemory> {
        if self.spent {
            return Err(NoMemory);
        }
        overlap_laws();
        self.core.push_full(out)
    }

    fn hits(&self, query: &Query, out: &mut Vec<u32>) -> Result<(), NoMemory> {
        if self.spent {
            return Err(NoMemory);
        }
        self.plain.hits(query, out)
    }

    fn box_of(&self, slot: u32) -> Option<FBox> {
        self.plain.box_of(slot)
    }

    fn len(&self) -> u32 {
        self.plain.len()
    }

    fn exchanges(&self) -> u64 {
        self.core.exchanged()
    }

    fn clear_exchanges(&mut self) {
        clear(&mut self.core);
    }
}
