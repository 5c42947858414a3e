//! What each structure promises: changes of boxes by slots, the pairs that meet, and queries.

ghost use Rattle.std.specs.Prelude.{◌≡◌, ℕ, ◌+◌, ◌<◌, ◌≤◌, ◌^◌, ◌++◌, Bool, true, false, List};
ghost use Rattle.std.specs.Prelude.{[], length, All, OnOk, OnErr, IfOk, IfSome};
ghost use Rattle.std.specs.Ordering.{nat_cmp};
ghost use Rattle.std.specs.FinMap as map;
ghost use Rattle.fixed_box.specs.Bounds.{Bounds};
ghost use Rattle.broad_index.specs.Exchanges.{passed_by_add, passed_by_shift};
ghost use Rattle.broad_index.specs.Found.{found};
ghost use Rattle.broad_index.specs.Near.{near, rises};
ghost use Rattle.broad_index.specs.NearRises.{near_rises};
ghost use Rattle.broad_index.specs.declared.pair.Pair.{Pair};
ghost use Rattle.work_pieces.specs.Runs.{InRuns};
ghost use Rattle.work_pieces.specs.declared.TheConstants.{MOST_WORKERS};

use crate::pair_seeker::{PairSeeker, seek_by_pieces};
use crate::{Pair, Query, Visitor};
use fixed_box::{FBox, NoMemory, SLOTS};
use std::alloc::Global;
use std::thread::Threads;
use work_pieces::Gate;

/// A broad phase keeps moving boxes under slots and tells which of them may touch.
///
/// A tick of a simulation changes what has moved, and then asks:
///
/// ```
/// index.add(7, body)?; // a box that comes in
/// index.shift(3, moved)?; // a box that is elsewhere now
/// index.leave(5); // a box that goes out
/// index.pairs(&mut pairs)?; // the pairs a < b whose boxes meet
/// index.hits(&Query::Spot(at), &mut slots)?; // the slots whose boxes hold a point
/// ```
///
/// Of n boxes, the plain list tests each pair in `pairs` and each box in `hits`. It finds a slot in about log n steps;
/// `add` and `leave` then move up to n entries, and `shift` moves none. A structure that keeps boxes by where they are
/// tests few of those that don't meet, and takes longer over a change for it.
///
/// Where memory runs out in `add` or `shift`, the index is spent, and nothing is said of its map from then on but that
/// the other calls leave it. A spent index answers want of memory wherever a call may.
///
/// `pairs_with` searches on several threads where the structure shares a [`PairSeeker`] with them, and else it is `pairs`.
/// A structure that shares none has `NoSeeker` for its `Shared`, seeks no slot, and keeps the bodies of `share` and `merge`.
pub trait BroadPhase {
    /// Whether exchanges of endpoints are counted.
    const COUNTS: bool;

    /// The present slots, each with its box.
    ghost bodies: { Self → map.FinMap nat_cmp Bounds };

    /// Whether memory ran out in a change.
    ghost spent: { Self → Bool };

    ghost COUNTS: { Bool };

    /// Whether memory may run out in `add` or `shift`. A structure that reserves all it needs when it is made says false,
    /// and is never spent.
    ghost RUNS_OUT: { Bool };

    /// The number of exchanges since the index was made or last cleared.
    ghost exchanges: { Self → ℕ };

    /// What an `Ok` of `pairs` or `pairs_with` does to what the index keeps beside its boxes, as marks and counters.
    ghost paired: { Self → Self → Type 0 };

    /// The slots that are sought on several threads, in this order.
    ghost sought: { Self → List ℕ } = { λ _. [] };

    /// What a search of some slots may give: pairs, in any order and some perhaps twice, and what the search cost.
    ghost seeks: { Self → List ℕ → List Pair → ℕ → Type 0 } = { λ _ _ _ _. Unit {0} };

    /// What several threads search while nobody changes the index.
    type Shared: PairSeeker + Sync;

    /// Puts a box under a slot that is absent. After an `Err` the index is spent.
    fn add(&mut self, slot: u32, body: FBox) -> Result<(), NoMemory>
        requires small { slot < SLOTS }
        requires absent { spent self.old ≡ false → map.contains_key (bodies self.old) slot ≡ false }
        requires countable { COUNTS ≡ true → spent self.old ≡ false → exchanges self.old ≤ 2 ^ 63 }
        ensures was_sound { OnOk result (spent self.old ≡ false) }
        ensures sound { OnOk result (spent self.new ≡ false) }
        ensures ok { OnOk result (bodies self.new ≡ map.insert (bodies self.old) slot body) }
        ensures counted { COUNTS ≡ true → OnOk result (exchanges self.new ≡ exchanges self.old + passed_by_add (bodies self.old) slot body) }
        ensures err { OnErr result (spent self.new ≡ true) };

    /// Gives a present slot another box. After an `Err` the index is spent.
    fn shift(&mut self, slot: u32, body: FBox) -> Result<(), NoMemory>
        requires small { slot < SLOTS }
        requires present { spent self.old ≡ false → map.contains_key (bodies self.old) slot ≡ true }
        requires countable { COUNTS ≡ true → spent self.old ≡ false → exchanges self.old ≤ 2 ^ 63 }
        ensures was_sound { OnOk result (spent self.old ≡ false) }
        ensures sound { OnOk result (spent self.new ≡ false) }
        ensures ok { OnOk result (bodies self.new ≡ map.insert (bodies self.old) slot body) }
        ensures counted { COUNTS ≡ true → OnOk result (exchanges self.new ≡ exchanges self.old + passed_by_shift (bodies self.old) slot body) }
        ensures err { OnErr result (spent self.new ≡ true) };

    /// Takes a present slot out. Where the index is spent nothing changes.
    fn leave(&mut self, slot: u32)
        requires small { slot < SLOTS }
        requires present { spent self.old ≡ false → map.contains_key (bodies self.old) slot ≡ true }
        ensures gone { spent self.old ≡ false → bodies self.new ≡ map.remove (bodies self.old) slot }
        ensures spent { spent self.new ≡ spent self.old }
        ensures same { spent self.old ≡ true → bodies self.new ≡ bodies self.old }
        ensures exchanges { spent self.old ≡ false → exchanges self.new ≡ exchanges self.old };

    /// Appends the pairs of present slots whose boxes meet, in rising order. After an `Err` all is as before.
    fn pairs(&mut self, out: &mut Vec<Pair>) -> Result<(), NoMemory>
        ensures was_sound { OnOk result (spent self.old ≡ false) }
        ensures ok { OnOk result (out.new.items ≡ out.old.items ++ near (bodies self.old)) }
        ensures err { OnErr result (out.new.items ≡ out.old.items) }
        ensures bodies { bodies self.new ≡ bodies self.old }
        ensures spent { spent self.new ≡ spent self.old }
        ensures exchanges { spent self.old ≡ false → exchanges self.new ≡ exchanges self.old }
        ensures paired { OnOk result (paired self.old self.new) }
        ensures kept { OnErr result (self.new ≡ self.old) };

    /// The same, where several threads search at once. The slots that are sought are cut into pieces of
    /// `ceil(n / workers)`, numbered from 0. Each piece is searched by one thread, which enters the gate once before it.
    /// With one worker, and where the gate needs no threads and few slots are sought, it is `pairs`, and no gate is entered.
    final fn pairs_with<R: Threads + Sync, G: Gate + Sync>(
        &mut self,
        rt: &R,
        workers: u32,
        gate: &G,
        out: &mut Vec<Pair>,
    ) -> Result<(), NoMemory>
    where
        Self: Sync + Sized,
        requires workers { (1 ≤ workers) × (workers ≤ MOST_WORKERS) }
        ensures was_sound { OnOk result (spent self.old ≡ false) }
        ensures ok { OnOk result (out.new.items ≡ out.old.items ++ near (bodies self.old)) }
        ensures err { OnErr result (out.new.items ≡ out.old.items) }
        ensures bodies { bodies self.new ≡ bodies self.old }
        ensures spent { spent self.new ≡ spent self.old }
        ensures exchanges { spent self.old ≡ false → exchanges self.new ≡ exchanges self.old }
        ensures paired { OnOk result (paired self.old self.new) }
        ensures kept { OnErr result (self.new ≡ self.old) }
    {
        if workers == 1 || !(gate.needs_threads() || self.pays_threads()) {
            return self.pairs(out);
        }
        let alloc = *out.allocator();
        self.prepare()?;
        let Some((index, slots)) = self.share(alloc)? else {
            return self.pairs(out);
        };
        let found = seek_by_pieces(rt, alloc, index, &slots, workers, gate)?;
        self.merge(found, out)
    }

    /// Appends the present slots whose boxes meet a query, in rising order. After an `Err` `out` is as before.
    fn hits(&self, query: &Query, out: &mut Vec<u32>) -> Result<(), NoMemory>
        ensures sound { OnOk result (spent self.now ≡ false) }
        ensures ok { OnOk result (out.new.items ≡ out.old.items ++ found (bodies self.now) query.now) }
        ensures err { OnErr result (out.new.items ≡ out.old.items) };

    /// Shows the present boxes to a visitor, except those that need not be shown. After an `Err` nothing is said of the visitor.
    ///
    /// A structure whose `descends` is true passes by what the visitor doesn't admit, or doesn't ask for any more, and looks into
    /// what it prefers first. The others ask for the visitor's query and show what that finds, in order of slots. All except trees
    /// keep in `room` what they find: what is in it before is dropped, and what is left in it says nothing.
    fn visit<V: Visitor>(&self, room: &mut Vec<u32>, visitor: &mut V) -> Result<(), NoMemory>
        ensures sound { OnOk result (spent self.now ≡ false) }
        ensures seen { OnOk result ((seen : List (ℕ × Bounds)) → V.saw visitor.old seen → V.saw visitor.new (seen ++ map.entries (bodies self.now))) }
        ensures kept { OnOk result (V.keeps visitor.old visitor.new) }
    {
        room.clear();
        self.hits(&visitor.query(), room)?;
        let mut rest = &room[..];
        'slots: while let [slot, more @ ..] = rest {
            if let Some(body) = self.box_of(*slot) {
                visitor.meet(*slot, &body)?;
            }
            rest = more;
        }
        Ok(())
    }

    /// Whether `visit` passes by what its visitor doesn't admit: for speed alone, and no answer is wrong.
    fn descends(&self) -> bool {
        false
    }

    /// The box under a slot, a proxy's AABB, and `None` where the slot is absent. It is one look-up.
    fn box_of(&self, slot: u32) -> Option<FBox>
        ensures held { spent self.now ≡ false → result ≡ map.get (bodies self.now) slot };

    /// The number of present slots, the proxy count.
    fn len(&self) -> u32
        ensures len { spent self.now ≡ false → result ≡ map.len (bodies self.now) };

    /// The number of exchanges since the index was made or last cleared, and 0 where they aren't counted.
    fn exchanges(&self) -> u64
        ensures sound { spent self.now ≡ false → result ≡ exchanges self.now }
        ensures uncounted { COUNTS ≡ false → result ≡ 0 };

    /// Counts exchanges from 0 on again.
    fn clear_exchanges(&mut self)
        ensures cleared { spent self.old ≡ false → exchanges self.new ≡ 0 }
        ensures bodies { bodies self.new ≡ bodies self.old }
        ensures spent { spent self.new ≡ spent self.old };

    // An engine calls what stands above. What follows is for implementors: what several threads search, which only a structure
    // that shares a `PairSeeker` writes, and the laws that an impl owes.

    /// Puts in order what several threads are to read, once before `share`. It changes nothing that any call tells.
    fn prepare(&mut self) -> Result<(), NoMemory>
        ensures same { self.new ≡ self.old }
    {
        Ok(())
    }

    /// Whether several threads are likely to find the pairs sooner than one: for speed alone, and no answer is wrong.
    fn pays_threads(&self) -> bool {
        true
    }

    /// What several threads may search, with the slots to seek, and `None` where `pairs` finds all by itself.
    fn share(&self, alloc: Global) -> Result<Option<(&Self::Shared, Vec<u32>)>, NoMemory>
        ensures sound { IfOk result (λ shared. IfSome shared (λ s. spent self.now ≡ false)) }
        ensures bodies { IfOk result (λ shared. IfSome shared (λ s. Self.Shared.bodies s.0.now ≡ bodies self.now)) }
        ensures seeks { IfOk result (λ shared. IfSome shared (λ s. (slots : List ℕ) (pairs : List Pair) (cost : ℕ)
            → Self.Shared.seeks s.0.now slots pairs cost → seeks self.now slots pairs cost)) }
        ensures slots { IfOk result (λ shared. IfSome shared (λ s. s.1.items ≡ sought self.now)) }
        ensures present { IfOk result (λ shared. IfSome shared (λ s. All (λ slot. map.contains_key (bodies self.now) slot ≡ true) s.1.items)) }
        ensures few { IfOk result (λ shared. IfSome shared (λ s. length s.1.items < 2 ^ 32)) }
    {
        Ok(None)
    }

    /// Does what `pairs` does, where it is known what the pieces of the sought slots found, and what that cost.
    fn merge(&mut self, found: Vec<(Vec<Pair>, u64)>, out: &mut Vec<Pair>) -> Result<(), NoMemory>
        requires sound { spent self.old ≡ false }
        requires pieces { InRuns (λ run piece. seeks self.old run piece.0.items piece.1) (sought self.old) found.items }
        ensures was_sound { OnOk result (spent self.old ≡ false) }
        ensures ok { OnOk result (out.new.items ≡ out.old.items ++ near (bodies self.old)) }
        ensures err { OnErr result (out.new.items ≡ out.old.items) }
        ensures bodies { bodies self.new ≡ bodies self.old }
        ensures spent { spent self.new ≡ spent self.old }
        ensures exchanges { spent self.old ≡ false → exchanges self.new ≡ exchanges self.old }
        ensures paired { OnOk result (paired self.old self.new) }
        ensures kept { OnErr result (self.new ≡ self.old) }
    {
        let _ = found;
        self.pairs(out)
    }

    /// An index that doesn't count has no exchanges.
    ghost uncounted: { (index : Self) → COUNTS ≡ false → exchanges index ≡ 0 };

    /// An index whose changes can't run out of memory is never spent.
    ghost lasting: { (index : Self) → RUNS_OUT ≡ false → spent index ≡ false };

    /// The pairs rise by `a` and then by `b`, each before all later ones.
    ghost pairs_rise: { (index : Self) → rises (near (bodies index)) ≡ true } = { λ index. near_rises (bodies index) };
}
