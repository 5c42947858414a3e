//! The live box that a ray or a cast meets first, by a search that passes by what lies behind it.

ghost use Rattle.std.specs.Prelude.{◌≡◌, false, not, IfOk, refl};
ghost use Rattle.std.specs.Ordering.{is_gt};
ghost use Rattle.std.proofs.Common.{◌∙◌};
ghost use Rattle.ray_slabs.specs.First.{value_cmp};
ghost use Rattle.live_table.specs.Bodies.{bodies_of};
ghost use Rattle.live_table.specs.Table.{IsTable};
ghost use Rattle.live_queries.specs.First.{IsFirstEntered, IsFirstTouched, IsHitOfFirst, HasFirst};
ghost use Rattle.live_queries.specs.FirstSeen.{FirstSeen, IsAsked, IsBehind, IsToldOf, any_order, sooner};
ghost use Rattle.live_queries.specs.Queries.{entered_of, cast_of, handles, met_in_order};

use crate::first_hit::FirstHit;
use crate::groups::Groups;
use crate::hit::Hit;
use crate::met::hit_at;
use crate::probe::Probe;
use box_cast::Cast;
use broad_index::{BroadPhase, Query, Visitor};
use fixed_box::{FBox, NoMemory};
use live_table::LiveTable;
use prepared_query::BoxTest;
use ray_slabs::{Entry, Ray};

/// The live box that a ray enters first, of the groups that are asked for: the first that `push_entered` would tell, or `None`
/// where it would tell none. Of those that it enters at one place that is the one with the lowest slot. With it comes the place
/// and the face. The index has the live boxes.
///
/// An index that descends passes by the boxes that lie behind the first one found so far. Another finds all boxes that the ray
/// meets. All except trees keep in `room` what they find: what is in it before is dropped, and no answer depends on it.
pub fn first_entered<B: BroadPhase>(
    room: &mut Vec<u32>,
    table: &LiveTable,
    index: &B,
    ray: &Ray,
    groups: Groups,
) -> Result<Option<FirstHit>, NoMemory>
    requires table { IsTable table.now }
    requires sound { B.spent index.now ≡ false }
    requires bodies { B.bodies index.now ≡ bodies_of table.now.entries }
    ensures first { IfOk result (IsFirstEntered table.now.entries ray.now groups) }
    ensures handle { IfOk result (HasFirst (entered_of table.now.entries ray.now groups)) }
{
    let hit = first_met(room, table, index, ray, groups)?;
    Ok(hit)
}

/// The live box that a box which is cast meets first on its way, of the groups that are asked for: the first that `push_cast` would
/// tell, or `None` where it would tell none. Of those that it meets at one place that is the one with the lowest slot. With it
/// comes the place and the face. The index has the live boxes.
///
/// It takes time and memory as `first_entered` does.
pub fn first_cast<B: BroadPhase>(
    room: &mut Vec<u32>,
    table: &LiveTable,
    index: &B,
    cast: &Cast,
    groups: Groups,
) -> Result<Option<FirstHit>, NoMemory>
    requires table { IsTable table.now }
    requires sound { B.spent index.now ≡ false }
    requires bodies { B.bodies index.now ≡ bodies_of table.now.entries }
    ensures first { IfOk result (IsFirstTouched table.now.entries cast.now groups) }
    ensures handle { IfOk result (HasFirst (cast_of table.now.entries cast.now groups)) }
{
    let hit = first_met(room, table, index, cast, groups)?;
    Ok(hit)
}

// The box that is met first, of those that are asked for.
fn first_met<B: BroadPhase, P: Probe>(
    room: &mut Vec<u32>,
    table: &LiveTable,
    index: &B,
    probe: &P,
    groups: Groups,
) -> Result<Option<FirstHit>, NoMemory>
    requires table { IsTable table.now }
    requires bodies { B.bodies index.now ≡ bodies_of table.now.entries }
    ensures first { IfOk result (IsHitOfFirst (P.place probe.now) (P.face probe.now) (met_in_order (P.place probe.now) table.now.entries groups)) }
    ensures handle { IfOk result (HasFirst (handles (met_in_order (P.place probe.now) table.now.entries groups))) }
{
    let mut search = FirstSearch {
        table,
        probe,
        test: probe.test(),
        groups,
        best: None,
    };
    index.visit(room, &mut search)?;
    Ok(told(table, probe, search.best))
}

// The first of the boxes that were shown, of those that are asked for and met.
#[derive(Drop)]
struct FirstSearch<'a, P: Probe> {
    table: &'a LiveTable,
    probe: &'a P,
    test: P::Test,
    groups: Groups,
    best: Option<Hit>,
}

impl<P: Probe> Visitor for FirstSearch<'_, P> {
    ghost saw = { λ s seen. IsAsked (P.Test.asks s.test) (P.place s.probe.now) × FirstSeen (P.place s.probe.now) s.groups s.table.now.entries s.best seen };

    ghost keeps = { λ a b. (b.probe.now ≡ a.probe.now) × (b.groups ≡ a.groups) × (b.table.now ≡ a.table.now) };

    ghost keeps_itself = { λ _. (refl, refl, refl) };

    ghost keeps_on = { λ _ _ _ f g. (g.0 ∙ f.0, g.1 ∙ f.1, g.2 ∙ f.2) };

    ghost any_order = { λ s shown other moved has. (has.0, any_order (P.place s.probe.now) s.groups s.table.now.entries s.best shown other moved has.1) };

    fn query(&self) -> Query {
        self.probe.query()
    }

    // A hull that is met where the first so far is may have a box of a lower slot.
    fn admits(&self, hull: &FBox) -> bool {
        self.probe.place_law();
        self.test.meets(hull) && may_hold(self.probe, hull, &self.best)
    }

    fn prefers(&self, first: &FBox, second: &FBox) -> bool {
        self.probe.measure(first) <= self.probe.measure(second)
    }

    fn meet(&mut self, slot: u32, _body: &FBox) -> Result<(), NoMemory> {
        if let Some(hit) = hit_at(self.table, self.probe, self.groups, slot) {
            self.best = Some(sooner(hit, self.best));
        }
        Ok(())
    }
}

// Whether a hull is met no later than the first so far. Until there is one, that isn't asked.
fn may_hold<P: Probe>(probe: &P, hull: &FBox, best: &Option<Hit>) -> bool
    ensures { result ≡ false → IsBehind (P.place probe.now hull.now) best.now }
{
    match best {
        Some(best) => match probe.entry(hull) {
            Some(entry) => is_no_later(entry, best),
            None => false,
        },
        None => true,
    }
}

fn is_no_later(entry: Entry, best: &Hit) -> bool
    ensures { result ≡ not (is_gt (value_cmp entry best.now.entry)) }
{
    entry <= best.entry
}

// The one that comes first.
fn sooner(hit: Hit, best: Option<Hit>) -> Hit
    ensures { result ≡ sooner hit best }
{
    let Some(best) = best else {
        return hit;
    };
    if best < hit { best } else { hit }
}

// A hit as it is told, with its handle and its face.
fn told<P: Probe>(table: &LiveTable, probe: &P, best: Option<Hit>) -> Option<FirstHit>
    ensures { IsToldOf (P.place probe.now) (P.face probe.now) table.now.entries best result }
{
    let hit = best?;
    let live = table.at(hit.slot)?;
    Some(FirstHit {
        handle: live.handle,
        place: hit.entry,
        face: probe.face(&hit.entry, &live.body),
    })
}
