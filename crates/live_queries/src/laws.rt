//! What is known of the pairs and of the ordered queries of a table, for proofs.

ghost use Rattle.std.specs.Prelude.{◌≡◌, ◌↔◌, ◌*◌, ◌≤◌, ℕ, true, ◌&&◌, List, Option, None, map, filter, length};
ghost use Rattle.std.specs.List.{Contains};
ghost use Rattle.std.specs.List.Sorted.{IsPermutation, IsSorted};
ghost use Rattle.fixed_box.specs.declared.TheConstants.{SLOTS};
ghost use Rattle.fixed_box.specs.declared.point.Point.{Point};
ghost use Rattle.fixed_box.specs.Bounds.{Bounds};
ghost use Rattle.ray_slabs.specs.declared.ray.Ray.{Ray};
ghost use Rattle.ray_slabs.specs.Crossing.{Fraction};
ghost use Rattle.box_cast.specs.declared.cast.Cast.{Cast};
ghost use Rattle.box_cast.specs.Cast.{in_cast};
ghost use Rattle.near_boxes.specs.Nearest.{nearest, nearest_about, spot};
ghost use Rattle.live_table.specs.declared.live.Live.{Live};
ghost use Rattle.live_table.specs.Bodies.{bodies_of};
ghost use Rattle.live_table.specs.Table.{Table, IsTable};
ghost use Rattle.broad_index.specs.declared.query.Query.TheVariants.{Along};
ghost use Rattle.pair_events.specs.declared.hpair.HPair.{HPair};
ghost use Rattle.pair_events.specs.PairEvents.{is_in_order};
ghost use Rattle.live_table.specs.declared.handle.Handle.{Handle};
ghost use Rattle.live_table.specs.Entries.{slot_of, live_at, entered, with_body};
ghost use Rattle.live_queries.specs.declared.groups.Groups.{Groups};
ghost use Rattle.live_queries.specs.InHandles.{AreCurrent};
ghost use Rattle.live_queries.specs.PairLaw.{IsPairOf};
ghost use Rattle.live_queries.specs.Pairs.{pairs_of, hits_of, is_asked_for};
ghost use Rattle.live_queries.specs.Queries.{handles, by_place, met_in_order, entered_of, cast_of, asked_for, asked_from, nearest_to, nearest_to_box};

use box_cast::cast_law;
use fixed_box::SLOTS;
use live_table::Live;
use ordered_lists::order_laws;

/// Laws of the pairs of a table, for proofs, with nothing to run: exactly those of two live boxes that meet and may pair are
/// listed. They rise by their slots, each with its lower slot first, as `PairTable::turn` asks for, so that each is listed
/// once; and there are at most `SLOTS` times `SLOTS`, so that their number fits 32 bits.
pub fn pairs_law()
    ensures members { (t : Table) (pair : HPair) → IsTable t → Contains (pairs_of t.entries) pair ↔ IsPairOf t.entries pair }
    ensures order { (t : Table) → IsTable t → is_in_order (pairs_of t.entries) ≡ true }
    ensures few { (t : Table) → IsTable t → length (pairs_of t.entries) ≤ SLOTS * SLOTS }
{}

/// Laws of pairs whose boxes are live and may pair, for proofs, with nothing to run: the pairs of a table are such, and such pairs stay so
/// while boxes only move and come.
pub fn current_laws()
    ensures pairs { (t : Table) → IsTable t → AreCurrent t.entries (pairs_of t.entries) }
    ensures moved { (es : List Live) (pairs : List HPair) (handle : Handle) (body : Bounds) → AreCurrent es pairs → AreCurrent (with_body handle body es) pairs }
    ensures entered { (es : List Live) (pairs : List HPair) (live : Live) → live_at (slot_of live) es ≡ None → AreCurrent es pairs
        → AreCurrent (entered live es) pairs }
{}

/// Laws of the queries in an order of their own, for proofs, with nothing to run. A ray by entry has the handles of the ray
/// by slots, each as often, and a cast those of the boxes that it meets; both rise by place and slot. The nearest have the
/// slots of the nearest in the map of the boxes that are asked for, of which `nearest_law` of `near_boxes` speaks.
pub fn queries_law()
    ensures entered { (es : List Live) (ray : Ray) (groups : Groups) →
        IsPermutation (hits_of es (Along ray) groups) (entered_of es ray groups) }
    ensures cast { (es : List Live) (cast : Cast) (groups : Groups) →
        IsPermutation (handles (filter (λ e. in_cast cast.body cast.by e.body && is_asked_for groups e) es)) (cast_of es cast groups) }
    ensures rising { (place : Bounds → Option Fraction) (es : List Live) (groups : Groups) →
        IsSorted (by_place place) (met_in_order place es groups) }
    ensures nearest { (t : Table) (at : Point) (want : ℕ) (groups : Groups) → IsTable t →
        map (λ handle. handle.slot) (nearest_to t.entries at want groups)
        ≡ map (λ near. near.slot) (nearest (bodies_of (asked_for t.entries groups)) at want) }
{
    cast_law();
    order_laws::<Live>();
}

/// Laws of the nearest to a box, for proofs, with nothing to run. They have the slots of the nearest in the map of the boxes that are
/// asked for and far enough off, of which `nearest_about_law` of `near_boxes` speaks; and the nearest to a point are those
/// nearest to the flat box at it, from 0 on.
pub fn nearest_box_law()
    ensures nearest { (t : Table) (body : Bounds) (from want : ℕ) (groups : Groups) → IsTable t →
        map (λ handle. handle.slot) (nearest_to_box t.entries body from want groups)
        ≡ map (λ near. near.slot) (nearest_about (bodies_of (asked_from t.entries body from groups)) body want) }
    ensures spot { (es : List Live) (at : Point) (want : ℕ) (groups : Groups) →
        nearest_to es at want groups ≡ nearest_to_box es (spot at) 0 want groups }
{}
