//! The places of a list whose boxes meet a query, by eight boxes at a time or by one exact test each.

ghost use Rattle.std.specs.Prelude.{◌≡◌, ◌<◌, ◌≤◌, ◌^◌, ◌++◌, IsTrue, OnOk, OnErr, All, length, take, drop, filter, vec_len};
ghost use Rattle.fixed_box.specs.Bounds.{meets};
ghost use Rattle.lane_boxes.specs.Places.{places};
ghost use Rattle.broad_index.specs.Entries.{is_met_at};
ghost use Rattle.broad_index.specs.Found.{query_meets};
ghost use Rattle.fixed_box.specs.Space.{space};

use crate::Query;
use fixed_box::NoMemory;
use lane_boxes::{Columns, place_laws};

// Appends the places whose boxes meet a query, rising, or nothing.
pub(crate) fn push_met_places(
    boxes: &Columns,
    query: &Query,
    out: &mut Vec<u32>,
) -> Result<(), NoMemory>
    requires few { length boxes.now.boxes < 2 ^ 32 }
    requires in_space { All (λ b. IsTrue (meets space b)) boxes.now.boxes }
    ensures ok { OnOk result (out.new.items ≡ out.old.items ++ places (query_meets query.now) 0 boxes.now.boxes) }
    ensures err { OnErr result (out.new.items ≡ out.old.items) }
{
    match query {
        Query::Region(region) => boxes.scan(region, out),
        Query::Spot(at) => boxes.scan_point(at, out),
        Query::Along(_) | Query::Between(_) | Query::Swept(_) => push_tested(boxes, query, out),
    }
}

// The same, by a scan for the query's region and an exact test of each box that it finds.
fn push_tested(boxes: &Columns, query: &Query, out: &mut Vec<u32>) -> Result<(), NoMemory>
    requires few { length boxes.now.boxes < 2 ^ 32 }
    requires in_space { All (λ b. IsTrue (meets space b)) boxes.now.boxes }
    ensures ok { OnOk result (out.new.items ≡ out.old.items ++ places (query_meets query.now) 0 boxes.now.boxes) }
    ensures err { OnErr result (out.new.items ≡ out.old.items) }
{
    place_laws();
    let before = out.len();
    boxes.scan(&query.region(), out)?;
    keep_met(boxes, query, before, out);
    Ok(())
}

// Drops the places whose boxes don't meet a query, from one place of a list on.
fn keep_met(boxes: &Columns, query: &Query, from: usize, places: &mut Vec<u32>)
    requires within { from ≤ vec_len places.old }
    requires placed { All (λ k. k < length boxes.now.boxes) (drop from places.old.items) }
    ensures { places.new.items ≡ take from places.old.items ++ filter (is_met_at boxes.now.boxes query.now) (drop from places.old.items) }
{
    let kept = move_met(boxes, query, &mut places[from..]);
    places.truncate(from + kept);
}

// Moves the places whose boxes meet a query to the front of a list, in their order, and answers how many they are.
fn move_met(boxes: &Columns, query: &Query, places: &mut [u32]) -> usize
    requires { All (λ k. k < length boxes.now.boxes) places.old }
    ensures bound { result ≤ length places.new }
    ensures met { take result places.new ≡ filter (is_met_at boxes.now.boxes query.now) places.old }
{
    let mut kept = 0;
    for at in 0..places.len() {
        let place = places[at];
        if query.meets(&boxes.box_at(place as usize)) {
            places[kept] = place;
            kept += 1;
        }
    }
    kept
}
