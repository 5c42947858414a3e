//! Boxes in six columns, one for each coordinate: changed in place, and scanned for those that overlap a box.

ghost use Rattle.std.specs.Prelude.{◌≡◌, ◌≢◌, ℕ, ◌+◌, ◌-◌, ◌<◌, ◌≤◌, ◌^◌, [], ◌∷◌, ◌++◌, OnOk, OnErr, length, take, drop, vec_len};
ghost use Rattle.std.specs.Prelude.{insert, remove, swap_remove, slice_set, slice_index_or};
ghost use Rattle.fixed_box.specs.Bounds.{Bounds, meets, holds};
ghost use Rattle.lane_boxes.specs.Places.{IsScanned, places, next_eight};

use crate::LANES;
use crate::axis_columns::AxisColumns;
use crate::places::push_places;
use crate::span::Span;
use fixed_box::{FBox, NoMemory, Point, box_laws};
use std::alloc::Global;
use std::marker::Model;

/// A list of boxes that is tested eight at a time: six columns, one for each coordinate of the corners.
///
/// `spare` is how many boxes may be pushed before memory is taken. A structure that reserves room when it is made changes
/// its boxes without an `Err` from then on:
///
/// ```
/// boxes.reserve(8_192)?;
/// boxes.push_reserved(body); // the next place is its
/// boxes.set(at, moved);
/// boxes.swap_out(at); // the last box is at this place now
/// boxes.scan(&region, &mut places)?; // the places whose boxes overlap the region
/// ```
#[derive(Drop)]
pub struct Columns {
    x: AxisColumns,
    y: AxisColumns,
    z: AxisColumns,
    // No axis has less room.
    spare: usize,
}

impl Model for Columns {
    ghost use Rattle.lane_boxes.specs.Boxes.{Boxes};
    ghost use Rattle.lane_boxes.specs.Spans.{boxes_of, AreAxes};

    ghost Value = { Boxes };

    ghost view = { λ c. record { boxes = boxes_of c.x.spans c.y.spans c.z.spans; spare = c.spare } };

    ghost invariant = { λ c. AreAxes c.x c.y c.z c.spare };
}

impl Columns {
    /// No box, and no room. It takes no memory.
    pub fn new(alloc: Global) -> Columns
        ensures { result.boxes ≡ [] }
    {
        Columns {
            x: AxisColumns::new(alloc),
            y: AxisColumns::new(alloc),
            z: AxisColumns::new(alloc),
            spare: 0,
        }
    }

    /// How many boxes there are.
    pub fn len(&self) -> usize
        ensures { result ≡ length self.now.boxes }
    {
        self.x.len()
    }

    /// How many boxes may be pushed before memory is taken.
    pub fn spare(&self) -> usize
        ensures { result ≡ self.now.spare }
    {
        self.spare
    }

    /// The box at a place.
    pub fn box_at(&self, at: usize) -> FBox
        requires { at < length self.now.boxes }
        ensures { result ≡ slice_index_or self.now.boxes at result }
    {
        let x = self.x.span_at(at);
        let y = self.y.span_at(at);
        let z = self.z.span_at(at);
        let lo = Point {
            x: x.lo,
            y: y.lo,
            z: z.lo,
        };
        let hi = Point {
            x: x.hi,
            y: y.hi,
            z: z.hi,
        };
        FBox::new(lo, hi).unwrap()
    }

    /// Makes room for n more boxes. After `NoMemory` all is as before.
    pub fn reserve(&mut self, n: usize) -> Result<(), NoMemory>
        ensures boxes { self.new.boxes ≡ self.old.boxes }
        ensures room { OnOk result (n ≤ self.new.spare) }
        ensures kept { self.old.spare ≤ self.new.spare }
        ensures err { OnErr result (self.new.spare ≡ self.old.spare) }
    {
        self.x.reserve(n)?;
        self.y.reserve(n)?;
        self.z.reserve(n)?;
        self.spare = self.spare.max(n);
        Ok(())
    }

    /// Appends a box where there is room. It takes no memory.
    pub fn push_reserved(&mut self, body: FBox)
        requires { 0 < self.old.spare }
        ensures boxes { self.new.boxes ≡ self.old.boxes ++ body ∷ [] }
        ensures spare { self.new.spare + 1 ≡ self.old.spare }
    {
        self.x.push_reserved(Span::on_x(&body));
        self.y.push_reserved(Span::on_y(&body));
        self.z.push_reserved(Span::on_z(&body));
        self.spare -= 1;
    }

    /// Appends a box. After `NoMemory` all is as before.
    pub fn push(&mut self, body: FBox) -> Result<(), NoMemory>
        ensures ok { OnOk result (self.new.boxes ≡ self.old.boxes ++ body ∷ []) }
        ensures err { OnErr result (self.new ≡ self.old) }
    {
        self.reserve(1)?;
        self.push_reserved(body);
        Ok(())
    }

    /// Puts a box before the one at a place, or at the end, and moves the later ones up. After `NoMemory` all is as before.
    pub fn insert(&mut self, at: usize, body: FBox) -> Result<(), NoMemory>
        requires { at ≤ length self.old.boxes }
        ensures ok { OnOk result (self.new.boxes ≡ insert self.old.boxes at body) }
        ensures err { OnErr result (self.new ≡ self.old) }
    {
        self.reserve(1)?;
        self.x.insert_reserved(at, Span::on_x(&body));
        self.y.insert_reserved(at, Span::on_y(&body));
        self.z.insert_reserved(at, Span::on_z(&body));
        self.spare -= 1;
        Ok(())
    }

    /// Gives a place another box. It takes no memory.
    pub fn set(&mut self, at: usize, body: FBox)
        requires { at < length self.old.boxes }
        ensures boxes { self.new.boxes ≡ slice_set self.old.boxes at body }
        ensures spare { self.new.spare ≡ self.old.spare }
    {
        self.x.set(at, Span::on_x(&body));
        self.y.set(at, Span::on_y(&body));
        self.z.set(at, Span::on_z(&body));
    }

    /// Takes the box at a place out, and moves the later ones down. It takes no memory.
    pub fn remove(&mut self, at: usize)
        requires { at < length self.old.boxes }
        ensures boxes { self.new.boxes ≡ remove self.old.boxes at }
        ensures spare { self.new.spare ≡ self.old.spare + 1 }
    {
        self.x.remove(at);
        self.y.remove(at);
        self.z.remove(at);
        self.spare += 1;
    }

    /// Takes the box at a place out, and puts the last one there, in constant time. It takes no memory.
    pub fn swap_out(&mut self, at: usize)
        requires { at < length self.old.boxes }
        ensures boxes { (d : Bounds) → self.new.boxes ≡ swap_remove self.old.boxes at d }
        ensures len { length self.new.boxes + 1 ≡ length self.old.boxes }
        ensures spare { self.new.spare ≡ self.old.spare + 1 }
    {
        self.x.swap_out(at);
        self.y.swap_out(at);
        self.z.swap_out(at);
        self.spare += 1;
    }

    /// Which of the next eight boxes overlap one: bit k is set exactly where `at + k` is a place and the box there does.
    pub fn overlap_mask(&self, at: usize, body: &FBox) -> u8
        requires { at ≤ length self.now.boxes }
        ensures { result ≡ next_eight (meets body.now) at self.now.boxes }
    {
        if self.len() - at >= LANES {
            self.full_mask(at, body)
        } else {
            self.tail_mask(at, body)
        }
    }

    /// Appends the places whose boxes overlap one, rising. After `NoMemory` `out` is as before.
    pub fn scan(&self, body: &FBox, out: &mut Vec<u32>) -> Result<(), NoMemory>
        requires { length self.now.boxes < 2 ^ 32 }
        ensures ok { OnOk result (out.new.items ≡ out.old.items ++ places (meets body.now) 0 self.now.boxes) }
        ensures err { OnErr result (out.new.items ≡ out.old.items) }
    {
        self.scan_from(0, body, out)
    }

    /// The same from a place on, for a test of each box with the later ones.
    pub fn scan_from(&self, from: usize, body: &FBox, out: &mut Vec<u32>) -> Result<(), NoMemory>
        requires few { length self.now.boxes < 2 ^ 32 }
        requires within { from ≤ length self.now.boxes }
        ensures ok { OnOk result (out.new.items ≡ out.old.items ++ places (meets body.now) from (drop from self.now.boxes)) }
        ensures err { OnErr result (out.new.items ≡ out.old.items) }
    {
        self.scan_between(from, self.len(), body, out)
    }

    /// The same from a place on and below another, by whole eights: up to seven later ones may be among them.
    pub fn scan_between(
        &self,
        from: usize,
        to: usize,
        body: &FBox,
        out: &mut Vec<u32>,
    ) -> Result<(), NoMemory>
        requires few { length self.now.boxes < 2 ^ 32 }
        requires within { from ≤ to }
        requires end { to ≤ length self.now.boxes }
        ensures ok { OnOk result (IsScanned (meets body.now) from to self.now.boxes out.old.items out.new.items) }
        ensures err { OnErr result (out.new.items ≡ out.old.items) }
    {
        let before = out.len();
        let scanned = self.push_overlaps(from, to, body, out);
        if scanned.is_err() {
            out.truncate(before);
        }
        scanned
    }

    /// Appends the places whose boxes hold a point, rising. After `NoMemory` `out` is as before.
    pub fn scan_point(&self, at: &Point, out: &mut Vec<u32>) -> Result<(), NoMemory>
        requires { length self.now.boxes < 2 ^ 32 }
        ensures ok { OnOk result (out.new.items ≡ out.old.items ++ places (λ b. holds b at.now) 0 self.now.boxes) }
        ensures err { OnErr result (out.new.items ≡ out.old.items) }
    {
        // a box holds a point where it overlaps the flat box there
        box_laws();
        let spot = FBox::new(*at, *at).unwrap();
        self.scan(&spot, out)
    }

    // The mask of eight boxes that are there.
    fn full_mask(&self, at: usize, body: &FBox) -> u8
        requires { at + LANES ≤ length self.now.boxes }
        ensures { result ≡ next_eight (meets body.now) at self.now.boxes }
    {
        let x = self.x.crossing(at, Span::on_x(body));
        let y = self.y.crossing(at, Span::on_y(body));
        let z = self.z.crossing(at, Span::on_z(body));
        (x & y & z).to_bitmask() as u8
    }

    // The mask of the last boxes, where there are fewer than eight.
    fn tail_mask(&self, at: usize, body: &FBox) -> u8
        requires within { at ≤ length self.now.boxes }
        requires few { length self.now.boxes < at + LANES }
        ensures { result ≡ next_eight (meets body.now) at self.now.boxes }
    {
        let mut mask = 0;
        let mut end = self.len();
        'bits: while end > at {
            end -= 1;
            mask = mask * 2 + u8::from(body.overlaps(&self.box_at(end)));
        }
        mask
    }

    // The first place, by eights from one on and below an end, whose next eight boxes have one that overlaps, with their mask; or one
    // that isn't below the end. It is the loop of a scan, and keeps all it compares with in registers.
    fn next_mask(&self, from: usize, to: usize, body: &FBox) -> (usize, u8)
        requires within { from ≤ to }
        requires end { to ≤ length self.now.boxes }
        ensures later { from ≤ result.0 }
        ensures near { result.0 < to + 8 }
        ensures bound { result.0 ≤ length self.now.boxes }
        ensures mask { result.0 < to → result.1 ≡ next_eight (meets body.now) result.0 self.now.boxes }
        ensures passed { places (meets body.now) from (drop from self.now.boxes) ≡ places (meets body.now) result.0 (drop result.0 self.now.boxes) }
    {
        // before it there are eight boxes more
        let last = to.min(self.len().saturating_sub(LANES - 1));
        let mut at = from;
        'eights: while at < last {
            let mask = self.full_mask(at, body);
            if mask != 0 {
                return (at, mask);
            }
            at += LANES;
        }
        if at < to {
            (at, self.tail_mask(at, body))
        } else {
            (at, 0)
        }
    }

    // Appends the places from one on and below another whose boxes overlap one, and maybe up to seven later ones. What was there
    // stays, after an `Err` too.
    fn push_overlaps(
        &self,
        from: usize,
        to: usize,
        body: &FBox,
        out: &mut Vec<u32>,
    ) -> Result<(), NoMemory>
        requires few { length self.now.boxes < 2 ^ 32 }
        requires within { from ≤ to }
        requires end { to ≤ length self.now.boxes }
        ensures ok { OnOk result (IsScanned (meets body.now) from to self.now.boxes out.old.items out.new.items) }
        ensures kept { take (vec_len out.old) out.new.items ≡ out.old.items }
    {
        let mut at = from;
        'hits: while at < to {
            let (block, mask) = self.next_mask(at, to, body);
            if block >= to {
                return Ok(());
            }
            push_places(mask, block, out)?;
            at = block + LANES;
        }
        Ok(())
    }
}
