//! A packet of eight boxes in lanes, tested at once against one box.

ghost use Rattle.std.specs.Prelude.{◌≡◌, int_le, length, map, FitsSigned};
ghost use Rattle.std.specs.Int.{w32};
ghost use Rattle.std.specs.Simd.Lanes.{Each1};
ghost use Rattle.fixed_box.specs.Bounds.{meets};
ghost use Rattle.lane_boxes.specs.Places.{next_eight};
ghost use Rattle.lane_boxes.specs.Spans.{crosses, lane};

use crate::LANES;
use crate::span::Span;
use fixed_box::{FBox, Fix};
use std::marker::Model;
use std::simd::prelude::*;

/// Eight boxes side by side in lanes, to be tested at once with many others, as a packet of rays is with the nodes of a tree
/// (Wald and others, Interactive Rendering with Coherent Ray Tracing, 2001). It takes no memory.
///
/// ```
/// let packet = BoxPacket::new(&boxes);
/// let mask = packet.overlap_mask(&region); // bit k is set where box k overlaps the region
/// ```
#[derive(Drop)]
pub struct BoxPacket {
    x: AxisLanes,
    y: AxisLanes,
    z: AxisLanes,
}

// The intervals of eight boxes on one axis: the lower ends and the upper ones.
#[derive(Drop)]
struct AxisLanes {
    lo: i32x8,
    hi: i32x8,
}

impl Model for BoxPacket {
    ghost use Rattle.std.specs.Prelude.{List};
    ghost use Rattle.fixed_box.specs.Bounds.{Bounds};
    ghost use Rattle.lane_boxes.specs.Spans.{boxes_of};

    ghost Value = { List Bounds };

    ghost view = { λ p. boxes_of p.x p.y p.z };
}

impl Model for AxisLanes {
    ghost use Rattle.std.specs.Prelude.{List};
    ghost use Rattle.lane_boxes.specs.declared.span.Span.{Span};
    ghost use Rattle.lane_boxes.specs.Spans.{spans_of, AreLanes};

    ghost Value = { List Span };

    ghost view = { λ a. spans_of a.lo a.hi };

    ghost invariant = { λ a. AreLanes a.lo a.hi };
}

impl BoxPacket {
    /// A packet of eight boxes, in their order.
    pub fn new(boxes: &[FBox; 8]) -> BoxPacket
        ensures { result ≡ boxes.now }
    {
        let [a, b, c, d, e, f, g, h] = boxes;
        BoxPacket {
            x: AxisLanes::new([
                Span::on_x(a),
                Span::on_x(b),
                Span::on_x(c),
                Span::on_x(d),
                Span::on_x(e),
                Span::on_x(f),
                Span::on_x(g),
                Span::on_x(h),
            ]),
            y: AxisLanes::new([
                Span::on_y(a),
                Span::on_y(b),
                Span::on_y(c),
                Span::on_y(d),
                Span::on_y(e),
                Span::on_y(f),
                Span::on_y(g),
                Span::on_y(h),
            ]),
            z: AxisLanes::new([
                Span::on_z(a),
                Span::on_z(b),
                Span::on_z(c),
                Span::on_z(d),
                Span::on_z(e),
                Span::on_z(f),
                Span::on_z(g),
                Span::on_z(h),
            ]),
        }
    }

    /// Which of the eight overlap a box: bit k is set exactly where box k does.
    #[inline(always)]
    pub fn overlap_mask(&self, body: &FBox) -> u8
        ensures mask { result ≡ next_eight (meets body.now) 0 self.now }
    {
        let x = self.x.crossing(Span::on_x(body));
        let y = self.y.crossing(Span::on_y(body));
        let z = self.z.crossing(Span::on_z(body));
        (x & y & z).to_bitmask() as u8
    }
}

impl AxisLanes {
    fn new(spans: [Span; 8]) -> AxisLanes
        ensures { result ≡ spans }
    {
        let [a, b, c, d, e, f, g, h] = spans;
        AxisLanes {
            lo: i32x8::from_array([a.lo, b.lo, c.lo, d.lo, e.lo, f.lo, g.lo, h.lo]),
            hi: i32x8::from_array([a.hi, b.hi, c.hi, d.hi, e.hi, f.hi, g.hi, h.hi]),
        }
    }

    // Which of the eight intervals have a common number with this one.
    #[inline(always)]
    fn crossing(&self, span: Span) -> Mask<i32, LANES>
        ensures lanes { result ≡ map lane (map (crosses span) self.now) }
        ensures eight { length self.now ≡ 8 }
    {
        at_least(self.hi, span.lo) & at_most(self.lo, span.hi)
    }
}

// Which of eight lanes are at most a number.
#[inline(always)]
fn at_most(lanes: i32x8, most: Fix) -> Mask<i32, LANES>
    requires eight { length lanes ≡ 8 }
    requires fit { Each1 (FitsSigned w32) lanes }
    ensures { result ≡ map lane (map (λ n. int_le n most) lanes) }
{
    lanes.simd_le(i32x8::splat(most))
}

// Which of eight lanes are at least a number.
#[inline(always)]
fn at_least(lanes: i32x8, least: Fix) -> Mask<i32, LANES>
    requires eight { length lanes ≡ 8 }
    requires fit { Each1 (FitsSigned w32) lanes }
    ensures { result ≡ map lane (map (λ n. int_le least n) lanes) }
{
    i32x8::splat(least).simd_le(lanes)
}
