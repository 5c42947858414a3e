//! The intervals of many boxes on one axis in two columns, tested eight at a time by vector lanes.

ghost use Rattle.std.specs.Prelude.{◌≡◌, ◌+◌, ◌<◌, ◌≤◌, ◌^◌, [], ◌∷◌, ◌++◌, IsTrue, int_le, OnOk, length, map, take, drop};
ghost use Rattle.std.specs.Prelude.{insert, remove, swap_remove, slice_set, slice_index_or};
ghost use Rattle.std.specs.Prelude.{FitsSigned};
ghost use Rattle.std.specs.Int.{w32};
ghost use Rattle.std.specs.Simd.Lanes.{Each1};
ghost use Rattle.lane_boxes.specs.declared.span.Span.{Span};
ghost use Rattle.lane_boxes.specs.Spans.{crosses, lane};

use crate::LANES;
use crate::span::Span;
use fixed_box::NoMemory;
use std::alloc::Global;
use std::marker::Model;
use std::simd::prelude::*;

// The intervals of boxes on one axis, in two columns: the lower ends and the upper ones.
#[derive(Drop)]
pub(crate) struct AxisColumns {
    lo: Vec<i32>,
    hi: Vec<i32>,
}

impl Model for AxisColumns {
    ghost use Rattle.std.specs.Prelude.{◌-◌, min, vec_len, vec_capacity};
    ghost use Rattle.lane_boxes.specs.Spans.{Spans, spans_of, AreSpans};

    ghost Value = { Spans };

    ghost view = { λ a. record {
      spans = spans_of a.lo.items a.hi.items;
      spare = min (vec_capacity a.lo) (vec_capacity a.hi) - vec_len a.lo;
    } };

    ghost invariant = { λ a. AreSpans a.lo.items a.hi.items };
}

impl AxisColumns {
    pub(crate) fn new(alloc: Global) -> AxisColumns
        ensures { result.spans ≡ [] }
    {
        AxisColumns {
            lo: Vec::new(alloc),
            hi: Vec::new(alloc),
        }
    }

    pub(crate) fn len(&self) -> usize
        ensures { result ≡ length self.now.spans }
    {
        self.lo.len()
    }

    pub(crate) fn span_at(&self, at: usize) -> Span
        requires { at < length self.now.spans }
        ensures span { result ≡ slice_index_or self.now.spans at result }
        ensures ordered { IsTrue (int_le result.lo result.hi) }
    {
        Span {
            lo: self.lo[at],
            hi: self.hi[at],
        }
    }

    // Makes room for n more. What is missing at an `Err` was missing before.
    pub(crate) fn reserve(&mut self, n: usize) -> Result<(), NoMemory>
        ensures spans { self.new.spans ≡ self.old.spans }
        ensures room { OnOk result (n ≤ self.new.spare) }
        ensures kept { self.old.spare ≤ self.new.spare }
    {
        self.lo.reserve(n)?;
        self.hi.reserve(n)?;
        Ok(())
    }

    pub(crate) fn push_reserved(&mut self, span: Span)
        requires room { 0 < self.old.spare }
        requires ordered { IsTrue (int_le span.lo span.hi) }
        ensures spans { self.new.spans ≡ self.old.spans ++ span ∷ [] }
        ensures spare { self.new.spare + 1 ≡ self.old.spare }
    {
        self.lo.push_reserved(span.lo);
        self.hi.push_reserved(span.hi);
    }

    // Puts an interval before the one at a place, where there is room.
    pub(crate) fn insert_reserved(&mut self, at: usize, span: Span)
        requires within { at ≤ length self.old.spans }
        requires room { 0 < self.old.spare }
        requires ordered { IsTrue (int_le span.lo span.hi) }
        ensures spans { self.new.spans ≡ insert self.old.spans at span }
        ensures spare { self.new.spare + 1 ≡ self.old.spare }
    {
        self.lo.insert(at, span.lo).unwrap();
        self.hi.insert(at, span.hi).unwrap();
    }

    pub(crate) fn set(&mut self, at: usize, span: Span)
        requires within { at < length self.old.spans }
        requires ordered { IsTrue (int_le span.lo span.hi) }
        ensures spans { self.new.spans ≡ slice_set self.old.spans at span }
        ensures spare { self.new.spare ≡ self.old.spare }
    {
        self.lo[at] = span.lo;
        self.hi[at] = span.hi;
    }

    pub(crate) fn remove(&mut self, at: usize)
        requires { at < length self.old.spans }
        ensures spans { self.new.spans ≡ remove self.old.spans at }
        ensures spare { self.new.spare ≡ self.old.spare + 1 }
        ensures bound { self.new.spare < 2 ^ 64 }
    {
        self.lo.remove(at);
        self.hi.remove(at);
    }

    // Puts the last interval at a place.
    pub(crate) fn swap_out(&mut self, at: usize)
        requires { at < length self.old.spans }
        ensures spans { (d : Span) → self.new.spans ≡ swap_remove self.old.spans at d }
        ensures len { length self.new.spans + 1 ≡ length self.old.spans }
        ensures spare { self.new.spare ≡ self.old.spare + 1 }
        ensures bound { self.new.spare < 2 ^ 64 }
    {
        self.lo.swap_remove(at);
        self.hi.swap_remove(at);
    }

    // Which of the next eight intervals have a common number with this one.
    #[inline(always)]
    pub(crate) fn crossing(&self, at: usize, span: Span) -> Mask<i32, LANES>
        requires { at + 8 ≤ length self.now.spans }
        ensures { result ≡ map lane (map (crosses span) (take 8 (drop at self.now.spans))) }
    {
        at_least(&self.hi, at, span.lo) & at_most(&self.lo, at, span.hi)
    }
}

// Which of eight numbers are at most this one.
#[inline(always)]
fn at_most(numbers: &[i32], at: usize, most: i32) -> Mask<i32, LANES>
    requires room { at + 8 ≤ length numbers.now }
    requires fit { Each1 (FitsSigned w32) numbers.now }
    ensures { result ≡ map lane (map (λ n. int_le n most) (take 8 (drop at numbers.now))) }
{
    i32x8::from_slice(&numbers[at..]).simd_le(i32x8::splat(most))
}

// Which of eight numbers are at least this one.
#[inline(always)]
fn at_least(numbers: &[i32], at: usize, least: i32) -> Mask<i32, LANES>
    requires room { at + 8 ≤ length numbers.now }
    requires fit { Each1 (FitsSigned w32) numbers.now }
    ensures { result ≡ map lane (map (λ n. int_le least n) (take 8 (drop at numbers.now))) }
{
    i32x8::splat(least).simd_le(i32x8::from_slice(&numbers[at..]))
}
