//! Boxes beside their slots in a list, and once more in packets of eight, where one is compared with many.

ghost use Rattle.std.specs.Prelude.{◌≡◌, ◌≤◌, [], true, false, All, OnOk, length, map as mapped};
ghost use Rattle.std.specs.FinMap as map;
ghost use Rattle.fixed_box.specs.Bounds.{meets};
ghost use Rattle.lane_boxes.specs.Places.{next_eight};
ghost use Rattle.grid_boxes.specs.Buckets.{AreOf, boxed};
ghost use Rattle.grid_boxes.specs.Copies.{ArePacked, bodies_in, stretch};

use crate::slot_box::SlotBox;
use fixed_box::{FBox, NoMemory};
use lane_boxes::BoxPacket;
use slot_lists::{SlotBoxes, push_filter_mapped};
use std::alloc::Global;
use std::marker::Model;

/// So many boxes stand in a packet, and are asked at once.
pub const PACKED: usize = 8;

/// Boxes beside their slots, seen as a list. Where that is asked for they stand in packets too, so that eight of them are
/// passed by at once.
#[derive(Drop)]
pub struct BoxCopies {
    entries: Vec<SlotBox>,
    // The boxes of the entries by eights, except the last few, or none.
    packets: Vec<BoxPacket>,
}

impl Model for BoxCopies {
    ghost use Rattle.std.specs.Prelude.{List};
    ghost use Rattle.grid_boxes.specs.declared.slot_box.SlotBox.{SlotBox};
    ghost use Rattle.grid_boxes.specs.Copies.{ArePacked};

    ghost Value = { List SlotBox };

    ghost view = { λ c. c.entries.items };

    ghost invariant = { λ c. ArePacked c.entries.items c.packets.items };
}

impl BoxCopies {
    /// No box. It takes no memory.
    pub(crate) fn new(alloc: Global) -> BoxCopies
        ensures { result ≡ [] }
    {
        BoxCopies {
            entries: Vec::new(alloc),
            packets: Vec::new(alloc),
        }
    }

    /// How many boxes there are.
    #[inline(always)]
    pub fn len(&self) -> usize
        ensures { result ≡ length self.now }
    {
        self.entries.len()
    }

    /// The boxes beside their slots.
    #[inline(always)]
    pub fn entries(&self) -> &[SlotBox]
        ensures { result.now ≡ self.now }
    {
        &self.entries
    }

    /// Replaces the list by some slots, each beside its box. They stand in no packets.
    pub(crate) fn copy_boxes(&mut self, boxes: &SlotBoxes, slots: &[u32]) -> Result<(), NoMemory>
        requires { All (λ slot. map.contains_key boxes.now slot ≡ true) slots.now }
        ensures same { OnOk result (mapped (λ e. e.slot) self.new ≡ slots.now) }
        ensures right { OnOk result (AreOf boxes.now self.new) }
    {
        self.entries.clear();
        self.packets.clear();
        push_filter_mapped(slots, &mut self.entries, |slot| boxed(boxes, *slot))?;
        Ok(())
    }

    /// Puts the boxes in packets where that pays.
    pub(crate) fn put_in_packets(&mut self, pays: bool) -> Result<(), NoMemory>
        ensures { self.new ≡ self.old }
    {
        if pays {
            self.packets.clear();
            pack(&self.entries, &mut self.packets)?;
        }
        Ok(())
    }

    /// Whether the boxes stand in packets.
    #[inline(always)]
    pub fn has_packets(&self) -> bool {
        !self.packets.is_empty()
    }

    /// The first place from one on, or that of the packet behind it, in whose packet a box meets another; or a place that isn't
    /// below an end, or in no packet.
    #[inline(always)]
    pub fn next_near(&self, from: usize, to: usize, body: &FBox) -> usize
        requires { from ≤ length self.now }
        ensures later { from ≤ result }
        ensures passed { All (λ e. meets body.now e.body ≡ false) (stretch from result self.now) }
    {
        let end = to.min(self.len()).div_ceil(PACKED).min(self.packets.len());
        let mut packet = from / PACKED;
        'packets: while packet < end && is_passed(&self.packets[packet], body) {
            packet += 1;
        }
        (packet * PACKED).max(from)
    }
}

// Whether no box of a packet meets another.
#[inline(always)]
fn is_passed(packet: &BoxPacket, body: &FBox) -> bool
    ensures { result ≡ true → next_eight (meets body.now) 0 packet.now ≡ 0 }
{
    packet.overlap_mask(body) == 0
}

// Puts boxes in packets, in place of none.
fn pack(entries: &[SlotBox], packets: &mut Vec<BoxPacket>) -> Result<(), NoMemory>
    requires { packets.old.items ≡ [] }
    ensures { ArePacked entries.now packets.new.items }
{
    packets.reserve(entries.len() / PACKED)?;
    let mut at = 0;
    'packets: while entries.len() - at >= PACKED {
        packets.push(BoxPacket::new(&boxes_of(&entries[at..at + PACKED])))?;
        at += PACKED;
    }
    Ok(())
}

// Eight boxes without their slots.
fn boxes_of(eight: &[SlotBox]) -> [FBox; PACKED]
    requires { length eight.now ≡ 8 }
    ensures { result ≡ mapped (λ e. e.body) eight.now }
{
    [
        eight[0].body,
        eight[1].body,
        eight[2].body,
        eight[3].body,
        eight[4].body,
        eight[5].body,
        eight[6].body,
        eight[7].body,
    ]
}

// A slot beside its box, if it has one.
fn boxed(boxes: &SlotBoxes, slot: u32) -> Option<SlotBox>
    ensures { result ≡ boxed boxes.now slot }
{
    let body = boxes.box_of(slot)?;
    Some(SlotBox { slot, body })
}
