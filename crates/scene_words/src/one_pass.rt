//! The fast path of the parser: the lines of a play, read in one pass without cutting words first.

ghost use Rattle.std.specs.Prelude.{◌≡◌, ◌≤◌, true, length, Ok, Some, IfSome};
ghost use Rattle.std.specs.List.{prefix_len};
ghost use Rattle.scene_words.specs.declared.command.Command.TheVariants.{Add, Move};
ghost use Rattle.scene_words.specs.declared.verb.Verb.TheVariants as verb;
ghost use Rattle.scene_words.specs.declared.version.Version.TheVariants.{One, Two};
ghost use Rattle.scene_words.specs.Fronts.{in_word};
ghost use Rattle.scene_words.specs.Ranges.{IsPrintable};
ghost use Rattle.scene_words.specs.SceneWords.{words, command, further_of, add_of, move_of, mask_of, remove_of, box_of, point_of, ray_of, seg_of};
ghost use Rattle.scene_words.specs.SceneWords.{cast_of, near_of};
ghost use Rattle.scene_words.specs.SceneWords.{labels_of, listing_of};
ghost use Rattle.scene_words.specs.Tails.{tail_of, counted};
ghost use Rattle.scene_words.specs.Verbs.{allows};

use crate::one_pass_fields::{
    handle_ahead, is_done, labels_ahead, listing_ahead, mask_ahead, mask_or_ahead, past_word,
    point_ahead, want_ahead,
};
use crate::values::EVERY_GROUP;
use crate::{Command, Version};
use box_cast::Cast;
use fixed_box::FBox;
use live_table::{Group, Handle, Masks};
use ray_slabs::{Ray, Seg, WPoint};

// The command of a line that neither moves a box nor adds one, read in one pass. `None` says nothing of the line: it comes
// at a header, a mark and the way back to it, at a line with no word or with blanks before the first one, and at each fault.
pub(crate) fn query_ahead(version: Version, line: &[u8]) -> Option<Command>
    ensures command { IfSome result (λ found. command version line.now ≡ Ok found) }
    ensures printable { IfSome result IsPrintable }
{
    if let [b'b', b'o', b'x', rest @ ..] = line {
        return box_ahead(rest);
    }
    if let [b'r', b'a', b'y', rest @ ..] = line {
        return ray_ahead(version, rest);
    }
    if let [b's', b'e', b'g', rest @ ..] = line {
        return seg_ahead(rest);
    }
    if let [b'p', b'o', b'i', b'n', b't', rest @ ..] = line {
        return point_query_ahead(rest);
    }
    other_ahead(version, line)
}

// The same of a line that asks for no boxes either.
fn other_ahead(version: Version, line: &[u8]) -> Option<Command>
    ensures command { IfSome result (λ found. command version line.now ≡ Ok found) }
    ensures printable { IfSome result IsPrintable }
{
    if let [b'm', b'a', b's', b'k', rest @ ..] = line {
        return new_masks_ahead(rest);
    }
    if let [b'r', b'e', b'm', b'o', b'v', b'e', rest @ ..] = line {
        return remove_ahead(rest);
    }
    if let [b'f', b'r', b'a', b'm', b'e', rest @ ..] = line {
        return frame_ahead(rest);
    }
    match version {
        Version::One => None,
        Version::Two => newer_ahead(line),
    }
}

// The same of a line that came with version 2 and has numbers.
fn newer_ahead(line: &[u8]) -> Option<Command>
    ensures command { IfSome result (λ found. command Two line.now ≡ Ok found) }
    ensures printable { IfSome result IsPrintable }
{
    if let [b'c', b'a', b's', b't', rest @ ..] = line {
        return cast_ahead(rest);
    }
    if let [b'n', b'e', b'a', b'r', rest @ ..] = line {
        return near_ahead(rest);
    }
    None
}

// What stands behind `move`, read in one pass: the handle, and the new corners. `None` says nothing of the line.
#[inline(always)]
#[tactic(auto, unfolding(crate::specs::SceneWords::move_of))]
pub(crate) fn move_ahead(line: &[u8]) -> Option<(Handle, FBox)>
    ensures command { IfSome result (λ found. move_of (words line.now) ≡ Ok (Move found.0 found.1)) }
    ensures allowed { IfSome result (λ _. allows verb.Move (length (words line.now)) ≡ true) }
    ensures ends { IfSome result (λ _. prefix_len in_word line.now ≡ 0) }
{
    let line = past_word(line)?;
    let (handle, line) = handle_ahead(line)?;
    let (lo, line) = point_ahead(line)?;
    let (hi, line) = point_ahead(line)?;
    if !is_done(line) {
        return None;
    }
    let body = FBox::new(lo, hi)?;
    Some((handle, body))
}

// What stands behind `add`: the corners, the masks and the group.
#[inline(always)]
#[tactic(auto, unfolding(crate::specs::SceneWords::add_of))]
pub(crate) fn add_ahead(version: Version, line: &[u8]) -> Option<(FBox, Masks, Group)>
    ensures command { IfSome result (λ found. add_of version (words line.now) ≡ Ok (Add found.0 found.1 found.2)) }
    ensures allowed { IfSome result (λ _. allows verb.Add (counted verb.Add version (words line.now)) ≡ true) }
    ensures ends { IfSome result (λ _. prefix_len in_word line.now ≡ 0) }
{
    let line = past_word(line)?;
    let (lo, line) = point_ahead(line)?;
    let (hi, line) = point_ahead(line)?;
    let (masks, group) = labels_ahead(version, line)?;
    let body = FBox::new(lo, hi)?;
    Some((body, masks, group))
}

// What stands behind `mask`: the handle, and the new masks.
#[tactic(auto, unfolding(crate::specs::SceneWords::mask_of))]
fn new_masks_ahead(line: &[u8]) -> Option<Command>
    ensures command { IfSome result (λ found. mask_of (words line.now) ≡ Ok found) }
    ensures allowed { IfSome result (λ _. allows verb.Mask (length (words line.now)) ≡ true) }
    ensures ends { IfSome result (λ _. prefix_len in_word line.now ≡ 0) }
    ensures printable { IfSome result IsPrintable }
{
    let line = past_word(line)?;
    let (handle, line) = handle_ahead(line)?;
    let (is, line) = mask_ahead(line)?;
    let (sees, line) = mask_ahead(line)?;
    if !is_done(line) {
        return None;
    }
    Some(Command::Mask {
        handle,
        masks: Masks { is, sees },
    })
}

// What stands behind `remove`: the handle.
fn remove_ahead(line: &[u8]) -> Option<Command>
    ensures command { IfSome result (λ found. remove_of (words line.now) ≡ Ok found) }
    ensures allowed { IfSome result (λ _. allows verb.Remove (length (words line.now)) ≡ true) }
    ensures ends { IfSome result (λ _. prefix_len in_word line.now ≡ 0) }
    ensures printable { IfSome result IsPrintable }
{
    let line = past_word(line)?;
    let (handle, line) = handle_ahead(line)?;
    if !is_done(line) {
        return None;
    }
    Some(Command::Remove { handle })
}

// What stands behind `frame`: nothing.
fn frame_ahead(line: &[u8]) -> Option<Command>
    ensures command { IfSome result (λ found. further_of One verb.Frame (words line.now) ≡ Ok found) }
    ensures allowed { IfSome result (λ _. allows verb.Frame (length (words line.now)) ≡ true) }
    ensures ends { IfSome result (λ _. prefix_len in_word line.now ≡ 0) }
    ensures printable { IfSome result IsPrintable }
{
    let line = past_word(line)?;
    if !is_done(line) {
        return None;
    }
    Some(Command::Frame)
}

// What stands behind `box`: the corners, and the groups.
#[tactic(auto, unfolding(crate::specs::SceneWords::box_of))]
fn box_ahead(line: &[u8]) -> Option<Command>
    ensures command { IfSome result (λ found. box_of (words line.now) ≡ Ok found) }
    ensures allowed { IfSome result (λ _. allows verb.Box (length (words line.now)) ≡ true) }
    ensures ends { IfSome result (λ _. prefix_len in_word line.now ≡ 0) }
    ensures printable { IfSome result IsPrintable }
{
    let line = past_word(line)?;
    let (lo, line) = point_ahead(line)?;
    let (hi, line) = point_ahead(line)?;
    let (mask, line) = mask_or_ahead(EVERY_GROUP, line)?;
    if !is_done(line) {
        return None;
    }
    let body = FBox::new(lo, hi)?;
    Some(Command::BoxQ { body, mask })
}

// What stands behind `point`: the point, and the groups.
#[tactic(auto, unfolding(crate::specs::SceneWords::point_of))]
fn point_query_ahead(line: &[u8]) -> Option<Command>
    ensures command { IfSome result (λ found. point_of (words line.now) ≡ Ok found) }
    ensures allowed { IfSome result (λ _. allows verb.Point (length (words line.now)) ≡ true) }
    ensures ends { IfSome result (λ _. prefix_len in_word line.now ≡ 0) }
    ensures printable { IfSome result IsPrintable }
{
    let line = past_word(line)?;
    let (at, line) = point_ahead(line)?;
    let (mask, line) = mask_or_ahead(EVERY_GROUP, line)?;
    if !is_done(line) {
        return None;
    }
    Some(Command::PointQ { at, mask })
}

// What stands behind `ray`: the start, the direction, and what is listed.
#[tactic(auto, unfolding(crate::specs::SceneWords::ray_of))]
fn ray_ahead(version: Version, line: &[u8]) -> Option<Command>
    ensures command { IfSome result (λ found. ray_of version (words line.now) ≡ Ok found) }
    ensures allowed { IfSome result (λ _. allows verb.Ray (counted verb.Ray version (words line.now)) ≡ true) }
    ensures ends { IfSome result (λ _. prefix_len in_word line.now ≡ 0) }
    ensures printable { IfSome result IsPrintable }
{
    let line = past_word(line)?;
    let (from, line) = point_ahead(line)?;
    let (dir, line) = point_ahead(line)?;
    let (mask, entry) = listing_ahead(version, line)?;
    let ray = Ray {
        from: WPoint::of(&from),
        dir: WPoint::of(&dir),
    };
    Some(Command::RayQ { ray, mask, entry })
}

// What stands behind `seg`: the two ends, and the groups.
#[tactic(auto, unfolding(crate::specs::SceneWords::seg_of))]
fn seg_ahead(line: &[u8]) -> Option<Command>
    ensures command { IfSome result (λ found. seg_of (words line.now) ≡ Ok found) }
    ensures allowed { IfSome result (λ _. allows verb.Seg (length (words line.now)) ≡ true) }
    ensures ends { IfSome result (λ _. prefix_len in_word line.now ≡ 0) }
    ensures printable { IfSome result IsPrintable }
{
    let line = past_word(line)?;
    let (a, line) = point_ahead(line)?;
    let (b, line) = point_ahead(line)?;
    let (mask, line) = mask_or_ahead(EVERY_GROUP, line)?;
    if !is_done(line) {
        return None;
    }
    let seg = Seg {
        a: WPoint::of(&a),
        b: WPoint::of(&b),
    };
    Some(Command::SegQ { seg, mask })
}

// What stands behind `cast`: the corners, the way, and the groups.
#[tactic(auto, unfolding(crate::specs::SceneWords::cast_of))]
fn cast_ahead(line: &[u8]) -> Option<Command>
    ensures command { IfSome result (λ found. cast_of (words line.now) ≡ Ok found) }
    ensures allowed { IfSome result (λ _. allows verb.Cast (length (words line.now)) ≡ true) }
    ensures ends { IfSome result (λ _. prefix_len in_word line.now ≡ 0) }
    ensures printable { IfSome result IsPrintable }
{
    let line = past_word(line)?;
    let (lo, line) = point_ahead(line)?;
    let (hi, line) = point_ahead(line)?;
    let (by, line) = point_ahead(line)?;
    let (mask, line) = mask_or_ahead(EVERY_GROUP, line)?;
    if !is_done(line) {
        return None;
    }
    let body = FBox::new(lo, hi)?;
    Some(Command::Cast {
        cast: Cast { body, by },
        mask,
    })
}

// What stands behind `near`: the point, how many, and the groups.
#[tactic(auto, unfolding(crate::specs::SceneWords::near_of))]
fn near_ahead(line: &[u8]) -> Option<Command>
    ensures command { IfSome result (λ found. near_of (words line.now) ≡ Ok found) }
    ensures allowed { IfSome result (λ _. allows verb.Near (length (words line.now)) ≡ true) }
    ensures ends { IfSome result (λ _. prefix_len in_word line.now ≡ 0) }
    ensures printable { IfSome result IsPrintable }
{
    let line = past_word(line)?;
    let (at, line) = point_ahead(line)?;
    let (want, line) = want_ahead(line)?;
    let (mask, line) = mask_or_ahead(EVERY_GROUP, line)?;
    if !is_done(line) {
        return None;
    }
    Some(Command::Near { at, want, mask })
}
