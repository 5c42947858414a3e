//! The whole parser: a line read word by word, with the first fault of one that is no command.

ghost use Rattle.std.specs.Prelude.{◌≡◌, ◌≤◌, length, take, IfOk, option_map};
ghost use Rattle.scene_words.specs.declared.verb.Verb.TheVariants as verb;
ghost use Rattle.scene_words.specs.Tails.{tail_of};
ghost use Rattle.scene_words.specs.Verbs.{version_word, version_of};
ghost use Rattle.scene_words.specs.SceneWords.{words, command, further_of, header_of, number_at, point_at, handle_at, mask_at, mask_or, want_at, box_between};
ghost use Rattle.scene_words.specs.SceneWords.{add_of, move_of, mask_of, remove_of, box_of, point_of, ray_of, seg_of, cast_of, near_of};
ghost use Rattle.scene_words.specs.SceneWords.{masks_of, group_of, labels_of, listing_of};
ghost use Rattle.scene_words.specs.Ranges.{IsPrintable, IsWanted};
ghost use Rattle.scene_words.specs.Reads.{Reads, mask_within};

use crate::line_words::{next_word, word_at};
use crate::one_pass::{add_ahead, move_ahead, query_ahead};
use crate::tails::{add_tail, count_for, ray_tail};
use crate::values::{
    EVERY_GROUP, FIRST_GROUP, handle_of_word, mask_of_word, number_of_word, owner_of_word,
    want_of_word,
};
use crate::verb::Verb;
use crate::{Command, LineFault, Version};
use box_cast::Cast;
use fixed_box::{FBox, Fix, Point};
use live_table::{Group, Handle, Masks};
use ray_slabs::{Ray, Seg, WPoint};

/// Reads one line of a scene of a version, without its end. Words are parted by spaces and tabs, and `#` begins a comment.
/// The headers of both versions are read under either. Version 2 has all commands; under it an `add` may end with `owner`
/// and a number, then with `fixed`, and a `ray` with `entry`. These are taken off from the end before words are counted.
///
/// The fault is the first one: `Header` of a line that begins with `scene`, then `Word`, then `Count`, then that of
/// the first bad word from left to right, then `Inverted`. Masks that are left out name every group, but a new box
/// is in the first group alone.
pub fn read_command(version: Version, line: &[u8]) -> Result<Command, LineFault>
    ensures command { result ≡ command version line.now }
    ensures printable { IfOk result IsPrintable }
{
    // Most lines are these, read in one pass.
    if let [b'm', b'o', b'v', b'e', rest @ ..] = line
        && let Some((handle, body)) = move_ahead(rest)
    {
        return Ok(Command::Move { handle, body });
    }
    if let [b'a', b'd', b'd', rest @ ..] = line
        && let Some((body, masks, group)) = add_ahead(version, rest)
    {
        return Ok(Command::Add { body, masks, group });
    }
    read_other(version, line)
}

// Reads any other line. It stands apart, since a move or an add is then answered from its parts, and no command is copied on
// the way.
#[inline(never)]
fn read_other(version: Version, line: &[u8]) -> Result<Command, LineFault>
    ensures command { result ≡ command version line.now }
    ensures printable { IfOk result IsPrintable }
{
    if let Some(command) = query_ahead(version, line) {
        return Ok(command);
    }
    read_words(version, line)
}

// Reads one line of a scene word by word. It alone tells the faults apart.
#[tactic(auto, unfolding(crate::specs::SceneWords::command_of))]
fn read_words(version: Version, line: &[u8]) -> Result<Command, LineFault>
    ensures command { result ≡ command version line.now }
    ensures printable { IfOk result IsPrintable }
{
    let Some((word, further)) = next_word(line) else {
        return Ok(Command::Blank);
    };
    let Some(verb) = Verb::of(word) else {
        return Err(LineFault::Word);
    };
    if !verb.is_of(version) {
        return Err(LineFault::Word);
    }
    if verb.allows(count_for(verb, version, further)) {
        read_further(version, verb, further)
    } else {
        Err(LineFault::Count)
    }
}

// Reads what follows the first word.
fn read_further(version: Version, verb: Verb, further: &[u8]) -> Result<Command, LineFault>
    ensures command { result ≡ further_of version verb (words further.now) }
    ensures printable { IfOk result IsPrintable }
{
    match verb {
        Verb::Scene => read_header(further),
        Verb::Add => read_add(version, further),
        Verb::Move => read_move(further),
        Verb::Mask => read_new_masks(further),
        Verb::Remove => read_remove(further),
        Verb::Frame => Ok(Command::Frame),
        Verb::Box => read_box(further),
        Verb::Point => read_point_query(further),
        Verb::Ray => read_ray(version, further),
        Verb::Seg => read_seg(further),
        Verb::Cast => read_cast(further),
        Verb::Near => read_near(further),
        Verb::Mark => Ok(Command::Mark),
        Verb::Back => Ok(Command::Back),
    }
}

// Reads what follows `scene`: the word of a version, alone.
fn read_header(further: &[u8]) -> Result<Command, LineFault>
    ensures command { result ≡ header_of (words further.now) }
    ensures printable { IfOk result IsPrintable }
{
    let Some((word, rest)) = next_word(further) else {
        return Err(LineFault::Header);
    };
    if next_word(rest).is_some() {
        return Err(LineFault::Header);
    }
    match version_of(word) {
        Some(version) => Ok(Command::Header { version }),
        None => Err(LineFault::Header),
    }
}

// The version that a word names.
fn version_of(word: &[u8]) -> Option<Version>
    ensures { result ≡ version_of word.now }
{
    if word == b"1".as_slice() {
        Some(Version::One)
    } else if word == b"2".as_slice() {
        Some(Version::Two)
    } else {
        None
    }
}

// The word that names a version.
pub(crate) fn version_word(version: Version) -> &'static [u8]
    ensures word { result.now ≡ version_word version }
    ensures short { length result.now ≡ 1 }
{
    match version {
        Version::One => b"1".as_slice(),
        Version::Two => b"2".as_slice(),
    }
}

// Reads what follows `add`: the corners, the masks and the group.
#[tactic(auto, unfolding(crate::specs::SceneWords::add_of))]
fn read_add(version: Version, further: &[u8]) -> Result<Command, LineFault>
    ensures command { result ≡ add_of version (words further.now) }
    ensures printable { IfOk result IsPrintable }
{
    let (lo, rest) = read_point(further)?;
    let (hi, rest) = read_point(rest)?;
    let (masks, group) = read_labels(version, rest)?;
    let body = box_between(lo, hi)?;
    Ok(Command::Add { body, masks, group })
}

// Reads the masks and the group of a new box.
fn read_labels(version: Version, rest: &[u8]) -> Result<(Masks, Group), LineFault>
    ensures { result ≡ labels_of (tail_of verb.Add version (words rest.now)) }
{
    let (count, owner, fixed) = add_tail(version, rest);
    let masks = read_masks(rest, count)?;
    let group = read_group(owner, fixed)?;
    Ok((masks, group))
}

// Reads what a new box is, then what it sees, from so many words.
#[tactic(auto, using(crate::proofs::MasksWithin::masks_within))]
fn read_masks(rest: &[u8], count: usize) -> Result<Masks, LineFault>
    requires { count ≤ length (words rest.now) }
    ensures { result ≡ masks_of (take count (words rest.now)) }
{
    let is = read_mask_within(FIRST_GROUP, 0, rest, count)?;
    let sees = read_mask_within(EVERY_GROUP, 1, rest, count)?;
    Ok(Masks { is, sees })
}

// Reads the mask that is the word at a place, where there are so many words that it is one of them.
fn read_mask_within(default: u32, place: usize, rest: &[u8], count: usize) -> Result<u32, LineFault>
    requires { count ≤ length (words rest.now) }
    ensures { result ≡ mask_within default place count (words rest.now) }
{
    if place < count {
        mask_of_word(word_at(rest, place))
    } else {
        Ok(default)
    }
}

// Reads whose a new box is.
fn read_group(owner: Option<&[u8]>, fixed: bool) -> Result<Group, LineFault>
    ensures { result ≡ group_of (option_map (λ word. word.now) owner.entry) fixed }
{
    let owner = match owner {
        Some(word) => owner_of_word(word)?,
        None => 0,
    };
    Ok(Group { owner, fixed })
}

// Reads what follows `move`: the handle, and the new corners.
#[tactic(auto, unfolding(crate::specs::SceneWords::move_of))]
fn read_move(further: &[u8]) -> Result<Command, LineFault>
    ensures command { result ≡ move_of (words further.now) }
    ensures printable { IfOk result IsPrintable }
{
    let (handle, rest) = read_handle(further)?;
    let (lo, rest) = read_point(rest)?;
    let (hi, _) = read_point(rest)?;
    let body = box_between(lo, hi)?;
    Ok(Command::Move { handle, body })
}

// Reads what follows `mask`: the handle, and the new masks.
#[tactic(auto, unfolding(crate::specs::SceneWords::mask_of))]
fn read_new_masks(further: &[u8]) -> Result<Command, LineFault>
    ensures command { result ≡ mask_of (words further.now) }
    ensures printable { IfOk result IsPrintable }
{
    let (handle, rest) = read_handle(further)?;
    let (is, rest) = read_mask(rest)?;
    let (sees, _) = read_mask(rest)?;
    Ok(Command::Mask {
        handle,
        masks: Masks { is, sees },
    })
}

// Reads what follows `remove`: the handle.
fn read_remove(further: &[u8]) -> Result<Command, LineFault>
    ensures command { result ≡ remove_of (words further.now) }
    ensures printable { IfOk result IsPrintable }
{
    let (handle, _) = read_handle(further)?;
    Ok(Command::Remove { handle })
}

// Reads what follows `box`: the corners, and the groups.
#[tactic(auto, unfolding(crate::specs::SceneWords::box_of))]
fn read_box(further: &[u8]) -> Result<Command, LineFault>
    ensures command { result ≡ box_of (words further.now) }
    ensures printable { IfOk result IsPrintable }
{
    let (lo, rest) = read_point(further)?;
    let (hi, rest) = read_point(rest)?;
    let (mask, _) = read_mask_or(EVERY_GROUP, rest)?;
    let body = box_between(lo, hi)?;
    Ok(Command::BoxQ { body, mask })
}

// Reads what follows `point`: the point, and the groups.
#[tactic(auto, unfolding(crate::specs::SceneWords::point_of))]
fn read_point_query(further: &[u8]) -> Result<Command, LineFault>
    ensures command { result ≡ point_of (words further.now) }
    ensures printable { IfOk result IsPrintable }
{
    let (at, rest) = read_point(further)?;
    let (mask, _) = read_mask_or(EVERY_GROUP, rest)?;
    Ok(Command::PointQ { at, mask })
}

// Reads what follows `ray`: the start, the direction, and what is listed.
#[tactic(auto, unfolding(crate::specs::SceneWords::ray_of))]
fn read_ray(version: Version, further: &[u8]) -> Result<Command, LineFault>
    ensures command { result ≡ ray_of version (words further.now) }
    ensures printable { IfOk result IsPrintable }
{
    let (from, rest) = read_point(further)?;
    let (dir, rest) = read_point(rest)?;
    let (mask, entry) = read_listing(version, rest)?;
    let ray = Ray {
        from: WPoint::of(&from),
        dir: WPoint::of(&dir),
    };
    Ok(Command::RayQ { ray, mask, entry })
}

// Reads the groups that a ray asks for, and whether it lists them by entry.
fn read_listing(version: Version, rest: &[u8]) -> Result<(u32, bool), LineFault>
    ensures { result ≡ listing_of (tail_of verb.Ray version (words rest.now)) }
{
    let (count, entry) = ray_tail(version, rest);
    let mask = read_mask_within(EVERY_GROUP, 0, rest, count)?;
    Ok((mask, entry))
}

// Reads what follows `seg`: the two ends, and the groups.
#[tactic(auto, unfolding(crate::specs::SceneWords::seg_of))]
fn read_seg(further: &[u8]) -> Result<Command, LineFault>
    ensures command { result ≡ seg_of (words further.now) }
    ensures printable { IfOk result IsPrintable }
{
    let (a, rest) = read_point(further)?;
    let (b, rest) = read_point(rest)?;
    let (mask, _) = read_mask_or(EVERY_GROUP, rest)?;
    let seg = Seg {
        a: WPoint::of(&a),
        b: WPoint::of(&b),
    };
    Ok(Command::SegQ { seg, mask })
}

// Reads what follows `cast`: the corners, the way, and the groups.
#[tactic(auto, unfolding(crate::specs::SceneWords::cast_of))]
fn read_cast(further: &[u8]) -> Result<Command, LineFault>
    ensures command { result ≡ cast_of (words further.now) }
    ensures printable { IfOk result IsPrintable }
{
    let (lo, rest) = read_point(further)?;
    let (hi, rest) = read_point(rest)?;
    let (by, rest) = read_point(rest)?;
    let (mask, _) = read_mask_or(EVERY_GROUP, rest)?;
    let body = box_between(lo, hi)?;
    Ok(Command::Cast {
        cast: Cast { body, by },
        mask,
    })
}

// Reads what follows `near`: the point, how many, and the groups.
#[tactic(auto, unfolding(crate::specs::SceneWords::near_of))]
fn read_near(further: &[u8]) -> Result<Command, LineFault>
    ensures command { result ≡ near_of (words further.now) }
    ensures printable { IfOk result IsPrintable }
{
    let (at, rest) = read_point(further)?;
    let (want, rest) = read_want(rest)?;
    let (mask, _) = read_mask_or(EVERY_GROUP, rest)?;
    Ok(Command::Near { at, want, mask })
}

// The box between two corners.
fn box_between(lo: Point, hi: Point) -> Result<FBox, LineFault>
    ensures { result ≡ box_between lo hi }
{
    match FBox::new(lo, hi) {
        Some(body) => Ok(body),
        None => Err(LineFault::Inverted),
    }
}

// Reads three numbers.
#[tactic(auto, unfolding(crate::specs::SceneWords::point_at))]
fn read_point(line: &[u8]) -> Result<(Point, &[u8]), LineFault>
    ensures { Reads result (point_at (words line.now)) }
{
    let (x, rest) = read_number(line)?;
    let (y, rest) = read_number(rest)?;
    let (z, rest) = read_number(rest)?;
    Ok((Point { x, y, z }, rest))
}

// Reads a number.
fn read_number(line: &[u8]) -> Result<(Fix, &[u8]), LineFault>
    ensures { Reads result (number_at (words line.now)) }
{
    let Some((word, rest)) = next_word(line) else {
        return Err(LineFault::Count);
    };
    Ok((number_of_word(word)?, rest))
}

// Reads how many boxes are wanted.
fn read_want(line: &[u8]) -> Result<(u32, &[u8]), LineFault>
    ensures read { Reads result (want_at (words line.now)) }
    ensures within { IfOk result (λ found. IsWanted found.0) }
{
    let Some((word, rest)) = next_word(line) else {
        return Err(LineFault::Count);
    };
    Ok((want_of_word(word)?, rest))
}

// Reads a handle.
fn read_handle(line: &[u8]) -> Result<(Handle, &[u8]), LineFault>
    ensures { Reads result (handle_at (words line.now)) }
{
    let Some((word, rest)) = next_word(line) else {
        return Err(LineFault::Count);
    };
    Ok((handle_of_word(word)?, rest))
}

// Reads a mask.
fn read_mask(line: &[u8]) -> Result<(u32, &[u8]), LineFault>
    ensures { Reads result (mask_at (words line.now)) }
{
    let Some((word, rest)) = next_word(line) else {
        return Err(LineFault::Count);
    };
    Ok((mask_of_word(word)?, rest))
}

// Reads a mask that may be left out.
fn read_mask_or(default: u32, line: &[u8]) -> Result<(u32, &[u8]), LineFault>
    ensures { Reads result (mask_or default (words line.now)) }
{
    let Some((word, rest)) = next_word(line) else {
        return Ok((default, line));
    };
    Ok((mask_of_word(word)?, rest))
}
