//! The fields of the fast path: numbers, points, boxes, masks and handles off the front of a line.

ghost use Rattle.std.specs.Prelude.{◌≡◌, ◌+◌, ◌≤◌, ◌<◌, ◌^◌, [], true, length, take, drop, Ok, Some, IfSome};
ghost use Rattle.std.specs.Char.{is_digit};
ghost use Rattle.std.specs.List.{prefix_len, list_all};
ghost use Rattle.std.specs.Str.Parse.{digits_value};
ghost use Rattle.scene_words.specs.Fronts.{Leads, in_word, label_said, group_said, owner_said, flag_said, entry_said};
ghost use Rattle.scene_words.specs.SceneWords.{words, number_at, point_at, handle_at, mask_at, mask_or, want_at, labels_of, listing_of};
ghost use Rattle.scene_words.specs.Ranges.{IsWanted};
ghost use Rattle.scene_words.specs.Tails.{tail_of};
ghost use Rattle.scene_words.specs.declared.verb.Verb.TheVariants as verb;
ghost use Rattle.scene_words.specs.declared.version.Version.TheVariants.{Two};

use crate::Version;
use crate::line_words::{after_blanks, next_word};
use crate::values::{
    EVERY_GROUP, FIRST_GROUP, mask_of_word, number_of_word, owner_of_word, want_of_word,
};
use fixed_box::{Fix, Point};
use live_table::{Group, Handle, Masks};
use number_front::{
    digits_ahead, eight_hexadecimal_ahead, fix_ahead, index_before, printed_fix_ahead,
    printed_fix_inside,
};

// The most digits of a mask.
const MASK_DIGITS: usize = 8;

// The largest slot and generation.
const LARGEST: u64 = 4_294_967_295;

// Three numbers, and the line from the next word on. Mostly each has the form in which numbers are printed, and one space
// behind it.
#[inline(always)]
pub(crate) fn point_ahead(line: &[u8]) -> Option<(Point, &[u8])>
    ensures { IfSome result (λ found. Leads point_at 3 line.now found.0 found.1.now) }
{
    match printed_point(line) {
        Some(found) => Some(found),
        None => other_point(line),
    }
}

// Three such numbers. A line goes on behind the first two, so that each of them is read without a look at how long the line is.
#[inline(always)]
#[tactic(auto, unfolding(crate::specs::SceneWords::point_at))]
fn printed_point(line: &[u8]) -> Option<(Point, &[u8])>
    ensures { IfSome result (λ found. Leads point_at 3 line.now found.0 found.1.now) }
{
    let (x, line) = number_inside(line)?;
    let (y, line) = number_inside(line)?;
    let (z, line) = printed_number(line)?;
    Some((Point { x, y, z }, line))
}

// Three numbers of any form. They are less common, so that their code stays out of the way.
#[inline(never)]
#[tactic(auto, unfolding(crate::specs::SceneWords::point_at))]
fn other_point(line: &[u8]) -> Option<(Point, &[u8])>
    ensures { IfSome result (λ found. Leads point_at 3 line.now found.0 found.1.now) }
{
    let (x, line) = number_ahead(line)?;
    let (y, line) = number_ahead(line)?;
    let (z, line) = number_ahead(line)?;
    Some((Point { x, y, z }, line))
}

// A printed number with a space behind it, on a line that is longer than any such number.
#[inline(always)]
fn number_inside(line: &[u8]) -> Option<(Fix, &[u8])>
    ensures { IfSome result (λ found. Leads number_at 1 line.now found.0 found.1.now) }
{
    if line.len() < 12 {
        return None;
    }
    let (number, len) = printed_fix_inside(line)?;
    let rest = past_space_at(line, len)?;
    Some((number, rest))
}

// A number, and the line from the next word on.
#[inline(always)]
fn number_ahead(line: &[u8]) -> Option<(Fix, &[u8])>
    ensures { IfSome result (λ found. Leads number_at 1 line.now found.0 found.1.now) }
{
    if let Some((number, rest)) = printed_number(line) {
        return Some((number, rest));
    }
    other_number(line)
}

// A number in the form in which most are printed, with a blank behind it or none.
#[inline(always)]
fn printed_number(line: &[u8]) -> Option<(Fix, &[u8])>
    ensures { IfSome result (λ found. Leads number_at 1 line.now found.0 found.1.now) }
{
    let (number, len) = printed_fix_ahead(line)?;
    let rest = past_space(line.split_at(len).1)?;
    Some((number, rest))
}

// A number of another form, or between other blanks.
#[inline(never)]
fn other_number(line: &[u8]) -> Option<(Fix, &[u8])>
    ensures { IfSome result (λ found. Leads number_at 1 line.now found.0 found.1.now) }
{
    let text = past_blanks(line);
    if text.len() < line.len()
        && let Some((number, rest)) = printed_number(text)
    {
        return Some((number, rest));
    }
    if let Some((number, rest)) = short_number(text) {
        return Some((number, rest));
    }
    any_number(text)
}

// A number of at most nine digits on either side of its point.
#[inline(always)]
fn short_number(line: &[u8]) -> Option<(Fix, &[u8])>
    ensures { IfSome result (λ found. Leads number_at 1 line.now found.0 found.1.now) }
{
    let (number, len) = fix_ahead(line)?;
    let rest = past_word(line.split_at(len).1)?;
    Some((number, rest))
}

// A number of any form.
#[inline(never)]
fn any_number(line: &[u8]) -> Option<(Fix, &[u8])>
    ensures { IfSome result (λ found. Leads number_at 1 line.now found.0 found.1.now) }
{
    let (word, rest) = next_word(line)?;
    match number_of_word(word) {
        Ok(number) => Some((number, after_blanks(rest))),
        Err(_) => None,
    }
}

// A handle, and the line from the next word on.
#[inline(always)]
pub(crate) fn handle_ahead(line: &[u8]) -> Option<(Handle, &[u8])>
    ensures { IfSome result (λ found. Leads handle_at 1 line.now found.0 found.1.now) }
{
    match short_handle(line) {
        Some(found) => Some(found),
        None => other_handle(line),
    }
}

// A handle of at most four digits on either side of its colon, with a space behind it.
#[inline(always)]
fn short_handle(line: &[u8]) -> Option<(Handle, &[u8])>
    ensures { IfSome result (λ found. Leads handle_at 1 line.now found.0 found.1.now) }
{
    let (slot, slot_len) = index_before(b':', line)?;
    let digits = line.split_at(slot_len + 1).1;
    let (generation, len) = index_before(b' ', digits)?;
    let rest = past_space_at(digits, len)?;
    Some((Handle { slot, generation }, rest))
}

// Any other handle.
#[inline(never)]
fn other_handle(line: &[u8]) -> Option<(Handle, &[u8])>
    ensures { IfSome result (λ found. Leads handle_at 1 line.now found.0 found.1.now) }
{
    let (slot, slot_len) = digits_ahead(line);
    let [b':', digits @ ..] = line.split_at(slot_len).1 else {
        return None;
    };
    let (generation, len) = digits_ahead(digits);
    if slot_len == 0 || len == 0 || slot > LARGEST || generation > LARGEST {
        return None;
    }
    let rest = past_word(digits.split_at(len).1)?;
    let handle = Handle {
        slot: slot as u32,
        generation: generation as u32,
    };
    Some((handle, rest))
}

// A mask, and the line from the next word on.
pub(crate) fn mask_ahead(line: &[u8]) -> Option<(u32, &[u8])>
    ensures { IfSome result (λ found. Leads mask_at 1 line.now found.0 found.1.now) }
{
    let (mask, len) = hexadecimal_ahead(line);
    if len == 0 {
        return None;
    }
    let rest = past_word(line.split_at(len).1)?;
    Some((mask, rest))
}

// How many boxes are wanted, and the line from the next word on.
pub(crate) fn want_ahead(line: &[u8]) -> Option<(u32, &[u8])>
    ensures want { IfSome result (λ found. Leads want_at 1 line.now found.0 found.1.now) }
    ensures within { IfSome result (λ found. IsWanted found.0) }
{
    let (word, rest) = next_word(line)?;
    match want_of_word(word) {
        Ok(want) => Some((want, after_blanks(rest))),
        Err(_) => None,
    }
}

// A mask that may be left out before a word that is no mask, as well as at the end of a line.
#[inline(always)]
#[tactic(auto, using(crate::proofs::TailWords::label_read))]
fn label_ahead(default: u32, line: &[u8]) -> Option<(u32, &[u8])>
    ensures { IfSome result (λ found. label_said default (words line.now) ≡ (found.0, words found.1.now)) }
{
    if is_done(line) {
        return Some((default, line));
    }
    let line = past_blanks(line);
    match mask_ahead(line) {
        Some(found) => Some(found),
        None => left_out(default, line),
    }
}

// The same of a mask that isn't there. The word stays.
#[inline(never)]
fn left_out(default: u32, line: &[u8]) -> Option<(u32, &[u8])>
    ensures { IfSome result (λ found. label_said default (words line.now) ≡ (found.0, words found.1.now)) }
{
    let (word, _) = next_word(line)?;
    match mask_of_word(word) {
        Ok(_) => None,
        Err(_) => Some((default, line)),
    }
}

// The masks and the group of a new box, behind which the line ends.
#[inline(always)]
pub(crate) fn labels_ahead(version: Version, line: &[u8]) -> Option<(Masks, Group)>
    ensures labels { IfSome result (λ found. labels_of (tail_of verb.Add version (words line.now)) ≡ Ok found) }
    ensures few { IfSome result (λ _. length (tail_of verb.Add version (words line.now)).plain ≤ 2) }
{
    let (is, line) = label_ahead(FIRST_GROUP, line)?;
    let (sees, line) = label_ahead(EVERY_GROUP, line)?;
    let group = group_ahead(version, line)?;
    Some((Masks { is, sees }, group))
}

// The group of a new box, behind which the line ends.
#[inline(always)]
fn group_ahead(version: Version, line: &[u8]) -> Option<Group>
    ensures { IfSome result (λ group. group_said version (words line.now) ≡ Some group) }
{
    if is_done(line) {
        return Some(Group {
            owner: 0,
            fixed: false,
        });
    }
    match version {
        Version::One => None,
        Version::Two => named_group(line),
    }
}

// The same where the line goes on.
#[inline(never)]
fn named_group(line: &[u8]) -> Option<Group>
    ensures { IfSome result (λ group. group_said Two (words line.now) ≡ Some group) }
{
    let (word, rest) = next_word(line)?;
    if word == b"fixed".as_slice() && is_done(rest) {
        return Some(Group {
            owner: 0,
            fixed: true,
        });
    }
    if word == b"owner".as_slice() {
        return owner_ahead(rest);
    }
    None
}

// What stands behind `owner`.
fn owner_ahead(line: &[u8]) -> Option<Group>
    ensures { IfSome result (λ group. owner_said (words line.now) ≡ Some group) }
{
    let (word, rest) = next_word(line)?;
    let Ok(owner) = owner_of_word(word) else {
        return None;
    };
    let fixed = ends_with(b"fixed".as_slice(), rest)?;
    Some(Group { owner, fixed })
}

// Whether a word is all that is left on a line. `None` comes where something else is left.
fn ends_with(flag: &[u8], line: &[u8]) -> Option<bool>
    ensures { IfSome result (λ flagged. flag_said flag.now (words line.now) ≡ Some flagged) }
{
    let Some((word, rest)) = next_word(line) else {
        return Some(false);
    };
    if word == flag && is_done(rest) {
        Some(true)
    } else {
        None
    }
}

// The groups that a ray asks for, and whether it lists them by entry. Behind that the line ends.
#[inline(always)]
pub(crate) fn listing_ahead(version: Version, line: &[u8]) -> Option<(u32, bool)>
    ensures listing { IfSome result (λ found. listing_of (tail_of verb.Ray version (words line.now)) ≡ Ok found) }
    ensures few { IfSome result (λ _. length (tail_of verb.Ray version (words line.now)).plain ≤ 1) }
{
    let (mask, line) = label_ahead(EVERY_GROUP, line)?;
    let entry = entry_ahead(version, line)?;
    Some((mask, entry))
}

// Whether a ray lists by entry, behind which the line ends.
#[inline(always)]
fn entry_ahead(version: Version, line: &[u8]) -> Option<bool>
    ensures { IfSome result (λ entry. entry_said version (words line.now) ≡ Some entry) }
{
    if is_done(line) {
        return Some(false);
    }
    match version {
        Version::One => None,
        Version::Two => ends_with(b"entry".as_slice(), line),
    }
}

// A mask that may be left out.
#[inline(always)]
pub(crate) fn mask_or_ahead(default: u32, line: &[u8]) -> Option<(u32, &[u8])>
    ensures value { IfSome result (λ found. mask_or default (words line.now) ≡ Ok (found.0, words found.1.now)) }
    ensures count { IfSome result (λ found. length (words line.now) ≤ 1 + length (words found.1.now)) }
{
    if is_done(line) {
        return Some((default, line));
    }
    mask_ahead(past_blanks(line))
}

// The hexadecimal digits at the front, at most eight: the number that they form, and how many they are. Eight are read at once.
#[inline(always)]
fn hexadecimal_ahead(line: &[u8]) -> (u32, usize)
    ensures value { result.0 ≡ digits_value 16 (take result.1 line.now) }
    ensures digits { list_all (λ b. is_digit b 16) (take result.1 line.now) ≡ true }
    ensures within { result.1 ≤ length line.now }
    ensures few { result.1 ≤ 8 }
{
    match eight_hexadecimal_ahead(line) {
        Some(value) => (value, MASK_DIGITS),
        None => few_hexadecimal(line),
    }
}

// The same, one digit at a time.
#[inline(never)]
fn few_hexadecimal(line: &[u8]) -> (u32, usize)
    ensures value { result.0 ≡ digits_value 16 (take result.1 line.now) }
    ensures digits { list_all (λ b. is_digit b 16) (take result.1 line.now) ≡ true }
    ensures within { result.1 ≤ length line.now }
    ensures few { result.1 ≤ 8 }
{
    let most = line.len().min(MASK_DIGITS);
    let mut value = 0;
    let mut len = 0;
    'digits: while len < most
        && let Some(digit) = char::from(line[len]).to_digit(16)
    {
        value = value * 16 + digit;
        len += 1;
    }
    (value, len)
}

// Whether no word is left on a line.
#[inline(always)]
pub(crate) fn is_done(line: &[u8]) -> bool
    ensures { result ≡ true → words line.now ≡ [] }
{
    matches!(past_blanks(line), [] | [b'#', ..])
}

// The line behind the blank that ends a word at its front, or a line that ends there. Further blanks stay.
#[inline(always)]
fn past_space(line: &[u8]) -> Option<&[u8]>
    ensures words { IfSome result (λ rest. words rest.now ≡ words line.now) }
    ensures end { IfSome result (λ _. prefix_len in_word line.now ≡ 0) }
{
    match line {
        [] => Some(line),
        [b' ', rest @ ..] => Some(rest),
        [b'\t', rest @ ..] => Some(rest),
        _ => None,
    }
}

// The line behind the space at a place, where there is one.
#[inline(always)]
fn past_space_at(line: &[u8], at: usize) -> Option<&[u8]>
    requires { at < length line.now }
    ensures words { IfSome result (λ rest. words rest.now ≡ words (drop at line.now)) }
    ensures end { IfSome result (λ _. prefix_len in_word (drop at line.now) ≡ 0) }
{
    if line[at] == b' ' {
        Some(line.split_at(at + 1).1)
    } else {
        None
    }
}

// The line from the next word on, where a word ends at its front. Mostly one space is passed.
#[inline(always)]
pub(crate) fn past_word(line: &[u8]) -> Option<&[u8]>
    ensures words { IfSome result (λ rest. words rest.now ≡ words line.now) }
    ensures end { IfSome result (λ _. prefix_len in_word line.now ≡ 0) }
{
    match line {
        [] | [b'#', ..] => Some(line),
        [b' ', rest @ ..] => Some(past_blanks(rest)),
        [b'\t', rest @ ..] => Some(past_blanks(rest)),
        _ => None,
    }
}

// The line behind the blanks at its front, of which there are mostly none.
#[inline(always)]
fn past_blanks(line: &[u8]) -> &[u8]
    ensures { words result.now ≡ words line.now }
{
    match line {
        [b' ' | b'\t', ..] => after_blanks(line),
        _ => line,
    }
}
