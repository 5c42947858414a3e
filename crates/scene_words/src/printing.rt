//! A command printed as a line that reads back as it.

ghost use Rattle.std.specs.Prelude.{◌≡◌, ℕ, List, ◌+◌, ◌^◌, ◌<◌, ◌≤◌, ◌++◌, ◌∷◌, [], length, true, decimal, Ok, OnOk, OnErr};
ghost use Rattle.std.specs.List.{All, join_with_byte};
ghost use Rattle.fixed_box.specs.Fix.{show};
ghost use Rattle.ray_slabs.specs.Vector.{widened};
ghost use Rattle.scene_words.specs.declared.command.Command.{Command};
ghost use Rattle.scene_words.specs.declared.version.Version.TheVariants.{One, Two};
ghost use Rattle.scene_words.specs.SceneWords as scene;
ghost use Rattle.scene_words.specs.Printed.{IsWord, printed, handle_text, mask_text, is_of_one};
ghost use Rattle.scene_words.specs.PrintedParts.{asks, point_text, box_text, masks_text, group_text, flag_text};
ghost use Rattle.scene_words.specs.Ranges.{IsRaw, IsRawVector, IsRawBox, IsHandle, IsMasks, IsInRange, IsPrintable};
ghost use Rattle.text_line.specs.declared.TheConstants.{ROOM};

use crate::Command;
use crate::word_by_word::version_word;
use fixed_box::{FBox, Fix, NoMemory, Point, print_fix};
use live_table::{Group, Handle, Masks};
use ray_slabs::WPoint;
use text_line::TextLine;

/// Appends the line that says a command: its words with a space between each two, and LF. No word is left out that may
/// be, so that masks always stand there. It is for programs that make scenes, of which the drill is one.
///
/// Each part of a ray or of a segment lies within 32 bits, and from 1 to `SLOTS` boxes are wanted, as in every command that
/// `read_command` answers. The line reads back as the command under version 2, and under version 1 where that has such a
/// command. It has no byte below the space, and at most 130 bytes before LF, so that a reader of lines
/// finds it again. After `NoMemory` the text is as before.
pub fn print_command(command: &Command, out: &mut Vec<u8>) -> Result<(), NoMemory>
    requires { IsPrintable command.now }
    ensures ok { OnOk result (out.new.items ≡ out.old.items ++ printed command.now ++ 10 ∷ []) }
    ensures err { OnErr result (out.new.items ≡ out.old.items) }
    ensures reads_back { scene.command Two (printed command.now) ≡ Ok command.now }
    ensures reads_back_before { is_of_one command.now ≡ true → scene.command One (printed command.now) ≡ Ok command.now }
    ensures visible { All (λ b. 32 ≤ b) (printed command.now) }
    ensures short { length (printed command.now) ≤ 130 }
{
    printed_reads_back();
    let mut line = TextLine::new();
    put_words(command, &mut line);
    line.text(b"\n");
    Ok(out.extend_from_slice(line.bytes())?)
}

/// A law for proofs, with nothing to run, over commands that need not be at hand: what the drill says of the whole scene
/// that it makes stands on it. What is printed of a command reads back as that command, has no byte below the space, so
/// neither LF nor CR, and at most 130 bytes. `words` says why: a line of words with a space between each two has these
/// words.
pub fn printed_reads_back()
    ensures back { (c : Command) → IsInRange c → scene.command Two (printed c) ≡ Ok c }
    ensures back_before { (c : Command) → IsInRange c → is_of_one c ≡ true → scene.command One (printed c) ≡ Ok c }
    ensures visible { (c : Command) → IsInRange c → All (λ b. 32 ≤ b) (printed c) }
    ensures short { (c : Command) → IsInRange c → length (printed c) ≤ 130 }
    ensures words { (ws : List (List ℕ)) → All IsWord ws → scene.words (join_with_byte 32 ws) ≡ ws }
{
    fixed_box::printed_reads_back();
}

// Puts the words of a command.
fn put_words(command: &Command, line: &mut TextLine)
    requires start { line.old ≡ [] }
    requires printable { IsPrintable command.now }
    ensures text { line.new ≡ printed command.now }
    ensures length { length line.new < ROOM }
    ensures in_range { IsInRange command.now }
{
    match command {
        Command::Blank => {}
        Command::Header { version } => {
            line.text(b"scene ");
            line.text(version_word(*version));
        }
        Command::Add { body, masks, group } => {
            line.text(b"add");
            put_box(body, line);
            put_masks(*masks, line);
            put_group(*group, line);
        }
        Command::Move { handle, body } => {
            line.text(b"move");
            put_handle(*handle, line);
            put_box(body, line);
        }
        Command::Mask { handle, masks } => {
            line.text(b"mask");
            put_handle(*handle, line);
            put_masks(*masks, line);
        }
        Command::Remove { handle } => {
            line.text(b"remove");
            put_handle(*handle, line);
        }
        Command::Frame => line.text(b"frame"),
        Command::Mark => line.text(b"mark"),
        Command::Back => line.text(b"back"),
        _ => put_question(command, line),
    }
}

// Puts the words of a command that asks for boxes.
fn put_question(command: &Command, line: &mut TextLine)
    requires start { line.old ≡ [] }
    requires printable { IsPrintable command.now }
    requires asks { asks command.now ≡ true }
    ensures text { line.new ≡ printed command.now }
    ensures length { length line.new < ROOM }
    ensures in_range { IsInRange command.now }
{
    match command {
        Command::BoxQ { body, mask } => {
            line.text(b"box");
            put_box(body, line);
            put_mask(*mask, line);
        }
        Command::PointQ { at, mask } => {
            line.text(b"point");
            put_point(*at, line);
            put_mask(*mask, line);
        }
        Command::RayQ { ray, mask, entry } => {
            line.text(b"ray");
            put_vector(&ray.from, line);
            put_vector(&ray.dir, line);
            put_mask(*mask, line);
            put_flag(*entry, b" entry".as_slice(), line);
        }
        Command::SegQ { seg, mask } => {
            line.text(b"seg");
            put_vector(&seg.a, line);
            put_vector(&seg.b, line);
            put_mask(*mask, line);
        }
        Command::Cast { cast, mask } => {
            line.text(b"cast");
            put_box(&cast.body, line);
            put_point(cast.by, line);
            put_mask(*mask, line);
        }
        Command::Near { at, want, mask } => {
            line.text(b"near");
            put_point(*at, line);
            put_index(*want, line);
            put_mask(*mask, line);
        }
        _ => unreachable!(),
    }
}

// Puts the corners of a box, the lower one first.
fn put_box(body: &FBox, line: &mut TextLine)
    requires { length line.old + 78 ≤ ROOM }
    ensures text { line.new ≡ line.old ++ box_text body.now }
    ensures length { length line.new ≤ length line.old + 78 }
    ensures range { IsRawBox body.now }
{
    put_point(body.lo(), line);
    put_point(body.hi(), line);
}

// Puts the numbers of a point, each after a space.
fn put_point(at: Point, line: &mut TextLine)
    requires { length line.old + 39 ≤ ROOM }
    ensures text { line.new ≡ line.old ++ point_text (widened at) }
    ensures length { length line.new ≤ length line.old + 39 }
    ensures range { IsRawVector (widened at) }
{
    put_number(at.x, line);
    put_number(at.y, line);
    put_number(at.z, line);
}

// Puts the parts of a point or a direction of a ray or a segment, which fit 32 bits.
fn put_vector(at: &WPoint, line: &mut TextLine)
    requires room { length line.old + 39 ≤ ROOM }
    requires raw { IsRawVector at.now }
    ensures text { line.new ≡ line.old ++ point_text at.now }
    ensures length { length line.new ≤ length line.old + 39 }
{
    let narrowed = Point {
        x: narrowed(at.x()),
        y: narrowed(at.y()),
        z: narrowed(at.z()),
    };
    put_point(narrowed, line);
}

// A part that fits 32 bits.
fn narrowed(part: i64) -> Fix
    requires { IsRaw part }
    ensures { result ≡ part }
{
    part as Fix
}

// Puts a number after a space.
fn put_number(value: Fix, line: &mut TextLine)
    requires { length line.old + 13 ≤ ROOM }
    ensures text { line.new ≡ line.old ++ 32 ∷ show value }
    ensures length { length line.new ≤ length line.old + 13 }
{
    let mut digits = [0; 16];
    let len = print_fix(value, &mut digits);
    line.text(b" ");
    line.text(digits.split_at(len).0);
}

// Puts a handle after a space.
fn put_handle(handle: Handle, line: &mut TextLine)
    requires { length line.old + 22 ≤ ROOM }
    ensures text { line.new ≡ line.old ++ 32 ∷ handle_text handle }
    ensures length { length line.new ≤ length line.old + 22 }
    ensures range { IsHandle handle }
{
    line.text(b" ");
    line.number(handle.slot);
    line.text(b":");
    line.number(handle.generation);
}

// Puts what a box is, then what it sees, each after a space.
fn put_masks(masks: Masks, line: &mut TextLine)
    requires { length line.old + 18 ≤ ROOM }
    ensures text { line.new ≡ line.old ++ masks_text masks }
    ensures length { length line.new ≤ length line.old + 18 }
    ensures range { IsMasks masks }
{
    put_mask(masks.is, line);
    put_mask(masks.sees, line);
}

// Puts whose a box is, where somebody owns it, and that it is fixed, where it is.
fn put_group(group: Group, line: &mut TextLine)
    requires { length line.old + 23 ≤ ROOM }
    ensures text { line.new ≡ line.old ++ group_text group }
    ensures length { length line.new ≤ length line.old + 23 }
    ensures range { group.owner < 2 ^ 32 }
{
    if group.owner != 0 {
        line.text(b" owner");
        put_index(group.owner, line);
    }
    put_flag(group.fixed, b" fixed".as_slice(), line);
}

// Puts a number of boxes or of an owner after a space.
fn put_index(index: u32, line: &mut TextLine)
    requires { length line.old + 11 ≤ ROOM }
    ensures text { line.new ≡ line.old ++ 32 ∷ decimal index }
    ensures length { length line.new ≤ length line.old + 11 }
    ensures range { index < 2 ^ 32 }
{
    line.text(b" ");
    line.number(index);
}

// Puts a word with the space before it, where it is asked for.
fn put_flag(flagged: bool, word: &[u8], line: &mut TextLine)
    requires { length line.old + length word.now ≤ ROOM }
    ensures text { line.new ≡ line.old ++ flag_text flagged word.now }
    ensures length { length line.new ≤ length line.old + length word.now }
{
    if flagged {
        line.text(word);
    }
}

// Puts a mask after a space.
#[tactic(auto, using(crate::proofs::Hexadecimal::hex_length))]
fn put_mask(mask: u32, line: &mut TextLine)
    requires { length line.old + 9 ≤ ROOM }
    ensures text { line.new ≡ line.old ++ 32 ∷ mask_text mask }
    ensures length { length line.new ≤ length line.old + 9 }
    ensures range { mask < 2 ^ 32 }
{
    line.text(b" ");
    line.hexadecimal(mask);
}
