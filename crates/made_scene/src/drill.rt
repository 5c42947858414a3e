//! The text of a made scene: the load of the drill.

ghost use Rattle.std.specs.Prelude.{◌≡◌, ◌≤◌, ◌++◌, take, vec_len, OnOk, OnErr};
ghost use Rattle.fixed_box.specs.declared.TheConstants.{SLOTS};
ghost use Rattle.made_scene.specs.declared.TheConstants.{MOST_FRAMES};
ghost use Rattle.made_scene.specs.MadeScene.{made_text};
ghost use Rattle.scene_words.specs.declared.command.Command.TheVariants.{Header};
ghost use Rattle.scene_words.specs.declared.version.Version.TheVariants.{One};
ghost use Rattle.scene_words.specs.Printed.{line_of};

use crate::scene_maker::{SceneMaker, put_line};
use fixed_box::NoMemory;
use scene_words::{Command, Version};
use std::alloc::Global;

/// Appends the text of a made scene: so many boxes, that all move in each of so many frames. In each frame one of them is
/// replaced, and one query of each kind is put there. Equal arguments make equal text, on every machine.
///
/// Boxes are at most `SLOTS`, so that all may live at once, and frames at most `MOST_FRAMES`. Before the first move the boxes lie
/// between 0 and 269 units, with sides from 1 to 13 units; a step moves a box by less than half a unit along each axis.
/// The text has `1 + boxes + frames * (boxes + 7)` lines of at most 105 bytes. While it is made, a box and a generation
/// are kept for each slot. After `NoMemory` `out` is as before.
pub fn drill_scene(
    alloc: Global,
    seed: u64,
    boxes: u32,
    frames: u32,
    out: &mut Vec<u8>,
) -> Result<(), NoMemory>
    requires boxes { (1 ≤ boxes) × (boxes ≤ SLOTS) }
    requires frames { (1 ≤ frames) × (frames ≤ MOST_FRAMES) }
    ensures ok { OnOk result (out.new.items ≡ out.old.items ++ made_text seed boxes frames) }
    ensures err { OnErr result (out.new.items ≡ out.old.items) }
{
    let before = out.len();
    let put = put_scene(alloc, seed, boxes, frames, out);
    if put.is_err() {
        out.truncate(before);
    }
    put
}

// The same. What was there stays, after an `Err` too.
fn put_scene(
    alloc: Global,
    seed: u64,
    boxes: u32,
    frames: u32,
    out: &mut Vec<u8>,
) -> Result<(), NoMemory>
    requires boxes { (1 ≤ boxes) × (boxes ≤ SLOTS) }
    requires frames { frames ≤ MOST_FRAMES }
    ensures ok { OnOk result (out.new.items ≡ out.old.items ++ made_text seed boxes frames) }
    ensures kept { take (vec_len out.old) out.new.items ≡ out.old.items }
{
    put_header(out)?;
    let mut maker = SceneMaker::new(alloc, seed);
    maker.put_adds(boxes, out)?;
    maker.put_frames(frames, out)
}

// Puts the line that a scene begins with.
fn put_header(out: &mut Vec<u8>) -> Result<(), NoMemory>
    ensures ok { OnOk result (out.new.items ≡ out.old.items ++ line_of (Header One)) }
    ensures kept { take (vec_len out.old) out.new.items ≡ out.old.items }
{
    let version = Version::One;
    put_line(&Command::Header { version }, out)
}
