//! The maker of a scene: its boxes by slot, and the lines that add, move and replace them.

ghost use Rattle.std.specs.Prelude.{Bool, ◌≡◌, ◌++◌, ◌≤◌, ◌<◌, ◌%◌, length, slice_index, take, vec_len, OnOk, OnErr};
ghost use Rattle.fixed_box.specs.declared.TheConstants.{SLOTS};
ghost use Rattle.made_scene.specs.declared.TheConstants.{MOST_FRAMES};
ghost use Rattle.made_scene.specs.MadeScene.{start, adds, moves, replacement, questions, frames, one_frame};
ghost use Rattle.made_scene.specs.MadeScene.{with_new, with_moved, add_command, move_command, body_at, next_slot, chosen, past_choice, everyone};
ghost use Rattle.made_scene.specs.MadeScene.{origin, nobodys};
ghost use Rattle.made_scene.specs.Ranges.{IsNear, IsAfter, IsMoving};
ghost use Rattle.ray_slabs.specs.Vector.{widened};
ghost use Rattle.scene_words.specs.declared.command.Command.TheVariants.{RayQ, SegQ};
ghost use Rattle.scene_words.specs.Printed.{scene_text, line_of};
ghost use Rattle.scene_words.specs.Ranges.{IsPrintable};

use crate::made_box::{moved_box, next_box, next_word};
use fixed_box::{FBox, NoMemory, Point};
use live_table::{Group, Handle};
use rand_pcg::Lcg64Xsh32;
use ray_slabs::{Ray, Seg, WPoint};
use scene_words::{Command, print_command};
use std::alloc::Global;
use std::marker::Model;

// The mask of all groups.
const EVERYONE: u32 = 4294967295;

/// What makes a scene: the generator, and the box and the generation of each slot, from 0 on.
///
/// Each `put` appends lines. What was there stays, after an `Err` too, and the maker itself is then of no further use.
#[derive(Drop)]
pub(crate) struct SceneMaker {
    generator: Lcg64Xsh32,
    bodies: Vec<FBox>,
    generations: Vec<u32>,
}

impl Model for SceneMaker {
    ghost use Rattle.made_scene.specs.MadeScene.{Stage};

    ghost Value = { Stage };

    ghost view = { λ m. record { generator = m.generator; bodies = m.bodies.items; generations = m.generations.items } };
}

impl SceneMaker {
    /// Nothing made yet.
    pub(crate) fn new(alloc: Global, seed: u64) -> SceneMaker
        ensures { result ≡ start seed }
    {
        SceneMaker {
            generator: Lcg64Xsh32::new(seed, 54),
            bodies: Vec::new(alloc),
            generations: Vec::new(alloc),
        }
    }

    /// Puts so many adds.
    #[tactic(auto, using(crate::proofs::PartsPut::add_put))]
    pub(crate) fn put_adds(&mut self, boxes: u32, out: &mut Vec<u8>) -> Result<(), NoMemory>
        ensures state { OnOk result (self.new ≡ (adds boxes self.old).after) }
        ensures text { OnOk result (out.new.items ≡ out.old.items ++ scene_text (adds boxes self.old).commands) }
        ensures kept { take (vec_len out.old) out.new.items ≡ out.old.items }
    {
        'boxes: for count in 0..boxes {
            let _ = count;
            self.put_add(out)?;
        }
        Ok(())
    }

    // Puts the add of another box.
    fn put_add(&mut self, out: &mut Vec<u8>) -> Result<(), NoMemory>
        ensures state { OnOk result (self.new ≡ with_new self.old) }
        ensures text { OnOk result (out.new.items ≡ out.old.items ++ line_of (add_command self.old)) }
        ensures err { OnErr result (out.new.items ≡ out.old.items) }
    {
        let (body, masks) = next_box(&mut self.generator);
        self.bodies.push(body)?;
        self.generations.push(0)?;
        put_line(
            &Command::Add {
                body,
                masks,
                group: nobodys(),
            },
            out,
        )
    }

    /// Puts so many frames.
    #[tactic(auto, using(crate::proofs::PartsPut::frame_put))]
    pub(crate) fn put_frames(&mut self, count: u32, out: &mut Vec<u8>) -> Result<(), NoMemory>
        requires some { 1 ≤ length self.old.bodies }
        requires few { count ≤ MOST_FRAMES }
        requires start { IsAfter 0 self.old }
        ensures text { OnOk result (out.new.items ≡ out.old.items ++ scene_text (frames count self.old).commands) }
        ensures kept { take (vec_len out.old) out.new.items ≡ out.old.items }
    {
        'frames: for frame in 0..count {
            let _ = frame;
            self.put_frame(out)?;
        }
        Ok(())
    }

    // Puts a frame: each box moves, one is replaced, and queries follow there.
    fn put_frame(&mut self, out: &mut Vec<u8>) -> Result<(), NoMemory>
        requires some { 1 ≤ length self.old.bodies }
        requires after { IsAfter 99 self.old }
        ensures state { OnOk result (self.new ≡ (one_frame self.old).after) }
        ensures text { OnOk result (out.new.items ≡ out.old.items ++ scene_text (one_frame self.old).commands) }
        ensures kept { take (vec_len out.old) out.new.items ≡ out.old.items }
    {
        self.put_moves(out)?;
        let slot = self.choose();
        self.put_replacement(slot, out)?;
        self.put_questions(slot, out)
    }

    // Puts a move of each box.
    #[tactic(auto, using(crate::proofs::PartsPut::move_put))]
    fn put_moves(&mut self, out: &mut Vec<u8>) -> Result<(), NoMemory>
        requires { IsAfter 99 self.old }
        ensures state { OnOk result (self.new ≡ (moves (length self.old.bodies) 0 self.old).after) }
        ensures text { OnOk result (out.new.items ≡ out.old.items ++ scene_text (moves (length self.old.bodies) 0 self.old).commands) }
        ensures moving { OnOk result (IsMoving 99 (length self.old.bodies) self.new) }
        ensures count { OnOk result (length self.new.bodies ≡ length self.old.bodies) }
        ensures kept { take (vec_len out.old) out.new.items ≡ out.old.items }
    {
        let boxes = self.bodies.len();
        'slots: for slot in 0..boxes {
            self.put_move(slot, out)?;
        }
        Ok(())
    }

    // Puts the move of a slot's box.
    fn put_move(&mut self, slot: usize, out: &mut Vec<u8>) -> Result<(), NoMemory>
        requires slot { slot < length self.old.bodies }
        requires few { length self.old.bodies ≤ SLOTS }
        requires named { length self.old.generations ≡ length self.old.bodies }
        requires near { IsNear 99 (body_at self.old slot) }
        ensures state { OnOk result (self.new ≡ with_moved self.old slot) }
        ensures text { OnOk result (out.new.items ≡ out.old.items ++ line_of (move_command self.old slot)) }
        ensures err { OnErr result (out.new.items ≡ out.old.items) }
    {
        let word = next_word(&mut self.generator);
        let body = moved_box(&self.bodies[slot], word);
        self.bodies[slot] = body;
        let handle = Handle {
            slot: slot as u32,
            generation: self.generations[slot],
        };
        put_line(&Command::Move { handle, body }, out)
    }

    // The slot that the next word chooses.
    fn choose(&mut self) -> usize
        requires { 1 ≤ length self.old.bodies }
        ensures slot { result ≡ chosen self.old }
        ensures below { result < length self.old.bodies }
        ensures state { self.new ≡ past_choice self.old }
    {
        next_word(&mut self.generator) as usize % self.bodies.len()
    }

    // Puts what takes a slot's box away, and what adds another there.
    fn put_replacement(&mut self, slot: usize, out: &mut Vec<u8>) -> Result<(), NoMemory>
        requires slot { slot < length self.old.bodies }
        requires few { length self.old.bodies ≤ SLOTS }
        requires named { length self.old.generations ≡ length self.old.bodies }
        requires young { slice_index self.old.generations slot ≤ 99 }
        ensures state { OnOk result (self.new ≡ (replacement slot self.old).after) }
        ensures text { OnOk result (out.new.items ≡ out.old.items ++ scene_text (replacement slot self.old).commands) }
        ensures kept { take (vec_len out.old) out.new.items ≡ out.old.items }
    {
        let handle = Handle {
            slot: slot as u32,
            generation: self.generations[slot],
        };
        put_line(&Command::Remove { handle }, out)?;
        let (body, masks) = next_box(&mut self.generator);
        self.bodies[slot] = body;
        self.generations[slot] += 1;
        put_line(
            &Command::Add {
                body,
                masks,
                group: nobodys(),
            },
            out,
        )
    }

    // Puts the queries at a slot, and the end of the frame.
    fn put_questions(&self, slot: usize, out: &mut Vec<u8>) -> Result<(), NoMemory>
        requires { slot < length self.now.bodies }
        ensures text { OnOk result (out.new.items ≡ out.old.items ++ scene_text (questions slot self.now).commands) }
        ensures kept { take (vec_len out.old) out.new.items ≡ out.old.items }
    {
        let mask = EVERYONE;
        let body = self.body_at(slot);
        let at = body.lo();
        let ray = ray_to(at);
        let seg = seg_between(at, self.body_at(self.next_slot(slot)).lo());
        put_line(&Command::BoxQ { body, mask }, out)?;
        put_line(&Command::PointQ { at, mask }, out)?;
        put_line(
            &Command::RayQ {
                ray,
                mask,
                entry: false,
            },
            out,
        )?;
        put_line(&Command::SegQ { seg, mask }, out)?;
        put_line(&Command::Frame, out)
    }

    // The slot after one, and after the last the first.
    fn next_slot(&self, slot: usize) -> usize
        requires { slot < length self.now.bodies }
        ensures slot { result ≡ next_slot self.now slot }
        ensures below { result < length self.now.bodies }
    {
        let count = self.bodies.len();
        (slot + 1) % count
    }

    // The box of a slot.
    fn body_at(&self, slot: usize) -> FBox
        requires { slot < length self.now.bodies }
        ensures { result ≡ body_at self.now slot }
    {
        self.bodies[slot]
    }
}

/// Puts the line of a command.
#[tactic(auto, unfolding(scene_words::specs::Printed::line_of))]
pub(crate) fn put_line(command: &Command, out: &mut Vec<u8>) -> Result<(), NoMemory>
    requires { IsPrintable command.now }
    ensures ok { OnOk result (out.new.items ≡ out.old.items ++ line_of command.now) }
    ensures err { OnErr result (out.new.items ≡ out.old.items) }
{
    print_command(command, out)
}

// A box that nobody owns and that isn't fixed.
fn nobodys() -> Group
    ensures { result ≡ nobodys }
{
    Group {
        owner: 0,
        fixed: false,
    }
}

// The ray from the origin in the direction of a point.
fn ray_to(at: Point) -> Ray
    ensures value { result ≡ record { from = origin; dir = widened at } }
    ensures printable { (entry : Bool) → IsPrintable (RayQ result everyone entry) }
{
    let origin = Point { x: 0, y: 0, z: 0 };
    Ray {
        from: WPoint::of(&origin),
        dir: WPoint::of(&at),
    }
}

// The segment between two points.
fn seg_between(a: Point, b: Point) -> Seg
    ensures value { result ≡ record { a = widened a; b = widened b } }
    ensures printable { IsPrintable (SegQ result everyone) }
{
    Seg {
        a: WPoint::of(&a),
        b: WPoint::of(&b),
    }
}
