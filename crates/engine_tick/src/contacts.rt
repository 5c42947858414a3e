//! The pairs of bodies that collide, and what a frame changes of them: which begin and which are over.

ghost use Rattle.std.specs.Prelude.{◌≡◌, ◌++◌, [], true, filter, OnOk, OnErr};
ghost use Rattle.broad_index.specs.Near.{rises};
ghost use Rattle.engine_tick.specs.Colliding.{is_let, without};

use crate::Kind;
use broad_index::{Pair, order_laws};
use fixed_box::NoMemory;
use std::alloc::Global;
use std::cmp::Ordering;
use std::mem;

/// The pairs of bodies that collide, and what the last frame changed of them. Each list rises by `a` and then by `b`, and
/// keeps its memory from frame to frame.
#[derive(Drop)]
pub struct Contacts {
    /// The pairs that collide now.
    pub now: Vec<Pair>,
    /// Those of them that didn't collide a frame before.
    pub began: Vec<Pair>,
    /// Those that collided a frame before, and don't now.
    pub over: Vec<Pair>,
    // The pairs that touch, and once they are filtered those that collide.
    pub(crate) touching: Vec<Pair>,
    ghost in_order: { rises now.items ≡ true },
}

impl Contacts {
    /// No pair.
    pub fn new(alloc: Global) -> Contacts
        ensures now { result.now.items ≡ [] }
        ensures began { result.began.items ≡ [] }
        ensures over { result.over.items ≡ [] }
    {
        Contacts {
            now: Vec::new(alloc),
            began: Vec::new(alloc),
            over: Vec::new(alloc),
            touching: Vec::new(alloc),
        }
    }

    // Forgets what a frame changed.
    pub(crate) fn clear_events(&mut self)
        ensures now { self.new.now.items ≡ self.old.now.items }
        ensures began { self.new.began.items ≡ [] }
        ensures over { self.new.over.items ≡ [] }
        ensures touching { self.new.touching.items ≡ self.old.touching.items }
    {
        self.began.clear();
        self.over.clear();
    }

    // Makes those of the touching pairs that collide the pairs of now, and tells what began and what is over. After an `Err`
    // the pairs are those of the frame before, and nothing is told.
    pub(crate) fn turn(&mut self, kinds: &[Kind]) -> Result<(), NoMemory>
        requires { rises self.old.touching.items ≡ true }
        ensures now { OnOk result (self.new.now.items ≡ filter (is_let kinds.now) self.old.touching.items) }
        ensures began { OnOk result (self.new.began.items ≡ without self.old.now.items self.new.now.items) }
        ensures over { OnOk result (self.new.over.items ≡ without self.new.now.items self.old.now.items) }
        ensures kept { OnErr result (self.new.now.items ≡ self.old.now.items) }
        ensures silent { OnErr result ((self.new.began.items ≡ []) × (self.new.over.items ≡ [])) }
    {
        keep_let(kinds, &mut self.touching);
        let told = self.tell();
        match told {
            Ok(()) => mem::swap(&mut self.now, &mut self.touching),
            Err(NoMemory) => self.clear_events(),
        }
        told
    }

    // Tells what the pairs that collide, in `touching`, change of those of the frame before.
    fn tell(&mut self) -> Result<(), NoMemory>
        requires { rises self.old.touching.items ≡ true }
        ensures now { self.new.now.items ≡ self.old.now.items }
        ensures touching { self.new.touching.items ≡ self.old.touching.items }
        ensures began { OnOk result (self.new.began.items ≡ without self.old.now.items self.old.touching.items) }
        ensures over { OnOk result (self.new.over.items ≡ without self.old.touching.items self.old.now.items) }
    {
        self.clear_events();
        push_without(&self.now, &self.touching, &mut self.began)?;
        push_without(&self.touching, &self.now, &mut self.over)
    }
}

// Keeps the pairs whose kinds let them collide.
fn keep_let(kinds: &[Kind], pairs: &mut Vec<Pair>)
    requires { rises pairs.old.items ≡ true }
    ensures let_them { pairs.new.items ≡ filter (is_let kinds.now) pairs.old.items }
    ensures rises { rises pairs.new.items ≡ true }
{
    pairs.retain(
        |pair|
            ensures { result ≡ is_let kinds.entry.now pair.now }
        { are_let(kinds, pair) },
    );
}

// Whether the kinds of two bodies let them collide.
fn are_let(kinds: &[Kind], pair: &Pair) -> bool
    ensures { result ≡ is_let kinds.now pair.now }
{
    let (a, b) = (pair.a as usize, pair.b as usize);
    a < kinds.len() && b < kinds.len() && kinds[a].collides_with(&kinds[b])
}

// Appends the pairs of one rising list that another hasn't, in order. It takes a step for each pair of both lists.
fn push_without(others: &[Pair], pairs: &[Pair], out: &mut Vec<Pair>) -> Result<(), NoMemory>
    requires others { rises others.now ≡ true }
    requires pairs { rises pairs.now ≡ true }
    ensures { OnOk result (out.new.items ≡ out.old.items ++ without others.now pairs.now) }
{
    order_laws();
    let mut left = pairs;
    let mut right = others;
    'left: while let [pair, more_left @ ..] = left {
        let [other, more_right @ ..] = right else {
            break;
        };
        match pair.cmp(other) {
            Ordering::Less => {
                out.push(*pair)?;
                left = more_left;
            }
            Ordering::Greater => right = more_right,
            Ordering::Equal => left = more_left,
        }
    }
    out.extend_from_slice(left)?;
    Ok(())
}
