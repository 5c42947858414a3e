//! The events of a frame, each made while it is told, of the frame's pairs and of what changed.

ghost use Rattle.std.specs.Prelude.{◌≡◌, ◌++◌, [], ◌∷◌, None, Some, length, drop, take, vec_len, OnOk, OnErr, IfSome};
ghost use Rattle.pair_events.specs.PairEvents.{told_of, changes};

use crate::changes::is_same;
use crate::{Event, HPair, Told};
use fixed_box::NoMemory;
use std::marker::Model;

/// The events of a frame that are still to be told, the next one first: each pair of the frame, as it begins or stays, and then each
/// that is over. No event is stored, so that a pair which stays costs nothing until it is told.
#[derive(Drop)]
pub struct Events<'a> {
    pairs: &'a [HPair],
    began: &'a [HPair],
    over: &'a [HPair],
}

impl<'a> Model for Events<'a> {
    ghost use Rattle.std.specs.Prelude.{List};
    ghost use Rattle.pair_events.specs.declared.told.Told.{Told};
    ghost use Rattle.pair_events.specs.PairEvents.{told_of};

    ghost Value = { List Told };

    ghost view = { λ e. told_of e.pairs.now e.began.now e.over.now };
}

impl<'a> Events<'a> {
    /// The events of a frame with these pairs, of those that began and of those that are over.
    pub fn of(pairs: &'a [HPair], began: &'a [HPair], over: &'a [HPair]) -> Events<'a>
        ensures { result ≡ told_of pairs.now began.now over.now }
    {
        Events { pairs, began, over }
    }

    /// The events of the pairs that changed alone: those that began, and then those that are over.
    #[tactic(auto, using(crate::proofs::ToldOf::all_begin))]
    pub fn of_changes(began: &'a [HPair], over: &'a [HPair]) -> Events<'a>
        ensures { result ≡ changes began.now over.now }
    {
        Events {
            pairs: began,
            began,
            over,
        }
    }

    /// How many events are left.
    #[tactic(auto, using(crate::proofs::ToldOf::length_told))]
    pub fn len(&self) -> usize
        ensures { result ≡ length self.now }
    {
        self.pairs.len() + self.over.len()
    }

    /// Takes the next event, and answers `None` where none is left.
    pub fn next(&mut self) -> Option<Told>
        ensures some { IfSome result (λ told. self.old ≡ told ∷ self.new) }
        ensures none { result ≡ None → (self.old ≡ []) × (self.new ≡ []) }
    {
        let Some((pair, pairs)) = self.pairs.split_first() else {
            let (pair, over) = self.over.split_first()?;
            self.over = over;
            return Some(Told {
                event: Event::Over,
                pair: *pair,
            });
        };
        self.pairs = pairs;
        if let Some((first, began)) = self.began.split_first() {
            if is_same(pair, first) {
                self.began = began;
                return Some(Told {
                    event: Event::Begin,
                    pair: *pair,
                });
            }
        }
        Some(Told {
            event: Event::Stay,
            pair: *pair,
        })
    }

    /// Passes so many events, or all where fewer are left. It takes a step for each.
    pub fn skip(&mut self, count: usize)
        ensures { self.new ≡ drop count self.old }
    {
        let mut left = count;
        'passed: while left > 0 {
            if self.next().is_none() {
                return;
            }
            left -= 1;
        }
    }
}

// Appends the events that are left. What was in `out` stays, after an `Err` too.
pub(crate) fn push_events(events: Events<'_>, out: &mut Vec<Told>) -> Result<(), NoMemory>
    ensures ok { OnOk result (out.new.items ≡ out.old.items ++ events.entry) }
    ensures err { OnErr result (out.new.items ≡ out.old.items) }
{
    let before = out.len();
    let pushed = push_each(events, out);
    if pushed.is_err() {
        out.truncate(before);
    }
    pushed
}

fn push_each(events: Events<'_>, out: &mut Vec<Told>) -> Result<(), NoMemory>
    ensures ok { OnOk result (out.new.items ≡ out.old.items ++ events.entry) }
    ensures kept { take (vec_len out.old) out.new.items ≡ out.old.items }
{
    let mut rest = events;
    'events: while let Some(told) = rest.next() {
        out.push(told)?;
    }
    Ok(())
}
