//! Lists copied into a caller's room, as far as it goes.

ghost use Rattle.std.specs.Prelude.{◌≡◌, ◌-◌, length, min, drop};
ghost use Rattle.held_world.specs.Copies.{copied};
ghost use Rattle.held_world.specs.Plain.{handle_out, pair_out, told_out};

use crate::plain::{handle_out, pair_out, told_out};
use crate::{PwHandle, PwPair, PwTold};
use live_table::Handle;
use pair_events::{Events, HPair};

// Copies the handles, as many as there is room for, and answers how many those are.
pub(crate) fn copy_handles(items: &[Handle], out: &mut [PwHandle]) -> usize
    ensures copied { out.new ≡ copied handle_out items.now out.old }
    ensures count { result ≡ min (length items.now) (length out.old) }
{
    let mut rest = items;
    let mut count = 0;
    'copies: while let Some((next, more)) = rest.split_first() {
        if count == out.len() {
            return count;
        }
        out[count] = handle_out(next);
        count += 1;
        rest = more;
    }
    count
}

// Copies the pairs from this number on, as many as there is room for, and answers how many those are.
pub(crate) fn copy_pairs(items: &[HPair], from: usize, out: &mut [PwPair]) -> usize
    ensures copied { out.new ≡ copied pair_out (drop from items.now) out.old }
    ensures count { result ≡ min (length items.now - from) (length out.old) }
{
    let mut rest = items.get(from..).unwrap_or(&[]);
    let mut count = 0;
    'copies: while let Some((next, more)) = rest.split_first() {
        if count == out.len() {
            return count;
        }
        out[count] = pair_out(next);
        count += 1;
        rest = more;
    }
    count
}

// Copies the events from this number on, as many as there is room for, and answers how many those are. It takes a step for each event
// before them too.
pub(crate) fn copy_told(events: Events<'_>, from: usize, out: &mut [PwTold]) -> usize
    ensures copied { out.new ≡ copied told_out (drop from events.entry) out.old }
    ensures count { result ≡ min (length events.entry - from) (length out.old) }
{
    let mut rest = events;
    rest.skip(from);
    let mut count = 0;
    'copies: while count < out.len() {
        let Some(next) = rest.next() else {
            return count;
        };
        out[count] = told_out(&next);
        count += 1;
    }
    count
}
