//! What changed between two rising lists of pairs, found by one merge that writes nothing of a pair that stayed.

ghost use Rattle.std.specs.Prelude.{◌≡◌, ◌++◌, true, OnOk};
ghost use Rattle.pair_events.specs.PairEvents.{precedes, rises, same_pair, missing};

use crate::HPair;
use fixed_box::NoMemory;

// Appends the pairs that began and those that are over, in order. After an `Err` there may be some of them.
pub(crate) fn push_changes(
    before: &[HPair],
    now: &[HPair],
    began: &mut Vec<HPair>,
    over: &mut Vec<HPair>,
) -> Result<(), NoMemory>
    requires before { rises before.now ≡ true }
    requires now { rises now.now ≡ true }
    ensures began { OnOk result (began.new.items ≡ began.old.items ++ missing now.now before.now) }
    ensures over { OnOk result (over.new.items ≡ over.old.items ++ missing before.now now.now) }
{
    let mut left = before;
    let mut right = now;
    'merge: while let Some((x, more_left)) = left.split_first() {
        let Some((y, more_right)) = right.split_first() else {
            break;
        };
        if is_same(x, y) {
            left = more_left;
            right = more_right;
        } else if precedes(x, y) {
            over.push(*x)?;
            left = more_left;
        } else if precedes(y, x) {
            began.push(*y)?;
            right = more_right;
        } else {
            // the same slots, under other handles
            over.push(*x)?;
            began.push(*y)?;
            left = more_left;
            right = more_right;
        }
    }
    over.extend_from_slice(left)?;
    began.extend_from_slice(right)?;
    Ok(())
}

fn precedes(p: &HPair, q: &HPair) -> bool
    ensures { result ≡ precedes p.now q.now }
{
    p.a.slot < q.a.slot || (p.a.slot == q.a.slot && p.b.slot < q.b.slot)
}

pub(crate) fn is_same(p: &HPair, q: &HPair) -> bool
    ensures { result ≡ same_pair p.now q.now }
{
    p.a.slot == q.a.slot
        && p.a.generation == q.a.generation
        && p.b.slot == q.b.slot
        && p.b.generation == q.b.generation
}
