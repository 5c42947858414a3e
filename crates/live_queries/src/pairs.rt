//! The pairs of live boxes that meet and may pair: the filter behind the broad phase.

ghost use Rattle.std.specs.Prelude.{◌≡◌, ◌==◌, ◌&&◌, ◌++◌, true, OnOk, OnErr};
ghost use Rattle.std.specs.List.{filter_map};
ghost use Rattle.live_table.specs.Bodies.{bodies_of};
ghost use Rattle.live_table.specs.Table.{IsTable};
ghost use Rattle.broad_index.specs.Near.{near, precedes, rises as slots_rise};
ghost use Rattle.pair_events.specs.PairEvents.{is_in_order, missing, rises};
ghost use Rattle.live_queries.specs.InHandles.{touching, slots_in, AreCurrent};
ghost use Rattle.live_queries.specs.Pairs.{pairs_of};

use broad_index::{Pair, member_laws};
use fixed_box::NoMemory;
use live_table::{LiveTable, may_pair};
use pair_events::HPair;
use slot_lists::push_filter_mapped;

/// Appends the pairs of live boxes that meet and may pair, in handles, of the pairs of slots that an index of the live boxes
/// has: by the slot of the first, and then by that of the second. After an `Err` `out` is as before.
///
/// It looks two boxes up for each pair of slots, and takes memory for the pairs alone. `pairs_law` says what a list of
/// pairs is like.
pub fn push_pairs(table: &LiveTable, pairs: &[Pair], out: &mut Vec<HPair>) -> Result<(), NoMemory>
    requires table { IsTable table.now }
    requires near { pairs.now ≡ near (bodies_of table.now.entries) }
    ensures ok { OnOk result (out.new.items ≡ out.old.items ++ pairs_of table.now.entries) }
    ensures err { OnErr result (out.new.items ≡ out.old.items) }
{
    push_touching(table, pairs, out)
}

/// Appends what `push_pairs` does, and what changed since a frame after which boxes only moved and came: the pairs that began, and
/// those of `last` that are over. `last` has the pairs of that frame, in order.
///
/// It is one merge of `last` with the pairs of slots, which writes nothing of a pair that stays: these are copied in runs. Two boxes
/// are looked up for each pair of slots alone that `last` hasn't. After an `Err` there may be some of each.
pub fn push_pairs_and_changes(
    table: &LiveTable,
    pairs: &[Pair],
    last: &[HPair],
    now: &mut Vec<HPair>,
    began: &mut Vec<HPair>,
    over: &mut Vec<HPair>,
) -> Result<(), NoMemory>
    requires table { IsTable table.now }
    requires near { pairs.now ≡ near (bodies_of table.now.entries) }
    requires current { AreCurrent table.now.entries last.now }
    requires order { is_in_order last.now ≡ true }
    ensures now { OnOk result (now.new.items ≡ now.old.items ++ pairs_of table.now.entries) }
    ensures began { OnOk result (began.new.items ≡ began.old.items ++ missing (pairs_of table.now.entries) last.now) }
    ensures over { OnOk result (over.new.items ≡ over.old.items ++ missing last.now (pairs_of table.now.entries)) }
{
    member_laws();
    merge_changes(table, pairs, last, now, began, over)
}

// Appends those pairs of an index that may pair, in handles, and how they differ from the last ones.
fn merge_changes(
    table: &LiveTable,
    pairs: &[Pair],
    last: &[HPair],
    now: &mut Vec<HPair>,
    began: &mut Vec<HPair>,
    over: &mut Vec<HPair>,
) -> Result<(), NoMemory>
    requires pairs { slots_rise pairs.now ≡ true }
    requires current { AreCurrent table.now.entries last.now }
    requires order { rises last.now ≡ true }
    ensures now { OnOk result (now.new.items ≡ now.old.items ++ filter_map (touching table.now.entries) pairs.now) }
    ensures began { OnOk result (began.new.items ≡ began.old.items ++ missing (filter_map (touching table.now.entries) pairs.now) last.now) }
    ensures over { OnOk result (over.new.items ≡ over.old.items ++ missing last.now (filter_map (touching table.now.entries) pairs.now)) }
{
    // what the run has before what is left stays, and isn't copied yet
    let mut run = last;
    let mut left = last;
    let mut rest = pairs;
    'pairs: while let Some((pair, more)) = rest.split_first() {
        if let Some((first, later)) = left.split_first() {
            if is_of(first, pair) {
                left = later;
                rest = more;
                continue;
            }
            if precedes(first, pair) {
                now.extend_from_slice(&run[..run.len() - left.len()])?;
                over.push(*first)?;
                run = later;
                left = later;
                continue;
            }
        }
        if let Some(found) = touching(table, pair) {
            now.extend_from_slice(&run[..run.len() - left.len()])?;
            now.push(found)?;
            began.push(found)?;
            run = left;
        }
        rest = more;
    }
    now.extend_from_slice(&run[..run.len() - left.len()])?;
    over.extend_from_slice(left)?;
    Ok(())
}

// Whether a pair of boxes is that of two slots.
fn is_of(boxes: &HPair, pair: &Pair) -> bool
    ensures { result ≡ (boxes.now.a.slot == pair.now.a && boxes.now.b.slot == pair.now.b) }
{
    boxes.a.slot == pair.a && boxes.b.slot == pair.b
}

// Whether a pair of boxes stands before that of two slots.
fn precedes(boxes: &HPair, pair: &Pair) -> bool
    ensures { result ≡ precedes (slots_in boxes.now) pair.now }
{
    boxes.a.slot < pair.a || (boxes.a.slot == pair.a && boxes.b.slot < pair.b)
}

// Appends those pairs of an index that may pair, in handles. After an `Err` `out` is as before.
fn push_touching(table: &LiveTable, pairs: &[Pair], out: &mut Vec<HPair>) -> Result<(), NoMemory>
    ensures ok { OnOk result (out.new.items ≡ out.old.items ++ filter_map (touching table.now.entries) pairs.now) }
    ensures err { OnErr result (out.new.items ≡ out.old.items) }
{
    push_filter_mapped(pairs, out, |pair| touching(table, pair))
}

// The pair of two slots, where both are live and may pair.
fn touching(table: &LiveTable, pair: &Pair) -> Option<HPair>
    ensures { result ≡ touching table.now.entries pair.now }
{
    let a = table.at(pair.a)?;
    let b = table.at(pair.b)?;
    if may_pair(&a, &b) {
        Some(HPair {
            a: a.handle,
            b: b.handle,
        })
    } else {
        None
    }
}
