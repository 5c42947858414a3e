//! The pairs that several searches found, put together.

ghost use Rattle.std.specs.Prelude.{◌≡◌, ◌+◌, ◌-◌, ◌^◌, ◌++◌, min, sum, map, IfOk, OnOk, OnErr};
ghost use Rattle.work_pieces.specs.Runs.{put_together};
ghost use Rattle.broad_index.specs.declared.pair.Pair.{Pair};
ghost use Rattle.broad_index.specs.Members.{has_pair};
ghost use Rattle.broad_index.specs.Touched.{ordered_pairs};

use crate::Pair;
use fixed_box::NoMemory;
use slot_lists::push_mapped;

/// Appends a slot with each of a list, the lower one first. After an `Err` `out` is as before.
pub fn push_ordered_pairs(slot: u32, slots: &[u32], out: &mut Vec<Pair>) -> Result<(), NoMemory>
    ensures ok { OnOk result (out.new.items ≡ out.old.items ++ ordered_pairs slot slots.now) }
    ensures err { OnErr result (out.new.items ≡ out.old.items) }
{
    push_mapped(slots, out, |other| Pair::ordered(slot, *other))
}

/// Replaces a list by the pairs of several searches, and answers a number raised by what these cost, as far as 64 bits go.
///
/// std's stable sort puts the pairs in rising order, some perhaps twice: no clause speaks of the order. It merges lists that
/// rise, in O(n log k) for n pairs of k lists. After an `Err` the list may have any pairs.
pub fn join_pieces(
    pieces: &[(Vec<Pair>, u64)],
    looked: u64,
    out: &mut Vec<Pair>,
) -> Result<u64, NoMemory>
    ensures members { OnOk result ((p : Pair) → has_pair out.new.items p ≡ has_pair (put_together (map (λ piece. piece.0.items) pieces.now)) p) }
    ensures count { IfOk result (λ n. n ≡ min (looked + sum (map (λ piece. piece.1) pieces.now)) (2 ^ 64 - 1)) }
{
    out.clear();
    let number = push_pieces(pieces, looked, out)?;
    // it merges what rises
    out.sort()?;
    Ok(number)
}

// Appends the pairs of all pieces, and answers a number raised by what they cost.
fn push_pieces(
    pieces: &[(Vec<Pair>, u64)],
    looked: u64,
    out: &mut Vec<Pair>,
) -> Result<u64, NoMemory>
    ensures ok { OnOk result (out.new.items ≡ out.old.items ++ put_together (map (λ piece. piece.0.items) pieces.now)) }
    ensures count { IfOk result (λ n. n ≡ min (looked + sum (map (λ piece. piece.1) pieces.now)) (2 ^ 64 - 1)) }
{
    let mut number = looked;
    let mut rest = pieces;
    'pieces: while let [(pairs, cost), more @ ..] = rest {
        out.extend_from_slice(pairs)?;
        number = number.saturating_add(*cost);
        rest = more;
    }
    Ok(number)
}
