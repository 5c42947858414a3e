//! The first so many members of a list in rising order, chosen before they are sorted.

ghost use Rattle.std.specs.Prelude.{◌≡◌, ◌+◌, ◌<◌, ◌≤◌, ◌++◌, min, take, length, vec_len, vec_capacity};
ghost use Rattle.std.specs.Prelude.{OnOk, OnErr, IsOk, List};
ghost use Rattle.ordered_lists.specs.Ordered.{ordered_by, TiesAreOne, IsFront};

use std::alloc::AllocError;

/// Appends the first `want` members in rising order, or all if there are fewer. Those are chosen before they are
/// sorted, so that it takes about `n + want log want` comparisons. Afterwards `items` is in no stated order.
///
/// Without room for so many more in `out` it asks for memory; where there is none, `out` is as before.
pub fn push_front_in_order<T: Ord + Copy>(
    items: &mut [T],
    want: usize,
    out: &mut Vec<T>,
) -> Result<(), AllocError>
    ensures ok { TiesAreOne T.cmp items.old →
        OnOk result (out.new.items ≡ out.old.items ++ take want (ordered_by T.cmp items.old)) }
    ensures front { OnOk result ((front : List T) × IsFront T.cmp want items.old front
        × (out.new.items ≡ out.old.items ++ front)) }
    ensures len { OnOk result (vec_len out.new ≡ vec_len out.old + min want (length items.old)) }
    ensures err { OnErr result (out.new.items ≡ out.old.items) }
    ensures reserved { vec_len out.old + min want (length items.old) ≤ vec_capacity out.old → IsOk result }
{
    if want < items.len() {
        out.extend_from_slice(choose_front(items, want))
    } else {
        items.sort_unstable();
        out.extend_from_slice(items)
    }
}

// The first `want` of more members, in rising order.
fn choose_front<T: Ord>(items: &mut [T], want: usize) -> &mut [T]
    requires { want < length items.old }
    ensures front { IsFront T.cmp want items.old result.now }
    ensures len { length result.now ≡ want }
{
    let (front, _, _) = items.select_nth_unstable(want);
    front.sort_unstable();
    front
}
