//! A list put in rising order by std's unstable sort.

ghost use Rattle.std.specs.Prelude.{◌≡◌, vec_capacity};
ghost use Rattle.std.specs.List.Sorted.{IsPermutation, IsSorted};
ghost use Rattle.ordered_lists.specs.Ordered.{ordered_by, TiesAreOne};

use std::alloc::AllocError;

/// Puts members in rising order. Where different members never tie that is one list; else those that tie may change
/// places. It takes no memory, and about `n log n` comparisons.
pub fn put_in_order<T: Ord>(items: &mut Vec<T>)
    ensures ordered { TiesAreOne T.cmp items.old.items → items.new.items ≡ ordered_by T.cmp items.old.items }
    ensures members { IsPermutation items.old.items items.new.items }
    ensures rising { IsSorted T.cmp items.new.items }
    ensures capacity { vec_capacity items.new ≡ vec_capacity items.old }
{
    items.sort_unstable();
}
