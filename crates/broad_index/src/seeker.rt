//! A search for what one box overlaps, that several threads may make at once.

ghost use Rattle.std.specs.Prelude.{◌≡◌, ℕ, ◌++◌, true, Option, OnOk, OnErr, IfOk, IfSome};
ghost use Rattle.std.specs.Ordering.{nat_cmp};
ghost use Rattle.std.specs.FinMap as map;
ghost use Rattle.fixed_box.specs.Bounds.{Bounds};
ghost use Rattle.broad_index.specs.Reach.{reach};

use fixed_box::NoMemory;

/// An index of boxes under slots that can be searched from several threads at once, since a search changes nothing.
pub trait Seeker {
    /// The present slots, each with its box.
    ghost bodies: { Self → map.FinMap nat_cmp Bounds };

    /// The cost of each present slot, where it is told.
    ghost costs: { Self → Option (ℕ → ℕ) };

    /// Appends the other present slots whose boxes meet this one's, in rising order, and answers what the search cost.
    /// After an `Err` `out` is as before.
    fn seek(&self, slot: u32, out: &mut Vec<u32>) -> Result<u32, NoMemory>
        requires present { map.contains_key (bodies self.now) slot ≡ true }
        ensures ok { OnOk result (out.new.items ≡ out.old.items ++ reach (bodies self.now) slot) }
        ensures cost { IfOk result (λ number. IfSome (costs self.now) (λ cost. number ≡ cost slot)) }
        ensures err { OnErr result (out.new.items ≡ out.old.items) };
}
