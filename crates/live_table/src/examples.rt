//! Worked examples of handles and of pairs, computed from the definitions.

ghost use Rattle.std.specs.Prelude.{◌≡◌, None, true, false, [], ◌∷◌, take};
ghost use Rattle.fixed_box.specs.Bounds.{Bounds};
ghost use Rattle.live_table.specs.declared.group.Group.{Group};
ghost use Rattle.live_table.specs.declared.masks.Masks.{Masks};
ghost use Rattle.live_table.specs.Changes.{after_changes};
ghost use Rattle.live_table.specs.Entries.{entry_at, rises};
ghost use Rattle.live_table.specs.Example.{under, handles_of, three_given, two_taken, given_again, four_changes, boxed};
ghost use Rattle.live_table.specs.Pairing.{may};
ghost use Rattle.live_table.specs.Table.{next_handle, after_set_masks};

// Freed slots are given again, the lowest first, under a new generation. An old handle finds none and changes nothing.
fn slots_are_given_again()
    ensures given { (b : Bounds) (m : Masks) (g : Group) → handles_of (three_given b m g) ≡ under 0 0 ∷ under 1 0 ∷ under 2 0 ∷ [] }
    ensures left { (b : Bounds) (m : Masks) (g : Group) → handles_of (two_taken b m g) ≡ under 2 0 ∷ [] }
    ensures next { (b : Bounds) (m : Masks) (g : Group) → next_handle (two_taken b m g) ≡ under 0 1 }
    ensures again { (b : Bounds) (m : Masks) (g : Group) → handles_of (given_again b m g) ≡ under 0 1 ∷ under 1 1 ∷ under 2 0 ∷ [] }
    ensures changes { (b : Bounds) (m : Masks) (g : Group) → after_changes (three_given b m g) (four_changes b m g) ≡ given_again b m g }
    ensures gives { (b : Bounds) (m : Masks) (g : Group) → take 4 (given_again b m g).gives ≡ 2 ∷ 2 ∷ 1 ∷ 0 ∷ [] }
    ensures order { (b : Bounds) (m : Masks) (g : Group) → rises (given_again b m g).entries ≡ true }
    ensures stale { (b : Bounds) (m : Masks) (g : Group) → entry_at (under 1 0) (given_again b m g).entries ≡ None }
    ensures unchanged { (b : Bounds) (m other : Masks) (g : Group) → after_set_masks (given_again b m g) (under 1 0) other ≡ given_again b m g }
{}

// Each of two boxes has to see the other, nobody owns both, and they aren't both fixed.
fn which_boxes_may_pair()
    ensures both { may (boxed 1 2 0 false) (boxed 2 1 0 false) ≡ true }
    ensures one { may (boxed 1 2 0 false) (boxed 2 2 0 false) ≡ false }
    ensures owned { may (boxed 1 1 5 false) (boxed 1 1 5 false) ≡ false }
    ensures others { may (boxed 1 1 5 false) (boxed 1 1 4 false) ≡ true }
    ensures nobodys { may (boxed 1 1 0 false) (boxed 1 1 0 true) ≡ true }
    ensures fixed { may (boxed 1 1 0 true) (boxed 1 1 5 true) ≡ false }
{}
