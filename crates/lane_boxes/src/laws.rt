//! Laws of lists that stand beside the columns, with nothing to run.

ghost use Rattle.std.specs.Prelude.{◌≡◌, ℕ, Bool, ◌+◌, ◌<◌, ◌≤◌, List, [], ◌∷◌, ◌++◌, length, map, filter, drop, zip, All};
ghost use Rattle.std.specs.Prelude.{insert, remove, swap_remove, slice_set, slice_index_or};
ghost use Rattle.fixed_box.specs.Bounds.{Bounds};
ghost use Rattle.lane_boxes.specs.Places.{places};

/// What the places of a scan are to a list that is kept beside the boxes, as one of their slots. It does nothing.
pub fn place_laws()
    ensures within { (test : Bounds → Bool) (from : ℕ) (boxes : List Bounds)
        → All (λ k. k < from + length boxes) (places test from boxes) }
    ensures slots { (test : Bounds → Bool) (from : ℕ) (slots : List ℕ) (boxes : List Bounds) → length slots ≡ length boxes
        → map (λ k. slice_index_or slots k 0) (places test from (drop from boxes))
        ≡ map (λ e. e.0) (filter (λ e. test e.1) (drop from (zip slots boxes))) }
{}

/// How slots and the boxes beside them change together. It does nothing.
pub fn beside_laws()
    ensures pushed { (slots : List ℕ) (boxes : List Bounds) (slot : ℕ) (body : Bounds) → length slots ≡ length boxes
        → zip (slots ++ slot ∷ []) (boxes ++ body ∷ []) ≡ zip slots boxes ++ (slot, body) ∷ [] }
    ensures inserted { (slots : List ℕ) (boxes : List Bounds) (at slot : ℕ) (body : Bounds) → length slots ≡ length boxes
        → zip (insert slots at slot) (insert boxes at body) ≡ insert (zip slots boxes) at (slot, body) }
    ensures set { (slots : List ℕ) (boxes : List Bounds) (at : ℕ) (body : Bounds) → length slots ≡ length boxes
        → zip slots (slice_set boxes at body) ≡ slice_set (zip slots boxes) at (slice_index_or slots at 0, body) }
    ensures removed { (slots : List ℕ) (boxes : List Bounds) (at : ℕ) → length slots ≡ length boxes
        → zip (remove slots at) (remove boxes at) ≡ remove (zip slots boxes) at }
    ensures swapped { (slots : List ℕ) (boxes : List Bounds) (at slot : ℕ) (body : Bounds) → length slots ≡ length boxes
        → zip (swap_remove slots at slot) (swap_remove boxes at body) ≡ swap_remove (zip slots boxes) at (slot, body) }
{}
