//! What the clauses of this crate say together, as laws for the proofs of structures.

ghost use Rattle.std.specs.Prelude.{◌≡◌, ℕ, ◌*◌, ◌≤◌, length, Bool, true, false, ◌&&◌, ◌||◌, ◌==◌, List, [], ◌∷◌, ◌++◌, map, filter, Some};
ghost use Rattle.std.specs.List.{zip};
ghost use Rattle.std.specs.List.Sorted.{IsPermutation};
ghost use Rattle.std.specs.Ordering.{nat_cmp};
ghost use Rattle.std.specs.declared.cmp.Ordering.TheVariants.{Less, Equal, Greater};
ghost use Rattle.std.specs.FinMap.{FinMap, entries, get, empty, insert, remove, contains_key, from_entries, len};
ghost use Rattle.fixed_box.specs.Bounds.{Bounds};
ghost use Rattle.fixed_box.specs.declared.TheConstants.{SLOTS};
ghost use Rattle.broad_index.specs.Reach.{reach, reach_of};
ghost use Rattle.broad_index.specs.declared.pair.Pair.{Pair};
ghost use Rattle.broad_index.specs.declared.query.Query.{Query};
ghost use Rattle.broad_index.specs.Exchanges.{passed_by_add, passed_by_shift};
ghost use Rattle.broad_index.specs.Found.{found, found_of};
ghost use Rattle.broad_index.specs.Held.{Holds, apart};
ghost use Rattle.broad_index.specs.Members.{same_pair, has_pair, has_slot, slots_rise, is_near, is_found, is_reached};
ghost use Rattle.broad_index.specs.Near.{near, precedes, rises};
ghost use Rattle.broad_index.specs.PairOrder.{pair_cmp};
ghost use Rattle.broad_index.specs.Searched.{AreReached};
ghost use Rattle.broad_index.specs.Touched.{gathered_with, stays, AreKept, AreMarked, Renewed};

/// Which pairs and slots the lists of a map have, and that a rising list is known by its members. It does nothing.
pub fn member_laws()
    ensures near { (bodies : FinMap nat_cmp Bounds) (p : Pair) → has_pair (near bodies) p ≡ is_near bodies p }
    ensures found { (bodies : FinMap nat_cmp Bounds) (query : Query) (k : ℕ) → has_slot (found bodies query) k ≡ is_found bodies query k }
    ensures reach { (bodies : FinMap nat_cmp Bounds) (slot k : ℕ) → has_slot (reach bodies slot) k ≡ is_reached bodies slot k }
    ensures near_rises { (bodies : FinMap nat_cmp Bounds) → rises (near bodies) ≡ true }
    ensures found_rises { (bodies : FinMap nat_cmp Bounds) (query : Query) → slots_rise (found bodies query) ≡ true }
    ensures reach_rises { (bodies : FinMap nat_cmp Bounds) (slot : ℕ) → slots_rise (reach bodies slot) ≡ true }
    ensures one_rising_pairs { (xs ys : List Pair) → rises xs ≡ true → rises ys ≡ true
        → ((p : Pair) → has_pair xs p ≡ has_pair ys p) → xs ≡ ys }
    ensures one_rising_slots { (xs ys : List ℕ) → slots_rise xs ≡ true → slots_rise ys ≡ true
        → ((k : ℕ) → has_slot xs k ≡ has_slot ys k) → xs ≡ ys }
    ensures is_near { (bodies : FinMap nat_cmp Bounds) (pairs : List Pair) → rises pairs ≡ true
        → ((p : Pair) → has_pair pairs p ≡ is_near bodies p) → pairs ≡ near bodies }
    ensures is_found { (bodies : FinMap nat_cmp Bounds) (query : Query) (slots : List ℕ) → slots_rise slots ≡ true
        → ((k : ℕ) → has_slot slots k ≡ is_found bodies query k) → slots ≡ found bodies query }
    ensures is_reach { (bodies : FinMap nat_cmp Bounds) (slot : ℕ) (slots : List ℕ) → slots_rise slots ≡ true
        → ((k : ℕ) → has_slot slots k ≡ is_reached bodies slot k) → slots ≡ reach bodies slot }
{}

/// What the test by which a list has a pair tells, and what the order by which pairs are sorted and merged does. It does
/// nothing.
pub fn order_laws()
    ensures same { (p q : Pair) → same_pair p q ≡ true → p ≡ q }
    ensures itself { (p : Pair) → same_pair p p ≡ true }
    ensures less { (p q : Pair) → pair_cmp p q ≡ Less → precedes p q ≡ true }
    ensures equal { (p q : Pair) → pair_cmp p q ≡ Equal → p ≡ q }
    ensures greater { (p q : Pair) → pair_cmp p q ≡ Greater → precedes q p ≡ true }
{}

/// What is found among the entries of a map in any order, and how they stay its entries while it changes. As many as the map has are
/// its entries, each once. It does nothing.
pub fn holding_laws()
    ensures found { (bodies : FinMap nat_cmp Bounds) (es : List (ℕ × Bounds)) → Holds bodies es
        → (query : Query) (k : ℕ) → has_slot (found_of es query) k ≡ is_found bodies query k }
    ensures reach { (bodies : FinMap nat_cmp Bounds) (es : List (ℕ × Bounds)) → Holds bodies es
        → (slot : ℕ) (body : Bounds) → get bodies slot ≡ Some body
        → (k : ℕ) → has_slot (reach_of slot (Some body) es) k ≡ is_reached bodies slot k }
    ensures none { Holds empty [] }
    ensures moved { (bodies : FinMap nat_cmp Bounds) (es fs : List (ℕ × Bounds)) → IsPermutation es fs → Holds bodies es → Holds bodies fs }
    ensures pushed { (bodies : FinMap nat_cmp Bounds) (es : List (ℕ × Bounds)) (k : ℕ) (v : Bounds) → Holds bodies es
        → contains_key bodies k ≡ false → Holds (insert bodies k v) (es ++ (k, v) ∷ []) }
    ensures dropped { (bodies : FinMap nat_cmp Bounds) (es : List (ℕ × Bounds)) (k : ℕ) (v : Bounds) → Holds bodies ((k, v) ∷ es)
        → has_slot (map (λ e. e.0) es) k ≡ false → Holds (remove bodies k) es }
    ensures apart { (es : List (ℕ × Bounds)) → apart es ≡ true → Holds (from_entries es) es }
    ensures once { (bodies : FinMap nat_cmp Bounds) (es : List (ℕ × Bounds)) → Holds bodies es → length es ≡ len bodies
        → IsPermutation (entries bodies) es }
{}

/// How pairs that are kept stay right while a map changes, where the slots of each change are marked. It does nothing.
pub fn keeping_laws()
    // A change of one slot changes no pair of others.
    ensures inserted { (bodies : FinMap nat_cmp Bounds) (k : ℕ) (v : Bounds) (p : Pair) → (p.a == k) ≡ false → (p.b == k) ≡ false
        → is_near (insert bodies k v) p ≡ is_near bodies p }
    ensures removed { (bodies : FinMap nat_cmp Bounds) (k : ℕ) (p : Pair) → (p.a == k) ≡ false → (p.b == k) ≡ false
        → is_near (remove bodies k) p ≡ is_near bodies p }
    // Searches of some slots give each pair that has one of them, as its lower or its higher slot.
    ensures touched { (bodies : FinMap nat_cmp Bounds) (rs : List (ℕ × List ℕ)) → AreReached bodies rs → (p : Pair)
        → has_pair (gathered_with rs) p ≡ (is_near bodies p && (has_slot (map (λ r. r.0) rs) p.a || has_slot (map (λ r. r.0) rs) p.b)) }
    ensures renewing { (bodies : FinMap nat_cmp Bounds) (marks : List Bool) (kept : List Pair) (rs : List (ℕ × List ℕ))
        → AreReached bodies rs → AreMarked bodies marks (map (λ r. r.0) rs) → AreKept bodies marks kept
        → Renewed bodies marks kept (gathered_with rs) }
    ensures marked_sought { (bodies : FinMap nat_cmp Bounds) (marks : List Bool) (kept : List Pair) (slots : List ℕ)
        → AreMarked bodies marks slots → AreKept bodies marks kept
        → Renewed bodies marks kept (gathered_with (zip slots (map (reach bodies) slots))) }
    ensures renewed { (bodies : FinMap nat_cmp Bounds) (marks : List Bool) (kept found out : List Pair) → Renewed bodies marks kept found
        → rises out ≡ true → ((p : Pair) → has_pair out p ≡ (has_pair (filter (stays marks) kept) p || has_pair found p)) → out ≡ near bodies }
{}

/// How many exchanges one change makes at most: over three axes each of a box's six endpoints may pass the two of every box.
/// It does nothing.
pub fn exchange_laws()
    ensures added { (bodies : FinMap nat_cmp Bounds) (slot : ℕ) (body : Bounds) → length (entries bodies) ≤ SLOTS
        → passed_by_add bodies slot body ≤ 12 * SLOTS }
    ensures shifted { (bodies : FinMap nat_cmp Bounds) (slot : ℕ) (body : Bounds) → length (entries bodies) ≤ SLOTS
        → passed_by_shift bodies slot body ≤ 12 * SLOTS }
{}
