//! What holds of a list put in order, as laws for proofs, and worked examples of it.

ghost use Rattle.std.specs.Prelude.{◌≡◌, ℕ, ◌+◌, ◌≤◌, Bool, true, false, List, [], ◌∷◌, ◌++◌, map, filter, take, length};
ghost use Rattle.std.specs.List.{All, Contains};
ghost use Rattle.std.specs.List.Sorted.{IsPermutation, IsSorted, IsStable, IsSplitAround};
ghost use Rattle.std.specs.declared.cmp.Ordering.{Ordering};
ghost use Rattle.std.specs.Ordering.{is_lt, on, then_cmp, nat_cmp};
ghost use Rattle.std.specs.Cmp.{IsTotalOrder};
ghost use Rattle.ordered_lists.specs.Ordered.{ordered_by, TiesAreOne, IsFront};

/// Laws of a list put in order, for proofs, with nothing to run: it has the list's members, each as often, rises, and
/// leaves those that tie as they stand; nothing else does. Tests commute with it, orders that agree on the members give
/// one list, and its front is that of the members within a bound, or of those before a member that it is split around.
pub fn order_laws<T>()
    ensures members { (cmp : T → T → Ordering) (xs : List T) → IsPermutation xs (ordered_by cmp xs) }
    ensures len { (cmp : T → T → Ordering) (xs : List T) → length (ordered_by cmp xs) ≡ length xs }
    ensures member { (cmp : T → T → Ordering) (xs : List T) (x : T) → Contains (ordered_by cmp xs) x → Contains xs x }
    ensures rising { (cmp : T → T → Ordering) → IsTotalOrder cmp → (xs : List T) → IsSorted cmp (ordered_by cmp xs) }
    ensures stable { (cmp : T → T → Ordering) → IsTotalOrder cmp → (xs : List T) → IsStable cmp xs (ordered_by cmp xs) }
    ensures only_stable { (cmp : T → T → Ordering) → IsTotalOrder cmp → (xs ys : List T) →
        IsSorted cmp ys → IsStable cmp xs ys → ys ≡ ordered_by cmp xs }
    ensures only { (cmp : T → T → Ordering) → IsTotalOrder cmp → (xs ys : List T) →
        TiesAreOne cmp xs → IsPermutation xs ys → IsSorted cmp ys → ys ≡ ordered_by cmp xs }
    ensures moved { (cmp : T → T → Ordering) → IsTotalOrder cmp → (xs ys : List T) →
        TiesAreOne cmp xs → IsPermutation xs ys → ordered_by cmp ys ≡ ordered_by cmp xs }
    ensures filtered { (cmp : T → T → Ordering) → IsTotalOrder cmp → (p : T → Bool) (xs : List T) →
        filter p (ordered_by cmp xs) ≡ ordered_by cmp (filter p xs) }
    ensures alike { (c d : T → T → Ordering) (xs : List T) →
        ((x y : T) → Contains xs x → Contains xs y → c x y ≡ d x y) → ordered_by c xs ≡ ordered_by d xs }
    ensures joined { (cmp : T → T → Ordering) → IsTotalOrder cmp → (xs ys : List T) →
        All (λ x. All (λ y. is_lt (cmp y x) ≡ false) ys) xs →
        ordered_by cmp (xs ++ ys) ≡ ordered_by cmp xs ++ ordered_by cmp ys }
    ensures split { (cmp : T → T → Ordering) → IsTotalOrder cmp → (front : List T) (x : T) (back : List T) →
        IsSplitAround cmp front x back →
        take (length front + 1) (ordered_by cmp (front ++ x ∷ back)) ≡ ordered_by cmp (front ++ x ∷ []) }
    ensures front { (cmp : T → T → Ordering) → IsTotalOrder cmp → (want : ℕ) (xs front : List T) →
        IsFront cmp want xs front → TiesAreOne cmp xs → front ≡ take want (ordered_by cmp xs) }
    ensures bounded { (cmp : T → T → Ordering) → IsTotalOrder cmp → (p : T → Bool) →
        ((x y : T) → is_lt (cmp y x) ≡ false → p y ≡ true → p x ≡ true) → (want : ℕ) (xs : List T) →
        want ≤ length (filter p xs) → take want (ordered_by cmp xs) ≡ take want (ordered_by cmp (filter p xs)) }
{}

// Numbers with one that stands twice, and places with a tie.
fn order_examples()
    ensures numbers { ordered_by nat_cmp (3 ∷ 1 ∷ 2 ∷ 1 ∷ []) ≡ 1 ∷ 1 ∷ 2 ∷ 3 ∷ [] }
    ensures front { take 3 (ordered_by nat_cmp (3 ∷ 1 ∷ 2 ∷ 1 ∷ [])) ≡ 1 ∷ 1 ∷ 2 ∷ [] }
    ensures ties { ordered_by (on (λ (p : ℕ × ℕ). p.0) nat_cmp) ((4, 7) ∷ (1, 9) ∷ (4, 2) ∷ [])
        ≡ (1, 9) ∷ (4, 7) ∷ (4, 2) ∷ [] }
    ensures broken { ordered_by (then_cmp (on (λ (p : ℕ × ℕ). p.0) nat_cmp) (on (λ (p : ℕ × ℕ). p.1) nat_cmp))
        ((4, 7) ∷ (1, 9) ∷ (4, 2) ∷ []) ≡ (1, 9) ∷ (4, 2) ∷ (4, 7) ∷ [] }
{}
