//! Laws of events for proofs above.

ghost use Rattle.std.specs.Prelude.{◌≡◌, List, [], true, filter};
ghost use Rattle.pair_events.specs.declared.hpair.HPair.{HPair};
ghost use Rattle.pair_events.specs.PairEvents.{events, rises, missing, changes, told_of, is_change};

/// Laws for proofs, with nothing to run. What is told of a frame follows from its pairs, those that began and those that are over,
/// whatever stayed; and these changes are what is told but that a pair stayed. Between a list of pairs and itself there is none.
pub fn change_laws()
    ensures told { (before now : List HPair) → rises now ≡ true → told_of now (missing now before) (missing before now) ≡ events before now }
    ensures changes { (before now : List HPair) → filter is_change (events before now) ≡ changes (missing now before) (missing before now) }
    ensures none { (pairs : List HPair) → missing pairs pairs ≡ [] }
{}
