//! The two ways along a list of endpoints, and what stands behind and ahead of a node on either.

ghost use Rattle.std.specs.Prelude.{◌≡◌, ℕ, List, true, false, Option};
ghost use Rattle.endpoint_list.specs.NodeList.{IsNodeList};
ghost use Rattle.sweep_prune.specs.Ways.{upper, around, nearest, latest, Precedes, Reaches};

use endpoint_list::EndList;

// Which way an endpoint walks along its list: to lower keys or to greater ones.
#[derive(Clone, Copy)]
pub(crate) enum Direction {
    Down,
    Up,
}

impl Direction {
    // The node right ahead of a present one.
    #[inline(always)]
    pub(crate) fn ahead(self, list: &EndList, node: u32) -> Option<u32>
        requires { (back : List ℕ) × (front : List ℕ) × (list.now ≡ around self back node front) }
        ensures ahead { (back front : List ℕ) → list.now ≡ around self back node front → result ≡ nearest self front }
        ensures list { IsNodeList list.now }
    {
        match self {
            Direction::Down => list.prev(node),
            Direction::Up => list.next(node),
        }
    }

    // The node right behind a present one.
    #[inline(always)]
    pub(crate) fn behind(self, list: &EndList, node: u32) -> Option<u32>
        requires { (back : List ℕ) × (front : List ℕ) × (list.now ≡ around self back node front) }
        ensures { (back front : List ℕ) → list.now ≡ around self back node front → result ≡ latest self back }
    {
        match self {
            Direction::Down => list.next(node),
            Direction::Up => list.prev(node),
        }
    }

    // Whether another key lies ahead of a key.
    #[inline(always)]
    pub(crate) fn precedes(self, key: u64, other: u64) -> bool
        ensures yes { result ≡ true → Precedes self key other }
        ensures no { result ≡ false → Reaches self other key }
    {
        match self {
            Direction::Down => other < key,
            Direction::Up => key < other,
        }
    }

    // Of what stands behind a node and ahead of it, that which comes later in the list.
    #[inline(always)]
    pub(crate) fn upper(self, behind: Option<u32>, ahead: Option<u32>) -> Option<u32>
        ensures { result ≡ upper self behind ahead }
    {
        match self {
            Direction::Down => behind,
            Direction::Up => ahead,
        }
    }
}
