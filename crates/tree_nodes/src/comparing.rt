//! What is asked of nodes on the way down and up: which of two children is nearer to a box or lower, and whether a node changed.

ghost use Rattle.std.specs.Prelude.{◌≡◌, ◌<◌, ◌^◌, ◌⊎◌, false};
ghost use Rattle.tree_nodes.specs.Insertion.{IsSame};
ghost use Rattle.tree_nodes.specs.Rotation.{lower, higher};
ghost use Rattle.tree_nodes.specs.Stored.{StandsAt};
ghost use Rattle.tree_nodes.specs.Tree.{Tree, top};

use crate::linked_nodes::LinkedNodes;
use fixed_box::FBox;

impl LinkedNodes {
    // Of two trees the one whose centre lies nearer to that of a box, and the other: the sum of the distances on the three axes
    // decides, as in the dynamic tree of the Bullet engine. It is cheaper to tell than growth.
    pub(crate) fn by_distance(&self, left: usize, right: usize, fat: &FBox) -> (usize, usize)
        requires { (f g : Tree) × StandsAt self.now left f × StandsAt self.now right g }
        ensures { (result ≡ (left, right)) ⊎ (result ≡ (right, left)) }
    {
        if distance(&self.bounds_at(left), fat) <= distance(&self.bounds_at(right), fat) {
            (left, right)
        } else {
            (right, left)
        }
    }

    // The lower of two trees, and the higher.
    pub(crate) fn by_height(&self, left: usize, right: usize) -> (usize, usize)
        requires { (f g : Tree) × StandsAt self.now left f × StandsAt self.now right g }
        ensures { (f g : Tree) → StandsAt self.now left f → StandsAt self.now right g →
            result ≡ (top (lower f g), top (higher f g)) }
    {
        if self.height_at(left) < self.height_at(right) {
            (left, right)
        } else {
            (right, left)
        }
    }

    // Whether the node under a number has another number, hull or height than these.
    pub(crate) fn is_other(&self, top: usize, at: usize, hull: &FBox, height: u8) -> bool
        requires { (t : Tree) × StandsAt self.now top t }
        ensures { (t : Tree) → StandsAt self.now top t → result ≡ false → IsSame t at hull.now height }
    {
        if top != at {
            return true;
        }
        if self.height_at(top) != height {
            return true;
        }
        self.bounds_at(top) != *hull
    }
}

// Twice the distance of two boxes' centres, summed over the axes.
fn distance(a: &FBox, b: &FBox) -> u64
    ensures { result < 2 ^ 40 }
{
    let (p, q) = (a.lo(), a.hi());
    let (r, s) = (b.lo(), b.hi());
    apart(p.x, q.x, r.x, s.x) + apart(p.y, q.y, r.y, s.y) + apart(p.z, q.z, r.z, s.z)
}

// Twice the distance of the middles of two intervals.
fn apart(a: i32, b: i32, c: i32, d: i32) -> u64
    ensures { result < 2 ^ 36 }
{
    let first = i64::from(a) + i64::from(b);
    let second = i64::from(c) + i64::from(d);
    first.abs_diff(second)
}
