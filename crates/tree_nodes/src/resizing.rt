//! A leaf whose box grows or shrinks in its place: hulls are refitted up to the first that stays.

ghost use Rattle.std.specs.Prelude.{◌≡◌, ◌⊎◌, ℕ, ◌≤◌, true, false};
ghost use Rattle.fixed_box.specs.Bounds.{Bounds};
ghost use Rattle.tree_nodes.specs.Resized.{resized, Raises};
ghost use Rattle.tree_nodes.specs.Stored.{Holds, Sound, KeepsKeys};
ghost use Rattle.tree_nodes.specs.Tree.{Tree, top, count_of};
ghost use Rattle.tree_nodes.specs.declared.resizing.Above.TheVariants.{Stays, Changes};

use crate::Role;
use crate::linked_nodes::LinkedNodes;
use fixed_box::FBox;

// What becomes of a node where one of its children gets other bounds.
enum Above {
    // Its hull stays.
    Stays,
    // The parent gets another hull.
    Changes { parent: usize, hull: FBox },
    // No node is noted that has this child.
    Unknown,
}

impl LinkedNodes {
    // Gives a node other bounds, and refits the nodes above it, up to one whose hull stays. It follows the noted parents, and
    // writes nothing before it stands at such a node or at the root: where they don't lead there, it answers false.
    pub(crate) fn resize(&mut self, root: usize, at: usize, bounds: &FBox, levels: u8) -> bool
        requires { (t : Tree) × Sound self.old t × (top t ≡ root) × (1 ≤ count_of t at) }
        ensures resized { (t : Tree) → Sound self.old t → top t ≡ root → 1 ≤ count_of t at → result ≡ true →
            Holds self.new (resized at bounds.now t) }
        ensures refused { result ≡ false → self.new ≡ self.old }
        ensures keys { KeepsKeys self.old self.new }
    {
        if at == root {
            self.write_bounds(at, bounds);
            return true;
        }
        match self.change_above(at, bounds) {
            Above::Stays => {
                self.write_bounds(at, bounds);
                true
            }
            Above::Changes { parent, hull } => {
                if levels == 0 {
                    return false;
                }
                if !self.resize(root, parent, &hull, levels - 1) {
                    return false;
                }
                self.write_bounds(at, bounds);
                true
            }
            Above::Unknown => false,
        }
    }

    // The noted parent of a node that gets other bounds, where it has this child and the noted sibling, and its hull then.
    fn change_above(&self, at: usize, bounds: &FBox) -> Above
        requires { (t : Tree) × Sound self.now t }
        ensures stays { (t : Tree) → Sound self.now t → result ≡ Stays →
            (parent : ℕ) × (hull : Bounds) × Raises t at parent bounds.now hull hull }
        ensures changes { (t : Tree) (parent : ℕ) (raised : Bounds) → Sound self.now t → result ≡ Changes parent raised →
            (hull : Bounds) × Raises t at parent bounds.now hull raised }
    {
        let Some(own) = self.kin_of(at) else {
            return Above::Unknown;
        };
        // Both are read at once: the sibling needn't wait for the parent to tell its number.
        let parent = own.parent();
        let sibling = own.sibling();
        let Some(node) = self.get(parent) else {
            return Above::Unknown;
        };
        let Role::Inner {
            left,
            right,
            height: _,
        } = node.role
        else {
            return Above::Unknown;
        };
        if are_children(left as usize, right as usize, at, sibling) {
            // Either may stand left: a union is the same both ways.
            let raised = bounds.union(&self.bounds_at(sibling));
            return change_of(parent, &node.bounds, &raised);
        }
        Above::Unknown
    }
}

// Whether two nodes are the children of a node, in either order. As it is as likely to be either, both are asked without a
// branch.
#[inline]
fn are_children(left: usize, right: usize, at: usize, sibling: usize) -> bool
    ensures { result ≡ true → ((left ≡ at) × (right ≡ sibling)) ⊎ ((right ≡ at) × (left ≡ sibling)) }
{
    let first = (left == at) & (right == sibling);
    let second = (right == at) & (left == sibling);
    first | second
}

// Whether the hull that a parent gets is another one.
#[inline]
fn change_of(parent: usize, hull: &FBox, raised: &FBox) -> Above
    ensures stays { result ≡ Stays → raised.now ≡ hull.now }
    ensures changes { (p : ℕ) (h : Bounds) → result ≡ Changes p h → (p ≡ parent) × (h ≡ raised.now) }
{
    if raised == hull {
        return Above::Stays;
    }
    Above::Changes {
        parent,
        hull: *raised,
    }
}
