//! The path from the root to a node, by the parents that are kept or else by a search.

ghost use Rattle.std.specs.Prelude.{true, ◌≡◌, ℕ, []};
ghost use Rattle.tree_nodes.specs.Path.{Leads, ToSearch, PathFound};
ghost use Rattle.tree_nodes.specs.Tree.{Tree, view_at};
ghost use Rattle.fixed_box.specs.Bounds.{Bounds};
ghost use Rattle.tree_nodes.specs.declared.path.TheConstants.{PATH_ROOM};
ghost use Rattle.tree_nodes.specs.declared.node_view.NodeView.TheVariants.{Leaf as LeafNode};

use crate::laws::tree_laws;
use crate::linked_nodes::LinkedNodes;
use crate::{MOST_HEIGHT, NodeView};
use fixed_box::FBox;
use smallvec::SmallVec;

// How many node numbers a path keeps in place: one for each level below the root.
const PATH_ROOM: usize = MOST_HEIGHT as usize;

// Node numbers on the way between the root and a leaf.
pub(crate) type Path = SmallVec<usize, PATH_ROOM>;

impl LinkedNodes {
    // The path from the root to a leaf: the noted one where it leads there, else the one that a search finds.
    pub(crate) fn path_to(&self, root: usize, node: usize, path: &mut Path)
        requires tree { (t : Tree) × ToSearch self.now root t ×
            (s : ℕ) × (b : Bounds) × (view_at t node ≡ Some (LeafNode s b)) }
        requires empty { path.old.items ≡ [] }
        requires room { path.old.capacity ≡ PATH_ROOM }
        ensures { (t : Tree) (s : ℕ) (b : Bounds) → ToSearch self.now root t → view_at t node ≡ Some (LeafNode s b) →
            Leads t path.new.items node }
    {
        self.follow_parents(root, node, path);
        if self.leads_to(root, node, path.as_slice()) {
            return;
        }
        path.clear();
        if let NodeView::Leaf { slot: _, fat } = self.view(node) {
            self.find_path(root, node, &fat, path);
            path.as_mut_slice().reverse();
        }
    }

    // The path down to a node, as the noted parents tell it.
    fn follow_parents(&self, root: usize, node: usize, path: &mut Path)
        requires empty { path.old.items ≡ [] }
        requires room { path.old.capacity ≡ PATH_ROOM }
        ensures capacity { path.new.capacity ≡ path.old.capacity }
    {
        let mut at = node;
        'follow_parents: while at != root && path.len() < MOST_HEIGHT as usize {
            path.push_reserved(at);
            at = match self.kin_of(at) {
                Some(kin) => kin.parent(),
                None => root,
            };
        }
        path.as_mut_slice().reverse();
    }

    // Whether a path leads down to a leaf.
    fn leads_to(&self, at: usize, node: usize, path: &[usize]) -> bool
        requires { (t : Tree) × ToSearch self.now at t }
        ensures { (t : Tree) → ToSearch self.now at t → result ≡ true → Leads t path.now node }
    {
        match self.view(at) {
            NodeView::Leaf { slot: _, fat: _ } => {
                if path.is_empty() {
                    return at == node;
                }
                false
            }
            NodeView::Inner {
                left,
                right,
                hull: _,
                height: _,
            } => {
                let [next, rest @ ..] = path else {
                    return false;
                };
                if *next == left {
                    return self.leads_to(left, node, rest);
                }
                if *next == right {
                    return self.leads_to(right, node, rest);
                }
                false
            }
        }
    }

    // Searches a leaf by its box, only below hulls that hold the box. Pushes the path, the leaf first.
    fn find_path(&self, at: usize, node: usize, fat: &FBox, path: &mut Path) -> bool
        requires tree { (t : Tree) × ToSearch self.now at t }
        requires empty { path.old.items ≡ [] }
        requires room { path.old.capacity ≡ PATH_ROOM }
        ensures sought { (t : Tree) → ToSearch self.now at t → PathFound node fat.now t result path.new.items }
        ensures capacity { path.new.capacity ≡ path.old.capacity }
    {
        match self.view(at) {
            NodeView::Leaf { slot: _, fat: _ } => at == node,
            NodeView::Inner {
                left,
                right,
                hull,
                height: _,
            } => {
                // a hull holds the boxes of all leaves below it
                tree_laws();
                if !hull.holds_box(fat) {
                    return false;
                }
                if self.find_path(left, node, fat, path) {
                    path.push_reserved(left);
                    return true;
                }
                if self.find_path(right, node, fat, path) {
                    path.push_reserved(right);
                    return true;
                }
                false
            }
        }
    }
}
