//! The stack of a descent, of fixed size and on the frame.

ghost use Rattle.std.specs.Prelude.{◌≡◌, ◌<◌, ◌++◌, [], ◌∷◌, None, length, option_map, option_to_list, if◌then◌else◌};
ghost use Rattle.tree_nodes.specs.Shown.{shown};
ghost use Rattle.tree_search.specs.declared.waiting.TheConstants.{MOST_WAITING};

use std::marker::Model;
use tree_nodes::{MOST_HEIGHT, Node};

// How many nodes may wait: one for each level, since the higher one stands, the fewer came before it.
pub(crate) const MOST_WAITING: usize = MOST_HEIGHT as usize + 1;

/// The nodes that wait in a descent, each of them met: a stack in the walk's own frame, which takes no memory. It holds the
/// nodes themselves, so that none is looked up again as its turn comes.
#[derive(Drop)]
pub(crate) struct Waiting<'a> {
    // Those from `len` on are of no account.
    nodes: [&'a Node; MOST_WAITING],
    len: usize,
}

impl<'a> Model for Waiting<'a> {
    ghost use Rattle.std.specs.Prelude.{◌≤◌, List, map, take};
    ghost use Rattle.tree_nodes.specs.Shown.{shown};
    ghost use Rattle.tree_nodes.specs.declared.node_view.NodeView.{NodeView};
    ghost use Rattle.tree_search.specs.declared.waiting.TheConstants.{MOST_WAITING};

    ghost Value = { List NodeView };

    ghost view = { λ w. map (λ node. shown node.now) (take w.len w.nodes) };

    ghost invariant = { λ w. w.len ≤ MOST_WAITING };
}

impl<'a> Waiting<'a> {
    /// None waits. The node only fills the room.
    pub(crate) fn none(filler: &'a Node) -> Waiting<'a>
        ensures { result ≡ [] }
    {
        Waiting {
            nodes: [filler; MOST_WAITING],
            len: 0,
        }
    }

    /// Where it is to wait, the node waits, and is the first to go.
    #[inline]
    pub(crate) fn push_if(&mut self, node: &'a Node, waits: bool)
        requires { length self.old < MOST_WAITING }
        ensures { self.new ≡ self.old ++ (if waits then shown node.now ∷ [] else []) }
    {
        let at = self.len;
        let nodes = &mut self.nodes[..];
        nodes[at] = node;
        self.len = at + usize::from(waits);
    }

    /// Takes the node that came last.
    pub(crate) fn pop(&mut self) -> Option<&'a Node>
        ensures rest { self.old ≡ self.new ++ option_to_list (option_map (λ node. shown node.now) result) }
        ensures ended { result ≡ None → self.new ≡ [] }
    {
        if self.len == 0 {
            return None;
        }
        self.len -= 1;
        let nodes = &self.nodes[..];
        Some(nodes[self.len])
    }
}
