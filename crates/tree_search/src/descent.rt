//! A descent from the root with a stack: only below hulls that are met, down to the leaves.

ghost use Rattle.std.specs.Prelude.{◌≡◌, ◌<◌, ◌++◌, Some, OnOk, OnErr, IfOk, IsSome, length, take};
ghost use Rattle.tree_nodes.specs.Tree.{Tree, IsTree, top, view_in, visits_in};
ghost use Rattle.broad_index.specs.declared.query.Query.{Query};
ghost use Rattle.broad_index.specs.declared.query.Query.TheVariants.{Region};
ghost use Rattle.broad_index.specs.Found.{found_of};
ghost use Rattle.broad_index.specs.Members.{meets_query};
ghost use Rattle.tree_search.specs.Descent.{Laws, met_in, found_at};
ghost use Rattle.tree_search.specs.Exact.{exact_in, IsInside};
ghost use Rattle.tree_search.specs.Group.{BoxLaws};
ghost use Rattle.tree_search.specs.Visits.{visits_by_in};
ghost use Rattle.tree_search.specs.declared.waiting.TheConstants.{MOST_WAITING};

use crate::BoxedTree;
use crate::waiting::Waiting;
use fixed_box::{FBox, NoMemory, box_laws};
use prepared_query::{BoxTest, enclosing_law};
use tree_nodes::{Nodes, Role, tree_laws};

// Appends the slots of leaves whose exact boxes meet a query, and answers how many nodes it looked at. After an `Err` there may be
// some of them. It passes by what stands below a hull that the query misses. It is compiled for each kind of test, so that no kind is told apart on the way.
pub(crate) fn descend<T: BoxTest>(
    boxes: &BoxedTree,
    test: &T,
    out: &mut Vec<u32>,
) -> Result<u32, NoMemory>
    ensures ok { OnOk result (out.new.items ≡ out.old.items ++ found_of (exact_in boxes.now.bodies boxes.now.tree) (T.asks test.now)) }
    ensures err { OnErr result (take (length out.old.items) out.new.items ≡ out.old.items) }
    ensures count { IfOk result (λ n. n ≡ visits_by_in boxes.now.tree (T.asks test.now)) }
{
    boxes.boxed_law();
    match boxes.root() {
        None => Ok(0),
        Some(root) => walk(boxes.nodes(), boxes.bodies(), root, test, out),
    }
}

/// Appends the slots whose boxes meet one, in the order of the leaves, and answers how many nodes the descent looked at: the
/// top, and the children of each node whose hull meets the box.
pub fn descend_with_box(
    boxes: &BoxedTree,
    region: &FBox,
    out: &mut Vec<u32>,
) -> Result<u32, NoMemory>
    ensures ok { OnOk result (out.new.items ≡ out.old.items ++ found_of (exact_in boxes.now.bodies boxes.now.tree) (Region region.now)) }
    ensures count { IfOk result (λ n. n ≡ visits_in boxes.now.tree region.now) }
{
    box_laws();
    descend(boxes, region, out)
}

// The same from the root on. A node is asked, and counted, with its sibling as their parent is opened: one that is missed
// never waits.
fn walk<T: BoxTest>(
    nodes: &Nodes,
    bodies: &[Option<FBox>],
    root: usize,
    test: &T,
    out: &mut Vec<u32>,
) -> Result<u32, NoMemory>
    requires { (t : Tree) × (nodes.now ≡ Some t) × (root ≡ top t) × IsTree t × IsInside bodies.now t }
    ensures ok { OnOk result (out.new.items ≡ out.old.items ++ found_of (exact_in bodies.now nodes.now) (T.asks test.now)) }
    ensures err { OnErr result (take (length out.old.items) out.new.items ≡ out.old.items) }
    ensures count { IfOk result (λ n. n ≡ visits_by_in nodes.now (T.asks test.now)) }
{
    descent_law();
    let mut waiting = Waiting::none(nodes.node(root));
    ask(nodes, root, test, &mut waiting);
    let mut count = 1u32;
    'walk: while let Some(node) = waiting.pop() {
        match node.role {
            Role::Leaf { slot } => {
                push_found(bodies, slot, test, out)?;
            }
            Role::Inner {
                left,
                right,
                height: _,
            } => {
                count += 2;
                // the left one comes first
                ask(nodes, right as usize, test, &mut waiting);
                ask(nodes, left as usize, test, &mut waiting);
            }
        }
    }
    Ok(count)
}

// A law for proofs, with nothing to run: what a descent rests on.
pub(crate) fn descent_law()
    ensures { (query : Query) → Laws query }
{
    box_laws();
    tree_laws();
    enclosing_law();
}

// A law for proofs, with nothing to run: what a descent with a group rests on.
pub(crate) fn box_law()
    ensures { BoxLaws }
{
    box_laws();
    descent_law();
}

// Lets a node wait if the query meets its hull, or its fat box. As it is as likely to be either, it is written in any case,
// and no branch has to be guessed.
#[inline]
fn ask<'a, T: BoxTest>(nodes: &'a Nodes, at: usize, test: &T, waiting: &mut Waiting<'a>)
    requires room { length waiting.old < MOST_WAITING }
    requires shown { IsSome (view_in nodes.now at) }
    ensures { waiting.new ≡ waiting.old ++ met_in (T.asks test.now) (view_in nodes.now at) }
{
    let node = nodes.node(at);
    waiting.push_if(node, test.meets(&node.bounds));
}

// Appends a slot whose exact box is met. Its fat box was asked first.
fn push_found<T: BoxTest>(
    bodies: &[Option<FBox>],
    slot: u32,
    test: &T,
    out: &mut Vec<u32>,
) -> Result<(), NoMemory>
    requires { slot < length bodies.now }
    ensures ok { OnOk result (out.new.items ≡ out.old.items ++ found_at bodies.now (T.asks test.now) slot) }
    ensures err { OnErr result (out.new.items ≡ out.old.items) }
{
    if is_found(&bodies[slot as usize], test) {
        out.push(slot)?;
    }
    Ok(())
}

// Whether there is a box, and the query meets it.
fn is_found<T: BoxTest>(body: &Option<FBox>, test: &T) -> bool
    ensures { result ≡ meets_query (T.asks test.now) body.now }
{
    match body {
        Some(body) => test.meets(body),
        None => false,
    }
}
