//! Tests of the tree of nodes: shapes, rotations, rebuilds and what is shown.

ghost use Rattle.std.specs.Prelude.{◌≡◌, ◌+◌, ◌<◌, ℕ, IsSome};
ghost use Rattle.fixed_box.specs.Bounds.{Bounds};
ghost use Rattle.structure_tests.specs.Filled.{IsFilled};
ghost use Rattle.tree_nodes.specs.Tree.{view_in};
ghost use Rattle.tree_nodes.specs.declared.node_view.NodeView.TheVariants.{Leaf as LeafNode};

use fixed_box::{FBox, Point, SLOTS};
use std::process::Abort;
use std::test::Fail;
use tree_nodes::{MOST_HEIGHT, NodeView, Nodes};

// The flat box at a point of the x axis.
fn flat(x: i32) -> Option<FBox> {
    let at = Point { x, y: 0, z: 0 };
    FBox::new(at, at)
}

// Puts a box under the next slot.
fn add_next(nodes: &mut Nodes, slot: u32, fat: FBox) -> usize
    requires filled { IsFilled nodes.old slot }
    requires few { slot < SLOTS }
    ensures filled { IsFilled nodes.new (slot + 1) }
    ensures leaf { view_in nodes.new result ≡ Some (LeafNode slot fat) }
    ensures others { (other s : ℕ) (b : Bounds) → view_in nodes.old other ≡ Some (LeafNode s b) →
        view_in nodes.new other ≡ Some (LeafNode s b) }
{
    nodes.add_leaf(slot, fat)
}

// What encloses all boxes.
fn root_bounds(nodes: &Nodes) -> Option<FBox> {
    let root = nodes.root()?;
    Some(shown_bounds(nodes, root))
}

// A leaf's box, or an inner node's hull.
fn shown_bounds(nodes: &Nodes, node: usize) -> FBox
    requires { IsSome (view_in nodes.now node) }
{
    match nodes.view(node) {
        NodeView::Leaf { slot: _, fat } => fat,
        NodeView::Inner {
            left: _,
            right: _,
            hull,
            height: _,
        } => hull,
    }
}

// What several workers may read at once.
fn is_shared<T: Send + Sync>(_: &T) {}

fn same_shape(rt: &impl Abort, nodes: &Nodes, root: Option<usize>, height: u8) {
    assert_eq!(rt; (nodes.root(), nodes.height()), (root, height));
}

fn same_bounds(rt: &impl Abort, nodes: &Nodes, bounds: Option<FBox>) {
    assert_eq!(rt; root_bounds(nodes), bounds);
}

// A leaf comes and goes.
fn come_and_go(rt: &impl Abort, nodes: &mut Nodes, here: FBox)
    requires { IsFilled nodes.old 0 }
{
    same_shape(rt, nodes, None, 0);
    let only = add_next(nodes, 0, here);
    same_shape(rt, nodes, Some(only), 0);
    nodes.drop_leaf(only);
    same_shape(rt, nodes, None, 0);
}

// Two leaves come, and the tree is rebuilt.
fn two_come(rt: &impl Abort, nodes: &mut Nodes, here: FBox, there: FBox)
    requires { IsFilled nodes.old 0 }
{
    add_next(nodes, 0, here);
    add_next(nodes, 1, there);
    assert_eq!(rt; nodes.height(), 1);
    same_bounds(rt, nodes, Some(here.union(&there)));
    assert_eq!(rt; nodes.rebuild(), 2);
    assert_eq!(rt; nodes.height(), 1);
}

#[test]
fn a_root_is_where_a_leaf_is(rt: HostRuntime) -> Result<(), Fail> {
    let here = flat(0).ok_or("a flat box")?;
    let mut nodes = Nodes::new(rt.alloc())?;
    is_shared(&nodes);
    come_and_go(&rt, &mut nodes, here);
    drop(nodes);
    Ok(())
}

#[test]
fn two_leaves_are_a_tree_of_height_1(rt: HostRuntime) -> Result<(), Fail> {
    let here = flat(0).ok_or("a flat box")?;
    let there = flat(65_536).ok_or("a flat box")?;
    let mut nodes = Nodes::new(rt.alloc())?;
    two_come(&rt, &mut nodes, here, there);
    drop(nodes);
    Ok(())
}

// The next number of a linear congruential generator.
fn next_word(state: &mut u32) -> u32
    ensures { result < 16777216 }
{
    *state = state.wrapping_mul(1_664_525).wrapping_add(1_013_904_223);
    *state >> 8
}

// A box somewhere in a cube of 256 units, with sides of one unit.
fn scattered(state: &mut u32) -> Option<FBox> {
    let lo = Point {
        x: next_word(state) as i32,
        y: next_word(state) as i32,
        z: next_word(state) as i32,
    };
    let hi = Point {
        x: lo.x + 65_536,
        y: lo.y + 65_536,
        z: lo.z + 65_536,
    };
    FBox::new(lo, hi)
}

// Scattered boxes come under all slots.
fn fill(nodes: &mut Nodes, state: &mut u32) -> Option<()>
    requires { IsFilled nodes.old 0 }
{
    'fill: for slot in 0..SLOTS {
        let fat = scattered(state)?;
        add_next(nodes, slot, fat);
    }
    Some(())
}

// How many nodes a search looks at, in a tree of so many levels.
fn looked(nodes: &Nodes, node: usize, region: &FBox, levels: u8) -> u64
    requires { IsSome (view_in nodes.now node) }
{
    if levels == 0 {
        return 0;
    }
    match nodes.view(node) {
        NodeView::Leaf { slot: _, fat: _ } => 1,
        NodeView::Inner {
            left,
            right,
            hull,
            height: _,
        } => {
            if !hull.overlaps(region) {
                return 1;
            }
            let below = looked(nodes, left, region, levels - 1);
            below
                .saturating_add(looked(nodes, right, region, levels - 1))
                .saturating_add(1)
        }
    }
}

// How many nodes 256 searches look at.
fn looked_by_searches(nodes: &Nodes, state: &mut u32) -> Option<u64> {
    let root = nodes.root()?;
    let mut total = 0u64;
    'search: for _ in 0..256 {
        let region = scattered(state)?;
        total = total.saturating_add(looked(nodes, root, &region, MOST_HEIGHT + 1));
    }
    Some(total)
}

// The same searches of all slots before the tree is rebuilt and behind that.
fn search_and_rebuild(rt: &impl Abort, nodes: &mut Nodes) -> Option<()>
    requires { IsFilled nodes.old 0 }
{
    fill(nodes, &mut 42)?;
    let grown = looked_by_searches(nodes, &mut 7)?;
    nodes.rebuild();
    let rebuilt = looked_by_searches(nodes, &mut 7)?;
    assert!(rt; grown < 256 * 160, "{grown} nodes for 256 searches");
    assert!(rt; rebuilt <= grown, "{rebuilt} nodes after {grown}");
    Some(())
}

#[test]
fn a_search_of_8192_boxes_looks_at_few_nodes_and_at_no_more_in_a_rebuilt_tree(
    rt: HostRuntime,
) -> Result<(), Fail> {
    let mut nodes = Nodes::new(rt.alloc())?;
    let done = search_and_rebuild(&rt, &mut nodes);
    drop(nodes);
    done.ok_or("boxes")?;
    Ok(())
}
