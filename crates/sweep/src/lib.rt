// Folding light nodes into their parents, in two ways. `sweep_tree`, here, folds level by level from the deepest to the first;
// its contract says what a sweep is defined to leave, and a summary sweeps by it. One walk over the table settles a level: in
// name order a node's parent is the last node before it of the level above, and something lies beneath a node exactly when the
// next node has more steps. The nodes that stay move to the front as the walk goes on. `sweep_nodes`, in the module settling,
// settles a whole table in one walk, and promises no more than how many nodes stay at most.
#![tactic(auto)]

ghost use Rattle.std.specs.Prelude.{◌≡◌, ℕ, ◌+◌, ◌<◌, ◌≤◌, length, take, drop, nat_lt};
ghost use Rattle.model.specs.State.{largest_total};
ghost use Rattle.model.specs.Summary.{names_of, folded_among, swept_tree};
ghost use Rattle.model.specs.Table.{run_of};
ghost use Rattle.model.specs.Sound.{SoundTree};
ghost use Rattle.sweep.specs.Handing.{Within, HandedUp};

mod settling;

use model::{Node, Root};
use prefix::Hierarchy;
pub use settling::{Swept, sweep_nodes};

// What is left: how many nodes stay, at the front of the table, and the root's figures.
#[derive(Clone, Copy)]
pub struct SweptTree {
    pub kept: usize,
    pub root: Root,
}

// Whether the node at an index has more than so many steps. In name order, whether anything lies beneath the one before it,
// which has so many.
fn is_deeper<K: Copy, H: Hierarchy<Key = K>>(
    hierarchy: &H,
    nodes: &[Node<K>],
    at: usize,
    depth: usize,
) -> bool
    ensures { result ≡ nat_lt 0 (run_of depth (names_of (H.Hierarchy.means hierarchy.now) (drop at nodes.now))) }
{
    nodes
        .get(at)
        .is_some_and(|node| hierarchy.level(node.key) > depth)
}

// Hands a node's own count and load up to its parent among the kept nodes, or to the root. The parent is named by its place,
// since a reference to it could not last while the walk writes to the slots.
fn hand_up<K: Copy>(kept: &mut [Node<K>], parent: Option<usize>, root: Root, node: Node<K>) -> Root
    requires { Within (length kept.old) parent }
    ensures { HandedUp parent node root kept.old result kept.new }
{
    let load = node.own.saturating_add(node.slack);
    match parent {
        Some(at) => {
            kept[at] = kept[at].taking(node.own, load);
            root
        }
        None => root.taking(node.own, load),
    }
}

// Folds the foldable nodes of one level. The walk writes to slots that it has read past, so it counts the slots: no iterator
// lends one slice for both.
fn fold_level<K: Copy, H: Hierarchy<Key = K>>(
    hierarchy: &H,
    nodes: &mut [Node<K>],
    root: Root,
    level: usize,
    error: u64,
) -> SweptTree
    requires { 0 < level }
    ensures within { result.kept ≤ length nodes.old }
    ensures value { (total : ℕ) → SoundTree (H.Hierarchy.means hierarchy.now) total error (record { root = root; nodes = nodes.old }) → error ≤ largest_total → record { root = result.root; nodes = take result.kept nodes.new } ≡ folded_among (H.Hierarchy.means hierarchy.now) error level nodes.old (record { root = root; nodes = nodes.old }) }
{
    let above = level - 1;
    let mut root = root;
    let mut kept = 0;
    let mut parent = None;
    for i in 0..nodes.len() {
        let depth = hierarchy.level(nodes[i].key);
        let node = nodes[i];
        let load = node.own.saturating_add(node.slack);
        if depth == level && load <= error && !is_deeper(hierarchy, nodes, i + 1, depth) {
            root = hand_up(&mut nodes[..kept], parent, root, node);
        } else {
            if depth == above {
                parent = Some(kept);
            }
            nodes[kept] = node;
            kept += 1;
        }
    }
    SweptTree { kept, root }
}

// Before a sweep every node stays. Said in a function, so that a clause holds the count that a sweep begins with.
fn all_kept<K: Copy>(nodes: &[Node<K>], root: Root) -> SweptTree
    ensures { result ≡ record { kept = length nodes.now; root = root } }
{
    SweptTree {
        kept: nodes.len(),
        root,
    }
}

// The nodes, the root and the error stay three arguments: only the nodes are lent, and a struct with a part of a table in it
// would be taken apart again for each level.
//
// Folds every node with nothing stored beneath it and own count + slack at most the error, the deepest level first.
pub fn sweep_tree<K: Copy, H: Hierarchy<Key = K>>(
    hierarchy: &H,
    nodes: &mut [Node<K>],
    root: Root,
    error: u64,
) -> SweptTree
    ensures within { result.kept ≤ length nodes.old }
    ensures value { (total : ℕ) → SoundTree (H.Hierarchy.means hierarchy.now) total error (record { root = root; nodes = nodes.old }) → error ≤ largest_total → record { root = result.root; nodes = take result.kept nodes.new } ≡ swept_tree (H.Hierarchy.means hierarchy.now) error (record { root = root; nodes = nodes.old }) }
{
    let mut swept = all_kept(nodes, root);
    for above in (0..hierarchy.depth_limit()).rev() {
        let kept = swept.kept;
        swept = fold_level(hierarchy, &mut nodes[..kept], swept.root, above + 1, error);
    }
    swept
}
