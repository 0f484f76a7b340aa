// Folding light nodes in one walk, where no more is asked than which nodes stay. In name order a node's children come after it,
// so a walk from the last node to the first settles the levels from the deepest up: what the children hand up waits in a carry
// for each level until their parent is reached. The kept nodes gather at the end of the slots and are then moved to the front.
ghost use Rattle.std.specs.Prelude.{◌≤◌, length};

use model::Node;
use prefix::{Hierarchy, LEVELS};

// What the settled nodes beneath a prefix hand up to it.
#[derive(Clone, Copy)]
struct Carry {
    own: u64,
    ceiling: u64,
    // whether a node beneath the prefix stays stored
    kept: bool,
}

const NOTHING: Carry = Carry {
    own: 0,
    ceiling: 0,
    kept: false,
};

// Takes over what the nodes beneath handed up, and then stays, or hands its own count up and answers none.
fn settle<K: Copy, H: Hierarchy<Key = K>>(
    hierarchy: &H,
    node: Node<K>,
    error: u64,
    carries: &mut [Carry; LEVELS],
) -> Option<Node<K>> {
    let level = hierarchy.level(node.key);
    let carry = carries[level];
    carries[level] = NOTHING;
    let settled = node.taking(carry.own, carry.ceiling);
    let load = settled.own.saturating_add(settled.slack);
    let above = &mut carries[level.saturating_sub(1)];
    if carry.kept || load > error {
        above.kept = true;
        return Some(settled);
    }
    above.own = above.own.saturating_add(settled.own);
    above.ceiling = above.ceiling.max(load);
    None
}

// Settles all nodes, the last first, and gathers the kept ones at the end; answers where they begin. By index, since the walk
// writes to slots behind those that it has still to read.
fn settle_all<K: Copy, H: Hierarchy<Key = K>>(
    hierarchy: &H,
    nodes: &mut [Node<K>],
    error: u64,
    carries: &mut [Carry; LEVELS],
) -> usize
    ensures { result ≤ length nodes.old }
{
    let mut begin = nodes.len();
    for i in (0..nodes.len()).rev() {
        if let Some(kept) = settle(hierarchy, nodes[i], error, carries) {
            begin -= 1;
            nodes[begin] = kept;
        }
    }
    begin
}

// What is left after a sweep: how many nodes stay, at the front of the table, and what the root takes over.
#[derive(Clone, Copy)]
pub struct Swept {
    pub kept: usize,
    pub own: u64,
    pub ceiling: u64,
}

// Folds every node with nothing stored beneath it and own count + slack at most the error, the deepest level first.
pub fn sweep_nodes<K: Copy, H: Hierarchy<Key = K>>(
    hierarchy: &H,
    nodes: &mut [Node<K>],
    error: u64,
) -> Swept
    ensures { result.kept ≤ length nodes.old }
{
    let mut carries = [NOTHING; LEVELS];
    let begin = settle_all(hierarchy, nodes, error, &mut carries);
    nodes.rotate_left(begin);
    Swept {
        kept: nodes.len() - begin,
        own: carries[0].own,
        ceiling: carries[0].ceiling,
    }
}
