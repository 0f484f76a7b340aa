// The bounds of a prefix: its subtree count, and that with its slack.
ghost use Rattle.std.specs.Prelude.{◌≡◌, ℕ, ◌+◌, ◌^◌, ◌<◌, ◌≤◌, nat_lt, length};
ghost use Rattle.std.specs.List.{prefix_len, take_while};
ghost use Rattle.model.specs.State.{largest_total};
ghost use Rattle.model.specs.Summary.{name_at, bounds_of};
ghost use Rattle.model.specs.Sound.{SoundTree};
ghost use Rattle.model.specs.Table.{own_sum};

use model::{Node, Root};
use prefix::{Hierarchy, OrderedHierarchy};
use table::climb;

// How many nodes at the front are of a greater level.
fn run_len<K: Copy, H: Hierarchy<Key = K>>(hierarchy: &H, nodes: &[Node<K>], level: usize) -> usize
    ensures { result ≡ prefix_len (λ n. nat_lt level (length (name_at (H.Hierarchy.means hierarchy.now) n))) nodes.now }
{
    nodes
        .iter()
        .take_while(|node| hierarchy.level(node.key) > level)
        .count()
}

// The nodes beneath a prefix of a level, from the nodes after its own.
pub(crate) fn run_beneath<'a, K: Copy, H: Hierarchy<Key = K>>(
    hierarchy: &H,
    level: usize,
    after: &'a [Node<K>],
) -> &'a [Node<K>]
    ensures { result.now ≡ take_while (λ n. nat_lt level (length (name_at (H.Hierarchy.means hierarchy.now) n))) after.now }
{
    &after[..run_len(hierarchy, after, level)]
}

// The own counts of a run.
fn run_count<K: Copy>(run: &[Node<K>]) -> u64
    ensures { own_sum run.now < 2 ^ 64 → result ≡ own_sum run.now }
{
    let mut sum: u64 = 0;
    // By index: the rules of the project name this sum as a loop over the slots, with an index.
    for i in 0..run.len() {
        sum = sum.saturating_add(run[i].own);
    }
    sum
}

// The bounds of a prefix, from its node and the nodes beneath it. Here and below the two are a pair of numbers, as the project
// asks, so that the lower is no more than the upper stands in the clauses.
pub(crate) fn node_bounds<K: Copy>(node: Node<K>, run: &[Node<K>]) -> (u64, u64)
    ensures low { result.0 ≤ result.1 }
    ensures value { node.own + (own_sum run.now + node.slack) < 2 ^ 64 → result ≡ (node.own + own_sum run.now, node.own + own_sum run.now + node.slack) }
{
    let subtree = node.own.saturating_add(run_count(run));
    (subtree, subtree.saturating_add(node.slack))
}

// The nodes and the key stay two arguments, as in `table`. The bounds of any prefix: where it is not stored, 0 and the ceiling of the nearest stored ancestor or root.
pub fn bounds_of<K: Copy, H: OrderedHierarchy<Key = K>>(
    hierarchy: &H,
    stored: &[Node<K>],
    root: Root,
    key: K,
) -> (u64, u64)
    ensures low { result.0 ≤ result.1 }
    ensures value { (total e : ℕ) → SoundTree (H.Hierarchy.means hierarchy.now) total e (record { root = root; nodes = stored.now }) → e ≤ largest_total → result ≡ bounds_of (H.Hierarchy.means hierarchy.now) (record { root = root; nodes = stored.now }) ((H.Hierarchy.means hierarchy.now).name_of key) }
{
    let ancestry = climb(hierarchy, stored, key, root.ceiling);
    if ancestry.missing > 0 {
        return (0, ancestry.ceiling);
    }
    let Some(at) = ancestry.nearest else {
        let node = root.as_node(hierarchy.root());
        let level = hierarchy.level(node.key);
        return node_bounds(node, run_beneath(hierarchy, level, stored));
    };
    let node = stored[at];
    let level = hierarchy.level(node.key);
    node_bounds(node, run_beneath(hierarchy, level, &stored[at + 1..]))
}
