// The rows of the heavy prefixes, in name order: each with what is left of its count once the listed prefixes beneath it
// are taken out.
ghost use Rattle.std.specs.Prelude.{◌≡◌, ◌<◌, ◌≤◌, ◌∷◌, true, not, length, drop, IfSome};
ghost use Rattle.std.specs.List.{All};
ghost use Rattle.prefix.specs.Name.{name_before};
ghost use Rattle.model.specs.State.{is_heavy};
ghost use Rattle.model.specs.Summary.{name_at, names_of};
ghost use Rattle.model.specs.Sound.{Sorted};
ghost use Rattle.figures.specs.Listed.{root_node, IsListed, IsAnyListed};

use super::bounds::{node_bounds, run_beneath};
use model::{Node, Root};
use prefix::{Hierarchy, LEVELS, OrderedHierarchy};

// A listed prefix: both bounds of its count, and its discounted count. That the lower bound is at most the upper stands in the
// clauses of what answers a row: whoever makes a row of their own may put any figures in it.
#[derive(Clone, Copy)]
pub struct Row<K> {
    pub key: K,
    pub lower: u64,
    pub upper: u64,
    pub discounted: u64,
}

// The count from which a prefix is heavy, as a share of the one summary's total.
#[derive(Clone, Copy)]
pub struct Threshold {
    pub share: u32,
    pub total: u64,
}

impl Threshold {
    fn is_met_by(self, count: u64) -> bool
        ensures { result ≡ is_heavy self.share self.total count }
    {
        self.total != 0
            && u128::from(self.share) * u128::from(self.total) <= 1000 * u128::from(count)
    }
}

// The threshold goes beside each node that it is held against: it is the same for all of them.
//
// Weighs a node with what is left of those beneath it: what is left of a light one is added to its parent's, what is
// left of a heavy one is taken out.
fn weigh<K: Copy, H: Hierarchy<Key = K>>(
    hierarchy: &H,
    node: Node<K>,
    threshold: Threshold,
    left: &mut [u64; LEVELS],
) {
    let level = hierarchy.level(node.key);
    let count = node.own.saturating_add(left[level]);
    left[level] = 0;
    if !threshold.is_met_by(count.saturating_add(node.slack)) {
        let above = level.saturating_sub(1);
        left[above] = left[above].saturating_add(count);
    }
}

// The discounted count of a prefix of a level, from its node and the nodes beneath it. Those are weighed the last first, and in
// the end what is left at its level is what is left beneath it.
fn discounted_count<K: Copy, H: Hierarchy<Key = K>>(
    hierarchy: &H,
    node: Node<K>,
    level: usize,
    run: &[Node<K>],
    threshold: Threshold,
) -> u64
    requires { level < 33 }
{
    let mut left = [0; LEVELS];
    for beneath in run.iter().rev() {
        weigh(hierarchy, *beneath, threshold, &mut left);
    }
    node.own.saturating_add(left[level])
}

// The row of a prefix, from its node and the nodes after it, if it is listed.
fn node_row<K: Copy, H: Hierarchy<Key = K>>(
    hierarchy: &H,
    node: Node<K>,
    after: &[Node<K>],
    threshold: Threshold,
) -> Option<Row<K>>
    ensures low { IfSome result (λ row. row.lower ≤ row.upper) }
    ensures listed { IfSome result (λ row. IsListed threshold.share threshold.total row.key row.discounted node) }
{
    let level = hierarchy.level(node.key);
    let run = run_beneath(hierarchy, level, after);
    let discounted = discounted_count(hierarchy, node, level, run, threshold);
    if !threshold.is_met_by(discounted.saturating_add(node.slack)) {
        return None;
    }
    let (lower, upper) = node_bounds(node, run);
    Some(Row {
        key: node.key,
        lower,
        upper,
        discounted,
    })
}

// The slot of the first stored name after the key's.
fn slot_after<K: Copy, H: OrderedHierarchy<Key = K>>(
    hierarchy: &H,
    stored: &[Node<K>],
    key: K,
) -> usize
    ensures within { result ≤ length stored.now }
    ensures later { Sorted (names_of (H.Hierarchy.means hierarchy.now) stored.now) → All (λ n. name_before ((H.Hierarchy.means hierarchy.now).name_of key) (name_at (H.Hierarchy.means hierarchy.now) n) ≡ true) (drop result stored.now) }
{
    stored.partition_point(
        |node: &Node<K>| -> bool
            ensures { result ≡ not (name_before ((H.Hierarchy.means hierarchy.entry.now).name_of key) (name_at (H.Hierarchy.means hierarchy.entry.now) node.now)) }
        { !hierarchy.before(key, node.key) },
    )
}

// The row of the first listed prefix among these nodes, behind which no others are stored.
fn row_from<K: Copy, H: Hierarchy<Key = K>>(
    hierarchy: &H,
    stored: &[Node<K>],
    threshold: Threshold,
) -> Option<Row<K>>
    ensures low { IfSome result (λ row. row.lower ≤ row.upper) }
    ensures listed { IfSome result (λ row. IsAnyListed threshold.share threshold.total row.key row.discounted stored.now) }
{
    let mut rest = stored;
    while let Some((node, after)) = rest.split_first() {
        if let Some(row) = node_row(hierarchy, *node, after, threshold) {
            return Some(row);
        }
        rest = after;
    }
    None
}

// The row of the first listed prefix of all, or of the first whose name comes after a key's.
pub fn next_row<K: Copy, H: OrderedHierarchy<Key = K>>(
    hierarchy: &H,
    stored: &[Node<K>],
    root: Root,
    after: Option<K>,
    threshold: Threshold,
) -> Option<Row<K>>
    ensures low { IfSome result (λ row. row.lower ≤ row.upper) }
    ensures listed { IfSome result (λ row. IsAnyListed threshold.share threshold.total row.key row.discounted (root_node (H.Hierarchy.means hierarchy.now) root ∷ stored.now)) }
    ensures later { Sorted (names_of (H.Hierarchy.means hierarchy.now) stored.now) → IfSome after (λ key. IfSome result (λ row. name_before ((H.Hierarchy.means hierarchy.now).name_of key) ((H.Hierarchy.means hierarchy.now).name_of row.key) ≡ true)) }
{
    match after {
        Some(key) => {
            let from = slot_after(hierarchy, stored, key);
            row_from(hierarchy, &stored[from..], threshold)
        }
        None => {
            let node = root.as_node(hierarchy.root());
            let row = node_row(hierarchy, node, stored, threshold);
            row.or_else(|| row_from(hierarchy, stored, threshold))
        }
    }
}
