// The slots of a lent table of which the first `used` are in use: handing those to the functions that make and fold nodes.
// A method that lent a part of the table itself would leave its proof without what came back.
ghost use Rattle.std.specs.Prelude.{◌≡◌, ℕ, ◌+◌, ◌^◌, ◌<◌, ◌≤◌, ◌++◌, length, get_or, take, drop, slice_index_or, slice_set};
ghost use Rattle.model.specs.State.{largest_total};
ghost use Rattle.model.specs.Summary.{took, swept_tree};
ghost use Rattle.model.specs.Sound.{SoundTree};
ghost use Rattle.model.specs.Table.{lineage};

use model::{Node, Root};
use prefix::Hierarchy;
use sweep::{SweptTree, sweep_tree};
use table::{Ancestry, insert_missing};

pub(crate) fn sweep_in<K: Copy, H: Hierarchy<Key = K>>(
    hierarchy: &H,
    nodes: &mut [Node<K>],
    used: usize,
    root: Root,
    error: u64,
) -> SweptTree
    requires { used ≤ length nodes.old }
    ensures within { result.kept ≤ used }
    ensures value { (total : ℕ) → SoundTree (H.Hierarchy.means hierarchy.now) total error (record { root = root; nodes = take used nodes.old }) → error ≤ largest_total → record { root = result.root; nodes = take result.kept nodes.new } ≡ swept_tree (H.Hierarchy.means hierarchy.now) error (record { root = root; nodes = take used nodes.old }) }
{
    sweep_tree(hierarchy, &mut nodes[..used], root, error)
}

// Makes the missing nodes of a key where they belong.
pub(crate) fn insert_in<K: Copy, H: Hierarchy<Key = K>>(
    hierarchy: &H,
    nodes: &mut [Node<K>],
    used: usize,
    key: K,
    ancestry: Ancestry,
)
    requires { (ancestry.at ≤ used) × (used + ancestry.missing ≤ length nodes.old) }
    ensures { take (used + ancestry.missing) nodes.new ≡ take ancestry.at (take used nodes.old) ++ (lineage (H.Hierarchy.means hierarchy.now) key ancestry.ceiling ancestry.missing ++ drop ancestry.at (take used nodes.old)) }
{
    let Ancestry {
        missing,
        at,
        ceiling,
        ..
    } = ancestry;
    insert_missing(
        hierarchy,
        &mut nodes[at..used + missing],
        missing,
        key,
        ceiling,
    );
}

// Counts a weight at the node in a slot.
pub(crate) fn raise_own<K: Copy>(nodes: &mut [Node<K>], at: usize, weight: u64)
    requires { at < length nodes.old }
    ensures { (d : Node K) → (get_or nodes.old at d).own + weight < 2 ^ 64 → nodes.new ≡ slice_set nodes.old at (took weight 0 (slice_index_or nodes.old at d)) }
{
    nodes[at] = nodes[at].taking(weight, 0);
}
