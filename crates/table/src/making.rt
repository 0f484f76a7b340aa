// Making the missing nodes of a key. They stand next to each other in name order, and all start from one ceiling, that
// of the nearest stored ancestor: it bounds what was counted there before they were stored.
ghost use Rattle.std.specs.Prelude.{◌≡◌, ◌-◌, min, ◌++◌, length, take};
ghost use Rattle.std.specs.List.{AllWithin};
ghost use Rattle.model.specs.Summary.{fresh};
ghost use Rattle.model.specs.Table.{lineage};
ghost use Rattle.table.specs.Ancestors.{Starts};

use model::Node;
use prefix::Hierarchy;

// A made node is said by its key and the ceiling it starts from, here and below: a struct of the two would be the node itself.
fn new_node<K: Copy>(key: K, ceiling: u64) -> Node<K>
    ensures starts { Starts result ceiling }
    ensures value { result ≡ fresh key ceiling }
{
    Node {
        slack: ceiling,
        ceiling,
        ..Node::vacant(key)
    }
}

// Writes a node for the key into the last slot, and for its ancestors into those before it.
#[tactic(auto, using(crate::proofs::Lineages::written_more, crate::proofs::Lineages::written_starts))]
fn make_nodes<K: Copy, H: Hierarchy<Key = K>>(
    hierarchy: &H,
    made: &mut [Node<K>],
    key: K,
    ceiling: u64,
)
    ensures starts { AllWithin (λ n. Starts n ceiling) made.new 0 (length made.new) }
    ensures value { made.new ≡ lineage (H.Hierarchy.means hierarchy.now) key ceiling (length made.old) }
{
    let mut up = key;
    // By index: tried as `iter_mut().rev()`, after which the proof knows the slots' length but none of their nodes, so
    // that `starts` and `value` stayed open.
    for i in (0..made.len()).rev() {
        made[i] = new_node(up, ceiling);
        up = hierarchy.parent(up);
    }
}

// Makes the missing nodes at the front of the slots, of which the last ones are free: one shift of the nodes that stand
// there makes room for all.
#[tactic(auto, using(crate::proofs::Lineages::inserted))]
pub fn insert_missing<K: Copy, H: Hierarchy<Key = K>>(
    hierarchy: &H,
    slots: &mut [Node<K>],
    missing: usize,
    key: K,
    ceiling: u64,
)
    ensures starts { AllWithin (λ n. Starts n ceiling) slots.new 0 (min missing (length slots.old)) }
    ensures value { slots.new ≡ lineage (H.Hierarchy.means hierarchy.now) key ceiling (min missing (length slots.old)) ++ take (length slots.old - missing) slots.old }
{
    let count = missing.min(slots.len());
    slots.rotate_right(count);
    make_nodes(hierarchy, &mut slots[..count], key, ceiling);
}
