// Both sweeps of one table, worked out by hand: the one walk, and level by level under a root that has counted nothing and
// under a root that has. All leave the same nodes and hand the same up.
use super::steps::{Slot, check_front, node};
use model::{Node, Root};
use octets::{AddressPrefix, Octets};
use sweep::{sweep_nodes, sweep_tree};

const BEFORE: [Slot; 12] = [
    ([10, 0, 0, 0], 8, 2, 0, 2),
    ([10, 1, 0, 0], 16, 0, 0, 0),
    ([10, 1, 1, 0], 24, 0, 0, 0),
    ([10, 1, 1, 1], 32, 12, 0, 0),
    ([10, 1, 1, 2], 32, 5, 0, 0),
    ([10, 2, 0, 0], 16, 0, 2, 2),
    ([10, 2, 0, 0], 24, 0, 2, 2),
    ([10, 2, 0, 9], 32, 1, 1, 1),
    ([11, 0, 0, 0], 8, 0, 0, 0),
    ([11, 0, 0, 0], 16, 0, 0, 0),
    ([11, 0, 0, 0], 24, 0, 0, 0),
    ([11, 0, 0, 1], 32, 1, 0, 0),
];

// With an error of 2 the host 10.2.0.9, whose own count and slack are 2, folds into its parent. That one then has 1 and a
// slack of 2, which is too much. All below 11/8 folds up to the root.
const AFTER: [Slot; 7] = [
    ([10, 0, 0, 0], 8, 2, 0, 2),
    ([10, 1, 0, 0], 16, 0, 0, 0),
    ([10, 1, 1, 0], 24, 0, 0, 0),
    ([10, 1, 1, 1], 32, 12, 0, 0),
    ([10, 1, 1, 2], 32, 5, 0, 0),
    ([10, 2, 0, 0], 16, 0, 2, 2),
    ([10, 2, 0, 0], 24, 1, 2, 2),
];

fn table() -> [Node<AddressPrefix>; 12] {
    BEFORE.map(node)
}

#[test]
fn both_sweeps_leave_the_same_tree(rt: HostRuntime) {
    let mut walked = table();
    let swept = sweep_nodes(&Octets, &mut walked, 2);
    assert!(rt; swept.kept == 7 && swept.own == 1 && swept.ceiling == 1);
    let mut bare = table();
    let root = Root { own: 0, ceiling: 0 };
    let tree = sweep_tree(&Octets, &mut bare, root, 2);
    assert!(rt; tree.kept == 7 && tree.root.own == 1 && tree.root.ceiling == 1);
    let mut folded = table();
    let root = Root { own: 7, ceiling: 0 };
    let tree = sweep_tree(&Octets, &mut folded, root, 2);
    assert!(rt; tree.kept == 7 && tree.root.own == 8 && tree.root.ceiling == 1);
    check_front(&rt, &walked, &AFTER);
    check_front(&rt, &bare, &AFTER);
    check_front(&rt, &folded, &AFTER);
}
