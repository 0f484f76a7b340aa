// A run that was worked out by hand, with width 10: the total reaches 11 and 20, so the error grows twice.
use super::steps::Step::{Add, Bounds};
use super::steps::{run, vacant};
use crate::definitions_give_the_worked_run;
use std::test::Fail;

// At the total of 11 the error is 1 and nothing folds, since every host has more. At 20 it is 2: then 10.2.0.1 with its 2
// folds up to 10/8, which has heavy hosts beneath it, and 11.0.0.1 with its 1 folds up to the root. A prefix that is not
// stored has the ceiling of the nearest stored ancestor.
#[test]
fn light_hosts_fold_into_their_ancestors(rt: HostRuntime) -> Result<(), Fail> {
    assert_eq!(rt; definitions_give_the_worked_run(), (1, 3));
    run(
        &rt,
        &mut [vacant(); 64],
        &[
            Add(([10, 1, 1, 1], 32), 4, Ok(4)),
            Add(([10, 1, 1, 2], 32), 5, Ok(9)),
            Add(([10, 2, 0, 1], 32), 2, Ok(11)),
            Add(([11, 0, 0, 1], 32), 1, Ok(12)),
            Add(([10, 1, 1, 1], 32), 8, Ok(20)),
            Bounds(([0, 0, 0, 0], 0), 20, 20),
            Bounds(([10, 0, 0, 0], 8), 19, 19),
            Bounds(([10, 1, 0, 0], 16), 17, 17),
            Bounds(([10, 1, 1, 0], 24), 17, 17),
            Bounds(([10, 1, 1, 1], 32), 12, 12),
            Bounds(([10, 1, 1, 2], 32), 5, 5),
            Bounds(([10, 1, 1, 3], 32), 0, 0),
            Bounds(([10, 2, 0, 0], 16), 0, 2),
            Bounds(([10, 2, 0, 1], 32), 0, 2),
            Bounds(([11, 0, 0, 0], 8), 0, 1),
            Bounds(([11, 0, 0, 1], 32), 0, 1),
        ],
        &[
            ([10, 0, 0, 0], 8, 2, 0, 2),
            ([10, 1, 0, 0], 16, 0, 0, 0),
            ([10, 1, 1, 0], 24, 0, 0, 0),
            ([10, 1, 1, 1], 32, 12, 0, 0),
            ([10, 1, 1, 2], 32, 5, 0, 0),
        ],
    )
}

// The same run goes on: nodes that are made beneath 10/8 now begin with its ceiling, 2, as slack and as ceiling.
#[test]
fn new_nodes_begin_with_the_ceiling_above(rt: HostRuntime) -> Result<(), Fail> {
    run(
        &rt,
        &mut [vacant(); 64],
        &[
            Add(([10, 1, 1, 1], 32), 4, Ok(4)),
            Add(([10, 1, 1, 2], 32), 5, Ok(9)),
            Add(([10, 2, 0, 1], 32), 2, Ok(11)),
            Add(([11, 0, 0, 1], 32), 1, Ok(12)),
            Add(([10, 1, 1, 1], 32), 8, Ok(20)),
            Add(([10, 2, 0, 9], 32), 1, Ok(21)),
            Add(([10, 3, 0, 1], 32), 2, Ok(23)),
            Bounds(([10, 2, 0, 0], 16), 1, 3),
            Bounds(([10, 2, 0, 1], 32), 0, 2),
            Bounds(([10, 3, 0, 1], 32), 2, 4),
            Bounds(([11, 0, 0, 1], 32), 0, 1),
            Bounds(([0, 0, 0, 0], 0), 23, 23),
        ],
        &[
            ([10, 0, 0, 0], 8, 2, 0, 2),
            ([10, 1, 0, 0], 16, 0, 0, 0),
            ([10, 1, 1, 0], 24, 0, 0, 0),
            ([10, 1, 1, 1], 32, 12, 0, 0),
            ([10, 1, 1, 2], 32, 5, 0, 0),
            ([10, 2, 0, 0], 16, 0, 2, 2),
            ([10, 2, 0, 0], 24, 0, 2, 2),
            ([10, 2, 0, 9], 32, 1, 2, 2),
            ([10, 3, 0, 0], 16, 0, 2, 2),
            ([10, 3, 0, 0], 24, 0, 2, 2),
            ([10, 3, 0, 1], 32, 2, 2, 2),
        ],
    )
}
