// Tables that fill up, with width 10: what a sweep before an add makes room for, and what is refused after it.
use super::steps::Step::{Add, Bounds, Sweep};
use super::steps::{run, vacant};
use std::test::Fail;

#[test]
fn a_host_needs_four_slots(rt: HostRuntime) -> Result<(), Fail> {
    run(
        &rt,
        &mut [vacant(); 3],
        &[
            Add(([10, 1, 1, 1], 32), 1, Err(6)),
            Bounds(([0, 0, 0, 0], 0), 0, 0),
            Add(([10, 1, 1, 0], 24), 1, Ok(1)),
        ],
        &[
            ([10, 0, 0, 0], 8, 0, 0, 0),
            ([10, 1, 0, 0], 16, 0, 0, 0),
            ([10, 1, 1, 0], 24, 1, 0, 0),
        ],
    )
}

// The table is full once 11.2.3.4 is in it, whose 1 is at most the error of 2. No weight is no reason to sweep: that host
// is still there after it, and folds with its three ancestors when a sweep is asked for.
#[test]
fn no_weight_leaves_a_full_table_alone(rt: HostRuntime) -> Result<(), Fail> {
    run(
        &rt,
        &mut [vacant(); 8],
        &[
            Add(([10, 1, 1, 1], 32), 20, Ok(20)),
            Add(([11, 2, 3, 4], 32), 1, Ok(21)),
            Add(([11, 2, 3, 4], 32), 0, Ok(21)),
            Add(([12, 0, 0, 1], 32), 0, Ok(21)),
            Add(([11, 2, 3, 4], 24), 0, Err(4)),
            Add(([11, 2, 3, 4], 24), 1, Err(4)),
            Bounds(([0, 0, 0, 0], 0), 21, 21),
            Bounds(([11, 2, 3, 4], 32), 1, 1),
            Bounds(([12, 0, 0, 1], 32), 0, 0),
            Sweep(4),
            Bounds(([11, 2, 3, 4], 32), 0, 1),
        ],
        &[
            ([10, 0, 0, 0], 8, 0, 0, 0),
            ([10, 1, 0, 0], 16, 0, 0, 0),
            ([10, 1, 1, 0], 24, 0, 0, 0),
            ([10, 1, 1, 1], 32, 20, 0, 0),
        ],
    )
}

// 11.2.3.5 lacks one name and no slot is free. The sweep folds 11.2.3.4, then 11.2.3/24, 11.2/16 and 11/8, each with the 1
// that is at most the error of 2, so the root takes over 1 as own count and as ceiling. Now four names are missing
// and four slots are free: the new nodes begin with the root's ceiling, 1, as slack and as ceiling.
#[test]
fn a_sweep_may_fold_an_ancestor_of_the_new_host(rt: HostRuntime) -> Result<(), Fail> {
    run(
        &rt,
        &mut [vacant(); 8],
        &[
            Add(([10, 1, 1, 1], 32), 20, Ok(20)),
            Add(([11, 2, 3, 4], 32), 1, Ok(21)),
            Add(([11, 2, 3, 5], 32), 1, Ok(22)),
            Bounds(([0, 0, 0, 0], 0), 22, 22),
            Bounds(([10, 1, 1, 1], 32), 20, 20),
            Bounds(([11, 0, 0, 0], 8), 1, 2),
            Bounds(([11, 2, 3, 4], 32), 0, 1),
            Bounds(([11, 2, 3, 5], 32), 1, 2),
            Bounds(([12, 0, 0, 1], 32), 0, 1),
        ],
        &[
            ([10, 0, 0, 0], 8, 0, 0, 0),
            ([10, 1, 0, 0], 16, 0, 0, 0),
            ([10, 1, 1, 0], 24, 0, 0, 0),
            ([10, 1, 1, 1], 32, 20, 0, 0),
            ([11, 0, 0, 0], 8, 0, 1, 1),
            ([11, 2, 0, 0], 16, 0, 1, 1),
            ([11, 2, 3, 0], 24, 0, 1, 1),
            ([11, 2, 3, 5], 32, 1, 1, 1),
        ],
    )
}

// 11.0.0.1 lacks four names and no slot is free. The sweep folds 10.1.1.2 and 10.1.1.3, each with 1, into 10.1.1/24; the
// other nodes are heavy or have heavy ones beneath them. Two slots are too few for the four names, and the two hosts
// stay folded. A host that lacks two names has room then.
#[test]
fn a_refused_host_leaves_its_sweep_done(rt: HostRuntime) -> Result<(), Fail> {
    run(
        &rt,
        &mut [vacant(); 8],
        &[
            Add(([10, 1, 1, 1], 32), 20, Ok(20)),
            Add(([10, 1, 2, 1], 32), 5, Ok(25)),
            Add(([10, 1, 1, 2], 32), 1, Ok(26)),
            Add(([10, 1, 1, 3], 32), 1, Ok(27)),
            Bounds(([10, 1, 1, 2], 32), 1, 1),
            Add(([11, 0, 0, 1], 32), 1, Err(6)),
            Bounds(([0, 0, 0, 0], 0), 27, 27),
            Bounds(([10, 1, 1, 2], 32), 0, 1),
            Sweep(0),
            Add(([10, 1, 3, 1], 32), 1, Ok(28)),
            Bounds(([11, 0, 0, 1], 32), 0, 0),
        ],
        &[
            ([10, 0, 0, 0], 8, 0, 0, 0),
            ([10, 1, 0, 0], 16, 0, 0, 0),
            ([10, 1, 1, 0], 24, 2, 0, 1),
            ([10, 1, 1, 1], 32, 20, 0, 0),
            ([10, 1, 2, 0], 24, 0, 0, 0),
            ([10, 1, 2, 1], 32, 5, 0, 0),
            ([10, 1, 3, 0], 24, 0, 0, 0),
            ([10, 1, 3, 1], 32, 1, 0, 0),
        ],
    )
}
