// Runs as lists of steps: what is asked of a summary, each with the answer to expect, and what is left in its table.
use model::Node;
use octets::{AddressPrefix, Octets};
use prefix::Hierarchy;
use refusal::Refusal;
use settings::Settings;
use std::process::Abort;
use std::test::Fail;
use summary::Summary;

// A prefix by its octets and its length.
pub(crate) type Dotted = ([u8; 4], u8);

// A stored node: octets, length, own count, slack and ceiling.
pub(crate) type Slot = ([u8; 4], u8, u64, u64, u64);

// The largest total that is accepted, 2^48 - 1.
pub(crate) const LARGEST_TOTAL: u64 = 281_474_976_710_655;

// What fills a table before it is lent.
pub(crate) fn vacant() -> Node<AddressPrefix> {
    Node::vacant(Octets.root())
}

// Steps are data and no closures: a reader checks the table of a run by its figures. Refusals stand by the numbers that an
// operator reads.
pub(crate) enum Step {
    // a key, a weight, and the total after it or the number of the refusal
    Add(Dotted, u32, Result<u64, u8>),
    // a key, a weight that is accepted, and how often
    Repeat(Dotted, u32, u32),
    // how many nodes a sweep folds
    Sweep(usize),
    // a key and its bounds
    Bounds(Dotted, u64, u64),
}

// A function with a name, since no `From` may join two types of other crates.
fn prefix(dotted: Dotted) -> AddressPrefix {
    let (octets, length) = dotted;
    AddressPrefix {
        address: u32::from_be_bytes(octets),
        length,
    }
}

pub(crate) fn node(slot: Slot) -> Node<AddressPrefix> {
    let (octets, length, own, slack, ceiling) = slot;
    Node {
        key: prefix((octets, length)),
        own,
        slack,
        ceiling,
    }
}

fn repeat(
    rt: &impl Abort,
    summary: &mut Summary<'_, AddressPrefix>,
    key: AddressPrefix,
    weight: u32,
    times: u32,
) -> Result<(), Fail> {
    for _ in 0..times {
        assert!(rt; summary.add(&Octets, key, weight).is_ok());
    }
    Ok(())
}

fn take(
    rt: &impl Abort,
    summary: &mut Summary<'_, AddressPrefix>,
    step: &Step,
    place: usize,
) -> Result<(), Fail> {
    match step {
        Step::Add(key, weight, expected) => {
            let answer = summary
                .add(&Octets, prefix(*key), *weight)
                .map_err(Refusal::number);
            assert_eq!(rt; answer, *expected, "step {place}");
            Ok(())
        }
        Step::Repeat(key, weight, times) => repeat(rt, summary, prefix(*key), *weight, *times),
        Step::Sweep(folded) => {
            assert_eq!(rt; summary.sweep(&Octets), *folded, "step {place}");
            Ok(())
        }
        Step::Bounds(key, lower, upper) => {
            assert_eq!(rt;
                summary.bounds(&Octets, prefix(*key)),
                Ok((*lower, *upper)),
                "step {place}"
            );
            Ok(())
        }
    }
}

// Takes the steps with a summary of width 10 over the table.
fn play(rt: &impl Abort, nodes: &mut [Node<AddressPrefix>], steps: &[Step]) -> Result<(), Fail> {
    let mut summary = Summary::open(Settings::new(10, 200)?, nodes);
    for (i, step) in steps.iter().enumerate() {
        take(rt, &mut summary, step, i)?;
    }
    Ok(())
}

// The table begins with these nodes.
pub(crate) fn check_front(rt: &impl Abort, nodes: &[Node<AddressPrefix>], left: &[Slot]) {
    assert!(rt; left.len() <= nodes.len());
    for (stored, expected) in nodes.iter().zip(left) {
        assert_eq!(rt; *stored, node(*expected));
    }
}

// Takes the steps with a summary over the table; when it is gone, the table begins with the nodes that are left.
pub(crate) fn run(
    rt: &impl Abort,
    nodes: &mut [Node<AddressPrefix>],
    steps: &[Step],
    left: &[Slot],
) -> Result<(), Fail> {
    play(rt, nodes, steps)?;
    check_front(rt, nodes, left);
    Ok(())
}
