// A long run through the summary and through the second one, which agree figure for figure.
use super::plain::{Plain, SLOTS, cut};
use super::steps::vacant;
use model::Node;
use octets::{AddressPrefix, Octets};
use prefix::Hierarchy;
use settings::Settings;
use std::process::Abort;
use std::test::Fail;
use summary::Summary;

const WIDTH: u32 = 20;

// A number without a pattern for each step, and the same in every run.
fn scrambled(step: u64) -> u64 {
    let spread = step.wrapping_mul(0x9E37_79B9_7F4A_7C15);
    let half = (spread ^ (spread >> 30)).wrapping_mul(0xBF58_476D_1CE4_E5B9);
    let mixed = (half ^ (half >> 27)).wrapping_mul(0x94D0_49BB_1331_11EB);
    mixed ^ (mixed >> 31)
}

// A key and a weight; what is matched chooses a value and no step to run. The octets have few values, so that prefixes meet; now and then a key is short or not valid, and a
// weight is 0 or heavy.
fn record(draw: u64) -> (AddressPrefix, u32) {
    let [first, second, third, fourth, kind, size, weight, _] = draw.to_be_bytes();
    let address = u32::from_be_bytes([10 + first % 3, second % 4, third % 4, fourth % 4]);
    let host = Octets.host(address);
    let key = match kind % 32 {
        0 => cut(host, 0),
        1 => cut(host, 8),
        2 => cut(host, 16),
        3 => cut(host, 24),
        4 => AddressPrefix {
            address,
            length: 12,
        },
        5 => AddressPrefix {
            address: address | 1,
            length: 24,
        },
        _ => host,
    };
    let weight = u32::from(weight);
    match size % 32 {
        0 => (key, 0),
        1 => (key, weight + 1),
        _ => (key, weight % 4 + 1),
    }
}

// The two summaries stand side by side here and below, since they are what is compared.
//
// Counts one record in both: the answer, the total, the error and the bounds of its key agree, stored or not and valid
// or not.
fn count_in_both(
    rt: &impl Abort,
    summary: &mut Summary<'_, AddressPrefix>,
    plain: &mut Plain,
    step: u64,
) {
    let (key, weight) = record(scrambled(step));
    let answer = summary.add(&Octets, key, weight);
    let expected = plain.add(key, weight);
    let bounds = summary.bounds(&Octets, key);
    assert_eq!(rt;
        (step, answer, summary.total(), summary.error(), bounds),
        (
            step,
            expected,
            plain.total,
            plain.error(),
            plain.bounds(key),
        )
    );
}

// The bounds of every prefix that is stored, and then a sweep.
fn sweep_both(rt: &impl Abort, summary: &mut Summary<'_, AddressPrefix>, plain: &mut Plain) {
    for node in plain.places.iter().flatten() {
        assert_eq!(rt; summary.bounds(&Octets, node.key), plain.bounds(node.key));
    }
    assert_eq!(rt; summary.sweep(&Octets), plain.sweep());
}

fn run_both(rt: &impl Abort, summary: &mut Summary<'_, AddressPrefix>, plain: &mut Plain) {
    for step in 0..3000u64 {
        count_in_both(rt, summary, plain, step);
        if step % 50 == 0 {
            sweep_both(rt, summary, plain);
        }
    }
}

// The first slots of a table against the nodes of the second summary. They are as many, and in name order: by address,
// and the shorter first at one address. So each node is met once.
fn check_nodes(rt: &impl Abort, nodes: &[Node<AddressPrefix>], plain: &Plain) {
    let mut last = Octets.root();
    for node in nodes.iter().take(plain.stored()) {
        assert!(rt; last < node.key);
        assert_eq!(rt; *node, plain.nearest(node.key));
        last = node.key;
    }
}

// The run would show little if no node were ever folded and no host refused for want of slots.
#[test]
fn a_long_run_agrees_with_the_plain_summary(rt: HostRuntime) -> Result<(), Fail> {
    let mut nodes = [vacant(); SLOTS];
    let mut plain = Plain::open(WIDTH);
    let mut summary = Summary::open(Settings::new(WIDTH, 200)?, &mut nodes);
    run_both(&rt, &mut summary, &mut plain);
    check_nodes(&rt, &nodes, &plain);
    assert!(rt; plain.folded > 0 && plain.refused > 0);
    Ok(())
}
