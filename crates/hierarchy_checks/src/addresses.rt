// Address prefixes by whole octets.
ghost use Rattle.hierarchy_checks.specs.Worked.{WorkedOctets};

use octets::{AddressPrefix, Octets};
use prefix::{Hierarchy, OrderedHierarchy, compare_names, lies_at_or_beneath};
use std::test::Fail;

// A key by its octets. A `From` may not join two types of other crates.
fn prefix(octets: [u8; 4], length: u8) -> AddressPrefix {
    AddressPrefix {
        address: u32::from_be_bytes(octets),
        length,
    }
}

// Addresses with the length of the shortest valid key that has them.
const SHORTEST: [([u8; 4], u8); 9] = [
    ([0, 0, 0, 0], 0),
    ([10, 0, 0, 0], 8),
    ([128, 0, 0, 0], 8),
    ([10, 1, 0, 0], 16),
    ([0, 255, 0, 0], 16),
    ([10, 1, 2, 0], 24),
    ([10, 1, 2, 3], 32),
    ([0, 0, 0, 1], 32),
    ([255, 255, 255, 255], 32),
];

fn is_whole(length: u8) -> bool {
    matches!(length, 0 | 8 | 16 | 24 | 32)
}

// The definitions name the prefixes that the rules are explained by as they are worked out by hand.
fn definitions_name_the_worked_prefixes()
    ensures { WorkedOctets }
{}

#[test]
fn worked_prefixes(rt: HostRuntime) -> Result<(), Fail> {
    definitions_name_the_worked_prefixes();
    let site = prefix([10, 1, 0, 0], 16);
    assert!(rt; Octets.is_valid(site) && Octets.level(site) == 2);
    assert!(rt; !Octets.is_valid(prefix([10, 1, 0, 1], 16)));
    assert!(rt; !Octets.is_valid(prefix([10, 0, 0, 0], 12)));
    assert_eq!(rt;
        Octets.parent(prefix([10, 1, 2, 3], 32)),
        prefix([10, 1, 2, 0], 24)
    );
    assert_eq!(rt; format!(in rt.alloc(); "{site}")?.as_str(), "10.1.0.0/16");
    Ok(())
}

#[test]
fn every_length_is_answered(rt: HostRuntime) {
    for (address, shortest) in SHORTEST {
        for length in 0..=255u8 {
            let key = prefix(address, length);
            let valid = is_whole(length) && shortest <= length;
            let level = if valid { usize::from(length / 8) } else { 0 };
            let parent = Octets.parent(key);
            assert_eq!(rt; Octets.is_valid(key), valid);
            assert_eq!(rt; Octets.level(key), level);
            assert_eq!(rt; Octets.is_valid(parent), valid);
            assert_eq!(rt; Octets.level(parent), level.saturating_sub(1));
            assert_eq!(rt; Octets.same(key, Octets.root()), level == 0);
            assert_eq!(rt; Octets.before(Octets.root(), key), level > 0);
        }
    }
}

// One bit after the length, at each place, is enough to make a key not valid.
#[test]
fn a_bit_after_the_length_is_refused(rt: HostRuntime) {
    for bit in 0..32u8 {
        let address = 1u32 << bit;
        for length in [0u8, 8, 16, 24, 32] {
            let valid = length > 31 - bit;
            assert_eq!(rt; Octets.is_valid(AddressPrefix { address, length }), valid);
        }
    }
}

#[test]
fn parents_lead_to_the_root(rt: HostRuntime) {
    let host = Octets.host(0x0A01_0203);
    assert_eq!(rt; host, prefix([10, 1, 2, 3], 32));
    let network = Octets.parent(host);
    assert_eq!(rt; network, prefix([10, 1, 2, 0], 24));
    let site = Octets.parent(network);
    assert_eq!(rt; site, prefix([10, 1, 0, 0], 16));
    let first = Octets.parent(site);
    assert_eq!(rt; first, prefix([10, 0, 0, 0], 8));
    let root = Octets.parent(first);
    assert_eq!(rt; root, Octets.root());
    assert_eq!(rt; Octets.parent(root), root);
    assert_eq!(rt; Octets.depth_limit(), Octets.level(host));
}

// Unsigned, octet by octet, and a prefix before all beneath it.
#[test]
fn names_come_in_order(rt: HostRuntime) {
    let ordered = [
        prefix([0, 0, 0, 0], 0),
        prefix([0, 0, 0, 0], 8),
        prefix([10, 0, 0, 0], 8),
        prefix([10, 0, 0, 0], 16),
        prefix([10, 0, 0, 0], 32),
        prefix([10, 0, 0, 1], 32),
        prefix([10, 1, 0, 0], 16),
        prefix([10, 1, 0, 0], 24),
        prefix([127, 255, 0, 0], 16),
        prefix([128, 0, 0, 0], 8),
        prefix([255, 255, 255, 255], 32),
    ];
    for (i, one) in ordered.iter().enumerate() {
        for (j, other) in ordered.iter().enumerate() {
            assert_eq!(rt; Octets.before(*one, *other), i < j);
            assert_eq!(rt; Octets.same(*one, *other), i == j);
            assert_eq!(rt; compare_names(&Octets, *one, *other), i.cmp(&j));
        }
    }
}

// A key that is not valid stands for the root's name, whatever its address.
#[test]
fn keys_that_are_not_valid_are_nameless(rt: HostRuntime) {
    let odd = prefix([10, 1, 0, 0], 12);
    let loose = prefix([10, 1, 0, 1], 16);
    let long = prefix([10, 1, 0, 0], 255);
    assert!(rt; Octets.same(odd, loose) && Octets.same(loose, long));
    assert!(rt; !Octets.before(odd, loose) && !Octets.before(loose, odd));
    assert!(rt; Octets.before(odd, prefix([0, 0, 0, 0], 8)));
}

#[test]
fn hosts_lie_beneath_their_prefixes(rt: HostRuntime) {
    let host = Octets.host(0x0A01_0203);
    assert!(rt; lies_at_or_beneath(&Octets, host, Octets.root()));
    assert!(rt; lies_at_or_beneath(&Octets, host, prefix([10, 1, 0, 0], 16)));
    assert!(rt; lies_at_or_beneath(&Octets, host, host));
    assert!(rt; !lies_at_or_beneath(&Octets, host, prefix([10, 2, 0, 0], 16)));
    assert!(rt; !lies_at_or_beneath(&Octets, prefix([10, 1, 0, 0], 16), host));
}

#[test]
fn prefixes_are_printed_with_dots(rt: HostRuntime) -> Result<(), Fail> {
    let site = prefix([10, 1, 0, 0], 16);
    let all = Octets.root();
    let last = Octets.host(0xFFFF_FFFF);
    let odd = prefix([1, 20, 0, 9], 12);
    assert_eq!(rt; format!(in rt.alloc(); "{site}")?.as_str(), "10.1.0.0/16");
    assert_eq!(rt; format!(in rt.alloc(); "{all}")?.as_str(), "0.0.0.0/0");
    assert_eq!(rt;
        format!(in rt.alloc(); "{last}")?.as_str(),
        "255.255.255.255/32"
    );
    assert_eq!(rt; format!(in rt.alloc(); "{odd}")?.as_str(), "1.20.0.9/12");
    Ok(())
}
