// Address prefixes by whole octets, as 10.1.0.0/16. A key is an address and a length in bits; the steps of its name are
// the first octets of the address, one byte each. Which keys are valid and what they are called is set out in
// specs/Octets; specs/Meaning puts the hierarchy together, with its laws from specs/Laws.
#![tactic(auto)]

ghost use Rattle.std.specs.Prelude.{◌≡◌, ◌-◌, ◌^◌, true, ◌&&◌, length, if◌then◌else◌, Some, None, nat_lt};
ghost use Rattle.prefix.specs.Name.{same_name, name_before};
ghost use Rattle.octets.specs.Octets.{is_length, is_prefix, octets_of, octet_name, root_prefix, host_prefix, prefix_at, parent_prefix, prefix_text};
ghost use Rattle.octets.specs.Meaning.{octet_meaning};

use prefix::{Hierarchy, OrderedHierarchy};
use std::fmt;

// The most octets of an address.
pub const OCTET_DEPTH: usize = 4;

// The bits of an octet.
const OCTET_BITS: u8 = 8;

// The first `length` bits of an address. A valid key has none set after them. The order is by address, and the shorter
// first at one address.
#[derive(Clone, Copy, Debug, PartialEq, Eq, PartialOrd, Ord)]
pub struct AddressPrefix {
    pub address: u32,
    pub length: u8,
}

// The address bits after a length; none where no key has that length. One case for each, so that every mask can be read
// off and tried by itself.
fn bits_after(length: u8) -> Option<u32>
    ensures { result ≡ (if is_length length then Some (2 ^ (32 - length) - 1) else None) }
{
    match length {
        0 => Some(0xFFFF_FFFF),
        8 => Some(0x00FF_FFFF),
        16 => Some(0x0000_FFFF),
        24 => Some(0x0000_00FF),
        32 => Some(0x0000_0000),
        _ => None,
    }
}

// Whether one valid key comes before another. Their bits after the length are zero, so the order of addresses is that of
// octets, and where one key's octets end the other's go on or are zero.
#[tactic(auto, using(crate::proofs::Order::prefix_order))]
fn comes_before(one: AddressPrefix, other: AddressPrefix) -> bool
    ensures { is_prefix one ≡ true → is_prefix other ≡ true → result ≡ name_before (octet_name one) (octet_name other) }
{
    one < other
}

// Whether two valid keys have one name: they are equal then. Addresses compare as numbers and paths byte by byte, so the two
// hierarchies share no comparison but the derived one.
#[tactic(auto, using(crate::proofs::Order::same_prefix))]
fn same_octets(one: AddressPrefix, other: AddressPrefix) -> bool
    ensures { is_prefix one ≡ true → is_prefix other ≡ true → result ≡ same_name (octet_name one) (octet_name other) }
{
    one == other
}

// The hierarchy of the address prefixes by whole octets.
#[derive(Clone, Copy)]
pub struct Octets;

impl Octets {
    // The key of a host's address, which a reader of addresses asks for. What the hierarchy means is pinned here too, since
    // a caller of the trait's questions learns no more than what they say of `means`.
    pub fn host(&self, address: u32) -> AddressPrefix
        ensures value { result ≡ host_prefix address }
        ensures valid { is_prefix result ≡ true }
        ensures named { octet_name result ≡ octets_of 4 address }
        ensures meaning { ⟦<Octets as Hierarchy>⟧.means self.now ≡ octet_meaning }
    {
        AddressPrefix {
            address,
            length: 32,
        }
    }

    // The length of the parent; none for the root and for a key that is not valid.
    fn length_above(&self, key: AddressPrefix) -> Option<u8>
        ensures { result ≡ (if is_prefix key && nat_lt 0 key.length then Some (key.length - 8) else None) }
    {
        (self.is_valid(key) && key.length > 0).then(|| key.length.saturating_sub(OCTET_BITS))
    }

    // The key with one octet less, and the bits after it cleared; none for the root and for a key that is not valid.
    fn shortened(&self, key: AddressPrefix) -> Option<AddressPrefix>
        ensures { result ≡ (if is_prefix key && nat_lt 0 key.length then Some (prefix_at key.address (key.length - 8)) else None) }
    {
        let length = self.length_above(key)?;
        let bits = bits_after(length)?;
        Some(AddressPrefix {
            address: key.address & !bits,
            length,
        })
    }
}

// Each answer is said here by the name of the key itself, and not only by what `means` calls its name: a hierarchy whose
// keys all mean the root would meet the trait's contracts. That `means` gives these very names is said in `host`.
impl Hierarchy for Octets {
    type Key = AddressPrefix;

    const DEPTH: usize = OCTET_DEPTH;

    ghost means = { λ _. octet_meaning };

    fn depth_limit(&self) -> usize
        ensures { result ≡ 4 }
    {
        Self::DEPTH
    }

    fn root(&self) -> AddressPrefix
        ensures { result ≡ root_prefix }
    {
        AddressPrefix {
            address: 0,
            length: 0,
        }
    }

    #[tactic(auto, using(crate::proofs::Masks::masked_valid))]
    fn is_valid(&self, key: AddressPrefix) -> bool
        ensures { result ≡ is_prefix key }
    {
        bits_after(key.length).is_some_and(|bits| key.address & bits == 0)
    }

    fn level(&self, key: AddressPrefix) -> usize
        ensures { result ≡ length (octet_name key) }
    {
        if self.is_valid(key) {
            usize::from(key.length / OCTET_BITS)
        } else {
            0
        }
    }

    fn parent(&self, key: AddressPrefix) -> AddressPrefix
        ensures { result ≡ parent_prefix key }
    {
        self.shortened(key).unwrap_or(key)
    }

    fn same(&self, one: AddressPrefix, other: AddressPrefix) -> bool
        ensures { result ≡ same_name (octet_name one) (octet_name other) }
    {
        same_octets(self.named(one), self.named(other))
    }
}

impl OrderedHierarchy for Octets {
    fn before(&self, one: AddressPrefix, other: AddressPrefix) -> bool
        ensures { result ≡ name_before (octet_name one) (octet_name other) }
    {
        comes_before(self.named(one), self.named(other))
    }
}

impl fmt::Display for AddressPrefix {
    ghost output = { λ k. Some (prefix_text k) };

    fn fmt<W: fmt::Write>(&self, f: &mut fmt::Formatter<W>) -> fmt::Result {
        let [first, second, third, fourth] = self.address.to_be_bytes();
        let length = self.length;
        write!(f, "{first}.{second}.{third}.{fourth}/{length}")
    }
}
