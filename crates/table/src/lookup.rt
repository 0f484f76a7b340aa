// Finding names in the table: the order question alone finds a name, and climbing from a key ends at its nearest stored
// ancestor.
ghost use Rattle.std.specs.Prelude.{◌≡◌, ◌<◌, ◌≤◌, length, IfSome};
ghost use Rattle.std.specs.List.{HoldsAt};
ghost use Rattle.prefix.specs.Name.{name_before};
ghost use Rattle.model.specs.declared.Root.{Root};
ghost use Rattle.model.specs.Summary.{name_at, names_of};
ghost use Rattle.model.specs.Sound.{Sorted, Formed};
ghost use Rattle.model.specs.Table.{count_before};
ghost use Rattle.table.specs.Ancestors.{Found, Climbed, Ancestors};

use model::Node;
use prefix::{Hierarchy, OrderedHierarchy};

// A key's name and its ancestors' in the table: how many of them are missing, where the missing ones would stand, the
// nearest stored one, none where that is the root, and the ceiling there. That one is told by its slot and not by a
// reference, since the caller writes to it in a slice that is lent anew.
#[derive(Clone, Copy)]
pub struct Ancestry {
    pub missing: usize,
    pub at: usize,
    pub nearest: Option<usize>,
    pub ceiling: u64,
}

// How many stored names come before the key's.
fn position<K: Copy, H: OrderedHierarchy<Key = K>>(
    hierarchy: &H,
    stored: &[Node<K>],
    key: K,
) -> usize
    ensures within { result ≤ length stored.now }
    ensures value { Sorted (names_of (H.Hierarchy.means hierarchy.now) stored.now) → result ≡ count_before (names_of (H.Hierarchy.means hierarchy.now) stored.now) ((H.Hierarchy.means hierarchy.now).name_of key) }
{
    stored.partition_point(
        |node: &Node<K>| -> bool
            ensures { result ≡ name_before (name_at (H.Hierarchy.means hierarchy.entry.now) node.now) ((H.Hierarchy.means hierarchy.entry.now).name_of key) }
        { hierarchy.before(node.key, key) },
    )
}

// As `position`, of a key of this level. Nothing comes before the root's name, so for the root no node is looked at.
#[tactic(auto, using(crate::proofs::Positions::none_before_root))]
fn own_position<K: Copy, H: OrderedHierarchy<Key = K>>(
    hierarchy: &H,
    stored: &[Node<K>],
    key: K,
    level: usize,
) -> usize
    requires { level ≡ length ((H.Hierarchy.means hierarchy.now).name_of key) }
    ensures within { result ≤ length stored.now }
    ensures value { Sorted (names_of (H.Hierarchy.means hierarchy.now) stored.now) → result ≡ count_before (names_of (H.Hierarchy.means hierarchy.now) stored.now) ((H.Hierarchy.means hierarchy.now).name_of key) }
{
    if level == 0 {
        0
    } else {
        position(hierarchy, stored, key)
    }
}

// Whether the key's name stands where it would, or is missing there. The library's `binary_search_by` would ask two questions
// at each halving, which order and whether the same; here the second is asked once.
#[tactic(auto, using(crate::proofs::Positions::found_there, crate::proofs::Positions::none_past, crate::proofs::Positions::other_there))]
fn find_at<K: Copy, H: OrderedHierarchy<Key = K>>(
    hierarchy: &H,
    stored: &[Node<K>],
    key: K,
    at: usize,
) -> Result<usize, usize>
    requires { (at ≤ length stored.now) × (Sorted (names_of (H.Hierarchy.means hierarchy.now) stored.now) → at ≡ count_before (names_of (H.Hierarchy.means hierarchy.now) stored.now) ((H.Hierarchy.means hierarchy.now).name_of key)) }
    ensures { Found (H.Hierarchy.means hierarchy.now) stored.now ((H.Hierarchy.means hierarchy.now).name_of key) result }
{
    if at < stored.len() && hierarchy.same(stored[at].key, key) {
        Ok(at)
    } else {
        Err(at)
    }
}

// As `position`, of a name above a key, from the place of the key's: no more names come before it. The missing names of one key
// stand next to each other, so mostly one question tells.
#[tactic(auto, using(crate::proofs::Positions::place_above_is))]
fn position_above<K: Copy, H: OrderedHierarchy<Key = K>>(
    hierarchy: &H,
    stored: &[Node<K>],
    up: K,
    own: usize,
) -> usize
    requires { (own ≤ length stored.now) × (Sorted (names_of (H.Hierarchy.means hierarchy.now) stored.now) → count_before (names_of (H.Hierarchy.means hierarchy.now) stored.now) ((H.Hierarchy.means hierarchy.now).name_of up) ≤ own) }
    ensures within { result ≤ length stored.now }
    ensures value { Sorted (names_of (H.Hierarchy.means hierarchy.now) stored.now) → result ≡ count_before (names_of (H.Hierarchy.means hierarchy.now) stored.now) ((H.Hierarchy.means hierarchy.now).name_of up) }
{
    if own == 0 || hierarchy.before(stored[own - 1].key, up) {
        own
    } else {
        position(hierarchy, stored, up)
    }
}

// Where the name so many levels above a key stands in the table, or else where it would stand, from the place of the key's.
fn find_above<K: Copy, H: OrderedHierarchy<Key = K>>(
    hierarchy: &H,
    stored: &[Node<K>],
    up: K,
    levels: usize,
    own: usize,
) -> Result<usize, usize>
    requires { (own ≤ length stored.now) × (Sorted (names_of (H.Hierarchy.means hierarchy.now) stored.now) → (count_before (names_of (H.Hierarchy.means hierarchy.now) stored.now) ((H.Hierarchy.means hierarchy.now).name_of up) ≤ own) × (levels ≡ 0 → own ≡ count_before (names_of (H.Hierarchy.means hierarchy.now) stored.now) ((H.Hierarchy.means hierarchy.now).name_of up))) }
    ensures { Found (H.Hierarchy.means hierarchy.now) stored.now ((H.Hierarchy.means hierarchy.now).name_of up) result }
{
    if levels == 0 {
        find_at(hierarchy, stored, up, own)
    } else {
        find_at(
            hierarchy,
            stored,
            up,
            position_above(hierarchy, stored, up, own),
        )
    }
}

// Climbs from the key towards the root until a stored name is found.
#[tactic(auto, using(crate::proofs::Climbing::climbed_all))]
pub fn climb<K: Copy, H: OrderedHierarchy<Key = K>>(
    hierarchy: &H,
    stored: &[Node<K>],
    key: K,
    root_ceiling: u64,
) -> Ancestry
    ensures always { Climbed (H.Hierarchy.means hierarchy.now) stored.now key root_ceiling result }
    ensures place { Sorted (names_of (H.Hierarchy.means hierarchy.now) stored.now) → result.at ≡ count_before (names_of (H.Hierarchy.means hierarchy.now) stored.now) ((H.Hierarchy.means hierarchy.now).name_of key) }
    ensures nearest { IfSome result.nearest (HoldsAt (λ n. n.ceiling ≡ result.ceiling) stored.now) }
    ensures formed { Formed (names_of (H.Hierarchy.means hierarchy.now) stored.now) → (root : Root) → root.ceiling ≡ root_ceiling → Ancestors (H.Hierarchy.means hierarchy.now) stored.now key root result }
{
    let level = hierarchy.level(key);
    let at = own_position(hierarchy, stored, key, level);
    let mut up = key;
    for missing in 0..level {
        if let Ok(nearest) = find_above(hierarchy, stored, up, missing, at) {
            return Ancestry {
                missing,
                at,
                nearest: Some(nearest),
                ceiling: stored[nearest].ceiling,
            };
        }
        up = hierarchy.parent(up);
    }
    Ancestry {
        missing: level,
        at,
        nearest: None,
        ceiling: root_ceiling,
    }
}
