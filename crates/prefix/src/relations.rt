// How the names of two keys stand to each other, from the questions that every hierarchy answers. The laws of names stand
// on the two public calls: whatever counts by names rests on these laws, and looks at no key.
ghost use Rattle.std.specs.Prelude.{◌≡◌, take};
ghost use Rattle.prefix.specs.Name.{covers};
ghost use Rattle.prefix.specs.Laws.{Compares, OrderLaws, AncestryLaws};

use crate::{Hierarchy, OrderedHierarchy};
use std::cmp::Ordering;

// How two keys compare by name.
#[tactic(auto, using(crate::proofs::Names::order_laws, crate::proofs::Names::name_same, crate::proofs::Names::neither))]
pub fn compare_names<K: Copy, H: OrderedHierarchy<Key = K>>(
    hierarchy: &H,
    one: K,
    other: K,
) -> Ordering
    ensures answer { Compares (H.Hierarchy.means hierarchy.now) one other result }
    ensures laws { OrderLaws }
{
    if hierarchy.before(one, other) {
        Ordering::Less
    } else if hierarchy.same(one, other) {
        Ordering::Equal
    } else {
        Ordering::Greater
    }
}

// The key's ancestor at a level, by one parent question for each level above it; the key itself where it is no deeper.
#[tactic(auto, using(crate::proofs::Names::climbed_none, crate::proofs::Names::climbed_more, crate::proofs::Names::climbed_all))]
fn ancestor_at<K: Copy, H: Hierarchy<Key = K>>(hierarchy: &H, key: K, level: usize) -> K
    ensures { (H.Hierarchy.means hierarchy.now).name_of result ≡ take level ((H.Hierarchy.means hierarchy.now).name_of key) }
{
    let mut up = key;
    for climbed in 0..hierarchy.level(key).saturating_sub(level) {
        up = hierarchy.parent(up);
    }
    up
}

// Whether a key's name lies at or beneath a prefix's.
#[tactic(auto, using(crate::proofs::Names::ancestry_laws, crate::proofs::Names::covers_front))]
pub fn lies_at_or_beneath<K: Copy, H: Hierarchy<Key = K>>(hierarchy: &H, key: K, upper: K) -> bool
    ensures answer { result ≡ covers ((H.Hierarchy.means hierarchy.now).name_of upper) ((H.Hierarchy.means hierarchy.now).name_of key) }
    ensures laws { AncestryLaws }
{
    let up = ancestor_at(hierarchy, key, hierarchy.level(upper));
    hierarchy.same(up, upper)
}
