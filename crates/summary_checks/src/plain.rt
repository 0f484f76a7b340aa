// A second summary, to hold the first against. It is written straight from the rules and knows nothing of name order: the
// nodes stand where there was a place, every question goes through all of them, and an ancestor is the address with
// its last bits cleared. The root is one of the nodes, so that every other has its parent among them.
use super::steps::LARGEST_TOTAL;
use model::Node;
use octets::AddressPrefix;
use refusal::Refusal;

// Few enough for the table to fill up in a long run.
pub(crate) const SLOTS: usize = 32;

// The root takes no slot.
const PLACES: usize = SLOTS + 1;

// The lengths of the names without the root's, from the top down.
const LENGTHS: [u8; 4] = [8, 16, 24, 32];

const ROOT: AddressPrefix = AddressPrefix {
    address: 0,
    length: 0,
};

// The key's ancestor of a length; the key itself where that is no shorter.
pub(crate) fn cut(key: AddressPrefix, length: u8) -> AddressPrefix {
    let length = key.length.min(length);
    let cleared = 32u32.saturating_sub(u32::from(length));
    let mask = u32::MAX.checked_shl(cleared).unwrap_or(0);
    AddressPrefix {
        address: key.address & mask,
        length,
    }
}

// Whether the key is the upper one or lies beneath it.
fn lies_beneath(key: AddressPrefix, upper: AddressPrefix) -> bool {
    cut(key, upper.length) == upper
}

fn is_valid(key: AddressPrefix) -> bool {
    key.length <= 32 && key.length % 8 == 0 && cut(key, key.length) == key
}

// The places are an array of fixed size, as the table of a summary has a fixed number of slots.
#[derive(Drop)]
pub(crate) struct Plain {
    pub places: [Option<Node<AddressPrefix>>; PLACES],
    width: u64,
    pub total: u64,
    // how many nodes were folded, over all sweeps
    pub folded: usize,
    // how many adds were refused for want of slots
    pub refused: usize,
}

impl Plain {
    pub(crate) fn open(width: u32) -> Plain {
        let mut places = [None; PLACES];
        places[0] = Some(Node::vacant(ROOT));
        Plain {
            places,
            width: u64::from(width),
            total: 0,
            folded: 0,
            refused: 0,
        }
    }

    pub(crate) fn error(&self) -> u64 {
        self.total.checked_div(self.width).unwrap_or(0)
    }

    // The deepest stored node at or above a key.
    pub(crate) fn nearest(&self, key: AddressPrefix) -> Node<AddressPrefix> {
        self.places
            .iter()
            .flatten()
            .copied()
            .filter(|node| lies_beneath(key, node.key))
            .max_by_key(|node| node.key.length)
            .unwrap_or(Node::vacant(ROOT))
    }

    // How many nodes are stored at and beneath a key.
    fn stored_beneath(&self, key: AddressPrefix) -> usize {
        self.places
            .iter()
            .flatten()
            .filter(|node| lies_beneath(node.key, key))
            .count()
    }

    // The sum of the own counts at and beneath a key.
    fn count_beneath(&self, key: AddressPrefix) -> u64 {
        self.places
            .iter()
            .flatten()
            .filter(|node| lies_beneath(node.key, key))
            .fold(0, |sum: u64, node| sum.saturating_add(node.own))
    }

    // How many slots are in use.
    pub(crate) fn stored(&self) -> usize {
        self.stored_beneath(ROOT).saturating_sub(1)
    }

    pub(crate) fn bounds(&self, key: AddressPrefix) -> Result<(u64, u64), Refusal> {
        if !is_valid(key) {
            return Err(Refusal::KeyNotValid);
        }
        let nearest = self.nearest(key);
        if nearest.key == key {
            let lower = self.count_beneath(key);
            Ok((lower, lower.saturating_add(nearest.slack)))
        } else {
            Ok((0, nearest.ceiling))
        }
    }

    // Whether the missing names of a key and its ancestors are no more than the free slots.
    fn has_room(&self, key: AddressPrefix) -> bool {
        let missing = LENGTHS
            .iter()
            .filter(|length| {
                let name = cut(key, **length);
                name.length == **length && self.nearest(name).key != name
            })
            .count();
        missing <= SLOTS.saturating_sub(self.stored())
    }

    // Puts a node, or none, where the node of a key is, or where there is none. A loop: after `iter_mut().find(..)` the proof
    // does not know that the place that was found is one of these.
    fn put(&mut self, old: Option<AddressPrefix>, new: Option<Node<AddressPrefix>>) {
        for place in self.places.iter_mut() {
            if place.map(|node| node.key) == old {
                *place = new;
                return;
            }
        }
    }

    // Makes the missing nodes from the top down.
    fn make_missing(&mut self, key: AddressPrefix) {
        for length in LENGTHS {
            let name = cut(key, length);
            let above = self.nearest(name);
            if above.key != name {
                let node = Node {
                    key: name,
                    own: 0,
                    slack: above.ceiling,
                    ceiling: above.ceiling,
                };
                self.put(None, Some(node));
            }
        }
    }

    // Hands a node's own count up to its parent, and frees its slot.
    fn fold(&mut self, node: Node<AddressPrefix>) {
        let parent = self.nearest(cut(node.key, node.key.length.saturating_sub(8)));
        let raised = Node {
            own: parent.own.saturating_add(node.own),
            ceiling: parent.ceiling.max(node.own.saturating_add(node.slack)),
            ..parent
        };
        self.put(Some(parent.key), Some(raised));
        self.put(Some(node.key), None);
        self.folded = self.folded.saturating_add(1);
    }

    // Folds every node of a length with nothing stored beneath it and own count + slack at most the error. No fold changes
    // another node of that length, so they may be read as they were at the beginning.
    fn fold_length(&mut self, length: u8) {
        let error = self.error();
        for node in self.places.into_iter().flatten() {
            if node.key.length == length
                && self.stored_beneath(node.key) == 1
                && node.own.saturating_add(node.slack) <= error
            {
                self.fold(node);
            }
        }
    }

    pub(crate) fn sweep(&mut self) -> usize {
        let before = self.folded;
        for length in LENGTHS.into_iter().rev() {
            self.fold_length(length);
        }
        self.folded.saturating_sub(before)
    }

    pub(crate) fn add(&mut self, key: AddressPrefix, weight: u32) -> Result<u64, Refusal> {
        if !is_valid(key) {
            return Err(Refusal::KeyNotValid);
        }
        if weight == 0 {
            return Ok(self.total);
        }
        let weight = u64::from(weight);
        if weight > LARGEST_TOTAL.saturating_sub(self.total) {
            return Err(Refusal::TotalTooLarge);
        }
        if !self.has_room(key) {
            self.sweep();
        }
        if !self.has_room(key) {
            self.refused = self.refused.saturating_add(1);
            return Err(Refusal::NoFreeSlot);
        }
        self.count(key, weight);
        Ok(self.total)
    }

    // Counts a weight for which there is room, and sweeps if the error grew.
    fn count(&mut self, key: AddressPrefix, weight: u64) {
        self.make_missing(key);
        let node = self.nearest(key);
        let raised = Node {
            own: node.own.saturating_add(weight),
            ..node
        };
        self.put(Some(key), Some(raised));
        let error = self.error();
        self.total = self.total.saturating_add(weight);
        if self.error() > error {
            self.sweep();
        }
    }
}
