// What a summary is made of, and the definitions that the contracts above cite: a node and the root, and in specs/ the
// state of a summary with what its calls answer and make of it. Little code: this is what a reader of those contracts
// has to believe.
#![tactic(auto)]

ghost use Rattle.std.specs.Prelude.{◌≡◌, ◌+◌, ◌-◌, ◌^◌, min, max};

// A stored prefix. The own count is the weight counted at the prefix itself; the slack bounds what was counted at or
// beneath it and is not in the table; the ceiling bounds what was counted beneath it at any prefix that is not stored.
#[derive(Clone, Copy, Debug, PartialEq, Eq)]
pub struct Node<K> {
    pub key: K,
    pub own: u64,
    pub slack: u64,
    pub ceiling: u64,
}

impl<K: Copy> Node<K> {
    // A node with all figures 0, to fill a table with before it is handed over.
    pub fn vacant(key: K) -> Node<K>
        ensures { result ≡ record { key = key; own = 0; slack = 0; ceiling = 0 } }
    {
        Node {
            key,
            own: 0,
            slack: 0,
            ceiling: 0,
        }
    }

    // The node after it took over an own count, with a ceiling that is at least the load.
    pub fn taking(self, own: u64, load: u64) -> Node<K>
        ensures { result ≡ record { key = self.key; own = min (self.own + own) (2 ^ 64 - 1); slack = self.slack; ceiling = max self.ceiling load } }
    {
        Node {
            own: self.own.saturating_add(own),
            ceiling: self.ceiling.max(load),
            ..self
        }
    }
}

// The figures of the root, which takes no slot and whose slack is 0.
#[derive(Clone, Copy, Debug, PartialEq, Eq)]
pub struct Root {
    pub own: u64,
    pub ceiling: u64,
}

impl Root {
    // The root as a node, with the root's key: it counts like one, and its slack is 0.
    pub fn as_node<K: Copy>(self, key: K) -> Node<K>
        ensures { result ≡ record { key = key; own = self.own; slack = 0; ceiling = self.ceiling } }
    {
        Node {
            own: self.own,
            ceiling: self.ceiling,
            ..Node::vacant(key)
        }
    }

    // The root after it took over an own count, with a ceiling that is at least the load. A node has more fields to keep, so
    // a trait for both would hold two bodies all the same.
    pub fn taking(self, own: u64, load: u64) -> Root
        ensures { result ≡ record { own = min (self.own + own) (2 ^ 64 - 1); ceiling = max self.ceiling load } }
    {
        Root {
            own: self.own.saturating_add(own),
            ceiling: self.ceiling.max(load),
        }
    }
}
