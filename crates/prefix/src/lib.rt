// Prefixes by name. A hierarchy answers questions about its keys, and its ghost meaning gives each key a name: a list
// of steps, a step a list of bytes. Everything above counts by names alone, so that addresses and texts are looked at
// in no other place. The definitions of names and their order stand in specs/Name, the meaning and its laws in
// specs/Meaning.
#![tactic(auto)]

ghost use Rattle.std.specs.Prelude.{◌≡◌, true, length, if◌then◌else◌};
ghost use Rattle.prefix.specs.Name.{same_name, name_before};
ghost use Rattle.prefix.specs.Meaning.{Meaning};

mod relations;

pub use relations::{compare_names, lies_at_or_beneath};

// The levels that a name may have in any hierarchy: the root's, and 1 to 32.
pub const LEVELS: usize = 33;

// A hierarchy of prefixes. No question refuses or changes anything, and each is answered for every key: a key that is
// not valid has the empty name.
pub trait Hierarchy {
    // What stands for a prefix: an address and a length, a place in a text.
    type Key: Copy;

    // The most steps that a name has, 1 to 32.
    const DEPTH: usize;

    ghost means: { Self → Meaning Self.Key };

    // The same as `DEPTH`, for code over any hierarchy, where the constant has no value that a proof could use.
    fn depth_limit(&self) -> usize
        ensures { result ≡ (means self.now).depth };

    fn root(&self) -> Self::Key
        ensures { result ≡ (means self.now).root_key };

    fn is_valid(&self, key: Self::Key) -> bool
        ensures { result ≡ (means self.now).is_valid key };

    // The number of steps of the key's name.
    fn level(&self, key: Self::Key) -> usize
        ensures { result ≡ length ((means self.now).name_of key) };

    // A key whose name lacks the last step.
    fn parent(&self, key: Self::Key) -> Self::Key
        ensures { result ≡ (means self.now).parent_of key };

    // The valid key that has the key's name: the key itself, or the root for a key that is not valid. Two names can then
    // be compared by their valid keys.
    fn named(&self, key: Self::Key) -> Self::Key
        ensures value { result ≡ (if (means self.now).is_valid key then key else (means self.now).root_key) }
        ensures valid { (means self.now).is_valid result ≡ true }
        ensures named { (means self.now).name_of result ≡ (means self.now).name_of key }
    {
        if self.is_valid(key) { key } else { self.root() }
    }

    // Whether two keys have one name.
    fn same(&self, one: Self::Key, other: Self::Key) -> bool
        ensures { result ≡ same_name ((means self.now).name_of one) ((means self.now).name_of other) };
}

// A hierarchy that also knows the order of names: step by step, steps byte by byte, a front part first.
pub trait OrderedHierarchy: Hierarchy {
    // Whether the first key's name comes before the second's.
    fn before(&self, one: Self::Key, other: Self::Key) -> bool
        ensures { result ≡ name_before ((Self.Hierarchy.means self.now).name_of one) ((Self.Hierarchy.means self.now).name_of other) };
}
