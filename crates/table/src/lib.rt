// The table of stored prefixes. The slots in use stand in name order and every parent of a stored name is stored, so a
// look-up halves what is left at each step, the nodes beneath a prefix are the run right after it, and the missing
// names of one key stand next to each other.
//
// Each call takes the hierarchy and the nodes side by side. A struct of the two would be made anew for each call, since a
// summary is asked with a hierarchy of the caller's, and its contracts would reach the meaning one field deeper.
#![tactic(auto)]

mod lookup;
mod making;

pub use lookup::{Ancestry, climb};
pub use making::insert_missing;
