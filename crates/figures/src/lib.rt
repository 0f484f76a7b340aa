// The figures of a prefix, read off the stored nodes, and the rows of the heavy ones. In name order the nodes beneath a
// prefix are the run right after it whose level is greater, so a figure costs no more than its subtree. Nothing is
// stored for the rows: a prefix is weighed when a row is looked for, so reading all rows looks at each node a fixed
// number of times for each of its ancestors.
#![tactic(auto)]

mod bounds;
mod rows;

pub use bounds::bounds_of;
pub use model::Root;
pub use rows::{Row, Threshold, next_row};
