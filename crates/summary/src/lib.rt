// The summary: counts weights at the prefixes of a hierarchy in a table of bounded size, and bounds the true count of
// every prefix. A counting summary turns into a listing to have its rows read, and back.
#![tactic(auto)]

mod counting;
mod rows;
mod slots;

pub use counting::Summary;
pub use rows::Listing;
