// The path log: lines of a path, one space, a weight and a line feed. The reader takes one line apart and knows
// nothing of counting; the feed adds the lines of a log to a summary until one is refused.
#![tactic(auto)]

mod feeding;
mod lines;

pub use feeding::{Fed, FeedRefused, feed};
pub use lines::{Line, read_line};
