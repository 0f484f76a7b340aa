// Every refusal of the reporter, whichever layer gives it. One enum for all of them, so that an operator who reads
// `refused 17` and an engineer who matches on a variant speak of the same list; the numbers stand in one place,
// `number_of` in specs/, and `number` answers by it.
#![tactic(auto)]

ghost use Rattle.std.specs.Prelude.{◌≡◌, Some};
ghost use Rattle.refusal.specs.Numbers.{number_of, layer_of, refusal_text};

use std::error::Error;
use std::fmt;

#[derive(Clone, Copy, Debug, PartialEq, Eq)]
pub enum Refusal {
    // settings
    WidthOutOfRange,
    ShareOutOfRange,
    ShareTooSmall,
    // summary
    KeyNotValid,
    TotalTooLarge,
    NoFreeSlot,
    // path log
    StartPastEnd,
    NoLineFeed,
    NoLeadingSlash,
    PathByte,
    EmptySegment,
    PathTooLong,
    WeightMalformed,
}

// Which layer of a feed refused a record or a line.
#[derive(Clone, Copy, Debug, PartialEq, Eq)]
pub enum Layer {
    Reader,
    Summary,
}

impl Refusal {
    // The number that is printed and documented for this refusal. One function gives them all, as the project asks, and one
    // definition says them.
    pub fn number(self) -> u8
        ensures { result ≡ number_of self }
    {
        match self {
            Refusal::WidthOutOfRange => 1,
            Refusal::ShareOutOfRange => 2,
            Refusal::ShareTooSmall => 3,
            Refusal::KeyNotValid => 4,
            Refusal::TotalTooLarge => 5,
            Refusal::NoFreeSlot => 6,
            Refusal::StartPastEnd => 13,
            Refusal::NoLineFeed => 14,
            Refusal::NoLeadingSlash => 15,
            Refusal::PathByte => 16,
            Refusal::EmptySegment => 17,
            Refusal::PathTooLong => 18,
            Refusal::WeightMalformed => 19,
        }
    }

    // The layer that gives this refusal inside a feed: the summary for what an add refuses, else the reader.
    pub fn layer(self) -> Layer
        ensures { result ≡ layer_of self }
    {
        match self {
            Refusal::TotalTooLarge | Refusal::NoFreeSlot => Layer::Summary,
            _ => Layer::Reader,
        }
    }
}

// What is printed for a refusal: the word and its number.
impl fmt::Display for Refusal {
    ghost output = { λ refusal. Some (refusal_text refusal) };

    fn fmt<W: fmt::Write>(&self, f: &mut fmt::Formatter<W>) -> fmt::Result {
        let number = self.number();
        write!(f, "refused {number}")
    }
}

impl Error for Refusal {}
