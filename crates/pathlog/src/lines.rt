// One line of a path log. What is refused is checked in a fixed order, so that a line with several faults always gets
// the same number: the line feed, the leading '/', the path's length, its bytes, its segments, and then the weight.
ghost use Rattle.std.specs.Prelude.{◌<◌, ◌≤◌, length, MatchResult};
ghost use Rattle.pathlog.specs.Lines.{LineAt, refuses_line, refuses_path};

use fields::{read_weight, split_at_byte};
use paths::{ByteClass, PATH_DEPTH, Place, class_of};
use refusal::Refusal;

// The most bytes of a path, with everything up to the space.
const LONGEST_PATH: usize = 1024;

// What a line says: a weight at a path, and where the next line begins.
#[derive(Clone, Copy)]
pub struct Line {
    pub key: Place,
    pub weight: u32,
    pub next: usize,
}

// Whether a byte stands in the path that may stand in none.
fn has_outside_byte(path: &[u8]) -> bool {
    path.iter()
        .any(|byte| class_of(*byte) == ByteClass::Outside)
}

// What stands before the first '?' or '#', without one '/' at its end.
fn key_part(path: &[u8]) -> &[u8]
    ensures { length result.now ≤ length path.now }
{
    let end = path
        .iter()
        .position(|byte| class_of(*byte) == ByteClass::KeyEnd)
        .unwrap_or(path.len());
    let part = &path[..end];
    part.strip_suffix(b"/").unwrap_or(part)
}

// Whether a '/' is followed by another or by nothing. Pair by pair and not by `split`, which takes longer over the short
// segments of a path.
fn has_empty_segment(key: &[u8]) -> bool {
    key.ends_with(b"/") || key.windows(2).any(|pair| matches!(pair, [b'/', b'/']))
}

// How many bytes the first eight segments have: the ninth starts at the ninth '/'.
fn cut_length(key: &[u8]) -> usize
    ensures { result ≤ length key.now }
{
    key.iter()
        .enumerate()
        .filter(|(_, byte)| **byte == b'/')
        .nth(PATH_DEPTH)
        .map_or(key.len(), |(at, _)| at)
}

// How many bytes of a logged path are its key.
fn key_length(path: &[u8]) -> Result<usize, Refusal>
    ensures { MatchResult result (λ n. n ≤ length path.now) (λ e. refuses_path e) }
{
    if !path.starts_with(b"/") {
        return Err(Refusal::NoLeadingSlash);
    }
    if path.len() > LONGEST_PATH {
        return Err(Refusal::PathTooLong);
    }
    if has_outside_byte(path) {
        return Err(Refusal::PathByte);
    }
    let key = key_part(path);
    if has_empty_segment(key) {
        return Err(Refusal::EmptySegment);
    }
    Ok(cut_length(key))
}

// The path of a line and the weight behind the space that ends it; none where no weight in form stands there.
fn path_and_weight(line: &[u8]) -> (&[u8], Option<u32>)
    ensures { length result.0.now ≤ length line.now }
{
    match split_at_byte(line, b' ') {
        Some((path, digits)) => (path, read_weight(digits)),
        None => (line, None),
    }
}

// The line of a text that begins at an offset.
pub fn read_line(text: &[u8], offset: usize) -> Result<Line, Refusal>
    ensures { MatchResult result (λ line. LineAt text.now offset line) (λ e. refuses_line e) }
{
    let rest = text.get(offset..).ok_or(Refusal::NoLineFeed)?;
    let (line, _) = split_at_byte(rest, b'\n').ok_or(Refusal::NoLineFeed)?;
    let (path, weight) = path_and_weight(line);
    let length = key_length(path)?;
    let weight = weight.ok_or(Refusal::WeightMalformed)?;
    Ok(Line {
        key: Place { offset, length },
        weight,
        next: offset + line.len() + 1,
    })
}
