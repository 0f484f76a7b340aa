// Paths over one log text. A key is a place in the text, an offset and a length, so that a table of paths holds no
// copy of them; the text does not change while keys into it are in use. Which bytes are paths, their steps and their
// order are set out in specs/Path, which places are paths and what they are called in specs/Hierarchy. specs/Meaning
// puts the hierarchy together, with its laws from specs/Laws.
#![tactic(auto)]

ghost use Rattle.std.specs.Prelude.{◌≡◌, true, length, ◌==◌, Some, None, option_copied, if◌then◌else◌};
ghost use Rattle.prefix.specs.Name.{same_name, name_before};
ghost use Rattle.paths.specs.Path.{class_of, is_part, steps_of, segment_count, last_slash, rank_of, ranked_before};
ghost use Rattle.paths.specs.Hierarchy.{lies, bytes_at, bytes_in, is_path, path_name, root_place, shortened, parent_place};
ghost use Rattle.paths.specs.Meaning.{path_meaning};

use prefix::{Hierarchy, OrderedHierarchy};

// The most segments of a path.
pub const PATH_DEPTH: usize = 8;

// What a byte is to a path.
#[derive(Clone, Copy, Debug, PartialEq, Eq)]
pub enum ByteClass {
    // starts a segment
    Slash,
    // ends the part of a logged path that is counted: '?' and '#'
    KeyEnd,
    // fills a segment
    Plain,
    // stands in no path
    Outside,
}

// A place in a text.
#[derive(Clone, Copy, Debug, PartialEq, Eq)]
pub struct Place {
    pub offset: usize,
    pub length: usize,
}

pub fn class_of(byte: u8) -> ByteClass
    ensures { result ≡ class_of byte }
{
    match byte as char {
        '/' => ByteClass::Slash,
        '?' | '#' => ByteClass::KeyEnd,
        '!'..='~' => ByteClass::Plain,
        _ => ByteClass::Outside,
    }
}

// How many segments the bytes have, or none where they are no path of at most eight segments. One walk from the end to the
// front, since a segment's '/' then says at once whether the segment is empty. Every look-up of a path asks for this: as a
// `split` and two chains over its pieces it made a whole report take a third longer, so the flag beside the count stays.
fn segments(part: &[u8]) -> Option<usize>
    ensures { result ≡ segment_count part.now }
{
    let mut count: usize = 0;
    let mut filled = false;
    let mut rest = part;
    while let Some((byte, front)) = rest.split_last() {
        match class_of(*byte) {
            ByteClass::Slash if filled => {
                filled = false;
                count += 1;
            }
            ByteClass::Plain => filled = true,
            _ => return None,
        }
        rest = front;
    }
    (!filled && count <= PATH_DEPTH).then_some(count)
}

// Where the last segment starts; 0 where there is none. The front up to there is the part without its last segment.
#[tactic(auto, using(crate::proofs::LastSlash::last_is))]
fn last_slash(part: &[u8]) -> usize
    ensures { result ≡ last_slash part.now }
{
    part.iter().rposition(|byte| *byte == b'/').unwrap_or(0)
}

// A byte's rank in the order of paths: '/' before all others, so that a step that ends comes before one that goes on.
fn rank(byte: u8) -> u8
    ensures { result ≡ rank_of byte }
{
    match byte as char {
        '/' => 0,
        _ => byte,
    }
}

// Whether two parts have the same steps: they have the same bytes then. A comparison takes two keys, and no pair of them.
#[tactic(auto, using(crate::proofs::Names::same_parts))]
fn same_steps(one: &[u8], other: &[u8]) -> bool
    ensures { is_part one.now ≡ true → is_part other.now ≡ true → result ≡ same_name (steps_of one.now) (steps_of other.now) }
{
    one == other
}

// Whether one part comes before another, by the rank of the first byte that differs; a front part comes first. That is the
// order of their steps. As `cmp` of the two lists of ranks it took a fifth to a third longer over long paths.
fn comes_before(one: &[u8], other: &[u8]) -> bool
    ensures ranked { result ≡ ranked_before one.now other.now }
    ensures named { is_part one.now ≡ true → is_part other.now ≡ true → result ≡ name_before (steps_of one.now) (steps_of other.now) }
{
    let differing = one.iter().zip(other).find(|(a, b)| rank(**a) != rank(**b));
    match differing {
        Some((a, b)) => rank(*a) < rank(*b),
        None => one.len() < other.len(),
    }
}

// The hierarchy of the paths in one text.
#[derive(Clone, Copy)]
pub struct Paths<'a> {
    text: &'a [u8],
}

impl<'a> Paths<'a> {
    // Over a text, which says what its places mean: a caller of the trait's questions learns no more than what they say of
    // `means`.
    pub fn new(text: &'a [u8]) -> Paths<'a>
        ensures over { result.text.now ≡ text.now }
        ensures meaning { ⟦<Paths<'a> as Hierarchy>⟧.means result ≡ path_meaning text.now }
    {
        Paths { text }
    }

    pub fn text(&self) -> &'a [u8]
        ensures { result.now ≡ self.now.text.now }
    {
        self.text
    }

    // The bytes at a place; `None` where it lies outside the text, as where its end fits no word.
    fn bytes(&self, key: Place) -> Option<&'a [u8]>
        ensures { option_copied result ≡ (if lies self.now.text.now key then Some (bytes_at self.now.text.now key) else None) }
    {
        key.offset
            .checked_add(key.length)
            .and_then(|end| self.text.get(key.offset..end))
    }

    // The bytes that a key stands for; none where the place lies outside the text.
    pub fn part(&self, key: Place) -> &'a [u8]
        ensures { result.now ≡ bytes_in self.now.text.now key }
    {
        self.bytes(key).unwrap_or(&[])
    }

    // The place up to where its last segment starts.
    fn without_last_segment(&self, key: Place) -> Place
        ensures { result ≡ shortened (bytes_in self.now.text.now key) key }
    {
        Place {
            offset: key.offset,
            length: last_slash(self.part(key)),
        }
    }

    // The bytes of a path; none where the key is not valid. Either way they are a part, whose steps are the key's name.
    fn path(&self, key: Place) -> &'a [u8]
        ensures sound { is_part result.now ≡ true }
        ensures named { steps_of result.now ≡ path_name self.now.text.now key }
    {
        self.part(self.named(key))
    }
}

// Each answer is said here by the name of the key itself, and not only by what `means` calls its name: a hierarchy whose
// keys all mean the root would meet the trait's contracts. That `means` gives these very names is said in `new`.
impl<'a> Hierarchy for Paths<'a> {
    type Key = Place;

    const DEPTH: usize = PATH_DEPTH;

    ghost means = { λ paths. path_meaning paths.text.now };

    fn depth_limit(&self) -> usize
        ensures { result ≡ 8 }
    {
        Self::DEPTH
    }

    fn root(&self) -> Place
        ensures { result ≡ root_place }
    {
        Place {
            offset: 0,
            length: 0,
        }
    }

    fn is_valid(&self, key: Place) -> bool
        ensures { result ≡ is_path self.now.text.now key }
    {
        self.bytes(key).and_then(segments).is_some()
    }

    fn level(&self, key: Place) -> usize
        ensures { result ≡ length (path_name self.now.text.now key) }
    {
        self.bytes(key).and_then(segments).unwrap_or(0)
    }

    fn parent(&self, key: Place) -> Place
        ensures { result ≡ parent_place self.now.text.now key }
    {
        if self.is_valid(key) {
            self.without_last_segment(key)
        } else {
            key
        }
    }

    fn same(&self, one: Place, other: Place) -> bool
        ensures { result ≡ same_name (path_name self.now.text.now one) (path_name self.now.text.now other) }
    {
        same_steps(self.path(one), self.path(other))
    }
}

impl<'a> OrderedHierarchy for Paths<'a> {
    fn before(&self, one: Place, other: Place) -> bool
        ensures { result ≡ name_before (path_name self.now.text.now one) (path_name self.now.text.now other) }
    {
        comes_before(self.path(one), self.path(other))
    }
}
