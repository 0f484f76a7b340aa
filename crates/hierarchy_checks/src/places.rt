// Paths over one text.
ghost use Rattle.hierarchy_checks.specs.Worked.{WorkedPaths};

use paths::{Paths, Place};
use prefix::{Hierarchy, OrderedHierarchy, compare_names, lies_at_or_beneath};

fn place(offset: usize, length: usize) -> Place {
    Place { offset, length }
}

// The level of a whole text as a path; none where it is not valid.
fn level_of(text: &[u8]) -> Option<usize> {
    let paths = Paths::new(text);
    let key = place(0, text.len());
    paths.is_valid(key).then(|| paths.level(key))
}

// The definitions name the paths that the rules are explained by as they are worked out by hand.
fn definitions_name_the_worked_paths()
    ensures { WorkedPaths }
{}

#[test]
fn worked_paths(rt: HostRuntime) {
    definitions_name_the_worked_paths();
    let paths = Paths::new(b"/a/b/a!/ab");
    let deeper = place(0, 4);
    let marked = place(4, 3);
    assert!(rt; paths.level(place(0, 2)) == 1 && paths.level(deeper) == 2);
    assert!(rt; !paths.is_valid(place(0, 3)) && !paths.is_valid(place(7, 4)));
    assert_eq!(rt; paths.parent(deeper), place(0, 2));
    assert!(rt; paths.before(deeper, marked) && paths.before(marked, place(7, 3)));
}

#[test]
fn segments_are_counted(rt: HostRuntime) {
    assert_eq!(rt; level_of(b""), Some(0));
    assert_eq!(rt; level_of(b"/a"), Some(1));
    assert_eq!(rt; level_of(b"/a/b"), Some(2));
    assert_eq!(rt; level_of(b"/1/2/3/4/5/6/7/8"), Some(8));
    assert_eq!(rt; level_of(b"/1/2/3/4/5/6/7/8/9"), None);
    assert_eq!(rt; level_of(b"/1/2/3/4/5/6/7/8/"), None);
}

#[test]
fn empty_segments_are_refused(rt: HostRuntime) {
    assert_eq!(rt; level_of(b"/"), None);
    assert_eq!(rt; level_of(b"//"), None);
    assert_eq!(rt; level_of(b"//a"), None);
    assert_eq!(rt; level_of(b"/a//b"), None);
    assert_eq!(rt; level_of(b"/a/"), None);
    assert_eq!(rt; level_of(b"a"), None);
    assert_eq!(rt; level_of(b"a/b"), None);
}

// Every byte as the last of a segment: 0x21 to 0x7E may stand there, without '/', '?' and '#'.
#[test]
fn every_byte_is_judged(rt: HostRuntime) {
    for byte in 0..=255u8 {
        let plain = (0x21..=0x7E).contains(&byte) && !b"/?#".contains(&byte);
        assert_eq!(rt; level_of(&[b'/', b'a', byte]), plain.then_some(1));
    }
}

#[test]
fn bytes_at_the_edges(rt: HostRuntime) {
    assert_eq!(rt; level_of(b"/a\x20"), None);
    assert_eq!(rt; level_of(b"/a\x21"), Some(1));
    assert_eq!(rt; level_of(b"/a\x7E"), Some(1));
    assert_eq!(rt; level_of(b"/a\x7F"), None);
}

// Keys at and past the end of a text of six bytes, and some whose end fits no word.
#[test]
fn places_outside_the_text_are_not_valid(rt: HostRuntime) {
    let paths = Paths::new(b"/a/b/c");
    let most = usize::MAX;
    let inside = [(0, 0), (0, 2), (0, 6), (2, 4), (4, 2), (3, 0), (6, 0)];
    let outside = [
        (0, 7),
        (1, 6),
        (4, 3),
        (6, 1),
        (7, 0),
        (0, most),
        (2, most),
        (most, 0),
        (most, 1),
        (most, 2),
        (most - 1, 2),
        (most, most),
    ];
    for (offset, length) in inside {
        let key = place(offset, length);
        assert!(rt; paths.is_valid(key));
        assert_eq!(rt; paths.level(key), length / 2);
        assert_eq!(rt; paths.part(key).len(), length);
    }
    for (offset, length) in outside {
        let key = place(offset, length);
        let parent = paths.parent(key);
        assert!(rt; !paths.is_valid(key) && !paths.is_valid(parent));
        assert!(rt; paths.level(key) == 0 && paths.level(parent) == 0);
        assert!(rt; paths.same(key, paths.root()) && paths.part(key).is_empty());
    }
}

#[test]
fn parents_keep_their_offset(rt: HostRuntime) {
    let paths = Paths::new(b"x /shop/a/red y");
    let deepest = place(2, 11);
    assert_eq!(rt; paths.level(deepest), 3);
    let middle = paths.parent(deepest);
    assert_eq!(rt; paths.part(middle), b"/shop/a".as_slice());
    let top = paths.parent(middle);
    assert_eq!(rt; paths.part(top), b"/shop".as_slice());
    let root = paths.parent(top);
    assert_eq!(rt; root, place(2, 0));
    assert!(rt; paths.is_valid(root) && paths.same(root, paths.root()));
    assert_eq!(rt; paths.parent(root), root);
    assert_eq!(rt; paths.depth_limit(), 8);
}

// `/a`, `/a/b`, `/a!`, `/ab` come in this order: the step `a` ends where `a!` goes on, although '!' is below '/'.
#[test]
fn steps_decide_the_order(rt: HostRuntime) {
    let paths = Paths::new(b"/a/b/a!/ab/ab~/b");
    let ordered = [
        place(9, 0),
        place(0, 2),
        place(0, 4),
        place(4, 3),
        place(7, 3),
        place(10, 4),
        place(14, 2),
    ];
    for (i, one) in ordered.iter().enumerate() {
        for (j, other) in ordered.iter().enumerate() {
            assert_eq!(rt; paths.before(*one, *other), i < j);
            assert_eq!(rt; paths.same(*one, *other), i == j);
            assert_eq!(rt; compare_names(&paths, *one, *other), i.cmp(&j));
        }
    }
}

// Whole segments decide: `/a/b` lies beneath `/a`, and `/ab` does not.
#[test]
fn whole_segments_lie_beneath(rt: HostRuntime) {
    let paths = Paths::new(b"/a/b/ab");
    let a = place(0, 2);
    let beneath = place(0, 4);
    let beside = place(4, 3);
    assert!(rt; lies_at_or_beneath(&paths, beneath, a));
    assert!(rt; lies_at_or_beneath(&paths, a, a));
    assert!(rt; !lies_at_or_beneath(&paths, beside, a));
    assert!(rt; !lies_at_or_beneath(&paths, a, beneath));
}

// One path at two places of the text is one name.
#[test]
fn names_do_not_know_their_place(rt: HostRuntime) {
    let paths = Paths::new(b"/a/b 1\n/a/b 2\n");
    let first = place(0, 4);
    let second = place(7, 4);
    assert!(rt; paths.same(first, second));
    assert!(rt; !paths.before(first, second) && !paths.before(second, first));
    assert!(rt; paths.same(paths.parent(first), paths.parent(second)));
}
