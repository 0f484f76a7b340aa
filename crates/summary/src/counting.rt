// A counting summary: opening it over a table, adding weights, sweeping, and the bounds of a prefix. To a contract a summary
// is the state that it holds; which slots of the table are in use is known here alone.
ghost use Rattle.std.specs.Prelude.{◌≡◌, ◌+◌, ◌-◌, ◌^◌, ◌<◌, ◌≤◌, min, true, length, IfSome};
ghost use Rattle.model.specs.State.{state_tree, opened, error as error_of, most_slots, largest_total};
ghost use Rattle.prefix.specs.Meaning.{Meaning};
ghost use Rattle.model.specs.Summary.{names_of, counted, settled};
ghost use Rattle.model.specs.Sound.{Formed, Sound};
ghost use Rattle.model.specs.Answers.{AddsAsDefined, SweepsAsDefined, BoundsAsDefined, SameTable, Adds, Sweeps, Bounds};
ghost use Rattle.table.specs.Ancestors.{Ancestors};
ghost use Rattle.summary.specs.Room.{HasRoom, Fits, FindsRoom, own_slot};

use super::slots::{insert_in, raise_own, sweep_in};
use figures::{Row, Threshold, bounds_of, next_row};
use model::{Node, Root};
use prefix::{Hierarchy, OrderedHierarchy};
use refusal::Refusal;
use settings::Settings;
use std::marker::Model;
use table::{Ancestry, climb};

// No summary uses more slots of its table than this.
const MOST_SLOTS: usize = 4096;

// The largest total, 2^48 - 1: sums of own counts, slacks and shares of it stay far from the end of 64 bits.
const LARGEST_TOTAL: u64 = 281_474_976_710_655;

// The slot of the key's own node once the missing ones are made: the last of those, or else the nearest, which is the
// key's own. None for the root. A place and no reference, since the nodes are lent from a table.
fn own_slot(ancestry: Ancestry) -> Option<usize>
    requires { ancestry.at + ancestry.missing < 2 ^ 64 }
    ensures { result ≡ own_slot ancestry }
{
    if ancestry.missing > 0 {
        Some(ancestry.at + (ancestry.missing - 1))
    } else {
        ancestry.nearest
    }
}

#[derive(Drop)]
pub struct Summary<'a, K: Copy> {
    nodes: &'a mut [Node<K>],
    used: usize,
    settings: Settings,
    total: u64,
    root: Root,
}

impl<'a, K: Copy> Model for Summary<'a, K> {
    ghost use Rattle.model.specs.State.{State};

    ghost Value = { State K };

    ghost use Rattle.summary.specs.View.{view_of, UsesItsSlots};

    ghost view = { view_of };

    ghost invariant = { UsesItsSlots };
}

impl<'a, K: Copy> Summary<'a, K> {
    // A summary that has counted nothing, over a table that the caller lends.
    pub fn open(settings: Settings, nodes: &'a mut [Node<K>]) -> Summary<'a, K>
        ensures state { result ≡ opened settings.width settings.share (min most_slots (length nodes.old)) }
        ensures sound { (m : Meaning K) → Sound m result }
    {
        Summary {
            nodes,
            used: 0,
            settings,
            total: 0,
            root: Root { own: 0, ceiling: 0 },
        }
    }

    pub fn total(&self) -> u64
        ensures { result ≡ self.now.total }
    {
        self.total
    }

    // What the bounds of a prefix are apart at most: the total over the width, rounded down.
    pub fn error(&self) -> u64
        ensures { result ≡ error_of self.now }
    {
        self.total / u64::from(self.settings.width())
    }

    // The nodes in use.
    fn stored(&self) -> &[Node<K>]
        ensures { result.now ≡ self.now.nodes }
    {
        &self.nodes[..self.used]
    }

    // How many slots are free.
    fn free(&self) -> usize
        ensures { result ≡ self.now.slots - length self.now.nodes }
    {
        self.nodes.len().min(MOST_SLOTS) - self.used
    }

    // Folds the light nodes into their parents, the deepest level first; answers how many.
    pub fn sweep<H: OrderedHierarchy<Key = K>>(&mut self, hierarchy: &H) -> usize
        ensures defined { SweepsAsDefined (H.Hierarchy.means hierarchy.now) self.old self.new result }
        ensures always { Sweeps self.old self.new result }
    {
        let error = self.error();
        let root = self.root;
        let used = self.used;
        let swept = sweep_in(hierarchy, self.nodes, used, root, error);
        self.used = swept.kept;
        self.root = swept.root;
        used - swept.kept
    }

    // The missing names of a key, if they do not outnumber the free slots.
    fn fitting<H: OrderedHierarchy<Key = K>>(&self, hierarchy: &H, key: K) -> Option<Ancestry>
        ensures formed { Formed (names_of (H.Hierarchy.means hierarchy.now) self.now.nodes) → Fits (H.Hierarchy.means hierarchy.now) self.now key result }
        ensures fits { IfSome result (λ a. HasRoom self.now a) }
    {
        let ancestry = climb(hierarchy, self.stored(), key, self.root.ceiling);
        (ancestry.missing <= self.free()).then_some(ancestry)
    }

    // The missing names of a key for which there are slots enough, after a sweep if need be; the sweep may fold an
    // ancestor, so they are counted anew after it. Here and below, that the table stays the same is a fact about two states,
    // so it stands in the clauses and in no type.
    fn find_room<H: OrderedHierarchy<Key = K>>(&mut self, hierarchy: &H, key: K) -> Option<Ancestry>
        ensures defined { Sound (H.Hierarchy.means hierarchy.now) self.old → FindsRoom (H.Hierarchy.means hierarchy.now) self.old key self.new result }
        ensures table { SameTable self.old self.new }
        ensures total { self.new.total ≡ self.old.total }
        ensures fits { IfSome result (λ a. HasRoom self.new a) }
    {
        if let Some(ancestry) = self.fitting(hierarchy, key) {
            return Some(ancestry);
        }
        self.sweep(hierarchy);
        self.fitting(hierarchy, key)
    }

    // Makes the missing nodes, and counts the weight at the key's node or at the root.
    fn count<H: OrderedHierarchy<Key = K>>(
        &mut self,
        hierarchy: &H,
        key: K,
        weight: u64,
        total: u64,
        ancestry: Ancestry,
    )
        requires { HasRoom self.old ancestry }
        ensures defined { Sound (H.Hierarchy.means hierarchy.now) self.old → Ancestors (H.Hierarchy.means hierarchy.now) self.old.nodes key (state_tree self.old).root ancestry → (H.Hierarchy.means hierarchy.now).is_valid key ≡ true → 0 < weight → total ≡ self.old.total + weight → total ≤ largest_total → self.new ≡ counted (H.Hierarchy.means hierarchy.now) self.old key weight }
        ensures table { SameTable self.old self.new }
        ensures total { self.new.total ≡ total }
    {
        let used = self.used;
        insert_in(hierarchy, self.nodes, used, key, ancestry);
        self.used = used + ancestry.missing;
        self.total = total;
        match own_slot(ancestry) {
            Some(at) => raise_own(self.nodes, at, weight),
            None => self.root = self.root.taking(weight, 0),
        }
    }

    // Sweeps if the error has grown.
    fn settle<H: OrderedHierarchy<Key = K>>(&mut self, hierarchy: &H, error: u64)
        ensures defined { Sound (H.Hierarchy.means hierarchy.now) self.old → self.new ≡ settled (H.Hierarchy.means hierarchy.now) error self.old }
        ensures table { SameTable self.old self.new }
        ensures total { self.new.total ≡ self.old.total }
    {
        if self.error() > error {
            self.sweep(hierarchy);
        }
    }

    // Counts a weight at a key; answers the total after it.
    pub fn add<H: OrderedHierarchy<Key = K>>(
        &mut self,
        hierarchy: &H,
        key: K,
        weight: u32,
    ) -> Result<u64, Refusal>
        ensures defined { AddsAsDefined (H.Hierarchy.means hierarchy.now) self.old key weight self.new result }
        ensures always { Adds (H.Hierarchy.means hierarchy.now) self.old key weight self.new result }
    {
        if !hierarchy.is_valid(key) {
            return Err(Refusal::KeyNotValid);
        }
        if weight == 0 {
            return Ok(self.total);
        }
        let weight = u64::from(weight);
        let total = self.total.saturating_add(weight);
        if total > LARGEST_TOTAL {
            return Err(Refusal::TotalTooLarge);
        }
        let Some(ancestry) = self.find_room(hierarchy, key) else {
            return Err(Refusal::NoFreeSlot);
        };
        let error = self.error();
        self.count(hierarchy, key, weight, total, ancestry);
        self.settle(hierarchy, error);
        Ok(total)
    }

    // The lower and the upper bound of a prefix's true count. The project asks for `&mut self`, so a clause says that the state
    // is as it was.
    pub fn bounds<H: OrderedHierarchy<Key = K>>(
        &mut self,
        hierarchy: &H,
        key: K,
    ) -> Result<(u64, u64), Refusal>
        ensures defined { BoundsAsDefined (H.Hierarchy.means hierarchy.now) self.old key self.new result }
        ensures same { self.new ≡ self.old }
        ensures cases { Bounds (H.Hierarchy.means hierarchy.now) key result }
    {
        if !hierarchy.is_valid(key) {
            return Err(Refusal::KeyNotValid);
        }
        let (lower, upper) = bounds_of(hierarchy, self.stored(), self.root, key);
        Ok((lower, upper))
    }

    // When a prefix of this summary is heavy: by the share of its own total.
    fn threshold(&self) -> Threshold
        ensures { result ≡ record { share = self.now.share; total = self.now.total } }
    {
        Threshold {
            share: self.settings.share(),
            total: self.total,
        }
    }

    // For an open listing: the first row of all, or the first after a key.
    pub(crate) fn next_row<H: OrderedHierarchy<Key = K>>(
        &self,
        hierarchy: &H,
        after: Option<K>,
    ) -> Option<Row<K>>
        ensures { IfSome result (λ row. row.lower ≤ row.upper) }
    {
        next_row(hierarchy, self.stored(), self.root, after, self.threshold())
    }
}
