// The listing of a summary: its heavy prefixes in name order, each with what is left of its count once the listed
// prefixes beneath it are taken out. Opening a listing takes the summary and closing gives it back, so that nothing is
// counted while rows are read, and no rows are read while counting goes on.
ghost use Rattle.std.specs.Prelude.{◌≡◌, ◌≤◌, IfSome, IfOk};
ghost use Rattle.model.specs.Answers.{Bounds, RowsAfter};

use super::counting::Summary;
use figures::Row;
use prefix::{Hierarchy, OrderedHierarchy};
use refusal::Refusal;
use std::marker::Model;

// A summary whose rows are read; it counts again once the listing is closed.
#[derive(Drop)]
pub struct Listing<'a, K: Copy> {
    summary: Summary<'a, K>,
}

// To a contract a listing is the state of its summary.
impl<'a, K: Copy> Model for Listing<'a, K> {
    ghost use Rattle.model.specs.State.{State};

    ghost Value = { State K };

    ghost view = { λ listing. listing.summary };
}

// The questions take `&mut self`, as the project asks of bounds, so each says in a clause that nothing changes.
impl<'a, K: Copy> Listing<'a, K> {
    pub fn open(summary: Summary<'a, K>) -> Listing<'a, K>
        ensures { result ≡ summary.entry }
    {
        Self { summary }
    }

    // The counting summary, node for node as it was.
    pub fn close(self) -> Summary<'a, K>
        ensures { result ≡ self.entry }
    {
        let Listing { summary } = self;
        summary
    }

    // The row of the listed prefix whose name comes before all others; none where nothing is listed.
    pub fn first<H: OrderedHierarchy<Key = K>>(&mut self, hierarchy: &H) -> Option<Row<K>>
        ensures same { self.new ≡ self.old }
        ensures low { IfSome result (λ row. row.lower ≤ row.upper) }
    {
        self.summary.next_row(hierarchy, None)
    }

    // The row of the first listed prefix whose name comes after the key's; none where there is none.
    pub fn after<H: OrderedHierarchy<Key = K>>(
        &mut self,
        hierarchy: &H,
        key: K,
    ) -> Result<Option<Row<K>>, Refusal>
        ensures same { self.new ≡ self.old }
        ensures cases { RowsAfter (H.Hierarchy.means hierarchy.now) key result }
        ensures low { IfOk result (λ next. IfSome next (λ row. row.lower ≤ row.upper)) }
    {
        if !hierarchy.is_valid(key) {
            return Err(Refusal::KeyNotValid);
        }
        Ok(self.summary.next_row(hierarchy, Some(key)))
    }

    // As the summary answers.
    pub fn bounds<H: OrderedHierarchy<Key = K>>(
        &mut self,
        hierarchy: &H,
        key: K,
    ) -> Result<(u64, u64), Refusal>
        ensures same { self.new ≡ self.old }
        ensures cases { Bounds (H.Hierarchy.means hierarchy.now) key result }
    {
        self.summary.bounds(hierarchy, key)
    }
}
