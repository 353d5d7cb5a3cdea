// The spare table: which block is on which spare, and which blocks are bad.
#![tactic(auto)]

ghost use Rattle.std.specs.Prelude.{◌≡◌, ◌-◌, ◌≤◌, ◌<◌, length, take, set};
ghost use Rattle.lists.specs.Lists.{index_of, member_of};
ghost use Rattle.table.specs.Tables.{lists_ok, sector_of, next_spare, empty_table, listed, killed_next, with_bad, without_bad, removed};
ghost use Rattle.table.specs.declared.Table.{Table};
ghost use Rattle.table.specs.Tables.{spare_list, bad_list, table_ok};
ghost use Rattle.table.specs.Tables.{causes_ok, causes_listed, causes_killed};

use geometry::{Block, Sector};
use lists::DEAD;
use std::marker::Model;

// The first nspares places of spares hold the spare list, the first nbads places of bads the bad list. They are arrays with counts, and
// no vectors: the theorems speak of the places behind the lists too (Shaped, removed), and a table is Copy.
#[repr(C)]
#[derive(Clone, Copy)]
pub struct Table {
    pub spares: [u16; 32],
    pub bads: [u16; 100],
    pub nspares: usize,
    pub nbads: usize,
}

// Holds a table's lists, lent with their arrays: the first nspares places of spares are the spare list, the first nbads places
// of bads the bad list. The counts are the record's, and may be any until code 1 has tested them. A contract sees it as the table.
#[derive(Drop)]
pub struct Lent<'a> {
    pub spares: &'a [u16],
    pub bads: &'a [u16],
    pub nspares: usize,
    pub nbads: usize,
}

impl<'a> Model for Lent<'a> {
    ghost Value = { Table };

    ghost view = { λ l. record { spares = l.spares.now; bads = l.bads.now; nspares = l.nspares; nbads = l.nbads } };
}

impl<'a> Lent<'a> {
    // Returns the spare list.
    pub fn spare_list(&self) -> &'a [u16]
        ensures { result.now ≡ spare_list self.now }
    {
        buffer::cut(self.spares, self.nspares)
    }

    // Returns the bad list.
    pub fn bad_list(&self) -> &'a [u16]
        ensures { result.now ≡ bad_list self.now }
    {
        buffer::cut(self.bads, self.nbads)
    }

    // Says whether the lists make a well-formed table. Two empty lists do, and cost one test.
    #[tactic(auto, unfolding(crate::specs::Tables::lists_ok, lists::specs::Lists::entries_ok))]
    pub fn is_ok(&self) -> bool
        ensures { result ≡ table_ok self.now }
    {
        let n = self.nspares;
        let m = self.nbads;
        if (n == 0) & (m == 0) {
            return true;
        }
        (n <= 32)
            & (m <= 100)
            & lists::entries_ok(true, self.spares, n)
            & lists::entries_ok(false, self.bads, m)
    }

    // Returns a block's sector by the spare list: its spare if it is listed, else its home. The bound is on the list, which the count
    // may exceed where nothing has tested it.
    #[tactic(auto, using(lists::proofs::Laws::finding), unfolding(crate::specs::Tables::sector_of))]
    pub fn sector_of(&self, b: Block) -> Sector
        requires { length (spare_list self.now) ≤ 32 }
        ensures { result ≡ sector_of (spare_list self.now) b }
    {
        match lists::find(self.spare_list(), b.0) {
            Some(k) => geometry::spare(k),
            None => geometry::home(b),
        }
    }

    // Says whether a block is in the bad list.
    pub fn lists_bad(&self, b: Block) -> bool
        ensures { result ≡ member_of b.0 (bad_list self.now) }
    {
        lists::member(self.bad_list(), b.0)
    }
}

// Holds a table's lent lists of at most 32 spares and 100 bad blocks: whoever builds one proves that. A contract sees it as the table.
#[derive(Drop)]
pub struct Bounded<'a> {
    pub lent: &'a Lent<'a>,
}

impl<'a> Model for Bounded<'a> {
    ghost Value = { Table };

    ghost view = { λ l. l.lent.now };

    ghost invariant = { λ l. (l.lent.now.nspares ≤ 32) × (l.lent.now.nbads ≤ 100) };
}

// Returns the sector of the next unused spare where n are listed, if there is one.
pub fn next_spare(n: usize) -> Option<Sector>
    ensures { result ≡ next_spare n }
{
    if n < 32 {
        return Some(geometry::spare(n));
    }
    None
}

// Returns how many spares are unused where n are listed.
pub fn unused(n: usize) -> usize
    ensures { result ≡ 32 - n }
{
    32usize.saturating_sub(n)
}

// Says whether none of the first n causes is above 3. A cause is a number in the record, where a C program may lend any.
#[tactic(auto, using(crate::proofs::Causes::gathering))]
pub fn causes_ok(causes: &[u16], n: usize) -> bool
    ensures { result ≡ causes_ok (take n causes.now) }
{
    let s = buffer::cut(causes, n);
    let mut ok = true;
    for cause in s {
        ok = ok & (*cause <= 3);
    }
    ok
}

// Returns the array without its place k: what was after it moves up, and a zero ends it. A loop for the reason of buffer::put.
#[tactic(auto, using(crate::proofs::Arrays::closing))]
fn removed_at(a: [u16; 100], k: usize) -> [u16; 100]
    requires { k < 100 }
    ensures { result ≡ removed k a }
{
    let mut out = a;
    for i in k..99 {
        out[i] = a[i + 1];
    }
    out[99] = 0;
    out
}

impl Table {
    // Lends the lists.
    pub fn lent(&self) -> Lent<'_>
        ensures { result ≡ self.now }
    {
        Lent {
            spares: &self.spares,
            bads: &self.bads,
            nspares: self.nspares,
            nbads: self.nbads,
        }
    }

    // Returns the table of a drive with no spare used and no bad block.
    pub fn empty() -> Table
        ensures { result ≡ empty_table }
    {
        Table {
            spares: [0; 32],
            bads: [0; 100],
            nspares: 0,
            nbads: 0,
        }
    }

    // Returns an array that has a place for each spare, with `old` at a block's entry, if it has one, and `new` at the next unused spare.
    #[tactic(auto, using(lists::proofs::Laws::finding))]
    fn relisted(&self, b: Block, new: u16, old: u16, array: [u16; 32]) -> [u16; 32]
        requires { self.now.nspares < 32 }
        ensures { result ≡ set (set array (index_of b.0 (spare_list self.now)) old) self.now.nspares new }
    {
        let mut out = array;
        if let Some(k) = lists::find(buffer::cut(&self.spares, self.nspares), b.0) {
            out[k] = old;
        }
        out[self.nspares] = new;
        out
    }

    // Lists a block on the next unused spare and kills its old entry. Where no spare is unused, nothing
    // changes.
    #[tactic(auto, unfolding(crate::specs::Tables::listed))]
    pub fn list(mut self, b: Block) -> Table
        ensures { result ≡ listed self b }
    {
        if self.nspares < 32 {
            self.spares = self.relisted(b, b.0, DEAD, self.spares);
            self.nspares += 1;
        }
        self
    }

    // Marks the next unused spare dead. Where none is unused, nothing changes.
    #[tactic(auto, unfolding(crate::specs::Tables::killed_next))]
    pub fn kill_next(mut self) -> Table
        ensures { result ≡ killed_next self }
    {
        if self.nspares < 32 {
            self.spares[self.nspares] = DEAD;
            self.nspares += 1;
        }
        self
    }

    // Enters a block at the end of the bad list. Where 100 are held, nothing changes.
    #[tactic(auto, unfolding(crate::specs::Tables::with_bad))]
    pub fn with_bad(mut self, b: Block) -> Table
        ensures { result ≡ with_bad self b }
    {
        if self.nbads < 100 {
            self.bads[self.nbads] = b.0;
            self.nbads += 1;
        }
        self
    }

    // Removes a block from the bad list and keeps the order. Where it is not listed, nothing changes.
    #[tactic(auto, using(lists::proofs::Laws::finding), unfolding(crate::specs::Tables::without_bad))]
    pub fn without_bad(mut self, b: Block) -> Table
        ensures { result ≡ without_bad self b }
    {
        if let Some(k) = lists::find(buffer::cut(&self.bads, self.nbads), b.0) {
            self.bads = removed_at(self.bads, k);
            self.nbads -= 1;
        }
        self
    }

    // Returns the causes after a block was listed on the next unused spare: that of its new entry, and that of the entry which is
    // killed. Where no spare is unused, nothing changes. `list` and `kill_next` do the same to the entries, an array of their own.
    #[tactic(auto, unfolding(crate::specs::Tables::causes_listed))]
    pub fn list_causes(self, b: Block, live: u16, killed: u16, causes: [u16; 32]) -> [u16; 32]
        ensures { result ≡ causes_listed self b live killed causes }
    {
        if self.nspares < 32 {
            self.relisted(b, live, killed, causes)
        } else {
            causes
        }
    }

    // Returns the causes after the next unused spare died. Where none is unused, nothing changes.
    #[tactic(auto, unfolding(crate::specs::Tables::causes_killed))]
    pub fn kill_cause(self, cause: u16, mut causes: [u16; 32]) -> [u16; 32]
        ensures { result ≡ causes_killed self cause causes }
    {
        if self.nspares < 32 {
            causes[self.nspares] = cause;
        }
        causes
    }
}
