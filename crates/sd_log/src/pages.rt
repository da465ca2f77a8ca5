//! The records of each page, found without a look at the others.

ghost use Rattle.std.specs.Prelude.{◌≡◌, [], ◌∷◌, ◌++◌, ◌+◌, ◌-◌, ◌^◌, ◌<◌, ◌≤◌, drop, length, map, take, IfOk, IsOk, OnOk};
ghost use Rattle.sd_log.specs.ByPage.{changed_page, changed_pages, places_of};
ghost use Rattle.sd_log.specs.PagesInside.{PagesState, lowered};

use crate::placed::Placed;
use sd_base::{Memory, PAGES, PageNo};
use sd_logrec::Lent;
use std::alloc::Global;
use std::marker::Model;

/// The chains of records: one for each page, and one for what changes no page.
const CHAINS: usize = PAGES as usize + 1;

/// A record's chain, and one more than the index of the record before it on this chain, or 0.
#[derive(Clone, Copy)]
pub struct Link {
    pub chain: u16,
    pub before: u32,
}

/// Which page each record changes, with the records of a page linked from the last to the first. `last` has of each
/// chain one more than the index of its last record, or 0.
#[derive(Drop)]
pub struct PageChains {
    last: Vec<u32>,
    links: Vec<Link>,
}

impl Model for PageChains {
    ghost use Rattle.sd_log.specs.PagesInside.{PagesState};

    ghost Value = { PagesState };

    ghost use Rattle.sd_log.specs.PagesInside.{pages_view, IsPages};

    ghost view = { pages_view };

    ghost invariant = { IsPages };
}

impl PageChains {
    /// No records.
    pub fn new(alloc: Global) -> Result<Self, Memory>
        ensures { IfOk result (λ p. p.chains ≡ []) }
    {
        let last = Vec::from_elem(alloc, 0u32, CHAINS)?;
        let links = Vec::new(alloc);
        Ok(PageChains { last, links })
    }

    /// These records.
    pub fn of(alloc: Global, placed: &[Placed]) -> Result<Self, Memory>
        requires { length placed.now + 1 < 2 ^ 32 }
        ensures { IfOk result (λ p. p.chains ≡ changed_pages placed.now) }
    {
        let mut pages = PageChains::new(alloc)?;
        pages.reserve(placed.len())?;
        for p in placed {
            let rec = Lent::whole(&p.rec);
            pages.push(&rec);
        }
        Ok(pages)
    }

    /// Makes room for so many records more.
    pub fn reserve(&mut self, room: usize) -> Result<(), Memory>
        requires { room < 2 ^ 32 }
        ensures chains { self.new.chains ≡ self.old.chains }
        ensures ok { OnOk result (room ≤ self.new.room) }
        ensures stays { self.old.room ≤ self.new.room }
        ensures there { room ≤ self.old.room → IsOk result }
    {
        self.links.reserve(room)?;
        Ok(())
    }

    /// Puts a record behind the others, without memory.
    pub fn push(&mut self, rec: &Lent)
        requires room { 1 ≤ self.old.room }
        requires few { length self.old.chains + 1 < 2 ^ 32 }
        ensures chains { self.new.chains ≡ self.old.chains ++ changed_page rec.now ∷ [] }
        ensures room { self.old.room ≤ self.new.room + 1 }
    {
        let chain = chain_of(rec);
        let before = self.last[chain as usize];
        self.links.push_reserved(Link { chain, before });
        self.last[chain as usize] = self.links.len() as u32;
    }

    // Forgets the last record.
    fn pop(&mut self)
        ensures chains { self.new.chains ≡ take (length self.old.chains - 1) self.old.chains }
        ensures room { self.old.room ≤ self.new.room }
    {
        if let Some(Link { chain, before }) = self.links.pop() {
            self.last[chain as usize] = before;
        }
    }

    /// Forgets all records but the first `count`.
    pub fn truncate(&mut self, count: usize)
        ensures chains { self.new.chains ≡ take count self.old.chains }
        ensures room { self.old.room ≤ self.new.room }
    {
        while self.len() > count {
            self.pop();
        }
    }

    /// Forgets the first `count` records. It takes no memory.
    pub fn forget(&mut self, count: usize)
        requires there { count ≤ length self.old.chains }
        requires few { count < 2 ^ 32 }
        ensures chains { self.new.chains ≡ drop count self.old.chains }
        ensures room { self.old.room ≤ self.new.room }
    {
        self.links.drain(..count);
        lower_links(&mut self.links, count as u32);
        lower(&mut self.last, count as u32);
    }

    // How many records there are.
    fn len(&self) -> usize
        ensures { result ≡ length self.now.chains }
    {
        self.links.len()
    }

    /// The indexes of the records that change this page, in their order.
    pub fn of_page(&self, alloc: Global, page: PageNo) -> Result<Vec<u32>, Memory>
        ensures { IfOk result (λ found. found.items ≡ places_of page 0 self.now.chains) }
    {
        let mut found = Vec::new(alloc);
        let mut at = self.last[page.get() as usize];
        while at > 0 {
            let index = at - 1;
            found.push(index)?;
            at = self.links[index as usize].before;
        }
        found.reverse();
        Ok(found)
    }
}

// The chain of a record: the number of the page that it changes, or the one behind all pages.
fn chain_of(rec: &Lent) -> u16
    ensures chain { result ≡ changed_page rec.now }
    ensures within { result < CHAINS }
{
    match rec.page() {
        Some(page) => page.get(),
        None => PAGES,
    }
}

// Tells links of records of which so many in front are gone.
fn lower_links(links: &mut [Link], gone: u32)
    ensures { links.new ≡ map (lowered gone) links.old }
{
    for link in links.iter_mut() {
        link.before = link.before.saturating_sub(gone);
    }
}

// Tells the ends of chains of records of which so many in front are gone.
fn lower(ends: &mut [u32], gone: u32)
    ensures { ends.new ≡ map (λ n. n - gone) ends.old }
{
    for end in ends.iter_mut() {
        *end = end.saturating_sub(gone);
    }
}
