//! Who uses which page, and which pages somebody of a group may use: so that a fall looks at the pages of a few groups alone.

ghost use Rattle.std.specs.Prelude.{◌≡◌, ◌≢◌, ◌<◌, ◌≤◌, ◌+◌, ◌*◌, ℕ, IfOk, true, false, length};
ghost use Rattle.sd_base.specs.Sets.{has, members};
ghost use Rattle.sd_pagelock.specs.Noted.{is_noted};
ghost use Rattle.sd_pagelock.specs.Places.{seen, uses};

use crate::filled::repeated;
use crate::rows::users;
use sd_base::{InstNo, InstSet, Memory, PAGES, PageNo, Place};
use std::alloc::Global;
use std::marker::Model;

/// How many pages a group has.
pub const GROUP: u16 = 32;

/// How many groups there are.
pub const GROUPS: u16 = 32;

/// Of each page the set of its users; and of each group of 32 pages a set that has all of theirs. Contracts see the former.
#[derive(Drop)]
pub(crate) struct Noted {
    pages: Vec<InstSet>,
    groups: Vec<InstSet>,
}

impl Model for Noted {
    ghost use Rattle.std.specs.Prelude.{List};
    ghost use Rattle.sd_base.specs.declared.set.InstSet.{InstSet};
    ghost use Rattle.sd_pagelock.specs.Noted.{AreGrouped};

    ghost Value = { List InstSet };

    ghost view = { λ noted. noted.pages.items };

    ghost invariant = { λ noted. AreGrouped noted.pages.items noted.groups.items };
}

impl Noted {
    /// Nobody uses a page.
    pub(crate) fn new(alloc: Global) -> Result<Noted, Memory>
        ensures { IfOk result (λ noted. (q k : ℕ) → is_noted noted q k ≡ false) }
    {
        Ok(Noted {
            pages: repeated(alloc, PAGES, InstSet::EMPTY)?,
            groups: repeated(alloc, GROUPS, InstSet::EMPTY)?,
        })
    }

    /// Whether the instance may use a page of the group.
    pub(crate) fn has(&self, group: u16, i: InstNo) -> bool
        requires { group < 32 }
        ensures { result ≡ false → (q : ℕ) → 32 * group ≤ q → q < 32 * group + 32 → is_noted self.now q i ≡ false }
    {
        self.groups[group as usize].has(i)
    }

    /// The users of the page, as they are noted.
    pub(crate) fn users(&self, p: PageNo) -> InstSet {
        self.pages[p.get() as usize]
    }

    /// Who uses the page, where it is now, is noted.
    pub(crate) fn note(&mut self, p: PageNo, place: &Place)
        ensures here { (k : ℕ) → is_noted self.new p k ≡ uses (seen place.now) k }
        ensures others { (q k : ℕ) → q ≢ p → is_noted self.new q k ≡ is_noted self.old q k }
    {
        let at = p.get() as usize;
        let group = (p.get() / GROUP) as usize;
        let now = users(place);
        self.pages[at] = now;
        self.groups[group] = both(self.groups[group], now);
    }

    /// Regroups the page's group where one of those who used the page doesn't now.
    pub(crate) fn regroup_left(&mut self, p: PageNo, before: InstSet)
        ensures { self.new ≡ self.old }
    {
        let now = self.users(p);
        if both(before, now) != now {
            self.regroup(p.get() / GROUP);
        }
    }

    /// Those who use no page of the group any more aren't noted for it.
    pub(crate) fn regroup(&mut self, group: u16)
        requires { group < 32 }
        ensures { self.new ≡ self.old }
    {
        let first = (GROUP * group) as usize;
        self.groups[group as usize] = users_of(&self.pages, first);
    }
}

// Those who use one of the 32 pages from the first on.
fn users_of(pages: &Vec<InstSet>, first: usize) -> InstSet
    requires { first + 32 ≤ length pages.now.items }
    ensures { (q k : ℕ) → first ≤ q → q < first + 32 → is_noted pages.now.items q k ≡ true → has k (members result.bits) ≡ true }
{
    let mut all = InstSet::EMPTY;
    for at in first..first + 32 {
        all = both(all, pages[at]);
    }
    all
}

// The members of both.
fn both(a: InstSet, b: InstSet) -> InstSet
    ensures left { (k : ℕ) → has k (members a.bits) ≡ true → has k (members result.bits) ≡ true }
    ensures right { (k : ℕ) → has k (members b.bits) ≡ true → has k (members result.bits) ≡ true }
{
    InstSet {
        bits: a.bits | b.bits,
    }
}
