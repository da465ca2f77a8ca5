//! The places of all pages, with who uses which, and the number of those that are lost.

ghost use Rattle.std.specs.Prelude.{◌≡◌, ◌+◌, ◌≤◌, ℕ, true, cond, length, position};
ghost use Rattle.sd_pagelock.specs.Places.{seen, is_lost};

use crate::filled::repeated;
use crate::laws;
use crate::noted::{GROUP, GROUPS, Noted};
use crate::rows::{fallen, is_lost};
use sd_base::{InstNo, InstSet, Memory, PAGES, PageNo, Place};
use std::alloc::Global;
use std::marker::Model;

/// The place of each page. Contracts see their list.
#[derive(Drop)]
pub struct PlaceTable {
    places: Vec<Place>,
    // how many of them are lost
    lost: usize,
    // who uses which page
    noted: Noted,
}

impl Model for PlaceTable {
    ghost use Rattle.std.specs.Prelude.{List};
    ghost use Rattle.sd_base.specs.declared.place.Place as coded;
    ghost use Rattle.sd_pagelock.specs.Noted.{AreNoted};
    ghost use Rattle.sd_pagelock.specs.Table.{AreKept};

    ghost Value = { List coded.Place };

    ghost view = { λ table. table.places.items };

    ghost invariant = { λ table. AreKept table.places.items table.lost × AreNoted table.places.items table.noted };
}

impl PlaceTable {
    ghost use Rattle.std.specs.Prelude.{◌≡◌, ◌≢◌, ◌<◌, ◌≤◌, ◌+◌, ◌*◌, ℕ, true, false, length, IfNone, IfOk, IfSome};
    ghost use Rattle.sd_pagelock.specs.Places.{Formed, InRange, PageEntry, is_lost, place_at, seen, uses};
    ghost use Rattle.sd_pagelock.specs.Rows.{fallen};

    /// The places of 1,024 free pages, or `Memory` where there is none for them.
    pub fn new(alloc: Global) -> Result<PlaceTable, Memory>
        ensures { IfOk result (λ table. (p : ℕ) → place_at table p ≡ PageEntry.Free) }
    {
        Ok(PlaceTable {
            places: repeated(alloc, PAGES, Place::Free)?,
            lost: 0,
            noted: Noted::new(alloc)?,
        })
    }

    /// What holds of every table: its places are well formed, over instances of the complex, and those past the last page
    /// are free.
    pub fn keeps(&self)
        ensures past { (p : ℕ) → 1024 ≤ p → place_at self.now p ≡ PageEntry.Free }
        ensures formed { (p : ℕ) → Formed (place_at self.now p) }
        ensures in_range { (p : ℕ) → InRange (place_at self.now p) }
    {
        let _opened = self.lost;
    }

    /// The page's place.
    pub fn place(&self, p: PageNo) -> &Place
        ensures { seen result.now ≡ place_at self.now p }
    {
        &self.places[p.get() as usize]
    }

    /// The page is at this place. It takes no memory. Who used it before, and now uses no page of its group, isn't noted for the
    /// group any more.
    pub fn put(&mut self, p: PageNo, to: Place)
        requires { Formed (seen to) }
        ensures here { place_at self.new p ≡ seen to }
        ensures others { (q : ℕ) → q ≢ p → place_at self.new q ≡ place_at self.old q }
    {
        let before = self.noted.users(p);
        self.write(p, to);
        self.regroup_left(p, before);
    }

    /// The instance goes down: of each page its copy goes, and what moved to it. It takes no memory, and looks at the pages of
    /// those groups in which the instance has one.
    pub fn fall(&mut self, i: InstNo)
        ensures { (p : ℕ) → place_at self.new p ≡ fallen i (place_at self.old p) }
    {
        self.keeps();
        for group in 0..GROUPS {
            if self.may_use(group, i) {
                self.fall_in(group, i);
            }
        }
    }

    /// Whether the instance may use a page of the group, which has the 32 pages from `GROUP * group` on; `false` says that it
    /// uses none of them.
    pub fn may_use(&self, group: u16, i: InstNo) -> bool
        requires { group < 32 }
        ensures { result ≡ false → (q : ℕ) → 32 * group ≤ q → q < 32 * group + 32 → uses (place_at self.now q) i ≡ false }
    {
        self.noted.has(group, i)
    }

    /// The lowest lost page; `None` exactly where there is none, which is told without a search.
    pub fn first_lost(&self) -> Option<PageNo>
        ensures found { IfSome result (λ p. is_lost (place_at self.now p) ≡ true) }
        ensures lowest { IfSome result (λ p. (q : ℕ) → q < p → is_lost (place_at self.now q) ≡ false) }
        ensures none { IfNone result ((q : ℕ) → is_lost (place_at self.now q) ≡ false) }
    {
        if self.lost == 0 {
            return None;
        }
        lost_page(&self.places)
    }

    // What the fall of `i` leaves of the pages of a group.
    fn fall_in(&mut self, group: u16, i: InstNo)
        requires { group < 32 }
        ensures here { (p : ℕ) → 32 * group ≤ p → p < 32 * group + 32 → place_at self.new p ≡ fallen i (place_at self.old p) }
        ensures below { (q : ℕ) → q < 32 * group → place_at self.new q ≡ place_at self.old q }
        ensures above { (q : ℕ) → 32 * group + 32 ≤ q → place_at self.new q ≡ place_at self.old q }
    {
        let first = GROUP * group;
        for n in first..first + GROUP {
            match PageNo::new(n) {
                Some(p) => self.fall_at(p, i),
                None => {}
            }
        }
        self.regroup(group);
    }

    // What the fall of `i` leaves of the page.
    fn fall_at(&mut self, p: PageNo, i: InstNo)
        ensures here { place_at self.new p ≡ fallen i (place_at self.old p) }
        ensures others { (q : ℕ) → q ≢ p → place_at self.new q ≡ place_at self.old q }
    {
        self.keeps();
        let left = fallen(i, self.place(p));
        self.write(p, left);
    }

    // Writes the page's place. Who used it before stays noted for its group.
    fn write(&mut self, p: PageNo, to: Place)
        requires { Formed (seen to) }
        ensures here { place_at self.new p ≡ seen to }
        ensures others { (q : ℕ) → q ≢ p → place_at self.new q ≡ place_at self.old q }
    {
        laws::users_are_instances(&to);
        let at = p.get() as usize;
        self.lost = recounted(self.lost, &self.places[at], &to);
        self.noted.note(p, &to);
        self.places[at] = to;
    }

    // Who used the page before, and now uses none of its group, isn't noted for the group any more: so a fall looks at those
    // groups alone in which the instance has a page.
    fn regroup_left(&mut self, p: PageNo, before: InstSet)
        ensures { self.new ≡ self.old }
    {
        self.noted.regroup_left(p, before);
    }

    // Who uses no page of the group isn't noted for it any more.
    fn regroup(&mut self, group: u16)
        requires { group < 32 }
        ensures { self.new ≡ self.old }
    {
        self.noted.regroup(group);
    }
}

// The lowest lost page.
fn lost_page(places: &[Place]) -> Option<PageNo>
    requires { length places.now ≡ 1024 }
    ensures { result ≡ position (λ place. is_lost (seen place)) places.now }
{
    match lost_at(places) {
        Some(at) => PageNo::new(at as u16),
        None => None,
    }
}

// Where the first lost page stands.
fn lost_at(places: &[Place]) -> Option<usize>
    ensures { result ≡ position (λ place. is_lost (seen place)) places.now }
{
    places.iter().position(|place| is_lost(place))
}

// The number of lost pages where one of the counted places becomes another.
fn recounted(lost: usize, was: &Place, to: &Place) -> usize
    requires low { is_lost (seen was.now) ≡ true → 1 ≤ lost }
    requires high { lost ≤ 1024 }
    ensures { result + cond {A = ℕ} (is_lost (seen was.now)) 1 0 ≡ lost + cond {A = ℕ} (is_lost (seen to.now)) 1 0 }
{
    let others = if is_lost(was) { lost - 1 } else { lost };
    if is_lost(to) { others + 1 } else { others }
}
