//! The directory: each page's place and RecLSN, what of it is on its way, and the asks for it.

use crate::rows::{changed, receives};
use crate::{Asks, GROUP, GROUPS, PlaceTable, nothing, repeated};
use sd_base::{InstNo, Lsn, Memory, Mode, PAGES, PageNo, Place};
use std::alloc::Global;
use std::marker::Model;

/// The page directory. `I` is what travels when a page moves from pool to pool.
#[derive(Drop)]
pub struct Directory<I> {
    places: PlaceTable,
    rec_lsns: Vec<Option<Lsn>>,
    images: Vec<Option<I>>,
    // what an image of the page can set out in, of each page that is asked for and isn't on its way
    rooms: Vec<Option<I>>,
    asks: Asks,
}

impl<I> Model for Directory<I> {
    ghost use Rattle.std.specs.Prelude.{length};
    ghost use Rattle.sd_pagelock.specs.Directory.{DirectoryState, HaveRoom, IsKept};

    ghost Value = { DirectoryState I };

    ghost view = { λ d. record {
      places = d.places;
      rec_lsns = d.rec_lsns.items;
      images = d.images.items;
      queues = d.asks;
    } };

    ghost invariant = { λ d. IsKept d.places d.rec_lsns.items (length d.images.items)
        × HaveRoom d.asks d.images.items d.rooms.items };
}

impl<I: Drop> Directory<I> {
    ghost use Rattle.std.specs.Prelude.{◌≡◌, ◌≢◌, ◌≤◌, ℕ, [], None, Some, IsTrue, IfNone, IfOk, IfSome, is_some, option_copied, cond, true, false, Option};
    ghost use Rattle.sd_pagelock.specs.Places.{PageEntry, seen, is_free, changed, receives, Formed, InRange};
    ghost use Rattle.sd_pagelock.specs.Rows.{fallen};
    ghost use Rattle.sd_pagelock.specs.Moves.{IsMove};
    ghost use Rattle.sd_pagelock.specs.Asks.{open_asks, asks_without, IsOneEach};
    ghost use Rattle.sd_pagelock.specs.Directory.{entry_at, rec_lsn_at, moving_image_at, asks_at, kept_rec};

    /// The directory of 1,024 free pages, with no asks and nothing on its way. It takes all memory that places need;
    /// room for an image comes with an ask.
    pub fn new(alloc: Global) -> Result<Directory<I>, Memory>
        ensures free { IfOk result (λ d. (p : ℕ) → entry_at d p ≡ PageEntry.Free) }
        ensures clean { IfOk result (λ d. (p : ℕ) → rec_lsn_at d p ≡ None) }
        ensures still { IfOk result (λ d. (p : ℕ) → moving_image_at d p ≡ None) }
        ensures unasked { IfOk result (λ d. (p : ℕ) → asks_at d p ≡ []) }
    {
        Ok(Directory {
            places: PlaceTable::new(alloc)?,
            rec_lsns: repeated(alloc, PAGES, None)?,
            images: nothing(alloc)?,
            rooms: nothing(alloc)?,
            asks: Asks::new(alloc),
        })
    }

    /// What holds of every directory: its places are well formed, over instances of the complex, and those past the last
    /// page are free; a page has a RecLSN exactly where it is changed; an instance asks once for a page.
    pub fn keeps(&self)
        ensures past { (p : ℕ) → 1024 ≤ p → entry_at self.now p ≡ PageEntry.Free }
        ensures formed { (p : ℕ) → Formed (entry_at self.now p) }
        ensures in_range { (p : ℕ) → InRange (entry_at self.now p) }
        ensures marked { (p : ℕ) → is_some (rec_lsn_at self.now p) ≡ changed (entry_at self.now p) }
        ensures once { (p : ℕ) → IsOneEach (asks_at self.now p) }
    {
        self.places.keeps();
        self.asks.keeps();
    }

    /// The page's place.
    pub fn entry(&self, p: PageNo) -> Place
        ensures { seen result ≡ entry_at self.now p }
    {
        *self.places.place(p)
    }

    /// The LSN of the page's first change that the disk doesn't have; `None` exactly where it is free or clean.
    pub fn rec_lsn(&self, p: PageNo) -> Option<Lsn>
        ensures value { result ≡ rec_lsn_at self.now p }
        ensures changed { is_some result ≡ changed (entry_at self.now p) }
    {
        self.rec_lsns[p.get() as usize]
    }

    /// The page moves to this place, by a row of the table. `rec` is the LSN of the change where it is the first that the
    /// disk doesn't have; a page that is changed already keeps its RecLSN, and a clean one has none. The asks that the
    /// place fulfils go; the others keep their order. It takes no memory.
    pub fn set(&mut self, p: PageNo, to: Place, rec: Option<Lsn>)
        requires lawful { IsMove (entry_at self.old p) (seen to) }
        requires first { changed (entry_at self.old p) ≡ false → changed (seen to) ≡ true → is_some rec ≡ true }

        ensures here { entry_at self.new p ≡ seen to }
        ensures rec_lsn { rec_lsn_at self.new p
            ≡ kept_rec (changed (entry_at self.old p)) (changed (seen to)) (rec_lsn_at self.old p) rec }
        ensures asks { asks_at self.new p ≡ open_asks (seen to) (asks_at self.old p) }
        ensures images { (q : ℕ) → moving_image_at self.new q ≡ moving_image_at self.old q }
        ensures others { (q : ℕ) → q ≢ p → entry_at self.new q ≡ entry_at self.old q }
        ensures other_rec_lsns { (q : ℕ) → q ≢ p → rec_lsn_at self.new q ≡ rec_lsn_at self.old q }
        ensures other_asks { (q : ℕ) → q ≢ p → asks_at self.new q ≡ asks_at self.old q }
    {
        self.keeps();
        let rec = self.kept_rec(p, &to, rec);
        self.asks.close(p, &to);
        self.write(p, to, rec);
    }

    /// The instance goes down: of each page its copy goes, and what moved to it. Its asks go, and those that the places
    /// that are left fulfil, all of them where a page is lost; the others keep their order. Each page keeps its RecLSN. It
    /// takes no memory, and looks at the pages of those groups of 32 in which the instance has one.
    pub fn fall(&mut self, i: InstNo)
        ensures places { (p : ℕ) → entry_at self.new p ≡ fallen i (entry_at self.old p) }
        ensures rec_lsns { (p : ℕ) → rec_lsn_at self.new p ≡ rec_lsn_at self.old p }
        ensures asks { (p : ℕ) → asks_at self.new p
            ≡ open_asks (fallen i (entry_at self.old p)) (asks_without i (asks_at self.old p)) }
        ensures images { (p : ℕ) → moving_image_at self.new p
            ≡ cond {A = Option I} (receives (entry_at self.old p) i) None (moving_image_at self.old p) }
    {
        self.keeps();
        for group in 0..GROUPS {
            if self.places.may_use(group, i) {
                self.stop_in(group, i);
            }
        }
        self.places.fall(i);
        self.asks.fall(i, &self.places);
    }

    /// A restart finds that only logs have the page's changes, the first of them at `rec`. It takes no memory.
    pub fn lose(&mut self, p: PageNo, rec: Lsn)
        requires free { IsTrue (is_free (entry_at self.old p)) }
        requires unasked { asks_at self.old p ≡ [] }

        ensures here { entry_at self.new p ≡ PageEntry.Lost }
        ensures rec_lsn { rec_lsn_at self.new p ≡ Some rec }
        ensures images { (q : ℕ) → moving_image_at self.new q ≡ moving_image_at self.old q }
        ensures asks { (q : ℕ) → asks_at self.new q ≡ asks_at self.old q }
        ensures others { (q : ℕ) → q ≢ p → entry_at self.new q ≡ entry_at self.old q }
        ensures other_rec_lsns { (q : ℕ) → q ≢ p → rec_lsn_at self.new q ≡ rec_lsn_at self.old q }
    {
        self.write(p, Place::Lost, Some(rec));
    }

    /// The page's image sets out, in place of one that was on its way. It takes no memory.
    pub fn send(&mut self, p: PageNo, image: I)
        ensures here { moving_image_at self.new p ≡ Some image }
        ensures others { (q : ℕ) → q ≢ p → moving_image_at self.new q ≡ moving_image_at self.old q }
        ensures places { (q : ℕ) → entry_at self.new q ≡ entry_at self.old q }
        ensures rec_lsns { (q : ℕ) → rec_lsn_at self.new q ≡ rec_lsn_at self.old q }
        ensures asks { (q : ℕ) → asks_at self.new q ≡ asks_at self.old q }
    {
        self.images[p.get() as usize] = Some(image);
    }

    /// The page's image that is on its way; `None` exactly where there is none.
    pub fn under_way(&self, p: PageNo) -> Option<&I>
        ensures { option_copied result ≡ moving_image_at self.now p }
    {
        self.images[p.get() as usize].as_ref()
    }

    /// The page's image arrives; `None` exactly where none was on its way. What takes it leaves room for the next that sets
    /// out. It takes no memory.
    pub fn arrive(&mut self, p: PageNo, room: I) -> Option<I>
        ensures value { result ≡ moving_image_at self.old p }
        ensures here { moving_image_at self.new p ≡ None }
        ensures others { (q : ℕ) → q ≢ p → moving_image_at self.new q ≡ moving_image_at self.old q }
        ensures places { (q : ℕ) → entry_at self.new q ≡ entry_at self.old q }
        ensures rec_lsns { (q : ℕ) → rec_lsn_at self.new q ≡ rec_lsn_at self.old q }
        ensures asks { (q : ℕ) → asks_at self.new q ≡ asks_at self.old q }
    {
        let at = p.get() as usize;
        self.rooms[at] = Some(room);
        self.images[at].take()
    }

    /// The page's image arrives, where there is room besides in which the next can set out. `None` where there isn't, and where
    /// none was on its way: nothing changes then. It takes no memory.
    pub fn arrive_again(&mut self, p: PageNo) -> Option<I>
        ensures value { IfSome result (λ image. moving_image_at self.old p ≡ Some image) }
        ensures here { IfSome result (λ image. moving_image_at self.new p ≡ None) }
        ensures stays { IfNone result (moving_image_at self.new p ≡ moving_image_at self.old p) }
        ensures others { (q : ℕ) → q ≢ p → moving_image_at self.new q ≡ moving_image_at self.old q }
        ensures places { (q : ℕ) → entry_at self.new q ≡ entry_at self.old q }
        ensures rec_lsns { (q : ℕ) → rec_lsn_at self.new q ≡ rec_lsn_at self.old q }
        ensures asks { (q : ℕ) → asks_at self.new q ≡ asks_at self.old q }
    {
        let at = p.get() as usize;
        if self.rooms[at].is_none() {
            return None;
        }
        self.images[at].take()
    }
}

impl<I: Drop> Directory<I> {
    ghost use Rattle.std.specs.Prelude.{◌≡◌, ◌≢◌, ◌<◌, ◌≤◌, ◌+◌, ◌*◌, ℕ, None, Option, IfNone, IfOk, IfSome, OnErr, OnOk, is_some, cond, true, false};
    ghost use Rattle.sd_pagelock.specs.Places.{seen, changed, is_lost, receives, Formed};
    ghost use Rattle.sd_pagelock.specs.Asks.{queued, oldest, asks_without};
    ghost use Rattle.sd_pagelock.specs.Directory.{entry_at, rec_lsn_at, moving_image_at, asks_at, is_wanted, kept_rec};

    /// `i` asks for the page: at the end of its asks, or in the place of its older ask, which becomes the stronger of
    /// both. It brings room, in which a copy of the page's image can set out. After `Memory` all is as before.
    pub fn ask(&mut self, i: InstNo, p: PageNo, mode: Mode, room: I) -> Result<(), Memory>
        ensures here { OnOk result (asks_at self.new p ≡ queued i mode (asks_at self.old p)) }
        ensures others { (q : ℕ) → q ≢ p → asks_at self.new q ≡ asks_at self.old q }
        ensures err { OnErr result (asks_at self.new p ≡ asks_at self.old p) }
        ensures places { (q : ℕ) → entry_at self.new q ≡ entry_at self.old q }
        ensures rec_lsns { (q : ℕ) → rec_lsn_at self.new q ≡ rec_lsn_at self.old q }
        ensures images { (q : ℕ) → moving_image_at self.new q ≡ moving_image_at self.old q }
    {
        self.asks.add(*self.rec_lsns.allocator(), p, i, mode)?;
        self.rooms[p.get() as usize] = Some(room);
        Ok(())
    }

    /// `i` asks for the page, as in `ask`, where there is room already in which a copy of the page's image can set out.
    /// `Ok(false)` where there is none yet: nothing changes then, and neither does it after `Memory`.
    pub fn ask_again(&mut self, i: InstNo, p: PageNo, mode: Mode) -> Result<bool, Memory>
        ensures here { IfOk result (λ asked. asks_at self.new p ≡ cond asked (queued i mode (asks_at self.old p)) (asks_at self.old p)) }
        ensures others { (q : ℕ) → q ≢ p → asks_at self.new q ≡ asks_at self.old q }
        ensures err { OnErr result (asks_at self.new p ≡ asks_at self.old p) }
        ensures places { (q : ℕ) → entry_at self.new q ≡ entry_at self.old q }
        ensures rec_lsns { (q : ℕ) → rec_lsn_at self.new q ≡ rec_lsn_at self.old q }
        ensures images { (q : ℕ) → moving_image_at self.new q ≡ moving_image_at self.old q }
    {
        if self.rooms[p.get() as usize].is_none() {
            return Ok(false);
        }
        self.asks.add(*self.rec_lsns.allocator(), p, i, mode)?;
        Ok(true)
    }

    /// The oldest ask for the page of another instance than `not`; `None` exactly where there is none.
    pub fn oldest_ask(&self, p: PageNo, not: InstNo) -> Option<(InstNo, Mode)>
        ensures { result ≡ oldest not (asks_at self.now p) }
    {
        self.asks.oldest(p, not)
    }

    /// The lowest page that `i` can give to another who asks for it: shared or with one alone, and held by `i`. `None`
    /// exactly where there is none. Only pages that are asked for, or were, are looked at.
    pub fn first_for(&self, i: InstNo) -> Option<PageNo>
        ensures found { IfSome result (λ p. is_wanted self.now i p ≡ true) }
        ensures lowest { IfSome result (λ p. (q : ℕ) → q < p → is_wanted self.now i q ≡ false) }
        ensures none { IfNone result ((q : ℕ) → is_wanted self.now i q ≡ false) }
    {
        self.asks.first_for(i, &self.places)
    }

    /// The lowest lost page; `None` exactly where there is none, which is told without a search.
    pub fn first_lost(&self) -> Option<PageNo>
        ensures found { IfSome result (λ p. is_lost (entry_at self.now p) ≡ true) }
        ensures lowest { IfSome result (λ p. (q : ℕ) → q < p → is_lost (entry_at self.now q) ≡ false) }
        ensures none { IfNone result ((q : ℕ) → is_lost (entry_at self.now q) ≡ false) }
    {
        self.places.first_lost()
    }

    /// All asks of `i` are gone; the others keep their order. It takes no memory.
    pub fn forget(&mut self, i: InstNo)
        ensures asks { (q : ℕ) → asks_at self.new q ≡ asks_without i (asks_at self.old q) }
        ensures places { (q : ℕ) → entry_at self.new q ≡ entry_at self.old q }
        ensures rec_lsns { (q : ℕ) → rec_lsn_at self.new q ≡ rec_lsn_at self.old q }
        ensures images { (q : ℕ) → moving_image_at self.new q ≡ moving_image_at self.old q }
    {
        self.asks.forget(i);
    }

    // The RecLSN of the page where it moves to this place.
    fn kept_rec(&self, p: PageNo, to: &Place, rec: Option<Lsn>) -> Option<Lsn>
        ensures { result
            ≡ kept_rec (changed (entry_at self.now p)) (changed (seen to.now)) (rec_lsn_at self.now p) rec }
    {
        if !changed(to) {
            None
        } else if changed(&self.entry(p)) {
            self.rec_lsn(p)
        } else {
            rec
        }
    }

    // What is on its way to `i` of the pages of a group goes no further.
    fn stop_in(&mut self, group: u16, i: InstNo)
        requires { group < 32 }
        ensures here { (p : ℕ) → 32 * group ≤ p → p < 32 * group + 32 → moving_image_at self.new p
            ≡ cond {A = Option I} (receives (entry_at self.old p) i) None (moving_image_at self.old p) }
        ensures below { (q : ℕ) → q < 32 * group → moving_image_at self.new q ≡ moving_image_at self.old q }
        ensures above { (q : ℕ) → 32 * group + 32 ≤ q → moving_image_at self.new q ≡ moving_image_at self.old q }
        ensures places { self.new.places ≡ self.old.places }
        ensures rec_lsns { self.new.rec_lsns ≡ self.old.rec_lsns }
        ensures asks { self.new.queues ≡ self.old.queues }
    {
        let first = GROUP * group;
        for n in first..first + GROUP {
            match PageNo::new(n) {
                Some(p) => self.stop_at(p, i),
                None => {}
            }
        }
    }

    // What is on its way to `i` of the page goes no further.
    fn stop_at(&mut self, p: PageNo, i: InstNo)
        ensures here { moving_image_at self.new p
            ≡ cond {A = Option I} (receives (entry_at self.old p) i) None (moving_image_at self.old p) }
        ensures others { (q : ℕ) → q ≢ p → moving_image_at self.new q ≡ moving_image_at self.old q }
        ensures places { self.new.places ≡ self.old.places }
        ensures rec_lsns { self.new.rec_lsns ≡ self.old.rec_lsns }
        ensures asks { self.new.queues ≡ self.old.queues }
    {
        if receives(self.places.place(p), i) {
            self.keep_room(p);
        }
    }

    // What is on its way of the page goes no further, and is room for the next that sets out.
    fn keep_room(&mut self, p: PageNo)
        ensures here { moving_image_at self.new p ≡ None }
        ensures others { (q : ℕ) → q ≢ p → moving_image_at self.new q ≡ moving_image_at self.old q }
        ensures places { self.new.places ≡ self.old.places }
        ensures rec_lsns { self.new.rec_lsns ≡ self.old.rec_lsns }
        ensures asks { self.new.queues ≡ self.old.queues }
    {
        let at = p.get() as usize;
        if let Some(image) = self.images[at].take() {
            self.rooms[at] = Some(image);
        }
    }

    // Writes the page's place and RecLSN, and leaves its asks.
    fn write(&mut self, p: PageNo, to: Place, rec: Option<Lsn>)
        requires formed { Formed (seen to) }
        requires marked { is_some rec ≡ changed (seen to) }
        ensures here { entry_at self.new p ≡ seen to }
        ensures rec_lsn { rec_lsn_at self.new p ≡ rec }
        ensures images { self.new.images ≡ self.old.images }
        ensures asks { self.new.queues ≡ self.old.queues }
        ensures others { (q : ℕ) → q ≢ p → entry_at self.new q ≡ entry_at self.old q }
        ensures other_rec_lsns { (q : ℕ) → q ≢ p → rec_lsn_at self.new q ≡ rec_lsn_at self.old q }
    {
        self.places.put(p, to);
        self.rec_lsns[p.get() as usize] = rec;
    }
}

impl<T: Copy + Drop> Directory<Box<T>> {
    ghost use Rattle.std.specs.Prelude.{◌≡◌, ◌≢◌, ℕ, [], Some, option_map};
    ghost use Rattle.std.specs.Box.{box_value};
    ghost use Rattle.sd_pagelock.specs.Directory.{entry_at, rec_lsn_at, moving_image_at, asks_at};

    /// A copy of the image of a page that is asked for sets out, in the room that an ask brought. It takes no memory.
    pub fn send_copy(&mut self, p: PageNo, image: &T)
        requires { asks_at self.old p ≢ [] }
        ensures here { option_map box_value (moving_image_at self.new p) ≡ Some image.now }
        ensures others { (q : ℕ) → q ≢ p → moving_image_at self.new q ≡ moving_image_at self.old q }
        ensures places { (q : ℕ) → entry_at self.new q ≡ entry_at self.old q }
        ensures rec_lsns { (q : ℕ) → rec_lsn_at self.new q ≡ rec_lsn_at self.old q }
        ensures asks { (q : ℕ) → asks_at self.new q ≡ asks_at self.old q }
    {
        let at = p.get() as usize;
        let room = match self.rooms[at].take() {
            Some(room) => Some(room),
            None => self.images[at].take(),
        };
        if let Some(mut room) = room {
            *room = *image;
            self.images[at] = Some(room);
        }
    }
}
