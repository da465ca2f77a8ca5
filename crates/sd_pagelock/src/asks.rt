//! Who asks for which page. The pages that are asked for are listed, and some that were.

ghost use Rattle.std.specs.Prelude.{◌≡◌, ◌≢◌, ◌<◌, ℕ, [], true, false, find, unwrap_or, IfNone, IfSome, OnOk, OnErr};
ghost use Rattle.std.specs.Option.{option_map};
ghost use Rattle.std.specs.Ordering.{nat_cmp};
ghost use Rattle.std.specs.BTreeMap.{get};
ghost use Rattle.std.specs.List.Sorted.{IsStrictlySortedBy};
ghost use Rattle.std.specs.Map.{keys_of};
ghost use Rattle.sd_pagelock.specs.Places.{seen, place_at};
ghost use Rattle.sd_pagelock.specs.Asks.{asks_for, asks_without, can_give, oldest, open_asks, queued, IsOneEach};

use crate::PlaceTable;
use crate::queue::Queue;
use crate::rows::{holds, rests};
use sd_base::{InstNo, Memory, Mode, PageNo, Place};
use std::alloc::Global;
use std::collections::BTreeMap;
use std::marker::Model;

// So many queues without asks may be listed, whatever else is.
const EMPTY_QUEUES: usize = 32;

/// The asks for all pages. Contracts see the listed pages, rising, each with its asks.
#[derive(Drop)]
pub struct Asks {
    queues: BTreeMap<PageNo, Queue>,
    // how many queues were emptied since `unlist_emptied`
    emptied: usize,
}

impl Model for Asks {
    ghost use Rattle.sd_pagelock.specs.Asks.{Queues, AreAsked};

    ghost Value = { Queues };

    ghost view = { λ a. a.queues.entries };

    ghost invariant = { λ a. AreAsked a.queues.entries };
}

impl Asks {
    /// No asks. It takes no memory.
    pub fn new(alloc: Global) -> Asks
        ensures { result ≡ [] }
    {
        Asks {
            queues: BTreeMap::new(alloc),
            emptied: 0,
        }
    }

    /// What holds of all asks: an instance asks once for a page.
    pub fn keeps(&self)
        ensures once { (p : ℕ) → IsOneEach (asks_for self.now p) }
    {
        let _opened = self.queues.is_empty();
    }

    /// One more ask for the page. After `Memory` all is as before.
    pub fn add(&mut self, alloc: Global, p: PageNo, by: InstNo, mode: Mode) -> Result<(), Memory>
        ensures here { OnOk result (asks_for self.new p ≡ queued by mode (asks_for self.old p)) }
        ensures others { (q : ℕ) → q ≢ p → asks_for self.new q ≡ asks_for self.old q }
        ensures err { OnErr result (asks_for self.new p ≡ asks_for self.old p) }
    {
        queue_ask(&mut self.queues, alloc, p, by, mode)
    }

    /// The oldest ask for the page of another instance than `not`.
    pub fn oldest(&self, p: PageNo, not: InstNo) -> Option<(InstNo, Mode)>
        ensures { result ≡ oldest not (asks_for self.now p) }
    {
        match self.queues.get(&p) {
            Some(queue) => queue.oldest(not),
            None => None,
        }
    }

    /// Takes off the asks for the page that this place of it doesn't leave open.
    pub fn close(&mut self, p: PageNo, place: &Place)
        ensures here { asks_for self.new p ≡ open_asks (seen place.now) (asks_for self.old p) }
        ensures others { (q : ℕ) → q ≢ p → asks_for self.new q ≡ asks_for self.old q }
    {
        if is_emptied(&mut self.queues, p, place) {
            self.keep_emptied();
        }
    }

    // An emptied queue stays listed, so that the next ask for its page takes no memory. Those without asks are taken off once
    // they may be many beside the others.
    fn keep_emptied(&mut self)
        ensures { (p : ℕ) → asks_for self.new p ≡ asks_for self.old p }
    {
        let few = EMPTY_QUEUES + self.queues.len() / 2;
        if self.emptied < few {
            self.emptied += 1;
        } else {
            self.unlist_emptied();
        }
    }

    // Takes off the queues without asks.
    fn unlist_emptied(&mut self)
        ensures { (p : ℕ) → asks_for self.new p ≡ asks_for self.old p }
    {
        self.queues.retain(|_, queue| !queue.is_empty());
        self.emptied = 0;
    }

    /// Takes off all asks of the instance.
    pub fn forget(&mut self, i: InstNo)
        ensures { (p : ℕ) → asks_for self.new p ≡ asks_without i (asks_for self.old p) }
    {
        self.queues.retain(|_, queue| {
            queue.forget(i);
            !queue.is_empty()
        });
    }

    /// Takes off what the fall of the instance ends: all asks of it, and those that no place that it left leaves open.
    pub fn fall(&mut self, i: InstNo, places: &PlaceTable)
        ensures { (p : ℕ) → asks_for self.new p
            ≡ open_asks (place_at places.now p) (asks_without i (asks_for self.old p)) }
    {
        self.queues.retain(|p, queue| {
            end_asks(queue, i, *p, places);
            !queue.is_empty()
        });
    }

    /// The lowest page that `i` can give, where these places have it, to another who asks for it: shared or with one alone, and
    /// held by `i`. `None` exactly where there is none. Only listed pages are looked at.
    pub fn first_for(&self, i: InstNo, places: &PlaceTable) -> Option<PageNo>
        ensures found { IfSome result (λ p. can_give (place_at places.now p) i (asks_for self.now p) ≡ true) }
        ensures lowest { IfSome result (λ p. (q : ℕ) → q < p → can_give (place_at places.now q) i (asks_for self.now q) ≡ false) }
        ensures none { IfNone result ((q : ℕ) → can_give (place_at places.now q) i (asks_for self.now q) ≡ false) }
    {
        self.first_listed(i, places)
    }

    // The first of the listed pages that `i` can give.
    fn first_listed(&self, i: InstNo, places: &PlaceTable) -> Option<PageNo>
        ensures value { result ≡ option_map (λ e. e.0) (find (λ e. can_give (place_at places.now e.0) i e.1) self.now) }
        ensures rising { IsStrictlySortedBy nat_cmp (keys_of self.now) }
    {
        self.queues
            .iter()
            .find(|(p, queue)| is_given(i, **p, queue, places))
            .map(|(p, _)| *p)
    }
}

// Whether `i` has the page to give, where these places have it, to another of the queue.
fn is_given(i: InstNo, p: PageNo, queue: &Queue, places: &PlaceTable) -> bool
    ensures { result ≡ can_give (place_at places.now p) i queue.now }
{
    let place = places.place(p);
    rests(place) && holds(place, i) && queue.oldest(i).is_some()
}

// Takes off what the fall of `gone`, which left these places, ends of the asks for the page.
fn end_asks(queue: &mut Queue, gone: InstNo, p: PageNo, places: &PlaceTable)
    ensures { queue.new ≡ open_asks (place_at places.now p) (asks_without gone queue.old) }
{
    queue.forget(gone);
    queue.close(places.place(p));
}

// One more ask for the page.
fn queue_ask(
    queues: &mut BTreeMap<PageNo, Queue>,
    alloc: Global,
    p: PageNo,
    by: InstNo,
    mode: Mode,
) -> Result<(), Memory>
    ensures here { OnOk result (get nat_cmp queues.new p ≡ Some (queued by mode (unwrap_or (get nat_cmp queues.old p) []))) }
    ensures others { (q : ℕ) → q ≢ p → get nat_cmp queues.new q ≡ get nat_cmp queues.old q }
    ensures err { OnErr result (get nat_cmp queues.new p ≡ get nat_cmp queues.old p) }
{
    match queues.get_mut(&p) {
        Some(queue) => queue.add(by, mode),
        None => {
            let queue = Queue::of(alloc, by, mode)?;
            queues.insert(p, queue)?;
            Ok(())
        }
    }
}

// Takes off the asks for the page that this place of it doesn't leave open. Whether none is left of some.
fn is_emptied(queues: &mut BTreeMap<PageNo, Queue>, p: PageNo, place: &Place) -> bool
    ensures here { get nat_cmp queues.new p ≡ option_map (open_asks (seen place.now)) (get nat_cmp queues.old p) }
    ensures others { (q : ℕ) → q ≢ p → get nat_cmp queues.new q ≡ get nat_cmp queues.old q }
{
    match queues.get_mut(&p) {
        Some(queue) => {
            let asked = !queue.is_empty();
            queue.close(place);
            asked && queue.is_empty()
        }
        None => false,
    }
}
