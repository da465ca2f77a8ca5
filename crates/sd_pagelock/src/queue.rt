//! The asks for one page, in the order in which they came.

ghost use Rattle.std.specs.Prelude.{◌≡◌, [], ◌∷◌, List, IfOk, OnOk, OnErr, IsTrue, ◌↔◌, position, eqb};
ghost use Rattle.sd_pagelock.specs.Places.{seen};
ghost use Rattle.sd_pagelock.specs.Asks as asks;

use crate::rows::{holds_as, is_lost};
use sd_base::{InstNo, Memory, Mode, Place};
use std::alloc::Global;
use std::marker::Model;

/// An instance asks for a page, in a mode.
#[derive(Clone, Copy, PartialEq, Eq)]
pub struct Ask {
    pub by: InstNo,
    pub mode: Mode,
}

/// The asks for one page. Contracts see their list, the oldest first.
#[derive(Drop)]
pub(crate) struct Queue {
    asks: Vec<Ask>,
}

impl Model for Queue {
    ghost use Rattle.std.specs.Prelude.{List};
    ghost use Rattle.sd_pagelock.specs.declared.queue.Ask.{Ask};

    ghost Value = { List Ask };

    ghost view = { λ q. q.asks.items };
}

impl Queue {
    /// The queue of one ask.
    pub(crate) fn of(alloc: Global, by: InstNo, mode: Mode) -> Result<Queue, Memory>
        ensures { IfOk result (λ q. q ≡ asks.queued by mode []) }
    {
        let mut asks = Vec::new(alloc);
        asks.push(Ask { by, mode })?;
        Ok(Queue { asks })
    }

    /// Queues an ask at the end, or makes the instance's older ask the stronger of both. After `Memory` it is as before.
    pub(crate) fn add(&mut self, by: InstNo, mode: Mode) -> Result<(), Memory>
        ensures ok { OnOk result (self.new ≡ asks.queued by mode self.old) }
        ensures err { OnErr result (self.new ≡ self.old) }
    {
        match self.place_of(by) {
            Some(at) => {
                let ask = &mut self.asks[at];
                ask.mode = stronger(ask.mode, mode);
            }
            None => self.asks.push(Ask { by, mode })?,
        }
        Ok(())
    }

    /// The first ask of another instance than `not`.
    pub(crate) fn oldest(&self, not: InstNo) -> Option<(InstNo, Mode)>
        ensures { result ≡ asks.oldest not self.now }
    {
        self.asks
            .iter()
            .find(|ask| ask.by != not)
            .map(|ask| (ask.by, ask.mode))
    }

    /// Takes off the asks that this place doesn't leave open.
    pub(crate) fn close(&mut self, place: &Place)
        ensures { self.new ≡ asks.open_asks (seen place.now) self.old }
    {
        self.asks.retain(|ask| !(is_lost(place) || holds_as(ask.mode, place, ask.by)));
    }

    /// Takes off the instance's ask.
    pub(crate) fn forget(&mut self, i: InstNo)
        ensures { self.new ≡ asks.asks_without i self.old }
    {
        self.asks.retain(|ask| ask.by != i);
    }

    // Where the instance's ask stands.
    fn place_of(&self, by: InstNo) -> Option<usize>
        ensures { result ≡ position (λ ask. eqb ask.by by) self.now }
    {
        self.asks.iter().position(|ask| ask.by == by)
    }

    /// Whether nobody asks.
    pub(crate) fn is_empty(&self) -> bool
        ensures { result ≡ asks.nobody self.now }
    {
        self.asks.is_empty()
    }
}

fn stronger(a: Mode, b: Mode) -> Mode
    ensures { result ≡ asks.stronger a b }
{
    match a {
        Mode::Shared => b,
        Mode::Excl => Mode::Excl,
    }
}
