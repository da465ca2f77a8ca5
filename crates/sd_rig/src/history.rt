//! What was done to the devices in memory, in its order. Clauses alone read it, so it takes no memory. It knows nothing of the
//! devices' contents.

ghost use Rattle.std.specs.Prelude.{◌≡◌, List, [], ◌∷◌, ◌++◌};
ghost use Rattle.std.specs.Borrow.{ftrue};
ghost use Rattle.sd_rig.specs.History.{Event, Crashed, Poked, Synced, Wrote, event_of, pick_of};

use sd_base::Pick;
use std::marker::{Model, PhantomData, Send, Sync};

// The first number of an event: its kind.
const WROTE: u64 = 0;

const SYNCED: u64 = 1;

const CRASHED: u64 = 2;

const POKED: u64 = 3;

/// The events so far.
#[derive(Drop)]
pub struct History {
    marker: PhantomData<u8>,
    pub ghost events: { List Event },
}

impl Model for History {
    ghost also_owns = { λ _. ftrue };
}

// It owns nothing, so threads may hand it on, and share it.
unsafe impl Send for History {}

unsafe impl Sync for History {}

impl History {
    /// No events.
    pub fn new() -> History
        ensures { result.events ≡ [] }
    {
        History {
            marker: PhantomData,
        }
    }

    // Notes the event of these numbers and bytes. The proof is a walk by hand (`proofs/history/History/note`).
    fn note(&mut self, _numbers: &[u64], _bytes: &[u8])
        ensures { self.new.events ≡ self.old.events ++ event_of _numbers.now _bytes.now ∷ [] }
    {}

    /// Notes a write.
    pub fn note_write(&mut self, dev: u8, at: u32, bytes: &[u8], ok: bool)
        ensures { self.new.events ≡ self.old.events ++ Wrote dev at bytes.now ok ∷ [] }
    {
        self.note(&[WROTE, dev as u64, at as u64, ok as u64], bytes);
    }

    /// Notes a sync.
    pub fn note_sync(&mut self, dev: u8, ok: bool)
        ensures { self.new.events ≡ self.old.events ++ Synced dev ok ∷ [] }
    {
        self.note(&[SYNCED, dev as u64, ok as u64], &[]);
    }

    /// Notes a crash.
    pub fn note_crash(&mut self, pick: Pick)
        ensures { self.new.events ≡ self.old.events ++ Crashed pick ∷ [] }
    {
        self.note(&[CRASHED, number_of(pick)], &[]);
    }

    /// Notes a poke.
    pub fn note_poke(&mut self, dev: u8, at: u32, byte: u8)
        ensures { self.new.events ≡ self.old.events ++ Poked dev at byte ∷ [] }
    {
        self.note(&[POKED, dev as u64, at as u64, byte as u64], &[]);
    }
}

// The number of a pick.
fn number_of(pick: Pick) -> u64
    ensures { pick_of result ≡ pick }
{
    match pick {
        Pick::Keep => 0,
        Pick::Lose => 1,
        Pick::Tear => 2,
        Pick::Junk => 3,
    }
}
