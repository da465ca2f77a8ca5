//! What stands behind a turnstile, and what a turn of it answers.

ghost use Rattle.std.specs.Prelude.{◌≡◌, ℕ, List, length};
ghost use Rattle.sd_turnstile.specs.Turns.{IsNext};

use sd_base::{InstNo, PageNo, TxnId};
use std::sync::Wait;
use std::thread::Threads;

/// Why an instance had nothing to do in a turn.
#[derive(Clone, Copy)]
pub enum Why {
    /// Its transaction waits for this one.
    Blocked { by: TxnId },
    /// It asked this instance for a page.
    Asked { of: InstNo },
    /// The page that it needs is on its way to this instance.
    MovingTo { to: InstNo },
    /// The page that it needs is lost.
    Lost { page: PageNo },
    /// It has nothing to do.
    Idle,
}

/// What a turn came to.
#[derive(Clone, Copy)]
pub enum Turn {
    /// An event happened, and was noted.
    Did,
    /// None did.
    NotReady { why: Why },
    /// The instance has no more turns to take.
    Ended,
    /// There was no memory.
    Short,
}

/// A value on which instances work one after another, a turn each.
pub trait Shift {
    ghost use Rattle.sd_turnstile.specs.declared.shift.Turn.{Turn};

    type Entry;

    /// What happened so far.
    ghost history: { Self → List Self.Entry };

    /// What a turn asks of the value, and leaves.
    ghost stands: { Self → Type 0 };

    /// A turn of this instance, with this answer, led from the one value to the other.
    ghost turns: { Self → ℕ → Turn → Self → Type 0 };

    /// Makes a turn of the instance: one entry more where it answers `Did`, and none at any other answer.
    fn turn<R: Threads + Wait + Sync>(&mut self, rt: &R, inst: InstNo) -> Turn
        requires stands { stands self.old }
        ensures stands { stands self.new }
        ensures turns { turns self.old inst result self.new }
        ensures history { IsNext (history self.old) (history self.new) result };

    /// How many entries there are.
    fn length(&self) -> u64
        ensures length { result ≡ length (history self.now) };
}
