//! The greatest LSN, and how many records are owed: by what is kept of each log, without a look at its records.

ghost use Rattle.std.specs.Prelude.{◌≡◌, ◌+◌, ◌-◌, ◌^◌, ◌<◌, cond, eqb, max, min};
ghost use Rattle.sd_log.specs.Logs.{last_lsn, scanned};
ghost use Rattle.sd_state.specs.Complexes.{parts};
ghost use Rattle.sd_state.specs.Parts.{IsShape, log_at};
ghost use Rattle.sd_state.specs.Sums.{great_of, most_to, owed_above, owed_where, owes_above, owes_most};

use crate::complex::Complex;
use sd_base::{InstNo, Lsn, Status};
use std::cmp;

impl<G> Complex<G> {
    /// At or above each LSN of a record or of a page.
    pub fn great(&self) -> Lsn
        requires shape { IsShape (parts self.now) }
        ensures { result ≡ great_of (parts self.now) }
    {
        cmp::max(self.disk_lsn, self.last_lsn())
    }

    // The greatest LSN of a record.
    fn last_lsn(&self) -> Lsn
        requires shape { IsShape (parts self.now) }
        ensures { result ≡ most_to (λ j. last_lsn (scanned (log_at (parts self.now) j))) 8 }
    {
        let mut last = 0;
        for n in 0..8u8 {
            last = cmp::max(last, self.last_of(n));
        }
        last
    }

    // The last LSN of the log of instance n + 1.
    fn last_of(&self, n: u8) -> Lsn
        requires shape { IsShape (parts self.now) }
        requires eight { n < 8 }
        ensures { result ≡ last_lsn (scanned (log_at (parts self.now) (n + 1))) }
    {
        self.logs[n as usize].last_lsn()
    }

    /// The records that all logs owe at most where log i owes so many; 2^64 - 1 where they are more.
    pub fn owed_where(&self, i: InstNo, own: u64) -> u64
        requires shape { IsShape (parts self.now) }
        ensures { result ≡ min (owed_where i own (parts self.now)) (2 ^ 64 - 1) }
    {
        let mut sum: u64 = 0;
        for n in 0..8u8 {
            sum = sum.saturating_add(self.owes_where(n, i, own));
        }
        sum
    }

    /// At or above what all logs owe at most, without a look at how they stand; 2^64 - 1 where that is more.
    pub fn owed_above(&self) -> u64
        requires shape { IsShape (parts self.now) }
        ensures { result ≡ min (owed_above (parts self.now)) (2 ^ 64 - 1) }
    {
        let mut sum: u64 = 0;
        for n in 0..8u8 {
            sum = sum.saturating_add(self.owes_above(n));
        }
        sum
    }

    // At or above what the log of instance n + 1 owes; 2^64 - 1 where that is more.
    fn owes_above(&self, n: u8) -> u64
        requires shape { IsShape (parts self.now) }
        requires eight { n < 8 }
        ensures { result ≡ min (owes_above (parts self.now) (n + 1)) (2 ^ 64 - 1) }
    {
        let at = n as usize;
        cmp::max(self.owed[at], self.txns[at].owed())
    }

    // What the log of instance n + 1 owes, where log i owes so many.
    fn owes_where(&self, n: u8, i: InstNo, own: u64) -> u64
        requires shape { IsShape (parts self.now) }
        requires eight { n < 8 }
        ensures { result ≡ min (cond (eqb (n + 1) i) own (owes_most (parts self.now) (n + 1))) (2 ^ 64 - 1) }
    {
        if n + 1 == i.get() {
            own
        } else {
            self.owes_most(n)
        }
    }

    // What the log of instance n + 1 owes, with its tail or without it, whichever is more; 2^64 - 1 where that is more.
    fn owes_most(&self, n: u8) -> u64
        requires shape { IsShape (parts self.now) }
        requires eight { n < 8 }
        ensures { result ≡ min (owes_most (parts self.now) (n + 1)) (2 ^ 64 - 1) }
    {
        let at = n as usize;
        if self.loose[at + 1] {
            return self.owed[at];
        }
        match self.statuses[at] {
            Status::Down | Status::Closed => self.owed[at],
            _ => cmp::max(self.owed[at], self.txns[at].owed()),
        }
    }
}
