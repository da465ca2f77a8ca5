//! The parts of a complex, lent to be read.

ghost use Rattle.std.specs.Prelude.{◌≡◌};
ghost use Rattle.sd_pagelock.specs.Directory.{entry_at};
ghost use Rattle.sd_pagelock.specs.Places.{seen};
ghost use Rattle.sd_state.specs.Complexes.{parts};
ghost use Rattle.sd_state.specs.Parts.{IsShape, log_at, status_at, txns_at};

use crate::complex::Complex;
use sd_base::{InstNo, PageNo, Place, Status};
use sd_log::Log;
use sd_page::Image;
use sd_pagelock::Directory;
use sd_txn::TxnTable;

impl<G> Complex<G> {
    /// How an instance stands.
    pub fn status(&self, i: InstNo) -> Status
        requires { IsShape (parts self.now) }
        ensures { result ≡ status_at (parts self.now) i }
    {
        self.statuses[i.get() as usize - 1]
    }

    /// Where a page is.
    pub fn entry(&self, p: PageNo) -> Place
        ensures { seen result ≡ entry_at (parts self.now).directory p }
    {
        self.directory.entry(p)
    }

    /// The log of an instance.
    pub fn log(&self, i: InstNo) -> &Log
        requires { IsShape (parts self.now) }
        ensures { result.now ≡ log_at (parts self.now) i }
    {
        &self.logs[i.get() as usize - 1]
    }

    /// The transactions of an instance.
    pub fn txns(&self, i: InstNo) -> &TxnTable
        requires { IsShape (parts self.now) }
        ensures { result.now ≡ txns_at (parts self.now) i }
    {
        &self.txns[i.get() as usize - 1]
    }

    /// The page directory.
    pub fn directory(&self) -> &Directory<Box<Image>>
        ensures { result.now ≡ self.now.directory }
    {
        &self.directory
    }

    /// The devices, and the complex no more: what a failure of the whole complex leaves.
    pub fn images(self) -> G
        ensures { result ≡ self.rig }
    {
        self.rig
    }
}
