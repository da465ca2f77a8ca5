//! The records that a transfer logs: the changes of two records of a page, and a commit.

ghost use Rattle.std.specs.Prelude.{◌≡◌, ◌<◌, ◌≤◌, ◌^◌, option_copied};
ghost use Rattle.sd_logrec.specs.Lent.{update_record};
ghost use Rattle.sd_logrec.specs.Spelling.{HasSpelling, IsValue};

use sd_base::{InstNo, Lsn, PageNo, TxnId};
use sd_logrec::{Record, Update};

// The last three digits of a number.
type Digits = [u8; 3];

/// A transfer: whose it is, its number, the LSN of its first record, its page, and the values before and behind it, which its
/// records lend.
#[derive(Drop)]
pub struct Transfer {
    inst: InstNo,
    number: u32,
    first: Lsn,
    page: PageNo,
    before: Option<Digits>,
    after: Digits,
}

impl Transfer {
    /// The transfer of this number, behind the one that changed the page before it. A transfer leaves the digits of its number.
    pub fn new(inst: InstNo, number: u32, first: Lsn, page: PageNo, before: Option<u32>) -> Self
        ensures { result.first ≡ first }
    {
        Transfer {
            inst,
            number,
            first,
            page,
            before: before.map(digits),
            after: digits(number),
        }
    }

    /// The change of the record in slot 0: what the one before it left, or none, becomes its own number.
    pub fn first_change(&self) -> Update<'_>
        requires low { 1 ≤ self.now.first }
        requires high { self.now.first < 2 ^ 61 }
        ensures { HasSpelling (update_record result) }
    {
        self.change(self.first, 0, 0)
    }

    /// The same of the record in slot 1.
    pub fn second_change(&self) -> Update<'_>
        requires low { 1 ≤ self.now.first }
        requires high { self.now.first < 2 ^ 61 }
        ensures { HasSpelling (update_record result) }
    {
        self.change(self.first + 1, self.first, 1)
    }

    fn change(&self, lsn: Lsn, prev: Lsn, slot: u16) -> Update<'_>
        requires low { 1 ≤ lsn }
        requires high { lsn < 2 ^ 62 }
        requires prev { prev < 2 ^ 64 }
        requires slot { slot < 2 }
        ensures { HasSpelling (update_record result) }
    {
        Update {
            lsn,
            txn: self.txn(),
            prev,
            page: self.page(),
            slot,
            capacity: 3,
            before: lent(&self.before),
            after: Some(self.after.as_slice()),
        }
    }

    /// The commit behind both changes.
    pub fn commit(&self) -> Record
        requires low { 1 ≤ self.now.first }
        requires high { self.now.first < 2 ^ 61 }
        ensures { HasSpelling result }
    {
        Record::Commit {
            lsn: self.first + 2,
            txn: self.txn(),
            prev: self.first + 1,
        }
    }

    fn page(&self) -> PageNo {
        self.page
    }

    fn txn(&self) -> TxnId
        ensures epoch { 1 ≤ result.epoch }
        ensures seq { 1 ≤ result.seq }
    {
        TxnId {
            inst: self.inst,
            epoch: 1,
            seq: self.number.saturating_add(1),
        }
    }
}

// What a transfer left, or none.
fn lent(value: &Option<Digits>) -> Option<&[u8]>
    ensures { IsValue (option_copied result) }
{
    match value {
        Some(digits) => all(digits),
        None => None,
    }
}

fn all(digits: &Digits) -> Option<&[u8]>
    ensures { IsValue (option_copied result) }
{
    Some(digits.as_slice())
}

fn digits(n: u32) -> Digits {
    [digit(n / 100), digit(n / 10), digit(n)]
}

fn digit(n: u32) -> u8 {
    b'0' + (n % 10) as u8
}
