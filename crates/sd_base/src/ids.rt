//! Names of instances, pages, records and transactions, each in its order.

ghost use Rattle.std.specs.Prelude.{◌≡◌, ℕ, ◌<◌, ◌≤◌, ◌^◌, ◌↔◌, IsSome, IfSome};

use std::marker::Model;

/// A log sequence number: it orders the changes of one page across all logs (ARIES, section 3).
pub type Lsn = u64;

/// An instance of the complex, 1 to 8.
#[derive(Clone, Copy, Debug, PartialEq, Eq, PartialOrd, Ord, Hash)]
pub struct InstNo {
    number: u8,
}

impl Model for InstNo {
    ghost Value = { ℕ };

    ghost view = { λ i. i.number };

    ghost invariant = { λ i. (1 ≤ i.number) × (i.number ≤ 8) };

    ghost inverse = { λ n. record { number = n } };
}

impl InstNo {
    /// The instance of this number; `None` exactly where it isn't 1 to 8.
    pub fn new(n: u8) -> Option<InstNo>
        ensures valid { IsSome result ↔ ((1 ≤ n) × (n ≤ 8)) }
        ensures value { IfSome result (λ i. i ≡ n) }
    {
        if n >= 1 && n <= 8 {
            Some(InstNo { number: n })
        } else {
            None
        }
    }

    /// Its number.
    pub fn get(self) -> u8
        ensures value { result ≡ self }
        ensures low { 1 ≤ result }
        ensures high { result ≤ 8 }
    {
        self.number
    }

    /// What holds of every instance, for a proof that has one: its number is 1 to 8.
    pub fn keeps(self)
        ensures low { 1 ≤ self }
        ensures high { self ≤ 8 }
    {
        let _number = self.get();
    }
}

/// A page of the data device, 0 to 1,023.
#[derive(Clone, Copy, Debug, PartialEq, Eq, PartialOrd, Ord, Hash)]
pub struct PageNo {
    number: u16,
}

impl Model for PageNo {
    ghost Value = { ℕ };

    ghost view = { λ p. p.number };

    ghost invariant = { λ p. p.number < 1024 };

    ghost inverse = { λ n. record { number = n } };
}

impl PageNo {
    /// The page of this number; `None` exactly where it isn't below 1,024.
    pub fn new(n: u16) -> Option<PageNo>
        ensures valid { IsSome result ↔ (n < 1024) }
        ensures value { IfSome result (λ p. p ≡ n) }
    {
        if n < 1024 {
            Some(PageNo { number: n })
        } else {
            None
        }
    }

    /// Its number.
    pub fn get(self) -> u16
        ensures value { result ≡ self }
        ensures range { result < 1024 }
    {
        self.number
    }

    /// What holds of every page's number, for a proof that has one: it is below 1,024.
    pub fn keeps(self)
        ensures { self < 1024 }
    {
        let _number = self.get();
    }
}

/// A record: a slot of a page.
#[derive(Clone, Copy, Debug, PartialEq, Eq, PartialOrd, Ord, Hash)]
pub struct Rid {
    pub page: PageNo,
    pub slot: u16,
}

/// A transaction: the `seq`-th that began in this epoch of its instance.
#[derive(Clone, Copy, Debug, PartialEq, Eq, PartialOrd, Ord, Hash)]
pub struct TxnId {
    pub inst: InstNo,
    pub epoch: u32,
    pub seq: u32,
}

impl TxnId {
    /// What holds of every transaction's name, for a proof that has one: its numbers are in their ranges.
    pub fn keeps(&self)
        ensures low { 1 ≤ self.now.inst }
        ensures high { self.now.inst ≤ 8 }
        ensures epoch { self.now.epoch < 2 ^ 32 }
        ensures seq { self.now.seq < 2 ^ 32 }
    {
        let _inst = self.inst.get();
        let _epoch = self.epoch;
        let _seq = self.seq;
    }
}
