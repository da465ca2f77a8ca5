//! A record that is lent until a log has its bytes.

ghost use Rattle.std.specs.Prelude.{◌≡◌, length};
ghost use Rattle.sd_logrec.specs.Lent.{update_record};
ghost use Rattle.sd_logrec.specs.Spelling.{HasSpelling, spelling};
ghost use Rattle.sd_logrec.specs.View.{flat, is_closing, page_of};
ghost use Rattle.sd_logrec.specs.Writing.{Appends, HasRoom};

use crate::Record;
use sd_base::{Lsn, PageNo, TxnId, lent_len};
use std::marker::Model;

/// An Update whose values are lent, with the fields that `Record::Update` has.
#[derive(Clone, Copy)]
pub struct Update<'a> {
    pub lsn: Lsn,
    pub txn: TxnId,
    pub prev: Lsn,
    pub page: PageNo,
    pub slot: u16,
    pub capacity: u16,
    pub before: Option<&'a [u8]>,
    pub after: Option<&'a [u8]>,
}

impl<'a> Update<'a> {
    /// The length of its spelling in bytes.
    pub fn len(&self) -> usize
        requires { HasSpelling (update_record self.now) }
        ensures { result ≡ length (spelling (update_record self.now)) }
    {
        38 + lent_len(self.before) + lent_len(self.after)
    }
}

/// A record that is lent: a whole one, or an Update whose values are lent, so that none is copied for it. Contracts see it as the
/// record.
#[derive(Drop)]
pub struct Lent<'a> {
    held: Held<'a>,
}

// How it is held.
#[derive(Drop)]
enum Held<'a> {
    Whole(&'a Record),
    Update(&'a Update<'a>),
}

impl<'a> Model for Lent<'a> {
    ghost use Rattle.sd_logrec.specs.declared.record.Record.{Record};
    ghost use Rattle.sd_logrec.specs.Lent.{lent_record};

    ghost Value = { Record };

    ghost view = { λ l. lent_record l.held };
}

impl<'a> Lent<'a> {
    /// A whole record.
    pub fn whole(rec: &'a Record) -> Self
        ensures { result ≡ rec.now }
    {
        Lent {
            held: Held::Whole(rec),
        }
    }

    /// An Update.
    pub fn update(update: &'a Update<'a>) -> Self
        ensures { result ≡ update_record update.now }
    {
        Lent {
            held: Held::Update(update),
        }
    }

    /// Its LSN.
    pub fn lsn(&self) -> Lsn
        ensures { result ≡ (flat self.now).lsn }
    {
        match &self.held {
            Held::Whole(rec) => rec.lsn(),
            Held::Update(update) => update.lsn,
        }
    }

    /// The page that it changes, of an Update or a CLR.
    pub fn page(&self) -> Option<PageNo>
        ensures { result ≡ page_of self.now }
    {
        match &self.held {
            Held::Whole(rec) => rec.page(),
            Held::Update(update) => Some(update.page),
        }
    }

    /// Whether it ends what an earlier record of its transaction began: whether it is a CLR, a Commit or an End.
    pub fn is_closing(&self) -> bool
        ensures { result ≡ is_closing self.now }
    {
        match &self.held {
            Held::Whole(rec) => rec.is_closing(),
            Held::Update(_) => false,
        }
    }

    /// The length of its spelling in bytes.
    pub fn len(&self) -> usize
        requires { HasSpelling self.now }
        ensures { result ≡ length (spelling self.now) }
    {
        match &self.held {
            Held::Whole(rec) => rec.len(),
            Held::Update(update) => update.len(),
        }
    }

    /// Appends its spelling where there is room for it. It takes no memory.
    pub fn write(&self, out: &mut Vec<u8>)
        requires fits { HasSpelling self.now }
        requires room { HasRoom out.old (spelling self.now) }
        ensures { Appends out.old out.new (spelling self.now) }
    {
        match &self.held {
            Held::Whole(rec) => rec.write(out),
            Held::Update(update) => update.write(out),
        }
    }
}
