//! One transaction: its undo stack, and the marks in it.

ghost use Rattle.std.specs.Prelude.{◌≡◌, OnErr, OnOk, Some, filter, leb, option_copied, vec_items};
ghost use Rattle.std.specs.Map.{lookup};
ghost use Rattle.std.specs.Str.{bytes_eq};
ghost use Rattle.sd_txn.specs.Kept.{undo_of};
ghost use Rattle.sd_txn.specs.Marked.{ends_above as is_above, named, AreRising};
ghost use Rattle.sd_txn.specs.Transactions.{depth, mark_of, noted, popped, pushed, saved, shut, started, top, with_mark, with_state};

use crate::owed::undo_len;
use crate::{OpenRec, TxnState};
use indexmap::IndexMap;
use sd_base::{Lsn, Memory, Word};
use std::alloc::Global;
use std::marker::Model;

/// An unresolved transaction. A mark is the number of records that were open when it was saved, by its name, in the
/// order of the saves; so the marks above a number are the last ones. The bytes of its undo are a running sum.
#[derive(Drop)]
pub(crate) struct Txn {
    state: TxnState,
    marks: IndexMap<Vec<u8>, usize>,
    stack: Vec<OpenRec>,
    undo: u64,
    span: Option<(Lsn, Lsn)>,
}

impl Model for Txn {
    ghost use Rattle.std.specs.Prelude.{length, vec_items};
    ghost use Rattle.sd_txn.specs.Kept.{IsTxn};
    ghost use Rattle.sd_txn.specs.Marked.{named};
    ghost use Rattle.sd_txn.specs.Transactions.{Transaction};

    ghost Value = { Transaction };

    ghost view = { λ x. record { state = x.state; marks = named vec_items x.marks.entries; stack = x.stack.items; span = x.span } };

    ghost invariant = { λ x. IsTxn (named vec_items x.marks.entries) x.stack.items x.undo };
}

impl Txn {
    /// A transaction that stands so, of which no record is known.
    pub(crate) fn new(alloc: Global, state: TxnState) -> Txn
        ensures { result ≡ started state }
    {
        Txn {
            state,
            marks: IndexMap::new(alloc),
            stack: Vec::new(alloc),
            undo: 0,
            span: None,
        }
    }

    /// How it stands.
    pub(crate) fn state(&self) -> TxnState
        ensures { result ≡ self.now.state }
    {
        self.state
    }

    /// Changes how it stands.
    pub(crate) fn set(&mut self, state: TxnState)
        ensures { self.new ≡ with_state state self.old }
    {
        self.state = state;
    }

    /// The LSNs of its first and last record.
    pub(crate) fn span(&self) -> Option<(Lsn, Lsn)>
        ensures { result ≡ self.now.span }
    {
        self.span
    }

    /// Tells of a record of it.
    pub(crate) fn note(&mut self, lsn: Lsn)
        ensures { self.new ≡ noted lsn self.old }
    {
        let first = match self.span {
            Some((first, _last)) => first,
            None => lsn,
        };
        self.span = Some((first, lsn));
    }

    /// Marks this place, in place of an older mark of the name. `Memory` changes nothing.
    pub(crate) fn save(&mut self, mark: Word) -> Result<(), Memory>
        ensures ok { OnOk result (self.new ≡ saved mark self.old) }
        ensures number { OnOk result (mark_of mark self.new ≡ Some (depth self.old)) }
        ensures err { OnErr result (self.new ≡ self.old) }
    {
        let name = mark.items().to_vec(*self.stack.allocator())?;
        put_mark(&mut self.marks, name, self.stack.len())?;
        Ok(())
    }

    /// The number of records that were open at a mark.
    pub(crate) fn mark(&self, mark: &Word) -> Option<usize>
        ensures { result ≡ mark_of mark.now self.now }
    {
        self.marks.get(mark.items()).copied()
    }

    /// Opens a record. `Memory` comes also where the bytes of its undo would pass 2^64; it changes nothing.
    pub(crate) fn push(&mut self, rec: OpenRec) -> Result<(), Memory>
        ensures ok { OnOk result (self.new ≡ pushed rec self.old) }
        ensures err { OnErr result (self.new ≡ self.old) }
    {
        let Some(undo) = self.undo.checked_add(undo_len(&rec)) else {
            return Err(Memory);
        };
        self.stack.push(rec)?;
        self.undo = undo;
        Ok(())
    }

    /// The open record that is undone next.
    pub(crate) fn top(&self) -> Option<&OpenRec>
        ensures { option_copied result ≡ top self.now }
    {
        self.stack.last()
    }

    /// Hands out the open record that is undone next, and takes out the marks above what is left.
    pub(crate) fn pop(&mut self) -> Option<OpenRec>
        ensures value { result ≡ top self.old }
        ensures rest { self.new ≡ popped self.old }
    {
        let top = self.stack.pop()?;
        self.undo -= undo_len(&top);
        trim(&mut self.marks, self.stack.len());
        Some(top)
    }

    /// Lets go of what is open and of the span, and takes out the marks above 0.
    pub(crate) fn shut(&mut self)
        ensures { self.new ≡ shut self.old }
    {
        self.stack.clear();
        self.undo = 0;
        self.span = None;
        trim(&mut self.marks, 0);
    }

    /// How many records are open.
    pub(crate) fn depth(&self) -> usize
        ensures { result ≡ depth self.now }
    {
        self.stack.len()
    }

    /// The bytes of the undo of its open records.
    pub(crate) fn undo(&self) -> u64
        ensures { result ≡ undo_of self.now }
    {
        self.undo
    }
}

// Puts a mark at the end, in place of an older one of its name. `Memory` changes nothing.
fn put_mark(
    marks: &mut IndexMap<Vec<u8>, usize>,
    name: Vec<u8>,
    number: usize,
) -> Result<(), Memory>
    ensures ok { OnOk result (named vec_items marks.new.entries ≡ with_mark name.items number (named vec_items marks.old.entries)) }
    ensures number { OnOk result (lookup (bytes_eq name.items) (named vec_items marks.new.entries) ≡ Some number) }
    ensures err { OnErr result (named vec_items marks.new.entries ≡ named vec_items marks.old.entries) }
{
    marks.reserve(1)?;
    marks.shift_remove(name.as_slice());
    marks.insert(name, number).unwrap();
    Ok(())
}

// Takes out the marks above a number, which are the last ones.
fn trim(marks: &mut IndexMap<Vec<u8>, usize>, left: usize)
    requires { AreRising (named vec_items marks.old.entries) }
    ensures { named vec_items marks.new.entries ≡ filter (λ mark. leb mark.1 left) (named vec_items marks.old.entries) }
{
    while ends_above(marks, left) {
        marks.pop();
    }
}

// Whether the last mark is above a number.
fn ends_above(marks: &IndexMap<Vec<u8>, usize>, left: usize) -> bool
    ensures { result ≡ is_above left (named vec_items marks.now.entries) }
{
    match marks.last() {
        Some((_name, number)) => *number > left,
        None => false,
    }
}
