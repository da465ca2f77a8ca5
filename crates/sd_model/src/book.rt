//! The book of a complex: the table at its opening, and each event since with its reply.

ghost use Rattle.std.specs.Prelude.{◌≡◌, ◌≢◌, ◌-◌, ◌+◌, ◌<◌, ◌≤◌, ◌++◌, ◌∷◌, [], List, OnOk, IfSome, IsFalse, IsSome, IsTrue, Some, length, option_copied, true};
ghost use Rattle.std.specs.Mem.{manually_drop_value};
ghost use Rattle.std.specs.Vec.{vec_len, vec_capacity};
ghost use Rattle.sd_model.specs.declared.event.Entry.{Entry};
ghost use Rattle.sd_model.specs.Booked.{IsNoted, entries_in, last_of, reply_of_last};
ghost use Rattle.sd_model.specs.Replies.{wants_page};

use crate::told::Told;
use crate::{Entry, Event, LineEntry, Noted, Reply, Table, help_of, valued};
use sd_base::Memory;
use std::alloc::Global;
use std::marker::Model;
use std::mem::ManuallyDrop;

/// The opening table, the entries since, and how many more there is room for (`History`). A help takes 8 bytes, a
/// short entry of a transaction 48, and each other stands whole besides (`specs/Booked.antt`).
#[derive(Drop)]
pub struct Book {
    opening: Table,
    // How each entry is noted: as a help, or as the next of those that stand elsewhere.
    noted: Vec<Noted>,
    // Those of transactions in few bytes.
    lines: Vec<LineEntry>,
    // Those that stand whole.
    whole: Vec<Entry>,
    // Where the newest entry stands.
    at: Newest,
    // The reply of the newest entry, where that is kept in few bytes. It owns no memory, so it is written over, never dropped.
    apart: ManuallyDrop<Reply>,
}

/// Where the newest reply stands whole.
#[derive(Clone, Copy)]
pub(crate) enum Newest {
    /// There is none.
    None,
    /// With the last of the entries that stand whole.
    Behind,
    /// Its entry is kept in few bytes, and it stands apart.
    Apart,
}

impl Model for Book {
    ghost use Rattle.std.specs.Prelude.{◌-◌, min};
    ghost use Rattle.std.specs.Vec.{vec_len, vec_capacity};
    ghost use Rattle.std.specs.Mem.{manually_drop_value};
    ghost use Rattle.sd_model.specs.History.{History};
    ghost use Rattle.sd_model.specs.Booked.{unpacked, IsBook};

    ghost Value = { History };

    ghost view = { λ b. record {
      opening = b.opening;
      entries = unpacked b.noted.items b.lines.items b.whole.items;
      spare = min (vec_capacity b.noted - vec_len b.noted)
          (min (vec_capacity b.lines - vec_len b.lines) (vec_capacity b.whole - vec_len b.whole));
    } };

    ghost invariant = { λ b. IsBook b.noted.items b.lines.items b.whole.items b.at (manually_drop_value b.apart) };
}

impl Book {
    /// A book without entries. It takes no memory.
    pub fn new(alloc: Global, opening: Table) -> Book
        ensures opening { result.opening ≡ opening }
        ensures entries { result.entries ≡ [] }
    {
        Book {
            opening,
            noted: Vec::new(alloc),
            lines: Vec::new(alloc),
            whole: Vec::new(alloc),
            at: Newest::None,
            apart: ManuallyDrop::new(Reply::Did),
        }
    }

    /// Makes room for `n` entries more. After `Memory` the entries are as before.
    #[inline(always)]
    pub fn reserve(&mut self, n: usize) -> Result<(), Memory>
        ensures room { OnOk result (n ≤ self.new.spare) }
        ensures opening { self.new.opening ≡ self.old.opening }
        ensures entries { self.new.entries ≡ self.old.entries }
        ensures kept { self.old.spare ≤ self.new.spare }
    {
        if n <= self.noted.capacity() - self.noted.len()
            && n <= self.lines.capacity() - self.lines.len()
            && n <= self.whole.capacity() - self.whole.len()
        {
            return Ok(());
        }
        self.grow(n)
    }

    // Makes room where there is too little.
    #[inline(never)]
    fn grow(&mut self, n: usize) -> Result<(), Memory>
        ensures room { OnOk result (n ≤ self.new.spare) }
        ensures opening { self.new.opening ≡ self.old.opening }
        ensures entries { self.new.entries ≡ self.old.entries }
        ensures kept { self.old.spare ≤ self.new.spare }
    {
        self.noted.reserve(n)?;
        self.lines.reserve(n)?;
        self.whole.reserve(n)?;
        Ok(())
    }

    /// Appends an entry: what was asked under this session and line, and its reply. It takes no memory.
    #[inline(always)]
    pub fn note(&mut self, session: u8, line: u32, event: Event, reply: Reply)
        requires room { 1 ≤ self.old.spare }
        ensures entries { self.new.entries
            ≡ self.old.entries ++ record { session = session; line = line; event = event; reply = reply } ∷ [] }
        ensures opening { self.new.opening ≡ self.old.opening }
        ensures spare { self.old.spare ≤ self.new.spare + 1 }
    {
        if let Some(help) = help_of(session, line, &event, &reply) {
            leave(event);
            renew(&mut self.apart, reply);
            self.at = Newest::Apart;
            keep(&mut self.noted, help);
        } else if let Some(short) = LineEntry::of(session, line, &event, &reply) {
            leave(event);
            renew(&mut self.apart, reply);
            self.at = Newest::Apart;
            keep_line(&mut self.lines, short);
            keep(&mut self.noted, Noted::Line);
        } else {
            self.note_long(session, line, event, reply);
        }
    }

    // Appends an entry that has a value, or stands whole.
    #[inline(never)]
    fn note_long(&mut self, session: u8, line: u32, event: Event, reply: Reply)
        requires room { 1 ≤ self.old.spare }
        ensures { IsNoted self.old self.new (record { session = session; line = line; event = event; reply = reply }) }
    {
        if !self.note_valued(session, line, &event, &reply) {
            self.note_whole(session, line, event, reply);
        }
    }

    // Appends an entry with a value in few bytes, where that can be; else the book is as before. Its reply is made anew of those
    // bytes: so a value in it stands in place, whatever memory the given one has.
    fn note_valued(&mut self, session: u8, line: u32, event: &Event, reply: &Reply) -> bool
        requires room { 1 ≤ self.old.spare }
        ensures noted { IsTrue result → IsNoted self.old self.new
            (record { session = session; line = line; event = event.now; reply = reply.now }) }
        ensures other { IsFalse result → self.new ≡ self.old }
    {
        let alloc = *self.whole.allocator();
        let Some(short) = valued(session, line, event, reply) else {
            return false;
        };
        let Ok(told) = short.replied(alloc) else {
            return false;
        };
        renew(&mut self.apart, told);
        self.at = Newest::Apart;
        keep_line(&mut self.lines, short);
        keep(&mut self.noted, Noted::Line);
        true
    }

    // Appends an entry that stands whole.
    fn note_whole(&mut self, session: u8, line: u32, event: Event, reply: Reply)
        requires room { 1 ≤ self.old.spare }
        ensures { IsNoted self.old self.new (record { session = session; line = line; event = event; reply = reply }) }
    {
        self.whole.push_reserved(Entry {
            session,
            line,
            event,
            reply,
        });
        self.at = Newest::Behind;
        keep(&mut self.noted, Noted::Whole);
    }

    /// The reply of the newest entry.
    pub fn last_reply(&self) -> Option<&Reply>
        ensures value { option_copied result ≡ reply_of_last self.now.entries }
        ensures there { self.now.entries ≢ [] → IsSome result }
        ensures newest { (before : List Entry) (last : Entry) → self.now.entries ≡ before ++ last ∷ []
            → option_copied result ≡ Some last.reply }
    {
        self.newest_reply()
    }

    // The same, by where it stands.
    fn newest_reply(&self) -> Option<&Reply>
        ensures { option_copied result ≡ reply_of_last self.now.entries }
    {
        match self.at {
            Newest::None => None,
            Newest::Behind => match self.whole.last() {
                Some(entry) => Some(&entry.reply),
                None => None,
            },
            Newest::Apart => Some(lent(&self.apart)),
        }
    }

    /// The newest entry, where it stands whole, as one does that was refused for want of a page.
    pub fn last_whole(&self) -> Option<&Entry>
        ensures value { IfSome result (λ e. last_of self.now.entries ≡ Some e.now) }
        ensures newest { (before : List Entry) (last : Entry) → self.now.entries ≡ before ++ last ∷ []
            → IfSome result (λ e. e.now ≡ last) }
        ensures there { (before : List Entry) (last : Entry) → self.now.entries ≡ before ++ last ∷ []
            → wants_page last.reply ≡ true → IsSome result }
    {
        match self.at {
            Newest::Behind => self.whole.last(),
            Newest::None | Newest::Apart => None,
        }
    }

    /// The number of entries.
    pub fn count(&self) -> usize
        ensures { result ≡ length self.now.entries }
    {
        self.noted.len()
    }

    /// The entries, the oldest first.
    pub fn told(&self) -> Told<'_>
        ensures { entries_in result ≡ self.now.entries }
    {
        Told {
            noted: &self.noted,
            lines: &self.lines,
            whole: &self.whole,
        }
    }

    /// The table at the opening.
    pub fn opening(&self) -> &Table
        ensures opening { result.now ≡ self.now.opening }
    {
        &self.opening
    }
}

// Lets an event go that owns no memory, as that of a help, and of a transaction where no value is in it.
#[inline(always)]
fn leave(event: Event) {
    let _left = ManuallyDrop::new(event);
}

// Puts a reply that owns no memory in the place of the newest one.
#[inline(always)]
fn renew(apart: &mut ManuallyDrop<Reply>, reply: Reply)
    ensures { manually_drop_value apart.new ≡ reply }
{
    *apart = ManuallyDrop::new(reply);
}

// Notes how an entry is kept.
#[inline(always)]
fn keep(noted: &mut Vec<Noted>, how: Noted)
    requires room { vec_len noted.old < vec_capacity noted.old }
    ensures noted { noted.new.items ≡ noted.old.items ++ how ∷ [] }
    ensures spare { vec_capacity noted.old - vec_len noted.old ≤ (vec_capacity noted.new - vec_len noted.new) + 1 }
{
    noted.push_reserved(how);
}

// Keeps an entry of a transaction in few bytes.
#[inline(always)]
fn keep_line(lines: &mut Vec<LineEntry>, how: LineEntry)
    requires room { vec_len lines.old < vec_capacity lines.old }
    ensures lines { lines.new.items ≡ lines.old.items ++ how ∷ [] }
    ensures spare { vec_capacity lines.old - vec_len lines.old ≤ (vec_capacity lines.new - vec_len lines.new) + 1 }
{
    lines.push_reserved(how);
}

fn lent(apart: &ManuallyDrop<Reply>) -> &Reply
    ensures { result.now ≡ manually_drop_value apart.now }
{
    apart
}
