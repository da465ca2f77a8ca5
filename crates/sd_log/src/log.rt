//! The log of an instance: its calls.

ghost use Rattle.std.specs.Prelude.{◌≡◌, ◌≢◌, ◌⊎◌, ◌↔◌, [], ◌++◌, ℕ, ◌+◌, ◌-◌, ◌/◌, ◌^◌, ◌<◌, ◌≤◌, false, true, max, min, if◌then◌else◌, length, slice_get, Err, Ok, Some, IsTrue, IsOk, IfErr, IfOk, OnErr, OnOk};
ghost use Rattle.std.specs.List.{list_any};
ghost use Rattle.sd_base.specs.Streams.{Rises};
ghost use Rattle.sd_base.specs.declared.refusal.Refusal.TheVariants as R;
ghost use Rattle.sd_logrec.specs.Kept.{spelled};
ghost use Rattle.sd_logrec.specs.Spelling.{HasSpelling, spelling};
ghost use Rattle.sd_logrec.specs.View.{is_closing, is_commit_of};
ghost use Rattle.sd_rig.specs.Devices.{AgreesOutside, Elapses, LeavesOnly, LeavesSame, Span};
ghost use Rattle.sd_log.specs.ByPage.{changed_pages, places_of};
ghost use Rattle.sd_log.specs.Forces.{Forces, StandsEither, forced_at, forced_len};
ghost use Rattle.sd_log.specs.Logs.{AreSpelled, IsStartFor, StandsOn, forced, has_tail, last_lsn, lsn_of, needed, placed_groups, placed_tail, scanned, tail_len, with_record, without_tail, AreForced, IsBoundary, begun_at};
ghost use Rattle.sd_log.specs.Parts.{text_of};

use crate::buffer::Buffer;
use crate::journal::Journal;
use crate::pages::PageChains;
use crate::placed::Placed;
use crate::written::Written;
use sd_base::{Failed, InstNo, Lsn, Memory, PageNo, Refusal, TxnId};
use sd_logrec::{AREA, AREA_LEN, END_LEN, GROUP_HEAD, Lent, MAX_LSN};
use sd_rig::Rig;
use std::alloc::Global;
use std::marker::Model;

/// The log of an instance in memory: the groups that are forced, and the records of the tail, which aren't yet.
#[derive(Drop)]
pub struct Log {
    inst: InstNo,
    written: Written,
    pages: PageChains,
    buffer: Buffer,
    spare: usize,
}

impl Model for Log {
    ghost use Rattle.sd_log.specs.Logs.{LogState};

    ghost Value = { LogState };

    ghost use Rattle.sd_log.specs.LogInside.{log_view, IsLog};

    ghost view = { log_view };

    ghost invariant = { IsLog };
}

impl Log {
    /// The log of a blank device: it has nothing yet, and begins at the area's start. No device call is made.
    pub fn new(alloc: Global, inst: InstNo) -> Result<Log, Memory>
        ensures { IfOk result (λ log. log ≡ record { inst = inst; start = 0; gate = 0; groups = []; tail = []; spare = 0 }) }
    {
        let pages = PageChains::new(alloc)?;
        let buffer = Buffer::new(alloc)?;
        Ok(Log {
            inst,
            written: Written::new(alloc, 0),
            pages,
            buffer,
            spare: 0,
        })
    }

    /// The log of an instance with these groups and no tail, of which the pages are these.
    pub(crate) fn behind(
        alloc: Global,
        inst: InstNo,
        read: Journal,
        text: Vec<u8>,
        pages: PageChains,
    ) -> Result<Log, Memory>
        requires forced { AreForced read.start read.gate read.groups }
        requires text { text.items ≡ text_of read.groups }
        requires within { read.start + length (text_of read.groups) ≤ read.gate }
        requires gate { read.gate < AREA_LEN }
        requires tail { read.tail ≡ [] }
        requires pages { pages.chains ≡ changed_pages (placed_groups read.groups ++ placed_tail read.gate read.tail) }
        ensures { IfOk result (λ log. log ≡ record { inst = inst; start = read.start; gate = read.gate; groups = read.groups; tail = []; spare = 0 }) }
    {
        let written = Written::of(alloc, read, text)?;
        let buffer = Buffer::new(alloc)?;
        Ok(Log {
            inst,
            written,
            pages,
            buffer,
            spare: 0,
        })
    }

    /// The LSN of the last record, or 0.
    pub fn last_lsn(&self) -> Lsn
        ensures { result ≡ last_lsn (scanned self.now) }
    {
        self.written.last_lsn()
    }

    /// The LSN of the next record, of a change to a page with this LSN: one more than the greater of this and the last
    /// record's, wherever the LSNs reach so far, and else the greatest LSN.
    pub fn next_lsn(&self, page_lsn: Lsn) -> Lsn
        ensures { result ≡ min (max (last_lsn (scanned self.now)) page_lsn + 1) (2 ^ 62 - 1) }
    {
        self.last_lsn().max(page_lsn).min(MAX_LSN - 1) + 1
    }

    /// What holds of every log: its groups stand one behind the other, from its start place to the next gate, which lies in
    /// the area; the tail, where it isn't empty, fits behind them as a group with a gate of its own behind; each record is one
    /// of the grammar, of 9 bytes at least, so there are at most 116,508.
    pub fn keeps(&self)
        ensures gate { self.now.gate < AREA_LEN }
        ensures start { self.now.start ≤ self.now.gate }
        ensures placed { AreForced self.now.start self.now.gate self.now.groups }
        ensures fits { self.now.tail ≢ [] → self.now.gate + GROUP_HEAD + tail_len self.now + 1 ≤ AREA_LEN }
        ensures spelled { AreSpelled (scanned self.now) }
        ensures few { length (scanned self.now) ≤ 116508 }
    {
        let _ = &self.written;
    }

    /// Whether a record of `len` bytes finds no room, with `reserve` bytes reserved behind it: whether the tail as a group,
    /// with both, would pass the area's end.
    pub fn lacks_room(&self, len: usize, reserve: u32) -> bool
        ensures { IsTrue result ↔ (AREA_LEN < needed self.now len reserve) }
    {
        let area = AREA_LEN as usize;
        let used = self.written.gate() as usize
            + GROUP_HEAD
            + self.written.tail().len()
            + reserve as usize
            + 1;
        used > area || len > area - used
    }

    /// Puts a record at the end of the tail. `reserve` is how many bytes are reserved behind it, for records that end
    /// what is open then.
    ///
    /// `LogFull` comes exactly where the tail as a group, with these bytes reserved, would pass the area's end. A record
    /// for which bytes were reserved, a CLR, Commit or End, takes no memory where `spare` has its bytes, and lowers it by
    /// them; each other one makes `spare` at least `reserve`.
    pub fn append(&mut self, r: &Lent, reserve: u32) -> Result<(), Refusal>
        requires { HasSpelling r.now }
        ensures ok { OnOk result (self.new ≡ with_record r.now self.new.spare self.old) }
        ensures stays { OnErr result (self.new ≡ self.old) }
        ensures full { (result ≡ Err R.LogFull) ↔ (AREA_LEN < needed self.old (length (spelling r.now)) reserve) }
        ensures refusals { IfErr result (λ e. (e ≡ R.LogFull) ⊎ (e ≡ R.Memory)) }

        ensures reserves { OnOk result (is_closing r.now ≡ false → max self.old.spare reserve ≤ self.new.spare) }
        ensures spends { is_closing r.now ≡ true → self.old.spare ≤ self.new.spare + length (spelling r.now) }
        ensures there { is_closing r.now ≡ true → length (spelling r.now) ≤ self.old.spare → (result ≡ Ok tt) ⊎ (result ≡ Err R.LogFull) }
    {
        let len = r.len();
        if self.lacks_room(len, reserve) {
            return Err(Refusal::LogFull);
        }
        let kept = spare_after(r, self.spare, len, reserve as usize);
        self.put(r, len, kept)?;
        Ok(())
    }

    // Takes memory for the record and for what is to spare behind it, and puts the record at the end of the tail.
    fn put(&mut self, r: &Lent, len: usize, kept: usize) -> Result<(), Memory>
        requires fits { HasSpelling r.now }
        requires len { len ≡ length (spelling r.now) }
        requires room { needed self.old len 0 ≤ AREA_LEN }
        requires kept { kept ≤ AREA_LEN }
        ensures ok { OnOk result (self.new ≡ with_record r.now kept self.old) }
        ensures stays { OnErr result (self.new ≡ self.old) }
        ensures there { max len END_LEN + kept ≤ self.old.spare → IsOk result }
    {
        let all = len.max(END_LEN) + kept;
        let tail = self.written.tail().len();
        self.buffer.reserve(tail + all)?;
        self.written.reserve(all, all / END_LEN)?;
        self.pages.reserve(all / END_LEN)?;
        let place = self.written.gate() as usize + GROUP_HEAD + tail;
        self.pages.push(r);
        self.written.push(r, place as u32);
        self.spare = kept;
        Ok(())
    }

    /// The place of the next gate, in bytes from the area's start.
    pub fn gate(&self) -> u32
        ensures { result ≡ self.now.gate }
    {
        self.written.gate()
    }

    /// The greatest boundary of groups before which each record has an LSN below `low`: where a log may begin of which
    /// only records from `low` on are needed. It is never before the place where the log begins now.
    pub fn start_for(&self, low: Lsn) -> u32
        ensures exact { IsStartFor low self.now.groups self.now.gate result }
        ensures start { self.now.start ≤ result }
    {
        self.written.start_for(low)
    }

    /// Forgets the groups in front of this place, where one of them begins or the next gate is, of a log without a tail. It
    /// takes no memory.
    pub fn begin_at(&mut self, place: u32)
        requires bare { self.old.tail ≡ [] }
        requires boundary { IsBoundary place self.old.groups self.old.gate }
        ensures { self.new ≡ begun_at place self.old }
    {
        let gone = self.written.forget(place);
        self.pages.forget(gone);
    }

    /// Forces the tail: makes it a group behind the others. Where it is empty no device call is made; else there are four:
    /// a write of the group with a closed gate behind, a sync, a write of its own gate, a sync. A crash at any moment
    /// leaves the log with its tail or without it, and after `Ok` with it. It takes no memory.
    ///
    /// `Failed` comes only where the rig's count of faults rose. The tail is then as before, and the device is to be
    /// synced and read again before anything is forced.
    pub fn force<G: Rig>(&mut self, rig: &mut G) -> Result<(), Failed>
        requires stable { self.old.tail ≢ [] → LeavesOnly (G.seen rig.old self.old.inst) (G.leaves rig.old self.old.inst) }
        requires stands { self.old.tail ≢ [] → StandsOn self.old (G.seen rig.old self.old.inst) }

        ensures ok { OnOk result (self.new ≡ forced self.old) }
        ensures stays { OnErr result (self.new ≡ self.old) }
        ensures stands { self.old.tail ≢ [] → OnOk result (StandsOn self.new (G.seen rig.new self.old.inst)) }
        ensures durable { self.old.tail ≢ [] → OnOk result (LeavesOnly (G.seen rig.new self.old.inst) (G.leaves rig.new self.old.inst)) }

        // A crash during the call, or after it, leaves the log with its tail or without it, and so does a read.
        ensures any_moment { self.old.tail ≢ [] → Span (G.moment rig.old) (G.since rig.new) (Forces self.old (G.seen rig.old) (G.leaves rig.old)) }
        ensures whole { self.old.tail ≢ [] → StandsEither self.old (G.seen rig.new self.old.inst) }
        ensures outside { AgreesOutside (forced_at self.old) (forced_len self.old) (G.seen rig.old self.old.inst) (G.seen rig.new self.old.inst) }
        ensures others { (d : ℕ) → d ≢ self.old.inst → G.seen rig.new d ≡ G.seen rig.old d }
        ensures others_leave { (d : ℕ) → d ≢ self.old.inst → LeavesSame (G.leaves rig.old d) (G.leaves rig.new d) }
        ensures time { Elapses (G.moment rig.old) (G.moment rig.new) (G.since rig.old) (G.since rig.new) }

        ensures idle { self.old.tail ≡ [] → (result ≡ Ok tt) × (rig.new ≡ rig.old) }
        ensures cause { OnErr result (Rises (G.faults rig.old) (G.faults rig.new)) }
        ensures quiet { OnOk result (G.faults rig.new ≡ G.faults rig.old) }
        ensures tick { self.old.tail ≢ [] → OnOk result (G.moment rig.new ≡ G.moment rig.old + 4) }
        ensures most { G.moment rig.new ≤ G.moment rig.old + 4 }
        ensures count { G.faults rig.old ≤ G.faults rig.new }
    {
        let tail = self.written.tail();
        let len = tail.len();
        if len == 0 {
            return Ok(());
        }
        let gate = AREA + self.written.gate();
        self.buffer.write(rig, self.inst.get(), gate, tail)?;
        self.written.close_group(len as u32);
        Ok(())
    }

    /// How many records there are, those of the groups and those of the tail.
    pub fn count(&self) -> usize
        ensures { result ≡ length (scanned self.now) }
    {
        self.written.len()
    }

    /// The LSN of the record of this index, of those of the groups and then those of the tail. The record itself isn't read,
    /// and no memory is taken.
    pub fn lsn(&self, index: usize) -> Lsn
        requires { index < length (scanned self.now) }
        ensures { (p : Placed) → slice_get (scanned self.now) index ≡ Some p → result ≡ lsn_of p }
    {
        self.written.lsn(index)
    }

    /// The record of this index, of those of the groups and then those of the tail. `Memory` is the only refusal.
    pub fn record(&self, index: usize) -> Result<Placed, Memory>
        requires { index < length (scanned self.now) }
        ensures { IfOk result (λ found. slice_get (scanned self.now) index ≡ Some found) }
    {
        self.written.get(index)
    }

    /// Whether there is a Commit of this transaction. It takes no memory.
    pub fn has_commit(&self, t: &TxnId) -> bool
        ensures { result ≡ list_any (λ p. is_commit_of t.now p.rec) (scanned self.now) }
    {
        self.written.has_commit(t)
    }

    /// The indexes of the records that change this page, an Update or a CLR of it, in their order. Only these
    /// records are looked at. `Memory` is the only refusal.
    pub fn of_page(&self, alloc: Global, page: PageNo) -> Result<Vec<u32>, Memory>
        ensures { IfOk result (λ found. found.items ≡ places_of page 0 (changed_pages (scanned self.now))) }
    {
        self.pages.of_page(alloc, page)
    }

    /// Whether there are records that aren't forced.
    pub fn has_tail(&self) -> bool
        ensures { result ≡ has_tail self.now }
    {
        self.written.tail().len() != 0
    }

    /// Forgets the tail.
    pub fn drop_tail(&mut self)
        ensures { self.new ≡ without_tail self.old }
    {
        self.written.drop_tail();
        self.pages.truncate(self.written.len());
    }
}

// How much is to spare behind a record of `len` bytes.
fn spare_after(r: &Lent, spare: usize, len: usize, reserve: usize) -> usize
    ensures { result ≡ (if is_closing r.now then spare - len else max spare reserve) }
{
    if r.is_closing() {
        spare.saturating_sub(len)
    } else {
        spare.max(reserve)
    }
}
