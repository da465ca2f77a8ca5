//! The log of an instance as it was read.

ghost use Rattle.std.specs.Prelude.{◌≡◌, ◌≢◌, ◌⊎◌, [], ℕ, ◌+◌, ◌<◌, ◌≤◌, Err, length, map, IfErr, IfOk};
ghost use Rattle.sd_base.specs.Streams.{Rises};
ghost use Rattle.sd_base.specs.declared.refusal.Refusal.TheVariants as R;
ghost use Rattle.sd_logrec.specs.Fronts.{front, fronts_within};
ghost use Rattle.sd_logrec.specs.Kept.{BadGroup, NoRecord, Whole, area, groups_within, reading};
ghost use Rattle.sd_rig.specs.Devices.{IsUnchanged};
ghost use Rattle.sd_log.specs.Areas.{Breaks, IfBroken, IfWhole, IsAt, read_of};
ghost use Rattle.sd_log.specs.ByPage.{changed_pages, places_of};
ghost use Rattle.sd_log.specs.Logs.{AreSpelled, scanned};
ghost use Rattle.sd_log.specs.Marks.{entry};

use crate::area::Area;
use crate::journal::Journal;
use crate::log::Log;
use crate::pages::PageChains;
use crate::placed::Placed;
use crate::reading::read_groups;
use sd_base::{InstNo, Memory, PageNo, Refusal};
use sd_logrec::{AREA, AREA_LEN};
use sd_rig::Rig;
use std::alloc::Global;
use std::marker::Model;

/// The groups of an instance's log as they were read, each record by itself in memory, and the bytes of all beside them.
#[derive(Drop)]
pub struct ReadLog {
    inst: InstNo,
    journal: Journal,
    text: Vec<u8>,
    pages: PageChains,
}

impl Model for ReadLog {
    ghost use Rattle.sd_log.specs.Logs.{LogState};

    ghost Value = { LogState };

    ghost use Rattle.sd_log.specs.ReadInside.{read_view, IsReadLog};

    ghost view = { read_view };

    ghost invariant = { IsReadLog };
}

impl ReadLog {
    /// Reads the groups of the instance's log from the place `start` of its area, by one read of the device, which it
    /// leaves as it is.
    ///
    /// `BadLog` comes exactly where a group's length is below 9 or passes the area's end, with the place of its gate, and
    /// `BadRecord` exactly where no record starts at a place of a group, both counted from the area's start; the first
    /// such place is told. `Failed` comes only where the rig's count of faults rose.
    pub fn read_in<G: Rig>(
        alloc: Global,
        rig: &mut G,
        inst: InstNo,
        start: u32,
    ) -> Result<ReadLog, Refusal>
        requires { start < AREA_LEN }
        ensures whole { IfOk result (λ log. reading start (area (G.seen rig.old inst)) ≡ Whole log.groups log.gate) }
        ensures spelled { IfOk result (λ log. AreSpelled (scanned log)) }
        ensures inst { IfOk result (λ log. log.inst ≡ inst) }
        ensures start { IfOk result (λ log. log.start ≡ start) }
        ensures tail { IfOk result (λ log. log.tail ≡ []) }

        ensures bad_log { (at : ℕ) → result ≡ Err (R.BadLog at) → reading start (area (G.seen rig.old inst)) ≡ BadGroup at }
        ensures bad_record { (at : ℕ) → result ≡ Err (R.BadRecord at) → reading start (area (G.seen rig.old inst)) ≡ NoRecord at }
        ensures refusals { IfErr result (λ e. (e ≡ R.Failed) ⊎ (e ≡ R.Memory) ⊎ ((at : ℕ) × (e ≡ R.BadLog at)) ⊎ ((at : ℕ) × (e ≡ R.BadRecord at))) }
        ensures cause { result ≡ Err R.Failed → Rises (G.faults rig.old) (G.faults rig.new) }
        ensures quiet { result ≢ Err R.Failed → G.faults rig.new ≡ G.faults rig.old }

        ensures stays { IsUnchanged (G.seen rig.old) (G.seen rig.new) (G.leaves rig.old) (G.leaves rig.new)
            (G.moment rig.old) (G.moment rig.new) (G.since rig.old) (G.since rig.new) }
        ensures count { G.faults rig.old ≤ G.faults rig.new }
    {
        let mut bytes = Vec::from_elem(alloc, 0u8, (AREA_LEN - start) as usize)?;
        rig.read(inst.get(), AREA + start, &mut bytes)?;
        match read_from(alloc, inst, start, &bytes)? {
            Area::Whole(log) => Ok(log),
            Area::Broken { fault, .. } => Err(fault),
        }
    }

    /// Reads the groups of an area that stands in memory, from the place `start` on, as the instance's log.
    ///
    /// `BadLog` and `BadRecord` are what breaks the format exactly where they come in `read_in`; the records in front of
    /// that place are handed out then.
    pub fn of_area(alloc: Global, inst: InstNo, start: u32, area: &[u8]) -> Result<Area, Memory>
        requires length { length area.now ≡ AREA_LEN }
        requires start { start < AREA_LEN }
        ensures whole { IfOk result (λ read. IfWhole read (λ log. reading start area.now ≡ Whole log.groups log.gate)) }
        ensures front { IfOk result (λ read. map entry (read_of read) ≡ front start area.now) }
        ensures spelled { IfOk result (λ read. AreSpelled (read_of read)) }
        ensures inst { IfOk result (λ read. IfWhole read (λ log. log.inst ≡ inst)) }
        ensures start { IfOk result (λ read. IfWhole read (λ log. log.start ≡ start)) }
        ensures tail { IfOk result (λ read. IfWhole read (λ log. log.tail ≡ [])) }

        ensures bad_log { IfOk result (λ read. IfBroken read (λ fault. (at : ℕ) → fault ≡ R.BadLog at → reading start area.now ≡ BadGroup at)) }
        ensures bad_record { IfOk result (λ read. IfBroken read (λ fault. (at : ℕ) → fault ≡ R.BadRecord at → reading start area.now ≡ NoRecord at)) }
        ensures refusals { IfOk result (λ read. IfBroken read (λ fault. (at : ℕ) × IsAt fault at × (at < AREA_LEN))) }
    {
        let (_, bytes) = area.split_at(start as usize);
        read_from(alloc, inst, start, bytes)
    }

    /// The place of the next gate, in bytes from the area's start.
    pub fn gate(&self) -> u32
        ensures { result ≡ self.now.gate }
    {
        self.journal.gate()
    }

    /// All records, in their order.
    pub fn scan(&self) -> &[Placed]
        ensures { result.now ≡ scanned self.now }
    {
        self.journal.placed()
    }

    /// The indexes in `scan` of the records that change this page, an Update or a CLR of it, in their order. Only these
    /// records are looked at. `Memory` is the only refusal.
    pub fn of_page(&self, alloc: Global, page: PageNo) -> Result<Vec<u32>, Memory>
        ensures { IfOk result (λ found. found.items ≡ places_of page 0 (changed_pages (scanned self.now))) }
    {
        self.pages.of_page(alloc, page)
    }

    /// The log that goes on behind these groups. It takes the bytes of the records over as they are. `Memory` is the only
    /// refusal.
    pub fn into_log(self, alloc: Global) -> Result<Log, Memory>
        ensures { IfOk result (λ log. log ≡ self) }
    {
        Log::behind(alloc, self.inst, self.journal, self.text, self.pages)
    }
}

// What is read of an area of which these bytes stand from the place `start` on.
fn read_from(alloc: Global, inst: InstNo, start: u32, bytes: &[u8]) -> Result<Area, Memory>
    requires place { start + length bytes.now ≡ AREA_LEN }
    requires some { 0 < length bytes.now }
    ensures whole { IfOk result (λ read. IfWhole read (λ log. groups_within (length bytes.now) start bytes.now ≡ Whole log.groups log.gate)) }
    ensures front { IfOk result (λ read. map entry (read_of read) ≡ fronts_within (length bytes.now) start bytes.now) }
    ensures spelled { IfOk result (λ read. AreSpelled (read_of read)) }
    ensures inst { IfOk result (λ read. IfWhole read (λ log. log.inst ≡ inst)) }
    ensures start { IfOk result (λ read. IfWhole read (λ log. log.start ≡ start)) }
    ensures tail { IfOk result (λ read. IfWhole read (λ log. log.tail ≡ [])) }
    ensures broken { IfOk result (λ read. IfBroken read (λ fault. Breaks (groups_within (length bytes.now) start bytes.now) fault)) }
{
    let mut journal = Journal::new(alloc, start);
    let mut text = Vec::with_capacity(alloc, bytes.len())?;
    match read_groups(alloc, &mut journal, &mut text, bytes) {
        Ok(()) => {}
        Err(fault @ (Refusal::BadLog { .. } | Refusal::BadRecord { .. })) => {
            let front = journal.into_placed();
            return Ok(Area::Broken { front, fault });
        }
        Err(_) => return Err(Memory),
    }
    let pages = PageChains::of(alloc, journal.placed())?;
    Ok(Area::Whole(ReadLog {
        inst,
        journal,
        text,
        pages,
    }))
}
