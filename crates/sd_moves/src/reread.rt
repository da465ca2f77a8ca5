//! A device that isn't settled: it is synced, and a log is read again.

ghost use Rattle.std.specs.Prelude.{◌≡◌, ◌≢◌, ◌⊎◌, ◌↔◌, ℕ, ◌+◌, ◌≤◌, ◌<◌, ◌-◌, ◌^◌, true, false, None, Some, [], Contains, Err, IfErr, IfOk, OnErr, OnOk, length, map, min};
ghost use Rattle.std.specs.Map.{lookup};
ghost use Rattle.sd_base.specs.Ids.{same_txn};
ghost use Rattle.sd_base.specs.Streams.{Rises};
ghost use Rattle.sd_base.specs.declared.ids.TxnId.{TxnId};
ghost use Rattle.sd_chain.specs.Checks as checks;
ghost use Rattle.sd_chain.specs.Checks.{DevicesAreSound, IsWhole, MasterIsSound, Past, after_record};
ghost use Rattle.sd_chain.specs.Faults.{SlotsAreSound};
ghost use Rattle.sd_log.specs.Logs.{AreSpelled, StandsOn, flats, scanned};
ghost use Rattle.sd_logrec.specs.Kept.{area, master, reading};
ghost use Rattle.sd_model.specs.State.{State, fall};
ghost use Rattle.sd_rig.specs.Devices.{Elapses, IsUnchanged, LeavesOnly, LeavesSame, Span};
ghost use Rattle.sd_chain.specs.Logs.{Less, after_records};
ghost use Rattle.sd_state.specs.Complexes.{parts};
ghost use Rattle.sd_state.specs.Good.{Good};
ghost use Rattle.sd_state.specs.Images.{Stands};
ghost use Rattle.sd_state.specs.Parts.{IsShape, is_loose, txns_at};
ghost use Rattle.sd_state.specs.Values.{Pending};
ghost use Rattle.sd_txn.specs.Transactions.{state_at};
ghost use Rattle.sd_txn.specs.declared.state.TxnState.{TxnState};
ghost use Rattle.sd_recovered.specs.Losers.{AreLosers, AreTidy};
ghost use Rattle.sd_recovered.specs.Walks.{AreRising};
ghost use Rattle.sd_recovered.specs.Masters.{kept_master};
ghost use Rattle.sd_moves.specs.Falling.{with_fallen, AreLost, IsFallen};
ghost use Rattle.sd_moves.specs.Putting.{with_loose_disk};
ghost use Rattle.sd_moves.specs.Settling.{with_found, with_reread, IsFoundAgain, IsRelisted, IsReread};
ghost use Rattle.sd_moves.specs.declared.reread.Unsettled.TheVariants as U;

use crate::down;
use sd_base::{Failed, InstNo, Memory, Refusal, TxnId};
use sd_log::{Log, Placed, ReadLog};
use sd_logrec::{AREA, Record};
use sd_recovered::{AnalysisError, Losers, MasterRecord, analyse, owed, read_master, relist};
use sd_rig::Rig;
use sd_state::Complex;
use sd_txn::{TxnState, TxnTable};
use std::alloc::{AllocFailed, Global};
use std::collections::BTreeMap;

/// Why a device isn't settled.
#[derive(Clone, Copy, PartialEq, Eq)]
pub enum Unsettled {
    /// The sync failed, and the instance that settles the device has fallen.
    Unsynced,
    /// A read failed.
    Unread,
    /// There was no memory.
    Memory,
}

impl From<Memory> for Unsettled {
    ghost from_gives = { λ _ why. why ≡ U.Memory };

    fn from(_: Memory) -> Self {
        Unsettled::Memory
    }
}

impl<T: Drop> From<AllocFailed<T>> for Unsettled {
    ghost from_gives = { λ _ why. why ≡ U.Memory };

    fn from(_: AllocFailed<T>) -> Self {
        Unsettled::Memory
    }
}

/// Settles a device that isn't settled: it is synced, and of a log its master is chosen, its groups are read from the master's
/// start place, and the table of its instance is made anew from them, of whom the table had and as they stand in it. Log, table,
/// epoch, the count of its master and what it owes are then those that were read. While no fall is due a log that isn't settled
/// is of no instance that is up. Data device or log, its mark goes last.
///
/// A crash may leave nothing that it might not have left before. After `Unsynced` the instance `by` has fallen. After `Unread`
/// and `Memory` all of the complex is as it was, the mark too, and the device is synced. `Unsynced` and `Unread` come only where
/// the rig's count of faults rose.
pub fn settle<G: Rig>(c: &mut Complex<G>, dev: u8, by: InstNo) -> Result<(), Unsettled>
    requires good { (m : State) × Good (G.seen c.old.rig) (G.leaves c.old.rig) Pending.Idle (parts c.old) m }
    requires idle { (parts c.old).due ≡ None }
    requires device { dev ≤ 8 }
    requires loose { is_loose (parts c.old) dev ≡ true }

    ensures good { result ≢ Err U.Unsynced
        → (m : State) → Good (G.seen c.old.rig) (G.leaves c.old.rig) Pending.Idle (parts c.old) m
        → Good (G.seen c.new.rig) (G.leaves c.new.rig) Pending.Idle (parts c.new) m }
    ensures good_fallen { result ≡ Err U.Unsynced
        → (m : State) → Good (G.seen c.old.rig) (G.leaves c.old.rig) Pending.Idle (parts c.old) m
        → Good (G.seen c.new.rig) (G.leaves c.new.rig) Pending.Idle (parts c.new) (fall by m) }
    ensures images { (m : State) → Good (G.seen c.old.rig) (G.leaves c.old.rig) Pending.Idle (parts c.old) m
        → Span (G.moment c.old.rig) (G.since c.new.rig) (Stands m Pending.Idle) }
    ensures time { Elapses (G.moment c.old.rig) (G.moment c.new.rig) (G.since c.old.rig) (G.since c.new.rig) }

    ensures disk { OnOk result (dev ≡ 0 → parts c.new ≡ with_loose_disk false (parts c.old)) }
    ensures log { OnOk result (1 ≤ dev → parts c.new ≡ with_reread dev (parts c.new) (parts c.old)) }
    ensures found { OnOk result (1 ≤ dev → IsReread dev (G.seen c.old.rig dev) (parts c.old) (parts c.new)) }
    ensures unread { (result ≡ Err U.Unread) ⊎ (result ≡ Err U.Memory) → parts c.new ≡ parts c.old }
    ensures unsynced { result ≡ Err U.Unsynced → parts c.new ≡ with_fallen by (parts c.new) (parts c.old) }
    ensures fallen { result ≡ Err U.Unsynced → IsFallen by (parts c.old) (parts c.new) }
    ensures rows { result ≡ Err U.Unsynced → AreLost (txns_at (parts c.old) by) (txns_at (parts c.new) by) }

    ensures reads { (d : ℕ) → G.seen c.new.rig d ≡ G.seen c.old.rig d }
    ensures durable { result ≢ Err U.Unsynced → LeavesOnly (G.seen c.old.rig dev) (G.leaves c.new.rig dev) }
    ensures tick { result ≢ Err U.Unsynced → G.moment c.new.rig ≡ G.moment c.old.rig + 1 }
    ensures others_leave { (d : ℕ) → d ≢ dev → LeavesSame (G.leaves c.old.rig d) (G.leaves c.new.rig d) }
    ensures less { Less (G.leaves c.old.rig) (G.leaves c.new.rig) }

    ensures cause { (result ≡ Err U.Unsynced) ⊎ (result ≡ Err U.Unread) → Rises (G.faults c.old.rig) (G.faults c.new.rig) }
    ensures quiet { OnOk result (G.faults c.new.rig ≡ G.faults c.old.rig) }
    ensures short { result ≡ Err U.Memory → G.faults c.new.rig ≡ G.faults c.old.rig }
    ensures count { G.faults c.old.rig ≤ G.faults c.new.rig }
{
    if sync_device(c, dev).is_err() {
        down(c, by);
        return Err(Unsettled::Unsynced);
    }
    match InstNo::new(dev) {
        Some(i) => settle_log(c, i),
        None => {
            unmark_disk(c);
            Ok(())
        }
    }
}

// Syncs a device. Its mark stays.
fn sync_device<G: Rig>(c: &mut Complex<G>, dev: u8) -> Result<(), Failed>
    requires good { (m : State) × Good (G.seen c.old.rig) (G.leaves c.old.rig) Pending.Idle (parts c.old) m }
    requires device { dev ≤ 8 }

    ensures good { (m : State) → Good (G.seen c.old.rig) (G.leaves c.old.rig) Pending.Idle (parts c.old) m
        → Good (G.seen c.new.rig) (G.leaves c.new.rig) Pending.Idle (parts c.old) m }
    ensures images { (m : State) → Good (G.seen c.old.rig) (G.leaves c.old.rig) Pending.Idle (parts c.old) m
        → Span (G.moment c.old.rig) (G.since c.new.rig) (Stands m Pending.Idle) }
    ensures time { Elapses (G.moment c.old.rig) (G.moment c.new.rig) (G.since c.old.rig) (G.since c.new.rig) }

    ensures parts { parts c.new ≡ parts c.old }
    ensures reads { (d : ℕ) → G.seen c.new.rig d ≡ G.seen c.old.rig d }
    ensures durable { OnOk result (LeavesOnly (G.seen c.old.rig dev) (G.leaves c.new.rig dev)) }
    ensures tick { OnOk result (G.moment c.new.rig ≡ G.moment c.old.rig + 1) }
    ensures others_leave { (d : ℕ) → d ≢ dev → LeavesSame (G.leaves c.old.rig d) (G.leaves c.new.rig d) }
    ensures less { Less (G.leaves c.old.rig) (G.leaves c.new.rig) }

    ensures cause { OnErr result (Rises (G.faults c.old.rig) (G.faults c.new.rig)) }
    ensures quiet { OnOk result (G.faults c.new.rig ≡ G.faults c.old.rig) }
    ensures count { G.faults c.old.rig ≤ G.faults c.new.rig }
{
    c.rig.sync(dev)?;
    Ok(())
}

// The data device, which a crash leaves as it reads, is settled.
fn unmark_disk<G: Rig>(c: &mut Complex<G>)
    requires good { (m : State) × Good (G.seen c.old.rig) (G.leaves c.old.rig) Pending.Idle (parts c.old) m }
    requires durable { LeavesOnly (G.seen c.old.rig 0) (G.leaves c.old.rig 0) }
    ensures good { (m : State) → Good (G.seen c.old.rig) (G.leaves c.old.rig) Pending.Idle (parts c.old) m
        → Good (G.seen c.new.rig) (G.leaves c.new.rig) Pending.Idle (parts c.new) m }
    ensures parts { parts c.new ≡ with_loose_disk false (parts c.old) }
    ensures rig { c.new.rig ≡ c.old.rig }
{
    c.loose[0] = false;
}

// A log, whose device a crash leaves as it reads, is read again and settled, while no fall is due.
fn settle_log<G: Rig>(c: &mut Complex<G>, i: InstNo) -> Result<(), Unsettled>
    requires good { (m : State) × Good (G.seen c.old.rig) (G.leaves c.old.rig) Pending.Idle (parts c.old) m }
    requires idle { (parts c.old).due ≡ None }
    requires loose { is_loose (parts c.old) i ≡ true }
    requires durable { LeavesOnly (G.seen c.old.rig i) (G.leaves c.old.rig i) }

    ensures good { (m : State) → Good (G.seen c.old.rig) (G.leaves c.old.rig) Pending.Idle (parts c.old) m
        → Good (G.seen c.new.rig) (G.leaves c.new.rig) Pending.Idle (parts c.new) m }
    ensures log { OnOk result (parts c.new ≡ with_reread i (parts c.new) (parts c.old)) }
    ensures found { OnOk result (IsReread i (G.seen c.old.rig i) (parts c.old) (parts c.new)) }
    ensures unread { OnErr result (parts c.new ≡ parts c.old) }
    ensures known { result ≢ Err U.Unsynced }

    ensures stays { IsUnchanged (G.seen c.old.rig) (G.seen c.new.rig) (G.leaves c.old.rig) (G.leaves c.new.rig)
        (G.moment c.old.rig) (G.moment c.new.rig) (G.since c.old.rig) (G.since c.new.rig) }
    ensures cause { result ≡ Err U.Unread → Rises (G.faults c.old.rig) (G.faults c.new.rig) }
    ensures quiet { result ≢ Err U.Unread → G.faults c.new.rig ≡ G.faults c.old.rig }
    ensures count { G.faults c.old.rig ≤ G.faults c.new.rig }
{
    let alloc = *c.logs.allocator();
    let found = read_again(alloc, &mut c.rig, i, &c.txns[i.get() as usize - 1])?;
    place_found(c, i, found);
    Ok(())
}

// What is read of an instance whose log is settled.
#[derive(Drop)]
struct Reread {
    log: Log,
    table: TxnTable,
    // That of the log's last Start, or of its master.
    epoch: u32,
    // The count of the master.
    count: u64,
    // How many records the log owes.
    owed: u64,
}

// The log of an instance and its table, of whom `old` has.
fn read_again<G: Rig>(
    alloc: Global,
    rig: &mut G,
    i: InstNo,
    old: &TxnTable,
) -> Result<Reread, Unsettled>
    requires { DevicesAreSound (G.seen rig.old) }
    ensures found { IfOk result (λ found. IsFoundAgain i (G.seen rig.old i) old.now found) }
    ensures known { result ≢ Err U.Unsynced }

    ensures stays { IsUnchanged (G.seen rig.old) (G.seen rig.new) (G.leaves rig.old) (G.leaves rig.new)
        (G.moment rig.old) (G.moment rig.new) (G.since rig.old) (G.since rig.new) }
    ensures cause { result ≡ Err U.Unread → Rises (G.faults rig.old) (G.faults rig.new) }
    ensures quiet { result ≢ Err U.Unread → G.faults rig.new ≡ G.faults rig.old }
    ensures count { G.faults rig.old ≤ G.faults rig.new }
{
    i.keeps();
    let master = choose_master(rig, i)?;
    let read = read_groups(alloc, rig, i, master.start)?;
    let (table, owed) = table_and_owed(alloc, i, &read, old)?;
    let epoch = last_epoch(master.epoch, read.scan());
    let log = read.into_log(alloc)?;
    Ok(Reread {
        log,
        table,
        epoch,
        count: master.count,
        owed,
    })
}

// The table of an instance by its log, of whom `old` has, and how many records the log owes.
fn table_and_owed(
    alloc: Global,
    i: InstNo,
    log: &ReadLog,
    old: &TxnTable,
) -> Result<(TxnTable, u64), Memory>
    requires spelled { AreSpelled (scanned log.now) }
    requires tidy { AreTidy (scanned log.now) }
    ensures table { IfOk result (λ x. IsRelisted i (flats (scanned log.now)) old.now x.0) }
    ensures owed { IfOk result (λ x. x.1 ≡ min (checks.owed (flats (scanned log.now))) (2 ^ 64 - 1)) }
{
    let losers = losers_of(alloc, log)?;
    let table = table_by(alloc, i, log, &losers, old)?;
    Ok((table, owed(&losers)))
}

// The table of an instance by its log, which leaves these losers, of whom `old` has.
fn table_by(
    alloc: Global,
    i: InstNo,
    log: &ReadLog,
    losers: &Losers,
    old: &TxnTable,
) -> Result<TxnTable, Memory>
    requires { AreLosers (scanned log.now) losers.now }
    ensures { IfOk result (IsRelisted i (flats (scanned log.now)) old.now) }
{
    let who = standing(alloc, old)?;
    relist(alloc, i, &who, log.scan(), losers)
}

// The master that counts on the device of a log, or what none says.
fn choose_master<G: Rig>(rig: &mut G, i: InstNo) -> Result<MasterRecord, Unsettled>
    requires sound { MasterIsSound (G.seen rig.old i) }
    ensures master { IfOk result (λ m. kept_master m ≡ master (G.seen rig.old i)) }
    ensures place { IfOk result (λ m. m.start < 1048576) }
    ensures errors { IfErr result (λ why. why ≡ U.Unread) }

    ensures stays { IsUnchanged (G.seen rig.old) (G.seen rig.new) (G.leaves rig.old) (G.leaves rig.new)
        (G.moment rig.old) (G.moment rig.new) (G.since rig.old) (G.since rig.new) }
    ensures cause { OnErr result (Rises (G.faults rig.old) (G.faults rig.new)) }
    ensures quiet { OnOk result (G.faults rig.new ≡ G.faults rig.old) }
    ensures count { G.faults rig.old ≤ G.faults rig.new }
{
    let mut slots = [0u8; AREA as usize];
    if rig.read(i.get(), 0, &mut slots).is_err() {
        return Err(Unsettled::Unread);
    }
    Ok(master_of(&slots))
}

// The master of these slots, which are sound.
fn master_of(slots: &[u8]) -> MasterRecord
    requires size { length slots.now ≡ 130 }
    requires sound { SlotsAreSound slots.now }
    ensures master { kept_master result ≡ master slots.now }
    ensures place { result.start < 1048576 }
{
    match read_master(slots) {
        Ok(Some(master)) => master,
        Ok(None) => MasterRecord::BLANK,
        Err(_) => unreachable!(),
    }
}

// The groups of a log, which keep the format, from the place `start` on.
fn read_groups<G: Rig>(
    alloc: Global,
    rig: &mut G,
    i: InstNo,
    start: u32,
) -> Result<ReadLog, Unsettled>
    requires start { start < 1048576 }
    requires whole { IsWhole (reading start (area (G.seen rig.old i))) }
    ensures whole { IfOk result (λ log. StandsOn log (G.seen rig.old i)) }
    ensures spelled { IfOk result (λ log. AreSpelled (scanned log)) }
    ensures log { IfOk result (λ log. (log.inst ≡ i) × (log.start ≡ start) × (log.tail ≡ [])) }
    ensures known { result ≢ Err U.Unsynced }

    ensures stays { IsUnchanged (G.seen rig.old) (G.seen rig.new) (G.leaves rig.old) (G.leaves rig.new)
        (G.moment rig.old) (G.moment rig.new) (G.since rig.old) (G.since rig.new) }
    ensures cause { result ≡ Err U.Unread → Rises (G.faults rig.old) (G.faults rig.new) }
    ensures quiet { result ≢ Err U.Unread → G.faults rig.new ≡ G.faults rig.old }
    ensures count { G.faults rig.old ≤ G.faults rig.new }
{
    match ReadLog::read_in(alloc, rig, i, start) {
        Ok(log) => Ok(log),
        Err(Refusal::Failed) => Err(Unsettled::Unread),
        Err(Refusal::Memory) => Err(Unsettled::Memory),
        Err(_) => unreachable!(),
    }
}

// The losers of a log whose records are in order.
fn losers_of(alloc: Global, log: &ReadLog) -> Result<Losers, Memory>
    requires spelled { AreSpelled (scanned log.now) }
    requires tidy { AreTidy (scanned log.now) }
    ensures { IfOk result (λ losers. AreLosers (scanned log.now) losers) }
{
    match analyse(alloc, log.scan()) {
        Ok(losers) => Ok(losers),
        Err(AnalysisError::Memory) => Err(Memory),
        Err(AnalysisError::Disorder { .. }) => unreachable!(),
    }
}

// Whom a table has, in rising order, and how each stands.
fn standing(alloc: Global, table: &TxnTable) -> Result<Vec<(TxnId, TxnState)>, Memory>
    ensures rising { IfOk result (λ who. AreRising (map (λ w. w.0) who.items)) }
    ensures each { IfOk result (λ who. (t : TxnId) (state : TxnState)
        → (Contains who.items (t, state) ↔ (state_at table.now t ≡ Some state))) }
{
    let states = states_of(alloc, table)?;
    in_order(alloc, states)
}

// How each of a table stands.
fn states_of(alloc: Global, table: &TxnTable) -> Result<BTreeMap<TxnId, TxnState>, Memory>
    ensures { IfOk result (λ states. (t : TxnId) → lookup (same_txn t) states.entries ≡ state_at table.now t) }
{
    let mut states = BTreeMap::new(alloc);
    for t in table.unresolved() {
        if let Some(state) = table.state(t) {
            states.insert(*t, state)?;
        }
    }
    Ok(states)
}

// The rows of a map, which rise.
fn in_order(
    alloc: Global,
    states: BTreeMap<TxnId, TxnState>,
) -> Result<Vec<(TxnId, TxnState)>, Memory>
    ensures rows { IfOk result (λ who. (t : TxnId) (state : TxnState)
        → (Contains who.items (t, state) ↔ (lookup (same_txn t) states.entries ≡ Some state))) }
    ensures rising { IfOk result (λ who. AreRising (map (λ w. w.0) who.items)) }
{
    let mut who = Vec::new(alloc);
    for row in states {
        who.push(row)?;
    }
    Ok(who)
}

/// The epoch of the last Start of these records, or this one where there is none.
pub fn last_epoch(epoch: u32, log: &[Placed]) -> u32
    ensures { (past : Past) → past.epoch ≡ epoch → result ≡ (after_records past (map (λ p. p.rec) log.now)).epoch }
{
    let mut last = epoch;
    for placed in log {
        last = epoch_after(last, &placed.rec);
    }
    last
}

// The epoch behind one more record: that of a Start is its own.
fn epoch_after(epoch: u32, rec: &Record) -> u32
    ensures { (past : Past) → past.epoch ≡ epoch → result ≡ (after_record past rec.now).epoch }
{
    match rec {
        Record::Start { epoch, .. } => *epoch,
        _ => epoch,
    }
}

// The instance has what was found of it, and its log is settled.
fn place_found<G>(c: &mut Complex<G>, i: InstNo, found: Reread)
    requires shape { IsShape (parts c.old) }
    ensures parts { parts c.new ≡ with_found i found (parts c.old) }
    ensures rig { c.new.rig ≡ c.old.rig }
{
    let at = i.get() as usize - 1;
    c.logs[at] = found.log;
    c.txns[at] = found.table;
    c.epochs[at] = found.epoch;
    c.masters[at] = found.count;
    c.others[at] = None;
    c.owed[at] = found.owed;
    c.loose[at + 1] = false;
}
