//! The master of a log, put as a checkpoint ends. It sees no event, and decides no place.

ghost use Rattle.std.specs.Prelude.{◌≡◌, ◌≢◌, ℕ, ◌+◌, ◌≤◌, List, [], length, None, Err, IfErr, OnErr, OnOk, if◌then◌else◌};
ghost use Rattle.std.specs.Option.{option_map_or};
ghost use Rattle.sd_base.specs.Streams.{Rises};
ghost use Rattle.sd_base.specs.Twin as twin_bytes;
ghost use Rattle.sd_log.specs.Logs.{IsBoundary};
ghost use Rattle.sd_logrec.specs.Kept.{master};
ghost use Rattle.sd_model.specs.State.{State, fall};
ghost use Rattle.sd_moves.specs.Falling.{AreLost, IsFallen, with_fallen};
ghost use Rattle.sd_recovered.specs.Masters.{kept_master};
ghost use Rattle.sd_rig.specs.Devices.{AgreesOutside, Elapses, LeavesSame, Span};
ghost use Rattle.sd_rig.specs.Puts.{filled_open};
ghost use Rattle.sd_rig.specs.Slots.{named_body, slot};
ghost use Rattle.sd_state.specs.Complexes.{parts};
ghost use Rattle.sd_state.specs.Good.{Good, TakesCheck};
ghost use Rattle.sd_state.specs.Images.{Stands};
ghost use Rattle.sd_state.specs.Parts.{IsShape, Parts, epoch_at, log_at, status_at, txns_at};
ghost use Rattle.sd_state.specs.Values.{Pending};
ghost use Rattle.sd_ckpt.specs.Laws.{with_either};
ghost use Rattle.sd_ckpt.specs.Masters.{IsMasterOr, IsMasterPut, MayPutMaster, next_master, with_master};
ghost use Rattle.sd_ckpt.specs.Readings.{ReadsAlike, storage_by};
ghost use Rattle.sd_chain.specs.Images.{Keeps};
ghost use Rattle.sd_ckpt.specs.declared.master.NotPut.TheVariants as U;

use sd_base::{InstNo, Lsn};
use sd_logrec::MASTER_BODY;
use sd_moves::down;
use sd_recovered::MasterRecord;
use sd_rig::{Chosen, Rig, Twin, choose, number_of, put};
use sd_state::{Complex, Due};
use std::cmp;

/// Why a master isn't put.
#[derive(Clone, Copy, PartialEq, Eq)]
pub enum NotPut {
    /// The read of the former one failed. All is as before.
    Unread,
    /// A sync or a write failed: the log's device isn't settled, and the instance has fallen.
    Unwritten,
}

/// The length of a master's twin: two slots, each a gate byte and a body.
const SLOTS_BYTES: usize = 2 * (MASTER_BODY + 1);

/// Puts the master of a log whose instance ends its checkpoint, with the LSN of its EndCheck: from then on the log begins at
/// `start`, a place in bytes from its area's begin, the records in front are forgotten, and no checkpoint is begun. All of the
/// log is forced, its EndCheck is the last record, and `start` is what `Log::start_for` answers of the checkpoint's low. The
/// master has one more than the former count, and the epoch that the log is in. Each image meanwhile stands for the same state,
/// and from either place the same transactions are open, with the same stacks, and recovery gives the same table. It takes no
/// memory: one read, and then four calls or six.
///
/// Both errors come only where the rig's count of faults rose. After `Unread` all is as it was. After `Unwritten` the log begins
/// at the one place or at the other until it is settled, and the instance has fallen.
pub fn put_master<G: Rig>(
    c: &mut Complex<G>,
    i: InstNo,
    check: Lsn,
    start: u32,
) -> Result<(), NotPut>
    requires good { (m : State) × Good (G.seen c.old.rig) (G.leaves c.old.rig) Pending.Idle (parts c.old) m }
    requires idle { (parts c.old).due ≡ None }
    requires may { MayPutMaster i check start (parts c.old) }

    ensures good { result ≢ Err U.Unwritten → (m : State)
        → Good (G.seen c.old.rig) (G.leaves c.old.rig) Pending.Idle (parts c.old) m
        → Good (G.seen c.new.rig) (G.leaves c.new.rig) Pending.Idle (parts c.new) m }
    ensures good_fallen { result ≡ Err U.Unwritten → (m : State)
        → Good (G.seen c.old.rig) (G.leaves c.old.rig) Pending.Idle (parts c.old) m
        → Good (G.seen c.new.rig) (G.leaves c.new.rig) Pending.Idle (parts c.new) (fall i m) }
    ensures good_either { result ≡ Err U.Unwritten → (m : State)
        → Good (G.seen c.old.rig) (G.leaves c.old.rig) Pending.Idle (parts c.old) m
        → Good (G.seen c.new.rig) (G.leaves c.new.rig) Pending.Idle (with_either i start (parts c.old)) m }
    ensures images { (m : State) → Good (G.seen c.old.rig) (G.leaves c.old.rig) Pending.Idle (parts c.old) m
        → Span (G.moment c.old.rig) (G.since c.new.rig) (Stands m Pending.Idle) }
    ensures time { Elapses (G.moment c.old.rig) (G.moment c.new.rig) (G.since c.old.rig) (G.since c.new.rig) }

    ensures alike { OnOk result ((moved keeps : Keeps)
        → ReadsAlike (storage_by (G.seen c.old.rig) (parts c.old) moved keeps) (storage_by (G.seen c.new.rig) (parts c.new) moved keeps)) }
    ensures alike_either { result ≡ Err U.Unwritten → (moved keeps : Keeps)
        → ReadsAlike (storage_by (G.seen c.old.rig) (parts c.old) moved keeps)
        (storage_by (G.seen c.new.rig) (with_either i start (parts c.old)) moved keeps) }

    ensures put { OnOk result (parts c.new ≡ with_master i start (master (G.seen c.new.rig i)).count (parts c.old)) }
    ensures master { OnOk result (IsMasterPut (next_master (epoch_at (parts c.old) i) check start (master (G.seen c.old.rig i)))
        (G.seen c.new.rig i) (G.leaves c.new.rig i)) }
    ensures unread { result ≡ Err U.Unread → (parts c.new ≡ parts c.old) × ((d : ℕ) → G.seen c.new.rig d ≡ G.seen c.old.rig d) }
    ensures fallen { result ≡ Err U.Unwritten → parts c.new ≡ with_fallen i (parts c.new) (with_either i start (parts c.old)) }
    ensures falls { result ≡ Err U.Unwritten → IsFallen i (with_either i start (parts c.old)) (parts c.new) }
    ensures rows { result ≡ Err U.Unwritten → AreLost (txns_at (parts c.old) i) (txns_at (parts c.new) i) }

    ensures left { (bytes : List ℕ) → G.leaves c.new.rig i bytes
        → IsMasterOr (next_master (epoch_at (parts c.old) i) check start (master (G.seen c.old.rig i)))
        (G.seen c.old.rig i) bytes }
    ensures outside { AgreesOutside 0 130 (G.seen c.old.rig i) (G.seen c.new.rig i) }
    ensures others { (d : ℕ) → d ≢ i → G.seen c.new.rig d ≡ G.seen c.old.rig d }
    ensures others_leave { (d : ℕ) → d ≢ i → LeavesSame (G.leaves c.old.rig d) (G.leaves c.new.rig d) }

    ensures tick { OnOk result (G.moment c.new.rig
        ≡ G.moment c.old.rig + (if filled_open (twin_bytes.chosen_slot 0 64 (G.seen c.old.rig i)) then 6 else 4)) }
    ensures cause { OnErr result (Rises (G.faults c.old.rig) (G.faults c.new.rig)) }
    ensures quiet { OnOk result (G.faults c.new.rig ≡ G.faults c.old.rig) }
    ensures count { G.faults c.old.rig ≤ G.faults c.new.rig }
{
    i.keeps();
    let mut slots = [0u8; SLOTS_BYTES];
    let chosen = match choose(&mut c.rig, twin_of(i), &mut slots) {
        Ok(chosen) => chosen,
        Err(_) => return Err(NotPut::Unread),
    };
    let count = count_of(chosen, &slots) + 1;
    let epoch = c.epochs[i.get() as usize - 1];
    let next = MasterRecord {
        count,
        area: 0,
        epoch,
        check,
        start,
    };
    put_over(c, i, chosen, &next)
}

// Puts this master over the one that counts, and leaves the complex as the put ended.
fn put_over<G: Rig>(
    c: &mut Complex<G>,
    i: InstNo,
    chosen: Chosen,
    next: &MasterRecord,
) -> Result<(), NotPut>
    requires good { (m : State) × Good (G.seen c.old.rig) (G.leaves c.old.rig) Pending.Idle (parts c.old) m }
    requires idle { (parts c.old).due ≡ None }
    requires may { MayPutMaster i next.now.check next.now.start (parts c.old) }
    requires next { kept_master next.now
        ≡ next_master (epoch_at (parts c.old) i) next.now.check next.now.start (master (G.seen c.old.rig i)) }
    requires chosen { twin_bytes.chosen_slot 0 64 (G.seen c.old.rig i) ≡ slot chosen }

    ensures only { IfErr result (λ e. e ≡ U.Unwritten) }
    ensures good { OnOk result ((m : State) → Good (G.seen c.old.rig) (G.leaves c.old.rig) Pending.Idle (parts c.old) m
        → Good (G.seen c.new.rig) (G.leaves c.new.rig) Pending.Idle (parts c.new) m) }
    ensures good_fallen { OnErr result ((m : State) → Good (G.seen c.old.rig) (G.leaves c.old.rig) Pending.Idle (parts c.old) m
        → Good (G.seen c.new.rig) (G.leaves c.new.rig) Pending.Idle (parts c.new) (fall i m)) }
    ensures good_either { OnErr result ((m : State) → Good (G.seen c.old.rig) (G.leaves c.old.rig) Pending.Idle (parts c.old) m
        → Good (G.seen c.new.rig) (G.leaves c.new.rig) Pending.Idle (with_either i next.now.start (parts c.old)) m) }
    ensures images { (m : State) → Good (G.seen c.old.rig) (G.leaves c.old.rig) Pending.Idle (parts c.old) m
        → Span (G.moment c.old.rig) (G.since c.new.rig) (Stands m Pending.Idle) }
    ensures time { Elapses (G.moment c.old.rig) (G.moment c.new.rig) (G.since c.old.rig) (G.since c.new.rig) }

    ensures alike { OnOk result ((moved keeps : Keeps)
        → ReadsAlike (storage_by (G.seen c.old.rig) (parts c.old) moved keeps) (storage_by (G.seen c.new.rig) (parts c.new) moved keeps)) }
    ensures alike_either { OnErr result ((moved keeps : Keeps)
        → ReadsAlike (storage_by (G.seen c.old.rig) (parts c.old) moved keeps)
        (storage_by (G.seen c.new.rig) (with_either i next.now.start (parts c.old)) moved keeps)) }

    ensures put { OnOk result (parts c.new ≡ with_master i next.now.start next.now.count (parts c.old)) }
    ensures master { OnOk result (IsMasterPut (kept_master next.now) (G.seen c.new.rig i) (G.leaves c.new.rig i)) }
    ensures fallen { OnErr result (parts c.new ≡ with_fallen i (parts c.new) (with_either i next.now.start (parts c.old))) }
    ensures falls { OnErr result (IsFallen i (with_either i next.now.start (parts c.old)) (parts c.new)) }
    ensures rows { OnErr result (AreLost (txns_at (parts c.old) i) (txns_at (parts c.new) i)) }

    ensures left { (bytes : List ℕ) → G.leaves c.new.rig i bytes → IsMasterOr (kept_master next.now) (G.seen c.old.rig i) bytes }
    ensures outside { AgreesOutside 0 130 (G.seen c.old.rig i) (G.seen c.new.rig i) }
    ensures others { (d : ℕ) → d ≢ i → G.seen c.new.rig d ≡ G.seen c.old.rig d }
    ensures others_leave { (d : ℕ) → d ≢ i → LeavesSame (G.leaves c.old.rig d) (G.leaves c.new.rig d) }

    ensures tick { OnOk result (G.moment c.new.rig
        ≡ G.moment c.old.rig + (if filled_open (twin_bytes.chosen_slot 0 64 (G.seen c.old.rig i)) then 6 else 4)) }
    ensures cause { OnErr result (Rises (G.faults c.old.rig) (G.faults c.new.rig)) }
    ensures quiet { OnOk result (G.faults c.new.rig ≡ G.faults c.old.rig) }
    ensures count { G.faults c.old.rig ≤ G.faults c.new.rig }
{
    i.keeps();
    let body = next.spell();
    match put(&mut c.rig, twin_of(i), chosen, &body) {
        Ok(()) => {
            begin_log(c, i, next);
            Ok(())
        }
        Err(_) => {
            leave_either(c, i, next.start);
            down(c, i);
            Err(NotPut::Unwritten)
        }
    }
}

// Where the slots of a master are.
fn twin_of(i: InstNo) -> Twin
    ensures { result ≡ record { dev = i; at = 0; body = 64 } }
{
    Twin {
        dev: i.get(),
        at: 0,
        body: MASTER_BODY as u16,
    }
}

// The count of the master that counts, of its slots: 0 where none does.
fn count_of(chosen: Chosen, slots: &[u8]) -> u64
    requires size { length slots.now ≡ 130 }
    ensures { result ≡ option_map_or twin_bytes.number_of (named_body chosen 64 slots.now) 0 }
{
    match chosen.body(MASTER_BODY, slots) {
        None => 0,
        Some(body) => number_of(body),
    }
}

// The log begins where its master, which is put, says, and its checkpoint has ended.
fn begin_log<G>(c: &mut Complex<G>, i: InstNo, next: &MasterRecord)
    requires shape { IsShape (parts c.old) }
    requires bare { (log_at (parts c.old) i).tail ≡ [] }
    requires boundary { IsBoundary next.now.start (log_at (parts c.old) i).groups (log_at (parts c.old) i).gate }
    ensures parts { parts c.new ≡ with_master i next.now.start next.now.count (parts c.old) }
    ensures rig { c.new.rig ≡ c.old.rig }
{
    let at = i.get() as usize - 1;
    c.logs[at].begin_at(next.start);
    c.masters[at] = next.count;
    c.checks[at] = None;
}

// The log begins where it does or at this place: its device isn't settled, its checkpoint has ended, and its instance, which acts
// for itself, is to fall.
fn leave_either<G>(c: &mut Complex<G>, i: InstNo, place: u32)
    requires shape { IsShape (parts c.old) }
    requires takes { TakesCheck (status_at (parts c.old) i) }
    ensures parts { parts c.new ≡ with_either i place (parts c.old) }
    ensures rig { c.new.rig ≡ c.old.rig }
{
    let at = i.get() as usize - 1;
    c.owed[at] = cmp::max(c.owed[at], c.txns[at].owed());
    c.loose[at + 1] = true;
    c.due = Some(Due { inst: i, log: i });
    c.others[at] = Some(place);
    c.checks[at] = None;
}
