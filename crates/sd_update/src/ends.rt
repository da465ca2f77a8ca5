//! Records without a page: the Commit or End of a transaction, the Start of an epoch, those of a checkpoint.

ghost use Rattle.std.specs.Prelude.{◌≡◌, ◌⊎◌, ◌↔◌, ◌+◌, ◌^◌, ◌<◌, ◌≤◌, length, Err, IfErr, IfOk, IsSome, IsTrue, None, Ok, OnErr, OnOk, Some, false, true};
ghost use Rattle.std.specs.Option.{option_map_or};
ghost use Rattle.sd_base.specs.declared.place.Status.TheVariants as S;
ghost use Rattle.sd_base.specs.declared.refusal.Refusal.TheVariants as R;
ghost use Rattle.sd_log.specs.Logs.{needed};
ghost use Rattle.sd_logrec.specs.Spelling.{HasSpelling, IsTxn, spelling};
ghost use Rattle.sd_logrec.specs.View.{flat, is_closing};
ghost use Rattle.sd_model.specs.State.{State};
ghost use Rattle.sd_chain.specs.Logs.{next_lsn};
ghost use Rattle.sd_state.specs.Complexes.{parts};
ghost use Rattle.sd_state.specs.Good.{Good};
ghost use Rattle.sd_state.specs.Parts.{IsShape, epoch_at, log_at, status_at, txns_at};
ghost use Rattle.sd_update.specs.Sealing.{HasEnd, MayCheck, MayPutEnd, NoLsnLeft, NoRoomFor, commit_of, end_of, with_more, with_start};
ghost use Rattle.sd_state.specs.Values.{Pending};
ghost use Rattle.sd_txn.specs.Owing.{owed_of, reserve_of};
ghost use Rattle.sd_txn.specs.Transactions.{span_at, state_at};
ghost use Rattle.sd_txn.specs.declared.state.TxnState.TheVariants.{Running};

use sd_base::{InstNo, Lsn, Memory, Refusal, TxnId};
use sd_logrec::{AREA_LEN, Lent, MAX_LSN, Record};
use sd_rig::Rig;
use sd_state::Complex;
use std::cmp;

/// Puts the Commit of a transaction that runs, and has a record, at the end of the log of its instance, and shuts its row. From
/// then on its commit is under way. Bytes, an LSN and memory are reserved for it: it is never refused and takes no memory.
pub fn seal_commit<G: Rig>(c: &mut Complex<G>, t: &TxnId)
    requires good { (m : State) × Good (G.seen c.old.rig) (G.leaves c.old.rig) Pending.Idle (parts c.old) m }
    requires idle { (parts c.old).due ≡ None }
    requires up { status_at (parts c.old) t.now.inst ≡ S.Up }
    requires numbered { IsTxn t.now }
    requires runs { state_at (txns_at (parts c.old) t.now.inst) t.now ≡ Some Running }
    requires there { IsSome (span_at (txns_at (parts c.old) t.now.inst) t.now) }

    ensures good { (m : State) → Good (G.seen c.old.rig) (G.leaves c.old.rig) Pending.Idle (parts c.old) m
        → Good (G.seen c.new.rig) (G.leaves c.new.rig) (Pending.Commits t.now) (parts c.new) m }
    ensures parts { HasEnd t.now (λ x. commit_of t.now x (parts c.old)) (parts c.old) (parts c.new) }
    ensures rig { c.new.rig ≡ c.old.rig }
{
    let lsn = c.log(t.inst).next_lsn(0);
    let prev = prev_for(c, t);
    let rec = Record::Commit { lsn, txn: *t, prev };
    put_end(c, t, rec).unwrap();
}

/// Puts the End of a transaction that has a record, and nothing open, at the end of the log of its instance, and shuts its
/// row: of one that rolls back wholly, while its instance is up; or of a loser whose instance is being recovered. `Memory`
/// comes of a loser alone, and changes nothing.
pub fn seal_end<G: Rig>(c: &mut Complex<G>, t: &TxnId) -> Result<(), Memory>
    requires good { (m : State) × Good (G.seen c.old.rig) (G.leaves c.old.rig) Pending.Idle (parts c.old) m }
    requires idle { (parts c.old).due ≡ None }
    requires numbered { IsTxn t.now }
    requires may { MayPutEnd t.now (parts c.old) }

    ensures good { (m : State) → Good (G.seen c.old.rig) (G.leaves c.old.rig) Pending.Idle (parts c.old) m
        → Good (G.seen c.new.rig) (G.leaves c.new.rig) Pending.Idle (parts c.new) m }
    ensures parts { OnOk result (HasEnd t.now (λ x. end_of t.now x (parts c.old)) (parts c.old) (parts c.new)) }
    ensures there { status_at (parts c.old) t.now.inst ≡ S.Up → result ≡ Ok tt }
    ensures stays { OnErr result (parts c.new ≡ parts c.old) }
    ensures rig { c.new.rig ≡ c.old.rig }
{
    let lsn = c.log(t.inst).next_lsn(0);
    let prev = prev_for(c, t);
    let rec = Record::End { lsn, txn: *t, prev };
    put_end(c, t, rec)
}

/// Puts the Start of the next epoch at the end of the log of an instance that isn't up yet, and answers that epoch. From then on
/// the Start is under way.
///
/// `LogFull` comes exactly where the log has no room for it with what is reserved; `LsnEnd` exactly where it has and no LSN is
/// left for it and for all that are owed, or where there is no further epoch. A refusal changes nothing.
pub fn seal_start<G: Rig>(c: &mut Complex<G>, i: InstNo) -> Result<u32, Refusal>
    requires good { (m : State) × Good (G.seen c.old.rig) (G.leaves c.old.rig) Pending.Idle (parts c.old) m }
    requires idle { (parts c.old).due ≡ None }
    requires waits { (status_at (parts c.old) i ≡ S.Clean) ⊎ (status_at (parts c.old) i ≡ S.Restarting) }

    ensures good { (m : State) → Good (G.seen c.old.rig) (G.leaves c.old.rig) Pending.Idle (parts c.old) m
        → OnOk result (Good (G.seen c.new.rig) (G.leaves c.new.rig) (Pending.Starts i) (parts c.new) m) }
    ensures epoch { IfOk result (λ epoch. epoch ≡ epoch_at (parts c.old) i + 1) }
    ensures parts { IfOk result (λ epoch. parts c.new
        ≡ with_start i (next_lsn (log_at (parts c.old) i) 0) epoch (log_at (parts c.new) i).spare (parts c.old)) }
    ensures stays { OnErr result (parts c.new ≡ parts c.old) }
    ensures rig { c.new.rig ≡ c.old.rig }

    ensures full { (result ≡ Err R.LogFull) ↔ NoRoomFor i 13 (parts c.old) }
    ensures lsns { (result ≡ Err R.LsnEnd) ↔ ((NoRoomFor i 13 (parts c.old) → ⊥)
        × (NoLsnLeft i (parts c.old) ⊎ (epoch_at (parts c.old) i ≡ 4294967295))) }
    ensures refusals { IfErr result (λ e. (e ≡ R.LogFull) ⊎ ((e ≡ R.LsnEnd) ⊎ (e ≡ R.Memory))) }
{
    let at = i.get() as usize - 1;
    may_seal(c, i, 13)?;
    let was = c.epochs[at];
    if was == u32::MAX {
        return Err(Refusal::LsnEnd);
    }
    let lsn = c.log(i).next_lsn(0);
    let epoch = was + 1;
    put_plain(c, i, Record::Start { lsn, epoch })?;
    c.epochs[at] = epoch;
    Ok(epoch)
}

/// Puts a record of a checkpoint, of the log's next LSN, at the end of the log of an instance that is up or restarting.
///
/// `LogFull` comes exactly where the log has no room for it with what is reserved; `LsnEnd` exactly where it has and no LSN is
/// left for it and for all that are owed. A refusal changes nothing.
pub fn seal_check<G: Rig>(c: &mut Complex<G>, i: InstNo, rec: Record) -> Result<(), Refusal>
    requires good { (pend : Pending) × (m : State) × Good (G.seen c.old.rig) (G.leaves c.old.rig) pend (parts c.old) m }
    requires idle { (parts c.old).due ≡ None }
    requires may { MayCheck i rec (parts c.old) }
    requires spelled { HasSpelling rec }

    ensures good { (pend : Pending) (m : State) → Good (G.seen c.old.rig) (G.leaves c.old.rig) pend (parts c.old) m
        → Good (G.seen c.new.rig) (G.leaves c.new.rig) pend (parts c.new) m }
    ensures parts { OnOk result (parts c.new ≡ with_more i rec (log_at (parts c.new) i).spare (parts c.old)) }
    ensures stays { OnErr result (parts c.new ≡ parts c.old) }
    ensures rig { c.new.rig ≡ c.old.rig }

    ensures full { (result ≡ Err R.LogFull) ↔ NoRoomFor i (length (spelling rec)) (parts c.old) }
    ensures lsns { (result ≡ Err R.LsnEnd)
        ↔ ((NoRoomFor i (length (spelling rec)) (parts c.old) → ⊥) × NoLsnLeft i (parts c.old)) }
    ensures refusals { IfErr result (λ e. (e ≡ R.LogFull) ⊎ ((e ≡ R.LsnEnd) ⊎ (e ≡ R.Memory))) }
{
    i.keeps();
    may_seal(c, i, rec.len())?;
    put_plain(c, i, rec)
}

// The LSN of the last record of a transaction, or 0.
fn prev_for<G>(c: &Complex<G>, t: &TxnId) -> Lsn
    requires { IsShape (parts c.now) }
    ensures { result ≡ option_map_or (λ span. span.1) (span_at (txns_at (parts c.now) t.now.inst) t.now) 0 }
{
    match c.txns(t.inst).span(t) {
        Some((_, last)) => last,
        None => 0,
    }
}

// Puts the Commit or End of a transaction that has a record at the end of the log of its instance, where there is room for it,
// and shuts its row. `Memory` changes nothing, and doesn't come where memory is reserved for the record.
fn put_end<G>(c: &mut Complex<G>, t: &TxnId, rec: Record) -> Result<(), Memory>
    requires shape { IsShape (parts c.old) }
    requires own { (flat rec).txn ≡ t.now }
    requires spelled { HasSpelling rec }
    requires ends { is_closing rec ≡ true }
    requires room { needed (log_at (parts c.old) t.now.inst) (length (spelling rec)) 0 ≤ 1048576 }
    requires there { IsSome (span_at (txns_at (parts c.old) t.now.inst) t.now) }
    ensures ok { OnOk result (HasEnd t.now (λ x. rec) (parts c.old) (parts c.new)) }
    ensures stays { OnErr result (parts c.new ≡ parts c.old) }
    ensures memory { length (spelling rec) ≤ (log_at (parts c.old) t.now.inst).spare → result ≡ Ok tt }
    ensures rig { c.new.rig ≡ c.old.rig }
{
    let at = t.inst.get() as usize - 1;
    c.txns[at].keeps();
    match c.logs[at].append(&Lent::whole(&rec), 0) {
        Ok(()) => {}
        Err(_) => return Err(Memory),
    }
    c.txns[at].shut(t);
    Ok(())
}

/// Whether a record of `len` bytes that isn't reserved for finds room in the log of an instance, and an LSN. It changes nothing.
///
/// `LogFull` comes exactly where the log has no room for it behind all that is reserved; `LsnEnd` exactly where it has and no LSN
/// is left for it and for all that are owed.
pub fn may_seal<G>(c: &Complex<G>, i: InstNo, len: usize) -> Result<(), Refusal>
    requires shape { IsShape (parts c.now) }
    requires few { owed_of (txns_at (parts c.now) i) < 2 ^ 64 }
    ensures room { OnOk result (NoRoomFor i len (parts c.now) → ⊥) }
    ensures left { OnOk result (NoLsnLeft i (parts c.now) → ⊥) }
    ensures full { (result ≡ Err R.LogFull) ↔ NoRoomFor i len (parts c.now) }
    ensures lsns { (result ≡ Err R.LsnEnd) ↔ ((NoRoomFor i len (parts c.now) → ⊥) × NoLsnLeft i (parts c.now)) }
    ensures only { IfErr result (λ e. (e ≡ R.LogFull) ⊎ (e ≡ R.LsnEnd)) }
{
    if is_full_for(c, i, len) {
        return Err(Refusal::LogFull);
    }
    if lacks_lsns_for(c, i) {
        return Err(Refusal::LsnEnd);
    }
    Ok(())
}

// Whether a record of `len` bytes that isn't reserved for finds no room in a log, behind all that is reserved.
fn is_full_for<G>(c: &Complex<G>, i: InstNo, len: usize) -> bool
    requires { IsShape (parts c.now) }
    ensures { IsTrue result ↔ NoRoomFor i len (parts c.now) }
{
    let reserve = c.txns(i).reserve();
    reserve > AREA_LEN as u64 || c.log(i).lacks_room(len, reserve as u32)
}

// Whether no LSN is left for a further record and for all that the logs owe, of which log i owes what its table tells.
fn lacks_lsns_for<G>(c: &Complex<G>, i: InstNo) -> bool
    requires shape { IsShape (parts c.now) }
    requires few { owed_of (txns_at (parts c.now) i) < 2 ^ 64 }
    ensures { IsTrue result ↔ NoLsnLeft i (parts c.now) }
{
    let own = cmp::max(c.owed[i.get() as usize - 1], c.txns(i).owed());
    let owed = c.owed_where(i, own);
    c.great().saturating_add(1).saturating_add(owed) > MAX_LSN
}

// Puts a record that isn't reserved for at the end of a log that has room for it, with memory for all that is reserved.
// `Memory` changes nothing.
fn put_plain<G>(c: &mut Complex<G>, i: InstNo, rec: Record) -> Result<(), Refusal>
    requires shape { IsShape (parts c.old) }
    requires spelled { HasSpelling rec }
    requires further { is_closing rec ≡ false }
    requires room { NoRoomFor i (length (spelling rec)) (parts c.old) → ⊥ }
    ensures ok { OnOk result (parts c.new ≡ with_more i rec (log_at (parts c.new) i).spare (parts c.old)) }
    ensures memory { OnOk result (reserve_of (txns_at (parts c.old) i) ≤ (log_at (parts c.new) i).spare) }
    ensures stays { OnErr result (parts c.new ≡ parts c.old) }
    ensures only { IfErr result (λ e. e ≡ R.Memory) }
    ensures rig { c.new.rig ≡ c.old.rig }
{
    let reserve = c.txns(i).reserve();
    c.logs[i.get() as usize - 1].append(&Lent::whole(&rec), reserve as u32)
}
