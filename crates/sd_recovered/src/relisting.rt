//! The table, one transaction after another, with the losers of the log beside.

ghost use Rattle.std.specs.Prelude.{◌≡◌, [], ◌∷◌, ◌++◌, Contains, map, None, Some, IfOk, OnOk};
ghost use Rattle.sd_base.specs.declared.ids.TxnId.{TxnId};
ghost use Rattle.sd_logrec.specs.View.{flat};
ghost use Rattle.sd_logrec.specs.View.Kind.{Update};
ghost use Rattle.sd_log.specs.Logs.{flats};
ghost use Rattle.sd_chain.specs.Checks.{owed, reserve};
ghost use Rattle.sd_recovered.specs.Losers.{AreLosers, IsLoser};
ghost use Rattle.sd_txn.specs.Owing.{owed_of, reserve_of};
ghost use Rattle.sd_txn.specs.Transactions.{ids, started, txn_at, IsUnresolved, OthersStay, SameOrder};
ghost use Rattle.sd_txn.specs.declared.state.TxnState.{TxnState};
ghost use Rattle.sd_recovered.specs.Kept.{as_transaction, left_open, open_rec as opened, AreAmong};
ghost use Rattle.sd_recovered.specs.Walks.{AreBelow, AreRising, IsNext};

use crate::{Loser, Losers};
use sd_base::{InstNo, Memory, Rid, TxnId, copy_value};
use sd_log::Placed;
use sd_logrec::Record;
use sd_txn::{OpenRec, TxnState, TxnTable};
use std::alloc::Global;

/// A transaction table of these transactions, each in its order and state, as a log has them: one that the log leaves
/// unfinished has its open records, the oldest first, with the values before, and the LSNs of its first and last record; any
/// other has no open record and no LSN known. Nobody has a mark, and no begin is counted. The transactions rise, as the losers
/// do; a loser that isn't among them is passed over. Where each loser is among them, the table owes what the log does.
///
/// `Memory` comes for want of memory, and where the bytes of all undo would pass 2^64.
pub fn relist(
    alloc: Global,
    inst: InstNo,
    who: &[(TxnId, TxnState)],
    log: &[Placed],
    losers: &Losers,
) -> Result<TxnTable, Memory>
    requires losers { AreLosers log.now losers.now }
    requires rising { AreRising (map (λ w. w.0) who.now) }
    ensures order { IfOk result (λ table. ids table ≡ map (λ w. w.0) who.now) }
    ensures rows { IfOk result (λ table. (t : TxnId) (state : TxnState) → Contains who.now (t, state)
        → txn_at table t ≡ Some (as_transaction (flats log.now) t state)) }
    ensures owes { IfOk result (λ table. AreAmong (flats log.now) (map (λ w. w.0) who.now)
        → owed_of table ≡ owed (flats log.now)) }
    ensures reserves { IfOk result (λ table. AreAmong (flats log.now) (map (λ w. w.0) who.now)
        → reserve_of table ≡ reserve (flats log.now)) }
    ensures fresh { IfOk result (λ table. (table.inst ≡ inst) × (table.epoch ≡ 0) × (table.begins ≡ 0)) }
{
    let losers = losers.items();
    let mut table = TxnTable::new(alloc, inst);
    let mut next = 0;
    for (txn, state) in who {
        add(&mut table, txn, *state)?;
        next = skip_below(losers, next, txn);
        reopen_at(&mut table, log, losers, next, txn)?;
    }
    Ok(table)
}

// Adds a transaction that stands so, of which no record is known.
fn add(table: &mut TxnTable, txn: &TxnId, state: TxnState) -> Result<(), Memory>
    requires { txn_at table.old txn.now ≡ None }
    ensures added { OnOk result (txn_at table.new txn.now ≡ Some (started state)) }
    ensures last { OnOk result (ids table.new ≡ ids table.old ++ txn.now ∷ []) }
    ensures others { OthersStay table.old table.new txn.now }
    ensures counts { table.new ≡ record table.old { unresolved = table.new.unresolved } }
{
    table.adopt(txn)?;
    table.set(txn, state);
    Ok(())
}

// The index of the first loser that isn't below the transaction.
fn skip_below(losers: &[Loser], from: usize, txn: &TxnId) -> usize
    requires { AreBelow losers.now from txn.now }
    ensures { IsNext losers.now result txn.now }
{
    let mut next = from;
    while next < losers.len() && losers[next].txn.cmp(txn).is_lt() {
        next += 1;
    }
    next
}

// Gives a transaction what the log has of it: where the loser of this index is the transaction, what it has open.
fn reopen_at(
    table: &mut TxnTable,
    log: &[Placed],
    losers: &[Loser],
    next: usize,
    txn: &TxnId,
) -> Result<(), Memory>
    requires unresolved { IsUnresolved table.old txn.now }
    requires losers { AreLosers log.now losers.now }
    requires next { IsNext losers.now next txn.now }
    ensures kept { OnOk result ((state : TxnState) → txn_at table.old txn.now ≡ Some (started state)
        → txn_at table.new txn.now ≡ Some (as_transaction (flats log.now) txn.now state)) }
    ensures others { OthersStay table.old table.new txn.now }
    ensures order { SameOrder table.old table.new }
{
    match losers.get(next) {
        Some(loser) if loser.txn == *txn => reopen(table, log, loser),
        _ => Ok(()),
    }
}

// Gives a loser its open records, the oldest first, and the LSNs of its first and last record.
fn reopen(table: &mut TxnTable, log: &[Placed], loser: &Loser) -> Result<(), Memory>
    requires unresolved { IsUnresolved table.old loser.now.txn }
    requires loser { IsLoser log.now loser.now }
    ensures kept { OnOk result ((state : TxnState) → txn_at table.old loser.now.txn ≡ Some (started state)
        → txn_at table.new loser.now.txn ≡ Some (left_open (flats log.now) loser.now.txn state)) }
    ensures others { OthersStay table.old table.new loser.now.txn }
    ensures order { SameOrder table.old table.new }
{
    for at in loser.open.items() {
        table.push(&loser.txn, open_rec(&log[*at].rec)?)?;
    }
    table.note(&loser.txn, loser.first);
    table.note(&loser.txn, loser.last);
    Ok(())
}

// What a rollback knows of an update.
fn open_rec(update: &Record) -> Result<OpenRec, Memory>
    requires { (flat update.now).kind ≡ Update }
    ensures { IfOk result (λ rec. rec ≡ opened (flat update.now)) }
{
    match update {
        Record::Update {
            lsn,
            prev,
            page,
            slot,
            before,
            ..
        } => Ok(OpenRec {
            lsn: *lsn,
            prev: *prev,
            rid: Rid {
                page: *page,
                slot: *slot,
            },
            before: copy_value(before)?,
        }),
        _ => unreachable!(),
    }
}
