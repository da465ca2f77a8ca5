//! A log by hand that leaves a transaction open, what ends it, and the table made from it.

ghost use Rattle.std.specs.Prelude.{◌≡◌, map, IfOk};
ghost use Rattle.sd_recovered.specs.Losers.{AreLosers};
ghost use Rattle.sd_log.specs.Logs.{AreSpelled};

use crate::bytes_by_hand::LOSER;
use crate::devices::log_of;
use sd_base::{InstNo, Memory, TxnId, lent_value};
use sd_log::Placed;
use sd_recovered::{AnalysisError, Losers, analyse, owed, relist, reserve};
use sd_txn::{TxnState, TxnTable};
use std::alloc::Global;
use std::test::Fail;

// The table of the one transaction.
fn table_of(alloc: Global, txn: &TxnId, log: &[Placed], losers: &Losers) -> Result<TxnTable, Memory>
    requires { AreLosers log.now losers.now }
{
    relist(alloc, txn.inst, &[(*txn, TxnState::Retained)], log, losers)
}

// Whether the transaction has its three records open, two of which have values before.
fn has_three_open(table: &mut TxnTable, txn: &TxnId) -> bool {
    if table.count() != 1 || table.state(txn) != Some(TxnState::Retained) {
        return false;
    }
    if table.depth(txn) != 3 || table.span(txn) != Some((4, 6)) {
        return false;
    }
    let is_insert = match table.pop(txn) {
        Some(top) => top.lsn == 6 && top.before.is_none(),
        None => false,
    };
    let is_write = match table.top(txn) {
        Some(next) => lent_value(&next.before) == Some(b"tan".as_slice()),
        None => false,
    };
    is_insert && is_write
}

// Whether this is what ends the transaction, and the table has it.
fn is_relisted(alloc: Global, txn: &TxnId, log: &[Placed], losers: &Losers) -> Result<bool, Memory>
    requires { AreLosers log.now losers.now }
{
    if reserve(log, losers) != 31 + 50 + 50 + 47 || owed(losers) != 4 {
        return Ok(false);
    }
    let mut table = table_of(alloc, txn, log, losers)?;
    Ok(has_three_open(&mut table, txn))
}

// Whether the log leaves that transaction open, and it is relisted.
fn leaves(alloc: Global, txn: &TxnId, log: &[Placed]) -> Result<bool, AnalysisError>
    requires { AreSpelled log.now }
{
    let losers = analyse(alloc, log)?;
    Ok(is_relisted(alloc, txn, log, &losers)?)
}

#[test]
fn a_loser_is_relisted_with_what_it_has_open(rt: HostRuntime) -> Result<(), Fail> {
    let alloc = rt.alloc();
    let inst = InstNo::new(2).ok_or("instance 2")?;
    let (epoch, seq) = (1, 1);
    let txn = TxnId { inst, epoch, seq };
    let log = log_of(alloc, inst, &LOSER)?;
    assert!(rt; leaves(alloc, &txn, log.scan())?);
    Ok(())
}
