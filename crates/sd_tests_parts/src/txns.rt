//! Transaction tables: begins up to the last, open records and marks, and what the ends take of a log; each call
//! succeeds with ample memory.

use sd_base::{Bytes, InstNo, Memory, PageNo, Refusal, Rid, TxnId, Word};
use sd_txn::{OpenRec, TxnState, TxnTable};
use std::alloc::Global;

#[derive(Clone, Copy)]
enum Call {
    /// A record is opened, with this value before.
    Push(Option<&'static [u8]>),
    Note,
    Save,
    Pop,
    Roll,
    Shut,
    End,
}

// An open record of page 0 with this value before.
fn record(alloc: Global, before: Option<&[u8]>) -> Result<OpenRec, Memory> {
    let page = PageNo::new(0).unwrap();
    let before = match before {
        Some(bytes) => Some(Bytes::copy_of(alloc, bytes)?),
        None => None,
    };
    Ok(OpenRec {
        lsn: 7,
        prev: 0,
        rid: Rid { page, slot: 7 },
        before,
    })
}

// Makes the call, where the transaction is unresolved.
fn calls(alloc: Global, table: &mut TxnTable, t: &TxnId, call: Call) -> Result<(), Memory> {
    if table.state(t).is_none() {
        return Ok(());
    }
    match call {
        Call::Push(before) => table.push(t, record(alloc, before)?)?,
        Call::Note => table.note(t, 7),
        Call::Save => table.save(t, Word::copy_of(alloc, b"here")?)?,
        Call::Pop => drop(table.pop(t)),
        Call::Roll => table.set(t, TxnState::Rolling { target: Some(0) }),
        Call::Shut => table.shut(t),
        Call::End => table.end(t),
    }
    Ok(())
}

// Each call, what the mark is after it, and the bytes and the records that the ends take of a log.
const STEPS: [(Call, Option<usize>, u64, u64); 12] = [
    (Call::Push(Some(b"red")), None, 50, 1),
    (Call::Note, None, 81, 2),
    (Call::Save, Some(1), 81, 2),
    (Call::Push(None), Some(1), 128, 3),
    (Call::Note, Some(1), 128, 3),
    (Call::Roll, Some(1), 128, 3),
    (Call::Pop, Some(1), 81, 2),
    (Call::Pop, None, 31, 1),
    (Call::Push(None), None, 78, 2),
    (Call::Save, Some(1), 78, 2),
    (Call::Shut, None, 0, 0),
    (Call::End, None, 0, 0),
];

// Whether what is told of each call is so behind it.
fn takes_steps(alloc: Global, table: &mut TxnTable, t: &TxnId) -> Result<bool, Memory> {
    let here = Word::copy_of(alloc, b"here")?;
    for (call, mark, bytes, records) in STEPS {
        calls(alloc, table, t, call)?;
        if table.mark(t, &here) != mark || table.reserve() != bytes || table.owed() != records {
            return Ok(false);
        }
    }
    Ok(true)
}

// Whether 63 transactions more begin, and no further one.
fn is_full_at_64(table: &mut TxnTable) -> bool {
    for _ in 1..64 {
        if table.begin(2).is_err() {
            return false;
        }
    }
    matches!(table.begin(2), Err(Refusal::TooManyTxns))
}

// Whether a transaction takes the steps, is there again, and 63 more begin beside it.
fn opens_and_ends(alloc: Global, table: &mut TxnTable) -> bool {
    let Ok(t) = table.begin(1) else {
        return false;
    };
    matches!(takes_steps(alloc, table, &t), Ok(true))
        && table.adopt(&t).is_ok()
        && is_full_at_64(table)
}

#[test]
fn a_transaction_opens_undoes_and_ends(rt: HostRuntime) {
    let inst = InstNo::new(1).unwrap();
    let mut table = TxnTable::new(rt.alloc(), inst);
    assert!(rt; opens_and_ends(rt.alloc(), &mut table));
}

// Whether epoch 7 gives one number more, and then none, and epoch 8 gives one. Which numbers these are, and that what is
// unresolved stays, the clauses of `begin` tell.
fn gives_the_last(table: &mut TxnTable) -> bool {
    if table.begin(7).is_err() {
        return false;
    }
    if !matches!(table.begin(7), Err(Refusal::LsnEnd)) {
        return false;
    }
    table.begin(8).is_ok()
}

#[test]
fn the_last_number_is_given_and_none_after_it(rt: HostRuntime) {
    let inst = InstNo::new(1).unwrap();
    let mut table = TxnTable::counted(rt.alloc(), inst, 7, 4_294_967_294);
    assert!(rt; gives_the_last(&mut table));
}
