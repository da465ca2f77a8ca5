//! Record locks, asked for, waited for, raised, lowered and released in turn: each call succeeds with ample memory.

use sd_base::{InstNo, Memory, Mode, PageNo, Refusal, Rid, TxnId};
use sd_reclock::RecordLocks;

const S: Mode = Mode::Shared;

const X: Mode = Mode::Excl;

#[derive(Clone, Copy)]
enum Act {
    /// A transaction asks for a record, and is given it, or waits.
    Ask(Mode),
    /// A transaction takes a record in the mode, and gives it back.
    Try(Mode),
    /// A transaction ends.
    End,
    /// The waits of the transaction's instance are dropped.
    Drop,
    /// The lowest other holder of the record is told.
    Holder,
    /// The lowest owner in the record's page is told.
    Owner,
}

use Act::{Ask, Drop, End, Holder, Owner, Try};

#[derive(Clone, Copy, PartialEq)]
enum Told {
    Nothing,
    /// This one stands in the way, or is the answer.
    One(u32),
    /// A wait would close a cycle of so many names.
    Cycle(usize),
    /// It is refused for another reason.
    Other,
}

use Told::{Cycle, Nothing, One, Other};

// Looks, and then takes the lock and maybe gives it back, or notes the wait.
fn asks(
    table: &mut RecordLocks,
    t: &TxnId,
    r: &Rid,
    mode: Mode,
    back: bool,
) -> Result<Told, Memory> {
    let was = table.mode(t, r);
    match table.look(t, r, mode) {
        Ok(()) => {
            table.grant(t, r, mode)?;
            if back {
                table.lower(t, r, was);
            }
            table.calm(t);
            Ok(Nothing)
        }
        Err(Refusal::Blocked { by }) => {
            table.wait(t, r, mode)?;
            Ok(One(by.seq))
        }
        Err(Refusal::Deadlock { cycle }) => Ok(Cycle(cycle.items().len())),
        Err(_) => Ok(Other),
    }
}

fn does(table: &mut RecordLocks, act: Act, t: &TxnId, r: &Rid) -> Result<Told, Memory> {
    match act {
        Ask(mode) => return asks(table, t, r, mode, false),
        Try(mode) => return asks(table, t, r, mode, true),
        End => table.release_all(t),
        Drop => table.retain(t.inst),
        Holder => return Ok(table.holder(r, t).map_or(Nothing, |by| One(by.seq))),
        Owner => return Ok(table.owner_in(r.page).map_or(Nothing, |by| One(by.seq))),
    }
    Ok(Nothing)
}

// What the transaction of the number does to the record, and what it is told. Those from 100 on are of instance 2.
const ACTS: [(u32, u16, Act, Told); 23] = [
    (3, 1, Ask(S), Nothing),
    (1, 1, Ask(S), Nothing),
    (2, 1, Ask(S), Nothing),
    (9, 1, Holder, One(1)),
    (1, 1, Ask(X), One(2)),
    (1, 1, Owner, Nothing),
    // the one that came first goes, the others stay
    (3, 1, End, Nothing),
    (2, 1, Ask(X), Cycle(3)),
    (2, 1, End, Nothing),
    (1, 1, Try(X), Nothing),
    (4, 1, Try(S), Nothing),
    (4, 1, Try(X), One(1)),
    (1, 900, Ask(X), Nothing),
    (100, 2, Ask(X), Nothing),
    (9, 1, Owner, One(1)),
    (100, 900, Ask(S), One(1)),
    (1, 2, Try(S), Cycle(3)),
    (100, 2, Drop, Nothing),
    (1, 2, Try(S), One(100)),
    (1, 2, End, Nothing),
    (9, 1, Holder, Nothing),
    (9, 2, Owner, One(100)),
    (100, 900, Ask(S), Nothing),
];

// The transaction of the number acts on the record of page 3.
fn act_on(table: &mut RecordLocks, number: u32, slot: u16, act: Act) -> Result<Told, Memory> {
    let page = PageNo::new(3).unwrap();
    let inst = InstNo::new(if number < 100 { 1 } else { 2 }).unwrap();
    let t = TxnId {
        inst,
        epoch: 1,
        seq: number,
    };
    does(table, act, &t, &Rid { page, slot })
}

// Whether it is told this.
fn is_told(table: &mut RecordLocks, number: u32, slot: u16, act: Act, answer: Told) -> bool {
    match act_on(table, number, slot, act) {
        Ok(found) => found == answer,
        Err(Memory) => false,
    }
}

#[test]
fn locks_are_asked_for_and_released(rt: HostRuntime) {
    let mut table = RecordLocks::new(rt.alloc());
    for (number, slot, act, answer) in ACTS {
        assert!(rt;
            is_told(&mut table, number, slot, act, answer),
            "{number} {slot}"
        );
    }
}
