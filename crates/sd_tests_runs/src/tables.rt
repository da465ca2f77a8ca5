//! The plain program of the serial table on worked scripts, each event with wrong replies beside the right ones.

use crate::entries::Ask::{
    Add, Back, BackToMark, Begin, Commit, Insert, Join, List, Read, Save, Undo,
};
use crate::entries::Say::{
    Absent, At, Began, Did, Fell, Finished, Joined, No, Rows as Listed, Step, Value,
};
use crate::entries::Why::{
    Blocked, Busy, CutCommit, Deadlock, Down, Failed, Lost, NeedPage, NoRecord, NoTxn, NotNumber,
    PageFull, TooLong,
};
use crate::entries::{JudgedLine, MAKER, NEAR, ONE, Say, THIRD, Who, event, outcome, reply};
use sd_base::Memory;
use sd_model::{Event, Rows};
use sd_oracle::{SerialTable, Verdict};
use std::process::Abort;
use std::test::Fail;

/// The fourth transaction of instance 1.
const FOURTH: Who = Who(1, 1, 4);

/// Texts, numbers and sums.
static VALUES: [JudgedLine; 12] = [
    (ONE, Join, &[Joined(0), Joined(2), Did], &[Joined(1)]),
    (ONE, Begin, &[Began(NEAR), Did], &[Began(MAKER)]),
    (
        MAKER,
        Insert(b"12"),
        &[Did, Step, No(NoRecord), No(Busy(MAKER))],
        &[At(0)],
    ),
    (
        MAKER,
        Insert(b"01"),
        &[At(0), No(TooLong), No(NoTxn), No(Down)],
        &[At(1)],
    ),
    (
        MAKER,
        Insert(b"longer than 18 bytes"),
        &[At(2), No(PageFull)],
        &[No(TooLong)],
    ),
    // The page, which the table doesn't know, may be full.
    (MAKER, Insert(b"red"), &[], &[No(PageFull)]),
    // Where the sum has more bytes, its slot, which the table doesn't know, may be too short.
    (MAKER, Add(0, 88), &[No(NotNumber)], &[No(TooLong)]),
    (MAKER, Add(0, -21), &[No(TooLong), No(NotNumber)], &[Did]),
    (MAKER, Read(0), &[Value(b"12"), Absent], &[Value(b"-9")]),
    (MAKER, Add(1, 1), &[Did], &[No(NotNumber)]),
    (MAKER, Commit, &[No(NoTxn)], &[Did]),
    (
        ONE,
        List,
        &[Listed(&[]), Listed(&[b"-9"])],
        &[Listed(&[b"-9", b"01"])],
    ),
];

/// Rollbacks, and refusals that the table rules out though other things decide them too.
static ROLLBACKS: [JudgedLine; 22] = [
    (ONE, Join, &[], &[Joined(1)]),
    (ONE, Begin, &[], &[Began(MAKER)]),
    (MAKER, Insert(b"red"), &[], &[At(0)]),
    // One that runs has nothing to undo, and needs no page.
    (
        MAKER,
        Undo,
        &[No(NeedPage), No(Lost), No(Failed), Step],
        &[Finished],
    ),
    (MAKER, Save, &[Step], &[Did]),
    (MAKER, BackToMark, &[Step], &[Did]),
    (
        MAKER,
        Undo,
        &[No(NeedPage), No(Lost), No(Failed), Step],
        &[Finished],
    ),
    // Of a whole rollback the undo needs a page, and the end a device.
    (MAKER, Back, &[Finished], &[Did]),
    (
        MAKER,
        Undo,
        &[No(Failed), Finished],
        &[No(NeedPage), No(Lost), Step],
    ),
    (
        MAKER,
        Undo,
        &[No(NeedPage), No(Lost), Step],
        &[No(Failed), Finished],
    ),
    // One without puts needs neither.
    (ONE, Begin, &[Began(THIRD)], &[Began(NEAR)]),
    (NEAR, Read(0), &[Value(b"red")], &[Absent]),
    (NEAR, Back, &[], &[Did]),
    (
        NEAR,
        Undo,
        &[No(NeedPage), No(Lost), No(Failed), Step],
        &[Finished],
    ),
    (ONE, Begin, &[], &[Began(THIRD)]),
    (THIRD, Commit, &[No(CutCommit), No(Failed)], &[Did]),
    (ONE, Begin, &[], &[Began(FOURTH)]),
    (FOURTH, Insert(b"blue"), &[], &[At(0)]),
    (FOURTH, Back, &[], &[Did]),
    (FOURTH, Undo, &[], &[Step]),
    (FOURTH, Undo, &[], &[Fell(ONE)]),
    (FOURTH, Undo, &[Finished], &[No(Down)]),
];

/// Inserts beside claims of others.
static CLAIMS: [JudgedLine; 14] = [
    (ONE, Join, &[], &[Joined(1)]),
    (ONE, Begin, &[], &[Began(MAKER)]),
    (
        MAKER,
        Insert(b"red"),
        &[
            No(Blocked(NEAR)),
            No(Deadlock(NEAR, THIRD)),
            No(Blocked(MAKER)),
        ],
        &[At(0)],
    ),
    (ONE, Begin, &[], &[Began(NEAR)]),
    (NEAR, Insert(b"tan"), &[At(0)], &[No(Blocked(MAKER))]),
    (MAKER, Commit, &[], &[Did]),
    (MAKER, Commit, &[Did], &[No(NoTxn)]),
    // A record that is there is in no insert's way, whoever claims it.
    (NEAR, Insert(b"tan"), &[No(Blocked(MAKER))], &[]),
    (ONE, Begin, &[], &[Began(THIRD)]),
    (THIRD, Read(0), &[Absent], &[Value(b"red")]),
    (
        NEAR,
        Insert(b"tan"),
        &[No(Blocked(THIRD)), No(Deadlock(THIRD, NEAR))],
        &[At(1)],
    ),
    (
        THIRD,
        Read(1),
        &[Value(b"tan"), Absent],
        &[No(Blocked(NEAR))],
    ),
    // A commit that is cut takes its instance down.
    (NEAR, Commit, &[No(Down)], &[No(CutCommit)]),
    (THIRD, Commit, &[Did], &[No(Down)]),
];

fn play(rt: &(impl Abort + AllocGlobal), lines: &[JudgedLine]) -> Result<(), Memory> {
    let mut table = SerialTable::new(rt.alloc(), Rows::of(Vec::new(rt.alloc())));
    for (row, (who, ask, wrong, right)) in lines.iter().enumerate() {
        let event = event(rt, *who, *ask)?;
        judged(rt, &mut table, &event, wrong, (Verdict::Differs, row))?;
        judged(rt, &mut table, &event, right, (Verdict::Follows, row))?;
    }
    Ok(())
}

fn judged(
    rt: &(impl Abort + AllocGlobal),
    table: &mut SerialTable,
    event: &Event,
    says: &[Say],
    (verdict, row): (Verdict, usize),
) -> Result<(), Memory> {
    for say in says {
        let said = table.step(event, &reply(rt, *say)?, &outcome(rt, *say)?)?;
        assert!(rt; said == verdict, "row {row}");
    }
    Ok(())
}

#[test]
fn replies_are_judged(rt: HostRuntime) -> Result<(), Fail> {
    for lines in [&VALUES[..], &ROLLBACKS[..], &CLAIMS[..]] {
        play(&rt, lines)?;
    }
    Ok(())
}
