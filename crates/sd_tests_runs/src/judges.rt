//! The judge with exact waits on worked scripts, each event with a wrong reply beside the right one.

use crate::entries::Ask::{
    Arm, Back, BackToMark, Begin, Commit, Delete, Evict, Fail as Fails, FailAll, Flush, Give,
    Insert, Join, List, Page, Read, Recover, RecoverStep, Reopen, Save, Take, Undo, Write,
};
use crate::entries::Say::{
    Absent, Asked, At, Began, Claimed, Did, Fell, Finished, Found, Gave, Joined, No, PageLost,
    Rows as Listed, Step, Value,
};
use crate::entries::Why::{
    Blocked, Clean, CutCommit, Deadlock, Down, NoRecord, NoSavepoint, NoTxn, Up,
};
use crate::entries::{
    FAR, JudgedLine, MAKER, NEAR, ONE, Say, THIRD, TWO, Who, event, outcome, reply, told,
};
use sd_base::{Memory, Pick};
use sd_model::{Event, Rows};
use sd_oracle::{Judge, Verdict};
use std::process::Abort;
use std::test::Fail;

/// The first transaction of instance 1 after it joined again.
const AGAIN: Who = Who(1, 2, 1);

/// Instance 3.
const THREE: Who = Who(3, 0, 0);

/// Instances 1 and 2 have joined, and the first transaction has committed two records.
static MADE: [JudgedLine; 6] = [
    (ONE, Join, &[Joined(9)], &[Joined(1)]),
    (TWO, Join, &[Joined(9)], &[Joined(1)]),
    (ONE, Begin, &[Began(NEAR)], &[Began(MAKER)]),
    (MAKER, Insert(b"x0"), &[Did], &[At(0)]),
    (MAKER, Insert(b"y0"), &[At(0)], &[At(1)]),
    (MAKER, Commit, &[No(NoTxn)], &[Did]),
];

/// A cycle is refused, and a rollback lets the other one go on. A call of another record ends a wait.
static CYCLE: [JudgedLine; 17] = [
    (ONE, Begin, &[Began(THIRD)], &[Began(NEAR)]),
    (ONE, Begin, &[Began(NEAR)], &[Began(THIRD)]),
    (NEAR, Write(0, b"x1"), &[No(NoRecord)], &[Did]),
    (THIRD, Write(1, b"y1"), &[No(NoRecord)], &[Did]),
    (THIRD, Write(0, b"x2"), &[Did], &[No(Blocked(NEAR))]),
    (THIRD, Read(1), &[Absent], &[Value(b"y1")]),
    (NEAR, Write(1, b"no"), &[Did], &[No(Blocked(THIRD))]),
    (
        THIRD,
        Write(0, b"x2"),
        &[No(Blocked(NEAR))],
        &[No(Deadlock(THIRD, NEAR))],
    ),
    (NEAR, Write(0, b"x3"), &[No(NoRecord)], &[Did]),
    (
        THIRD,
        Write(0, b"x2"),
        &[No(Deadlock(THIRD, NEAR))],
        &[No(Blocked(NEAR))],
    ),
    (
        NEAR,
        Write(1, b"no"),
        &[No(Blocked(THIRD))],
        &[No(Deadlock(NEAR, THIRD))],
    ),
    (NEAR, Back, &[Finished], &[Did]),
    (NEAR, Undo, &[Finished], &[Step, Step]),
    (NEAR, Undo, &[Step], &[Finished]),
    (THIRD, Write(0, b"x2"), &[No(NoRecord)], &[Did]),
    (THIRD, Commit, &[No(NoTxn)], &[Did]),
    (ONE, List, &[Listed(&[])], &[Listed(&[b"x2", b"y1"])]),
];

/// A reader makes a writer wait, and an insert waits for a slot without a record alone.
static READER: [JudgedLine; 13] = [
    (TWO, Begin, &[Began(NEAR)], &[Began(FAR)]),
    (ONE, Begin, &[Began(THIRD)], &[Began(NEAR)]),
    (ONE, Begin, &[Began(NEAR)], &[Began(THIRD)]),
    (FAR, Read(0), &[Absent], &[Value(b"x0")]),
    (NEAR, Write(0, b"tan"), &[Did], &[No(Blocked(FAR))]),
    (THIRD, Insert(b"tan"), &[Claimed(0, FAR)], &[]),
    (NEAR, Insert(b"z0"), &[Did], &[At(2)]),
    (THIRD, Insert(b"tan"), &[Claimed(0, FAR)], &[]),
    (
        THIRD,
        Insert(b"tan"),
        &[No(Blocked(NEAR))],
        &[Claimed(2, NEAR)],
    ),
    (FAR, Commit, &[No(NoTxn)], &[Did]),
    (NEAR, Write(0, b"tan"), &[No(NoRecord)], &[Did]),
    (NEAR, Commit, &[No(NoTxn)], &[Did]),
    (
        ONE,
        List,
        &[Listed(&[])],
        &[Listed(&[b"tan", b"y0", b"z0"])],
    ),
];

/// A failed transaction holds its records until the recovery, which takes back what it did; another's commit stays.
static FALL: [JudgedLine; 14] = [
    (ONE, Begin, &[Began(THIRD)], &[Began(NEAR)]),
    (NEAR, Delete(0), &[No(Down)], &[Did]),
    (TWO, Begin, &[Began(NEAR)], &[Began(FAR)]),
    (FAR, Write(1, b"y1"), &[No(NoRecord)], &[Did]),
    (ONE, Fails, &[No(Down)], &[Did]),
    (FAR, Read(0), &[Absent], &[No(Blocked(NEAR))]),
    (TWO, Recover(ONE), &[No(Up)], &[Did]),
    (ONE, RecoverStep, &[Did], &[Step, Finished]),
    (TWO, Recover(ONE), &[Did], &[No(Clean)]),
    (FAR, Read(0), &[Absent], &[Value(b"x0")]),
    (FAR, Commit, &[No(NoTxn)], &[Did]),
    (ONE, Join, &[Joined(1)], &[Joined(2)]),
    (ONE, Begin, &[Began(MAKER)], &[Began(AGAIN)]),
    (ONE, List, &[Listed(&[])], &[Listed(&[b"x0", b"y1"])]),
];

/// A recovery that is cut is begun again by another instance.
static CUT_RECOVERY: [JudgedLine; 11] = [
    (THREE, Join, &[Joined(9)], &[Joined(1)]),
    (ONE, Begin, &[Began(THIRD)], &[Began(NEAR)]),
    (NEAR, Write(0, b"x1"), &[No(NoRecord)], &[Did]),
    (ONE, Fails, &[No(Down)], &[Did]),
    (TWO, Recover(ONE), &[No(Up)], &[Did]),
    (TWO, Fails, &[No(Down)], &[Did]),
    (THREE, Recover(ONE), &[No(Up)], &[Did]),
    (ONE, RecoverStep, &[Did], &[Finished]),
    (THREE, Recover(TWO), &[No(Up)], &[Did]),
    (TWO, RecoverStep, &[Did], &[Finished]),
    (THREE, List, &[Listed(&[])], &[Listed(&[b"x0", b"y0"])]),
];

/// A cut commit that is found counts, and one that isn't is undone.
static CUT_COMMIT: [JudgedLine; 14] = [
    (ONE, Begin, &[Began(THIRD)], &[Began(NEAR)]),
    (NEAR, Write(0, b"x1"), &[No(NoRecord)], &[Did]),
    (NEAR, Commit, &[No(Down)], &[No(CutCommit)]),
    (ONE, FailAll(Pick::Keep), &[Step], &[Did]),
    (ONE, Reopen, &[Found(FAR)], &[Found(NEAR)]),
    (ONE, Join, &[Joined(1)], &[Joined(2)]),
    (ONE, Begin, &[Began(MAKER)], &[Began(AGAIN)]),
    (AGAIN, Write(0, b"x2"), &[No(NoRecord)], &[Did]),
    (AGAIN, Commit, &[No(Down)], &[No(CutCommit)]),
    (ONE, FailAll(Pick::Lose), &[Step], &[Did]),
    (ONE, Reopen, &[Found(NEAR)], &[Did]),
    (ONE, Recover(ONE), &[No(Up)], &[Did]),
    (ONE, RecoverStep, &[Did], &[Finished]),
    (ONE, Join, &[Joined(2)], &[Joined(3)]),
];

/// A rollback to a mark goes on, and a failure of the whole complex undoes all.
static MARK: [JudgedLine; 13] = [
    (ONE, Begin, &[Began(THIRD)], &[Began(NEAR)]),
    (NEAR, BackToMark, &[Did], &[No(NoSavepoint)]),
    (NEAR, Save, &[No(NoSavepoint)], &[Did]),
    (NEAR, Write(0, b"x1"), &[No(NoRecord)], &[Did]),
    (NEAR, BackToMark, &[Finished], &[Did]),
    (NEAR, Undo, &[Finished], &[Step]),
    (NEAR, Undo, &[Step], &[Finished]),
    (NEAR, Write(0, b"x2"), &[No(NoRecord)], &[Did]),
    (NEAR, Read(0), &[Value(b"x1")], &[Value(b"x2")]),
    (ONE, FailAll(Pick::Keep), &[Step], &[Did]),
    (ONE, Reopen, &[Found(NEAR)], &[Did]),
    (ONE, Recover(ONE), &[No(Up)], &[Did]),
    (ONE, RecoverStep, &[Did], &[Finished]),
];

/// A changed page passes on, a page write is cut, and a recovery whose device fails leaves the undo to a reopening.
static PAGES: [JudgedLine; 20] = [
    (TWO, Begin, &[Began(NEAR)], &[Began(FAR)]),
    (TWO, Page, &[Did], &[Asked(ONE)]),
    (ONE, Give, &[Did], &[Gave(TWO)]),
    (TWO, Take, &[Step], &[Did]),
    (FAR, Write(0, b"x1"), &[No(NoRecord)], &[Did]),
    (TWO, Flush, &[Step], &[Did]),
    (TWO, Evict, &[Step], &[Did]),
    (FAR, Commit, &[No(NoTxn)], &[Did]),
    (ONE, Begin, &[Began(THIRD)], &[Began(NEAR)]),
    (NEAR, Write(0, b"x2"), &[No(NoRecord)], &[Did]),
    (ONE, Arm, &[Step], &[Did]),
    (ONE, Flush, &[Fell(TWO)], &[Fell(ONE)]),
    (TWO, Recover(ONE), &[No(Up)], &[Did]),
    (ONE, RecoverStep, &[Fell(ONE)], &[Fell(TWO)]),
    (ONE, FailAll(Pick::Junk), &[Step], &[Did]),
    // One who isn't in doubt isn't found, and where a page is lost all instances are down.
    (ONE, Reopen, &[Found(FAR)], &[PageLost]),
    (ONE, Recover(ONE), &[No(Up)], &[Did]),
    (ONE, RecoverStep, &[Did], &[Finished]),
    (ONE, Join, &[Joined(1)], &[Joined(2)]),
    (ONE, List, &[Listed(&[])], &[Listed(&[b"x1", b"y0"])]),
];

fn play(
    rt: &(impl Abort + AllocGlobal),
    judge: &mut Judge,
    lines: &[JudgedLine],
) -> Result<(), Memory> {
    for (row, (who, ask, wrong, right)) in lines.iter().enumerate() {
        let event = event(rt, *who, *ask)?;
        judged(rt, judge, &event, wrong, (Verdict::Differs, row))?;
        judged(rt, judge, &event, right, (Verdict::Follows, row))?;
    }
    Ok(())
}

fn judged(
    rt: &(impl Abort + AllocGlobal),
    judge: &mut Judge,
    event: &Event,
    says: &[Say],
    (verdict, row): (Verdict, usize),
) -> Result<(), Memory> {
    for say in says {
        let (reply, outcome) = (reply(rt, *say)?, outcome(rt, *say)?);
        let said = judge.step(event, &reply, &outcome, &told(rt, *say))?;
        assert!(rt; said == verdict, "row {row}");
    }
    Ok(())
}

#[test]
fn replies_are_judged_with_exact_waits(rt: HostRuntime) -> Result<(), Fail> {
    for lines in [
        &CYCLE[..],
        &READER[..],
        &FALL[..],
        &CUT_RECOVERY[..],
        &CUT_COMMIT[..],
        &MARK[..],
        &PAGES[..],
    ] {
        let mut judge = Judge::new(rt.alloc(), Rows::of(Vec::new(rt.alloc())));
        play(&rt, &mut judge, &MADE)?;
        play(&rt, &mut judge, lines)?;
    }
    Ok(())
}
