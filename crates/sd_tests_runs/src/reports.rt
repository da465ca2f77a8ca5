//! A report by hand: each form with its replies, and the text of each refusal.

use crate::entries::Say::{
    Absent, Asked, At, Began, Did, Finished, Gave, Have, Joined, No, Rows as Listed, Shown,
    Step as Undone, Value,
};
use crate::entries::Spot::{Excl, Free, Lost as Nowhere, Moving, Shared};
use crate::entries::Why::{
    BadLine, BadLog, BadRecord, Blocked, Busy, CutCommit, Damaged, Deadlock, Dirty, Down, Failed,
    LogFull, Lost, LsnEnd, MovingTo, NeedPage, NoCheck, NoMemory, NoRecord, NoSavepoint, NoTxn,
    NotAsked, NotNumber, NotRecovered, PageFull, PoolFull, TooLong, TooManyTxns, Up,
};
use crate::entries::{FAR, MAKER, NEAR, ONE, Say, TWO, Who, reply, txn};
use sd_base::{Duplicate, LineError, Memory, PageNo, Trouble};
use sd_model::{Entry, Event, Told};
use sd_report::{bad_line, in_order, render};
use sd_script::{Form, Kind, Line, Script};
use std::process::Abort;
use std::test::Fail;

/// A line, the replies of its entries and of the helping ones between them, and what is reported of it.
type ReportedLine = (&'static [u8], &'static [LineEntry], &'static [u8]);

/// An entry of the line, or one that helps it.
#[derive(Clone, Copy)]
enum LineEntry {
    Own(Say),
    Help(Say),
}

use LineEntry::{Help, Own};

const FIVE: Who = Who(5, 0, 0);

const EIGHT: Who = Who(8, 0, 0);

/// What is done.
static REPLIES: [ReportedLine; 34] = [
    (
        b"complex 8 2 1\n",
        &[Help(Joined(1)), Help(Joined(1))],
        b"complex 8 2 1\n",
    ),
    (b"1 begin a\n", &[Own(Began(MAKER))], b"a begin 1.1.1\n"),
    (
        b"insert a 0 red 5\n",
        &[Own(No(NeedPage)), Help(Have), Own(At(0))],
        b"a insert 0.0\n",
    ),
    (b"insert a 0 tan\n", &[Own(At(1))], b"a insert 0.1\n"),
    (
        b"read a 0.0\n",
        &[Own(Value(b"red"))],
        b"a read 0.0 = red\n",
    ),
    (b"read a 0.7\n", &[Own(Absent)], b"a read 0.7 absent\n"),
    (b"write a 0.0 4\n", &[Own(Did)], b"a write 0.0\n"),
    (b"add a 0.0 -17\n", &[Own(Did)], b"a add 0.0\n"),
    (b"delete a 0.1\n", &[Own(Did)], b"a delete 0.1\n"),
    (b"commit a\n", &[Own(Did)], b"a commit\n"),
    (b"1 ask 1 s\n", &[Own(Have)], b"1 have 1\n"),
    (b"1 ask 1 x\n", &[Own(Asked(TWO))], b"1 asked 1 of 2\n"),
    (b"1 give 1\n", &[Own(Gave(TWO))], b"1 gave 1 to 2\n"),
    (b"2 take 1\n", &[Own(Did)], b"2 took 1\n"),
    (b"1 evict 1\n", &[Own(Did)], b"1 evicted 1\n"),
    (b"1 flush 0\n", &[Own(Did)], b"1 flushed 0\n"),
    (b"1 force\n", &[Own(Did)], b"1 forced\n"),
    (b"1 check begin\n", &[Own(Did)], b"1 check begin\n"),
    (b"2 check end\n", &[Own(Did)], b"2 check end\n"),
    (b"fail 8\n", &[Own(Did)], b"fail 8\n"),
    (b"fuse 0\n", &[Own(Did)], b"fuse 0\n"),
    (b"fuse 1000000\n", &[Own(Did)], b"fuse 1000000\n"),
    (b"fault 1\n", &[Own(Did)], b"fault 1\n"),
    (b"where 1\n", &[Own(Shown(Free, 0))], b"1 free\n"),
    (
        b"where 1\n",
        &[Own(Shown(Excl(ONE, true), 30))],
        b"1 excl 1 lsn 30 dirty\n",
    ),
    (
        b"where 1\n",
        &[Own(Shown(Excl(EIGHT, false), 4))],
        b"1 excl 8 lsn 4 clean\n",
    ),
    (
        b"where 1\n",
        &[Own(Shown(Shared(&[EIGHT, ONE, FIVE], Some(FIVE)), 6))],
        b"1 shared 1,5,8 lsn 6 dirty by 5\n",
    ),
    (
        b"where 1\n",
        &[Own(Shown(Shared(&[TWO], None), 6))],
        b"1 shared 2 lsn 6 clean\n",
    ),
    (
        b"where 1\n",
        &[Own(Shown(Moving(TWO, true), 8))],
        b"1 moving 2 lsn 8 dirty\n",
    ),
    (b"where 1\n", &[Own(Shown(Nowhere, 9))], b"1 lost\n"),
    (
        b"table\n",
        &[
            Own(No(NeedPage)),
            Help(Have),
            Own(Listed(&[b"-13", b"tan"])),
            Own(Listed(&[])),
        ],
        b"0.0 -13\n0.1 tan\ntable 2\n",
    ),
    (
        b"table\n",
        &[Own(Listed(&[])), Own(Listed(&[])), Help(Have)],
        b"table 0\n",
    ),
    (
        b"table\n",
        &[Own(Listed(&[b"-13"])), Own(No(Busy(MAKER)))],
        b"busy a\n",
    ),
    (
        b"table\n",
        &[Own(No(NeedPage)), Help(No(Failed)), Own(No(NeedPage))],
        b"fault\n",
    ),
];

/// What becomes of all instances at once.
static RESTARTS: [ReportedLine; 21] = [
    (
        b"complex 2 1 2\n",
        &[Help(Joined(1)), Help(Joined(1))],
        b"complex 2 1 2\n",
    ),
    (b"fail all keep\n", &[Own(Did)], b"fail all keep\n"),
    (b"fail all lose\n", &[Own(Did)], b"fail all lose\n"),
    (b"fail all tear\n", &[Own(Did)], b"fail all tear\n"),
    (b"fail all junk\n", &[Own(Did)], b"fail all junk\n"),
    // All are closed: none is down, and the first that isn't up can't join.
    (b"recover all\n", &[], b"recover all\n"),
    (b"join all\n", &[Own(No(Down))], b"join all down\n"),
    (
        b"reopen\n",
        &[Own(No(Damaged(2, 130)))],
        b"reopen damaged 2 130\n",
    ),
    (b"reopen\n", &[Own(No(Failed))], b"reopen fault\n"),
    (b"reopen\n", &[Own(Did)], b"reopen\n"),
    (b"reopen\n", &[Own(No(Up))], b"reopen not down\n"),
    (
        b"join all\n",
        &[Own(No(NotRecovered))],
        b"join all not recovered\n",
    ),
    (
        b"recover all\n",
        &[
            Own(Did),
            Own(No(NeedPage)),
            Help(No(Failed)),
            Own(No(NeedPage)),
        ],
        b"recover all fault\n",
    ),
    // The pull writes a page out, and the instance falls by it.
    (
        b"recover all\n",
        &[
            Own(Did),
            Own(No(NeedPage)),
            Help(No(PoolFull)),
            Help(No(Failed)),
            Own(No(NotRecovered)),
        ],
        b"recover all not recovered\n",
    ),
    (
        b"recover all\n",
        &[Own(Did), Own(Finished), Own(Did), Own(No(Failed))],
        b"recover all fault\n",
    ),
    (
        b"recover all\n",
        &[
            Own(Did),
            Own(Undone),
            Own(No(NeedPage)),
            Help(Have),
            Own(Undone),
            Own(Finished),
            Own(Did),
            Own(Finished),
        ],
        b"recover all\n",
    ),
    (b"join all\n", &[Own(No(Failed))], b"join all fault\n"),
    (
        b"join all\n",
        &[Own(Joined(3)), Own(No(LogFull))],
        b"join all log full\n",
    ),
    (b"join all\n", &[Own(No(LsnEnd))], b"join all lsn end\n"),
    (
        b"join all\n",
        &[Own(Joined(4)), Own(Joined(2))],
        b"join all\n",
    ),
    (b"join all\n", &[], b"join all\n"),
];

/// What becomes of single instances: one recovers another, wholly or for so many steps, and one joins.
static SURVIVORS: [ReportedLine; 14] = [
    (
        b"complex 3 1 2\n",
        &[Help(Joined(1)), Help(Joined(1)), Help(Joined(1))],
        b"complex 3 1 2\n",
    ),
    (
        b"recover 1 by 2\n",
        &[Own(Did), Own(Undone), Own(Finished)],
        b"recover 1 by 2\n",
    ),
    (
        b"recover 8 by 3 10\n",
        &[Own(Did), Own(Finished)],
        b"recover 8 by 3\n",
    ),
    (
        b"recover 1 by 2 2\n",
        &[Own(Did), Own(Undone), Own(Undone)],
        b"recover 1 by 2 part\n",
    ),
    (b"recover 1 by 3\n", &[Own(No(Up))], b"recover 1 not down\n"),
    (b"recover 2 by 3\n", &[Own(No(Down))], b"recover 2 down\n"),
    // A page that is pulled doesn't count as a step, and one that is pulled in vain is a fault.
    (
        b"recover 1 by 2 1\n",
        &[Own(Did), Own(No(NeedPage)), Help(Have), Own(Undone)],
        b"recover 1 by 2 part\n",
    ),
    (
        b"recover 1 by 2\n",
        &[
            Own(Did),
            Own(No(NeedPage)),
            Help(No(Failed)),
            Own(No(NeedPage)),
        ],
        b"recover 1 fault\n",
    ),
    // The recoverer falls.
    (
        b"recover 1 by 2\n",
        &[Own(Did), Own(No(Failed))],
        b"recover 1 fault\n",
    ),
    (
        b"recover 1 by 2\n",
        &[
            Own(Did),
            Own(No(NeedPage)),
            Help(No(Failed)),
            Own(No(NotRecovered)),
        ],
        b"recover 1 not recovered\n",
    ),
    (b"join 1\n", &[Own(Joined(12))], b"join 1 epoch 12\n"),
    (
        b"join 3\n",
        &[Own(No(NotRecovered))],
        b"join 3 not recovered\n",
    ),
    (b"join 3\n", &[Own(No(Up))], b"join 3 not down\n"),
    (b"join 3\n", &[Own(No(LogFull))], b"join 3 log full\n"),
];

/// What is refused, behind the lines of the other table.
static REFUSALS: [ReportedLine; 39] = [
    (b"commit a\n", &[Own(No(NoTxn))], b"a ended\n"),
    (b"1 begin b\n", &[Own(No(TooManyTxns))], b"b too many\n"),
    (b"read b 0.0\n", &[], b"b ended\n"),
    (b"commit b\n", &[Help(Have)], b"b ended\n"),
    (b"1 begin c\n", &[Own(Began(NEAR))], b"c begin 1.1.2\n"),
    (
        b"read c 0.0\n",
        &[Own(No(NeedPage)), Help(No(Lost)), Own(No(NeedPage))],
        b"c fault\n",
    ),
    (
        b"read c 0.0\n",
        &[Own(No(NeedPage)), Help(Have), Own(No(Blocked(MAKER)))],
        b"c wait for a\n",
    ),
    (
        b"read c 0.0\n",
        &[Own(No(Blocked(FAR)))],
        b"c wait for 2.1.1\n",
    ),
    (
        b"read c 0.0\n",
        &[Own(No(Deadlock(NEAR, FAR)))],
        b"c deadlock c 2.1.1\n",
    ),
    (b"read c 0.0\n", &[Own(No(Busy(NEAR)))], b"c busy c\n"),
    (b"read c 1.0\n", &[Own(No(Lost))], b"c lost 1\n"),
    (b"read c 1.0\n", &[Own(No(PoolFull))], b"c pool full\n"),
    (b"write c 0.0 x\n", &[Own(No(Failed))], b"c fault\n"),
    (b"write c 0.0 x\n", &[Own(No(NoRecord))], b"c no record\n"),
    (b"add c 0.0 1\n", &[Own(No(NotNumber))], b"c not a number\n"),
    (b"add c 0.0 1\n", &[Own(No(TooLong))], b"c too long\n"),
    (b"insert c 0 x\n", &[Own(No(PageFull))], b"c full\n"),
    (b"insert c 0 x\n", &[Own(No(LogFull))], b"c log full\n"),
    (b"insert c 0 x\n", &[Own(No(LsnEnd))], b"c lsn end\n"),
    (
        b"delete c 0.0\n",
        &[Own(No(NoSavepoint))],
        b"c no savepoint\n",
    ),
    (b"delete c 0.0\n", &[Own(No(Down))], b"c down\n"),
    (b"commit c\n", &[Own(No(CutCommit))], b"c cut\n"),
    (
        b"1 ask 1 x\n",
        &[Own(No(MovingTo(FIVE)))],
        b"1 moving 1 to 5\n",
    ),
    (b"1 evict 1\n", &[Own(No(Dirty))], b"1 dirty 1\n"),
    (b"1 give 1\n", &[Own(No(NotAsked))], b"1 not asked 1\n"),
    (b"1 give 1\n", &[Own(No(NeedPage))], b"1 need 1\n"),
    (b"2 take 1\n", &[Own(No(PoolFull))], b"2 pool full\n"),
    (b"1 flush 1\n", &[Own(No(NeedPage))], b"1 need 1\n"),
    (b"1 check end\n", &[Own(No(NoCheck))], b"1 no check\n"),
    (b"1 check begin\n", &[Own(No(Down))], b"1 down\n"),
    (b"fail 8\n", &[Own(No(Down))], b"fail 8 down\n"),
    (b"1 force\n", &[Own(No(Up))], b"1 not down\n"),
    (b"1 force\n", &[Own(No(NotRecovered))], b"1 not recovered\n"),
    (
        b"1 force\n",
        &[Own(No(Damaged(8, 130)))],
        b"1 damaged 8 130\n",
    ),
    (
        b"1 force\n",
        &[Own(No(BadRecord(17)))],
        b"1 bad record 17\n",
    ),
    (b"1 force\n", &[Own(No(BadLog(5)))], b"1 bad log 5\n"),
    (b"1 force\n", &[Own(No(BadLine(2)))], b"1 bad line 2 word\n"),
    (b"1 force\n", &[Own(No(NoMemory))], b"1 no memory\n"),
    (
        b"table\n",
        &[Own(Listed(&[])), Own(No(Lost)), Help(Have)],
        b"lost 0\n",
    ),
];

/// Two transactions side by side: each waits for the other, one rolls back, and one can't.
static SIDE_BY_SIDE: [ReportedLine; 17] = [
    (b"complex 1 2 2\n", &[Help(Joined(1))], b"complex 1 2 2\n"),
    (b"1 begin a\n", &[Own(Began(MAKER))], b"a begin 1.1.1\n"),
    (b"1 begin b\n", &[Own(Began(NEAR))], b"b begin 1.1.2\n"),
    (b"save a s\n", &[Own(Did)], b"a save s\n"),
    (b"write a 0.0 x1\n", &[Own(Did)], b"a write 0.0\n"),
    (b"write b 0.1 y1\n", &[Own(Did)], b"b write 0.1\n"),
    (
        b"write b 0.0 x2\n",
        &[Own(No(Blocked(MAKER)))],
        b"b wait for a\n",
    ),
    (
        b"write a 0.1 y2\n",
        &[Own(No(Blocked(NEAR)))],
        b"a wait for b\n",
    ),
    (
        b"write a 0.1 y2\n",
        &[Own(No(Deadlock(MAKER, NEAR)))],
        b"a deadlock a b\n",
    ),
    (b"table\n", &[Own(No(Busy(MAKER)))], b"busy a\n"),
    (b"back a t\n", &[Own(No(NoSavepoint))], b"a no savepoint\n"),
    (
        b"back a s\n",
        &[Own(Did), Own(Undone), Own(Finished)],
        b"a back s\n",
    ),
    (b"back a s\n", &[Own(Did), Own(Finished)], b"a back s\n"),
    (
        b"rollback a\n",
        &[
            Own(Did),
            Own(No(NeedPage)),
            Help(Have),
            Own(Undone),
            Own(Finished),
        ],
        b"a rollback\n",
    ),
    (b"save a s\n", &[Own(No(NoTxn))], b"a ended\n"),
    (
        b"rollback b\n",
        &[
            Own(Did),
            Own(No(NeedPage)),
            Help(No(Failed)),
            Own(No(NeedPage)),
        ],
        b"b fault\n",
    ),
    (b"commit b\n", &[Own(No(Busy(NEAR)))], b"b busy b\n"),
];

// An event of the line, all the same of which transaction.
fn asked(rt: &(impl Abort + AllocGlobal), form: &Form) -> Result<Event, Memory> {
    let txn = txn(rt, MAKER);
    Ok(match form {
        Form::Complex { insts, .. } => Event::Join { inst: *insts },
        Form::Begin { inst, .. } => Event::Begin { inst: *inst },
        Form::Read { rid, .. } => Event::Read { txn, rid: *rid },
        Form::Write { rid, value, .. } => Event::Write {
            txn,
            rid: *rid,
            value: value.copy()?,
        },
        Form::Add { rid, by, .. } => Event::Add {
            txn,
            rid: *rid,
            by: *by,
        },
        Form::Insert { page, value, .. } => Event::Insert {
            txn,
            page: *page,
            value: value.copy()?,
            capacity: 5,
        },
        Form::Delete { rid, .. } => Event::Delete { txn, rid: *rid },
        Form::Save { mark, .. } => Event::Save {
            txn,
            mark: mark.copy()?,
        },
        Form::Back { .. } | Form::Rollback { .. } => Event::Undo { txn },
        Form::Commit { .. } => Event::Commit { txn },
        other => page_event(rt, other),
    })
}

// An event of a line of an instance or a page, and of a table.
fn page_event(rt: &impl Abort, form: &Form) -> Event {
    match form {
        Form::Ask { inst, page, mode } => Event::Ask {
            inst: *inst,
            page: *page,
            mode: *mode,
        },
        Form::Give { inst, page } => Event::Give {
            inst: *inst,
            page: *page,
        },
        Form::Take { inst, page } => Event::Take {
            inst: *inst,
            page: *page,
        },
        Form::Evict { inst, page } => Event::Evict {
            inst: *inst,
            page: *page,
        },
        Form::Flush { inst, page } => Event::Flush {
            inst: *inst,
            page: *page,
        },
        Form::Force { inst } => Event::Force { inst: *inst },
        Form::CheckBegin { inst } => Event::CheckBegin { inst: *inst },
        Form::CheckEnd { inst } => Event::CheckEnd { inst: *inst },
        Form::Fail { inst } => Event::Fail { inst: *inst },
        Form::Fuse { calls } => Event::Arm {
            trouble: Trouble::Fuse(u64::from(*calls)),
        },
        Form::Fault { call } => Event::Arm {
            trouble: Trouble::Fault(u64::from(*call)),
        },
        Form::FailAll { pick } => Event::FailAll { pick: *pick },
        Form::Reopen => Event::Reopen,
        Form::RecoverAll => Event::RecoverStep {
            inst: txn(rt, ONE).inst,
        },
        Form::Recover { inst, .. } => Event::RecoverStep { inst: *inst },
        Form::Join { inst } => Event::Join { inst: *inst },
        Form::JoinAll => Event::Join {
            inst: txn(rt, ONE).inst,
        },
        Form::Where { page } => Event::Show { page: *page },
        _ => Event::List {
            inst: txn(rt, ONE).inst,
            page: PageNo::new(0).expect(rt, "a page"),
        },
    }
}

// Notes the entries of a line, and those that help it.
fn note(
    rt: &(impl Abort + AllocGlobal),
    entries: &mut Vec<Entry>,
    line: &Line,
    steps: &[LineEntry],
) -> Result<(), Memory> {
    for step in steps {
        let (number, say) = match *step {
            Own(say) => (line.number, say),
            Help(say) => (0, say),
        };
        entries.push(Entry {
            session: 0,
            line: number,
            event: asked(rt, &line.form)?,
            reply: reply(rt, say)?,
        })?;
    }
    Ok(())
}

// Whether each line of the tables, one after another, is reported so.
fn tells(
    rt: &(impl Abort + AllocGlobal),
    first: &[ReportedLine],
    rest: &[ReportedLine],
) -> Result<(), Fail> {
    let mut text = Vec::new(rt.alloc());
    let mut due = Vec::new(rt.alloc());
    for (line, _, reported) in first.iter().chain(rest) {
        text.extend_from_slice(line)?;
        due.extend_from_slice(reported)?;
    }
    let script = Script::read(rt.alloc(), &text, Kind::Replay)?;
    let lines = script.lines();
    let mut entries = Vec::new(rt.alloc());
    for (line, (_, steps, _)) in lines.iter().zip(first.iter().chain(rest)) {
        note(rt, &mut entries, line, steps)?;
    }
    assert!(rt; in_order(lines, Told::of(&entries)));
    let report = render(rt.alloc(), lines, Told::of(&entries))?;
    assert_eq!(rt; report.as_slice(), due.as_slice());
    Ok(())
}

#[test]
fn each_line_is_reported(rt: HostRuntime) -> Result<(), Fail> {
    tells(&rt, &REPLIES, &REFUSALS)
}

#[test]
fn transactions_side_by_side_are_reported_by_their_names(rt: HostRuntime) -> Result<(), Fail> {
    tells(&rt, &SIDE_BY_SIDE, &[])
}

#[test]
fn what_becomes_of_all_instances_is_reported(rt: HostRuntime) -> Result<(), Fail> {
    tells(&rt, &RESTARTS, &[])
}

#[test]
fn what_becomes_of_single_instances_is_reported(rt: HostRuntime) -> Result<(), Fail> {
    tells(&rt, &SURVIVORS, &[])
}

#[test]
fn a_bad_line_is_told(rt: HostRuntime) -> Result<(), Fail> {
    let text = bad_line(rt.alloc(), 100_000, LineError::Unknown)?;
    assert_eq!(rt; text.as_slice(), b"bad line 100000 unknown\n".as_slice());
    Ok(())
}
