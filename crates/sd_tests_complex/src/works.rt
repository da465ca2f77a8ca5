//! One instance at work: changes that commit and roll back, a lock that is refused, a log that is full, transactions without end.

ghost use Rattle.std.specs.Prelude.{◌≡◌, IfOk, OnOk};
ghost use Rattle.sd_state.specs.Complexes.{parts};
ghost use Rattle.sd_one.specs.Ready.{IsReady};

use crate::checks::checked;
use crate::seeing::{Seen, seen};
use sd_base::{Refusal, Rid, TxnId};
use sd_one::{Stop, begun, blank, commit, get_page, record, roll_back_whole, start, undo, written};
use sd_rig::{MemRig, Rig};
use sd_state::Complex;
use std::alloc::Global;

// A complex over devices of zeros, whose instance 1 is up and has page 5 alone; made once more where there is no memory.
fn at_work(alloc: Global) -> Result<Complex<MemRig>, Stop>
    ensures { IfOk result (λ c. IsReady (⟦<MemRig as Rig>⟧.seen c.rig) (⟦<MemRig as Rig>⟧.leaves c.rig) (parts c)) }
{
    match started(alloc) {
        Ok(c) => Ok(c),
        Err(_) => started(alloc),
    }
}

fn started(alloc: Global) -> Result<Complex<MemRig>, Stop>
    ensures { IfOk result (λ c. IsReady (⟦<MemRig as Rig>⟧.seen c.rig) (⟦<MemRig as Rig>⟧.leaves c.rig) (parts c)) }
{
    let Ok(mut c) = start(alloc, blank(alloc)?, 2) else {
        return Err(Stop::Odd);
    };
    get_page(&mut c)?;
    Ok(c)
}

// What a transaction does.
#[derive(Clone, Copy)]
enum Step {
    Begin,
    Put(&'static [u8; 3]),
    Undo,
    // The first record of a checkpoint comes to the log.
    Check,
    Commit,
    RollBack,
}

// A step that ends no transaction.
fn go_on<G: Rig>(
    alloc: Global,
    c: &mut Complex<G>,
    t: &mut Option<TxnId>,
    r: &Rid,
    step: &Step,
) -> Result<(), Stop>
    requires { IsReady (G.seen c.old.rig) (G.leaves c.old.rig) (parts c.old) }
    ensures { IsReady (G.seen c.new.rig) (G.leaves c.new.rig) (parts c.new) }
{
    let Some(at_work) = *t else {
        *t = Some(begun(c)?);
        return Ok(());
    };
    match *step {
        Step::Put(bytes) => written(alloc, c, &at_work, r, bytes),
        Step::Undo => undo(c, &at_work),
        Step::Check => checked(c),
        Step::Begin | Step::Commit | Step::RollBack => Err(Stop::Odd),
    }
}

fn take<G: Rig>(
    alloc: Global,
    c: &mut Complex<G>,
    t: &mut Option<TxnId>,
    r: &Rid,
    step: &Step,
) -> Result<(), Stop>
    requires { IsReady (G.seen c.old.rig) (G.leaves c.old.rig) (parts c.old) }
    ensures { OnOk result (IsReady (G.seen c.new.rig) (G.leaves c.new.rig) (parts c.new)) }
{
    match (*t, *step) {
        (Some(at_work), Step::Commit) => {
            *t = None;
            commit(c, &at_work)
        }
        (Some(at_work), Step::RollBack) => {
            *t = None;
            roll_back_whole(c, &at_work)
        }
        _ => go_on(alloc, c, t, r, step),
    }
}

// How many steps lead to what is told of them, up to one that doesn't.
fn agreeing<G: Rig>(
    alloc: Global,
    c: &mut Complex<G>,
    r: &Rid,
    steps: &[(Step, Seen<'_>)],
) -> Result<usize, Stop>
    requires { IsReady (G.seen c.old.rig) (G.leaves c.old.rig) (parts c.old) }
{
    let mut t = None;
    for n in 0..steps.len() {
        let (step, told) = &steps[n];
        take(alloc, c, &mut t, r, step)?;
        if seen(c, r) != *told {
            return Ok(n);
        }
    }
    Ok(steps.len())
}

const RED: Option<&[u8]> = Some(b"red");

const TAN: Option<&[u8]> = Some(b"tan");

// Each step, and what is seen behind it.
const STEPS: [(Step, Seen<'static>); 12] = [
    (Step::Begin, (1, 1, false, None)),
    (Step::Put(b"red"), (2, 1, true, RED)),
    (Step::Check, (3, 1, true, RED)),
    (Step::Commit, (4, 0, true, RED)),
    (Step::Begin, (4, 1, true, RED)),
    (Step::Put(b"tan"), (5, 1, true, TAN)),
    (Step::Put(b"red"), (6, 1, true, RED)),
    (Step::Undo, (7, 1, true, TAN)),
    (Step::Check, (8, 1, true, TAN)),
    (Step::RollBack, (10, 0, true, RED)),
    (Step::Begin, (10, 1, true, RED)),
    (Step::RollBack, (10, 0, true, RED)),
];

// How many of the steps lead to what is told of them, on a complex that is made.
fn agreeing_at_work(alloc: Global) -> Result<usize, Stop> {
    let mut c = at_work(alloc)?;
    agreeing(alloc, &mut c, &record(), &STEPS)
}

#[test]
fn what_commits_stays_and_what_rolls_back_goes(rt: HostRuntime) {
    assert!(rt; matches!(agreeing_at_work(rt.alloc()), Ok(n) if n == STEPS.len()));
}

// Whether this is a lock that is refused since the transaction stands in its way.
fn is_blocked(told: Result<(), Stop>, t: &TxnId) -> bool {
    match &told {
        Err(Stop::Refused(Refusal::Blocked { by })) => by == t,
        _ => false,
    }
}

// Whether the second of two transactions is refused the lock of the first, and gets it behind the commit.
fn waits<G: Rig>(alloc: Global, c: &mut Complex<G>, r: &Rid) -> Result<bool, Stop>
    requires { IsReady (G.seen c.old.rig) (G.leaves c.old.rig) (parts c.old) }
{
    let t = begun(c)?;
    let u = begun(c)?;
    written(alloc, c, &t, r, b"red")?;
    let blocked = is_blocked(written(alloc, c, &u, r, b"tan"), &t);
    commit(c, &t)?;
    written(alloc, c, &u, r, b"tan")?;
    Ok(blocked)
}

// The same of a complex that is made.
fn waits_at_work(alloc: Global) -> Result<bool, Stop> {
    let mut c = at_work(alloc)?;
    waits(alloc, &mut c, &record())
}

#[test]
fn a_lock_is_refused_until_its_holder_ends(rt: HostRuntime) {
    assert!(rt; matches!(waits_at_work(rt.alloc()), Ok(true)));
}

// Puts values of 256 bytes until the log is full; answers how many were put.
fn fill<G: Rig>(alloc: Global, c: &mut Complex<G>, t: &TxnId, r: &Rid) -> Result<u32, Stop>
    requires { IsReady (G.seen c.old.rig) (G.leaves c.old.rig) (parts c.old) }
    ensures { IsReady (G.seen c.new.rig) (G.leaves c.new.rig) (parts c.new) }
{
    for n in 0..4000u32 {
        match written(alloc, c, t, r, &[(n % 256) as u8; 256]) {
            Ok(()) => {}
            Err(Stop::Refused(Refusal::LogFull)) => return Ok(n),
            Err(stop) => return Err(stop),
        }
    }
    Ok(4000)
}

// Puts the first record of a checkpoint until the log is full; answers how many were put.
fn fill_up<G: Rig>(c: &mut Complex<G>) -> Result<u32, Stop>
    requires { IsReady (G.seen c.old.rig) (G.leaves c.old.rig) (parts c.old) }
    ensures { IsReady (G.seen c.new.rig) (G.leaves c.new.rig) (parts c.new) }
{
    for n in 0..4000u32 {
        match checked(c) {
            Ok(()) => {}
            Err(Stop::Refused(Refusal::LogFull)) => return Ok(n),
            Err(stop) => return Err(stop),
        }
    }
    Ok(4000)
}

// How many values and records of checkpoints a transaction and its instance put until the log is full; the transaction then
// rolls back.
fn filled<G: Rig>(alloc: Global, c: &mut Complex<G>, r: &Rid) -> Result<(u32, u32), Stop>
    requires { IsReady (G.seen c.old.rig) (G.leaves c.old.rig) (parts c.old) }
    ensures { OnOk result (IsReady (G.seen c.new.rig) (G.leaves c.new.rig) (parts c.new)) }
{
    let t = begun(c)?;
    let values = fill(alloc, c, &t, r)?;
    let checks = fill_up(c)?;
    roll_back_whole(c, &t)?;
    Ok((values, checks))
}

// Of the area's 1,048,576 bytes the Start takes 18, the head of the next group 5, and the gate behind it 1. The first change
// takes 294, with 78 that are reserved for its undo and the End; each later one 550, with 303. So 696 are left, and a checkpoint's
// record takes 9.
fn has_room<G: Rig>(alloc: Global, c: &mut Complex<G>) -> Result<bool, Stop>
    requires { IsReady (G.seen c.old.rig) (G.leaves c.old.rig) (parts c.old) }
{
    let r = record();
    let counts = filled(alloc, c, &r)?;
    Ok(counts == (1229, 77) && seen(c, &r) == (1 + 2 * 1229 + 77 + 1, 0, true, None))
}

// The same of a complex that is made.
fn has_room_at_work(alloc: Global) -> Result<bool, Stop> {
    let mut c = at_work(alloc)?;
    has_room(alloc, &mut c)
}

#[test]
fn a_full_log_has_room_to_roll_back(rt: HostRuntime) {
    assert!(rt; matches!(has_room_at_work(rt.alloc()), Ok(true)));
}

// Begins transactions until there are too many; answers how many began, and the last of them.
fn crowd<G: Rig>(c: &mut Complex<G>) -> Result<(u32, Option<TxnId>), Stop>
    requires { IsReady (G.seen c.old.rig) (G.leaves c.old.rig) (parts c.old) }
    ensures { IsReady (G.seen c.new.rig) (G.leaves c.new.rig) (parts c.new) }
{
    let mut last = None;
    for n in 0..100u32 {
        match begun(c) {
            Ok(t) => last = Some(t),
            Err(Stop::Refused(Refusal::TooManyTxns)) => return Ok((n, last)),
            Err(stop) => return Err(stop),
        }
    }
    Ok((100, last))
}

// Whether 64 transactions begin before there are too many, and one behind the commit of one.
fn has_64<G: Rig>(c: &mut Complex<G>) -> Result<bool, Stop>
    requires { IsReady (G.seen c.old.rig) (G.leaves c.old.rig) (parts c.old) }
{
    let (many, last) = crowd(c)?;
    let are_there = seen(c, &record()) == (1, 64, false, None);
    let Some(t) = last else {
        return Err(Stop::Odd);
    };
    commit(c, &t)?;
    let (more, _) = crowd(c)?;
    Ok(many == 64 && are_there && more == 1)
}

// The same of a complex that is made.
fn has_64_at_work(alloc: Global) -> Result<bool, Stop> {
    let mut c = at_work(alloc)?;
    has_64(&mut c)
}

#[test]
fn an_instance_has_64_transactions_at_most(rt: HostRuntime) {
    assert!(rt; matches!(has_64_at_work(rt.alloc()), Ok(true)));
}
