//! One event served on the complex, by the call that it stands for.

ghost use Rattle.std.specs.Prelude.{◌≡◌, ◌≢◌, ℕ, None, Some};
ghost use Rattle.sd_base.specs.declared.refusal.Refusal.TheVariants as R;
ghost use Rattle.sd_model.specs.Few.{Few};
ghost use Rattle.sd_model.specs.declared.event.Reply.{Reply};
ghost use Rattle.sd_model.specs.declared.event.Reply.TheVariants as reply;
ghost use Rattle.sd_state.specs.Complexes.{parts};
ghost use Rattle.sd_state.specs.Parts.{status_at, IsShape};
ghost use Rattle.sd_world.specs.Serving.{Core, answered, began_reply, did, found_reply, gave, had_or_asked, joined_reply, listed, placed_at, refused, step_or_finished, telling};
ghost use Rattle.sd_fits.specs.Fits.{Fits};
ghost use Rattle.sd_fits.specs.Resting.{LeavesRest};
ghost use Rattle.sd_fits.specs.Serving.{Serving};
ghost use Rattle.sd_fits.specs.declared.body.Body.TheVariants as bodies;
ghost use Rattle.sd_recover.specs.Recovering.{recovery};
ghost use Rattle.sd_recover.specs.Closing.{NeitherClosesNorOpens};
ghost use Rattle.sd_hall.specs.Bodies.{IsAwaitedIn, IsWorkedIn};
ghost use Rattle.sd_hall.specs.Owed.{IsOwed};
ghost use Rattle.sd_hall.specs.Served.{told, told_in, IsDownThen, IsHelping, IsOfPlace, IsPlain, IsServed};

use sd_base::{Bytes, InstNo, Lsn, Memory, Place, Refusal, Rid, TxnId};
use sd_model::{Event, Reply, Rows};
use sd_recover::Recovery;
use sd_rig::Rig;
use sd_state::Complex;

/// Does the event on the complex, and puts its reply where a Did stands. Where an entry is owed for it there is memory. An undo
/// that a device fails takes its instance down, and a step of a recovery that is told does a task. An instance that may begin a
/// checkpoint has at most 64 unresolved transactions.
pub(crate) fn serve<G: Rig>(c: &mut Complex<G>, e: &Event, answer: &mut Reply) -> Result<(), Memory>
    requires served { IsServed e.now }
    requires within { NeitherClosesNorOpens e.now }
    requires fits { (w : Core) × Fits (G.seen c.old.rig) (G.leaves c.old.rig) (parts c.old) w }
    requires few { (w : Core) × Fits (G.seen c.old.rig) (G.leaves c.old.rig) (parts c.old) w × Few w.scene.state }
    requires fresh { answer.old ≡ reply.Did }
    ensures served { Serving (telling G.seen G.leaves G.moment G.since G.faults) e.now (told_in result answer.new) c.old c.new }
    ensures there { (w : Core) → IsOwed w e.now → told_in result answer.new ≢ None }
    ensures down { IsDownThen e.now (told_in result answer.new) (parts c.new) }
    ensures awaits { IsAwaitedIn e.now (told_in result answer.new) (Some (bodies.Open c.old)) }
    ensures works { IsWorkedIn G.seen e.now (told_in result answer.new) (Some (bodies.Open c.old)) (Some (bodies.Open c.new)) }
{
    match e {
        Event::Commit { txn } => as_did(sd_ops::commit(c, txn), answer),
        Event::Undo { txn } => as_step(sd_ops::undo(c, txn), answer),
        Event::Fail { inst } => as_did(sd_recover::fail(c, *inst), answer),
        Event::RecoverStep { inst } => as_recovery(sd_recover::recover_step(c, *inst), answer),
        _ => serve_plain(c, e, answer),
    }
}

// The same of an event of whose call no more is said than that it serves it, and where a page is pulled by it, that recoveries go on.
fn serve_plain<G: Rig>(c: &mut Complex<G>, e: &Event, answer: &mut Reply) -> Result<(), Memory>
    requires served { IsServed e.now }
    requires within { NeitherClosesNorOpens e.now }
    requires plain { IsPlain e.now }
    requires fits { (w : Core) × Fits (G.seen c.old.rig) (G.leaves c.old.rig) (parts c.old) w }
    requires few { (w : Core) × Fits (G.seen c.old.rig) (G.leaves c.old.rig) (parts c.old) w × Few w.scene.state }
    requires fresh { answer.old ≡ reply.Did }
    ensures served { Serving (telling G.seen G.leaves G.moment G.since G.faults) e.now (told_in result answer.new) c.old c.new }
    ensures rest { IsHelping e.now → LeavesRest (parts c.old) (parts c.new) }
{
    match e {
        Event::Begin { inst } => as_began(sd_ops::begin(c, *inst), answer),
        Event::Read { txn, rid } => as_found(sd_ops::read(c, txn, rid), answer),
        Event::Write { txn, rid, value } => as_did(
            sd_ops::write(c, txn, rid, value.items()),
            answer,
        ),
        Event::Add { txn, rid, by } => as_did(sd_ops::add(c, txn, rid, *by), answer),
        Event::Insert {
            txn,
            page,
            value,
            capacity,
        } => as_placed(
            sd_ops::insert(c, txn, *page, value.items(), *capacity),
            answer,
        ),
        Event::Delete { txn, rid } => as_did(sd_ops::delete(c, txn, rid), answer),
        Event::Save { txn, mark } => as_did(sd_ops::save(c, txn, mark), answer),
        Event::Back { txn, mark } => as_did(sd_ops::back_to(c, txn, mark), answer),
        Event::List { inst, page } => as_listed(sd_ops::list_page(c, *inst, *page), answer),
        _ => serve_place(c, e, answer),
    }
}

// The same of an event of a page's place, of an instance, and of the devices.
fn serve_place<G: Rig>(c: &mut Complex<G>, e: &Event, answer: &mut Reply) -> Result<(), Memory>
    requires place { IsOfPlace e.now }
    requires fits { (w : Core) × Fits (G.seen c.old.rig) (G.leaves c.old.rig) (parts c.old) w }
    requires few { (w : Core) × Fits (G.seen c.old.rig) (G.leaves c.old.rig) (parts c.old) w × Few w.scene.state }
    requires fresh { answer.old ≡ reply.Did }
    ensures served { Serving (telling G.seen G.leaves G.moment G.since G.faults) e.now (told_in result answer.new) c.old c.new }
    ensures rest { IsHelping e.now → LeavesRest (parts c.old) (parts c.new) }
{
    match e {
        Event::Ask { inst, page, mode } => as_asked(
            sd_transfer::ask(c, *inst, *page, *mode),
            answer,
        ),
        Event::Give { inst, page } => as_gave(sd_transfer::give(c, *inst, *page), answer),
        Event::Take { inst, page } => as_did(sd_transfer::take(c, *inst, *page), answer),
        Event::Evict { inst, page } => as_did(sd_transfer::evict(c, *inst, *page), answer),
        Event::Flush { inst, page } => as_did(sd_transfer::write_page(c, *inst, *page), answer),
        Event::Force { inst } => as_did(sd_transfer::force(c, *inst), answer),
        Event::CheckBegin { inst } => as_did(sd_ckpt::check_begin(c, *inst), answer),
        Event::CheckEnd { inst } => as_did(sd_ckpt::check_end(c, *inst), answer),
        Event::RecoverBegin { inst, by } => as_did(
            sd_recover::recover_begin(c, *inst, *by),
            answer,
        ),
        Event::Join { inst } => as_joined(sd_recover::join(c, *inst), answer),
        Event::Arm { trouble } => {
            sd_recover::arm(c, *trouble);
            Ok(())
        }
        Event::Show { page } => as_shown(sd_transfer::show(c, *page), answer),
        _ => unreachable!(),
    }
}

// The reply to a begin.
fn as_began(done: Result<TxnId, Refusal>, answer: &mut Reply) -> Result<(), Memory>
    requires { answer.old ≡ reply.Did }
    ensures { told_in result answer.new ≡ began_reply done }
{
    match done {
        Ok(t) => put(answer, Reply::Began(t)),
        Err(n) => put_refusal(answer, n),
    }
}

// The reply to a read.
fn as_found(done: Result<Option<Bytes>, Refusal>, answer: &mut Reply) -> Result<(), Memory>
    requires { answer.old ≡ reply.Did }
    ensures { told_in result answer.new ≡ found_reply done }
{
    match done {
        Ok(value) => put(answer, Reply::Value(value)),
        Err(n) => put_refusal(answer, n),
    }
}

// The reply to an insert.
fn as_placed(done: Result<Rid, Refusal>, answer: &mut Reply) -> Result<(), Memory>
    requires { answer.old ≡ reply.Did }
    ensures { told_in result answer.new ≡ placed_at done }
{
    match done {
        Ok(rid) => put(answer, Reply::At(rid)),
        Err(n) => put_refusal(answer, n),
    }
}

// The reply to a look at a page.
fn as_shown(shown: (Place, Lsn), answer: &mut Reply) -> Result<(), Memory>
    requires { answer.old ≡ reply.Did }
    ensures { told_in result answer.new ≡ Some (reply.Shown shown.0 shown.1) }
{
    let (place, lsn) = shown;
    put(answer, Reply::Shown { place, lsn })
}

// The reply to a list.
fn as_listed(done: Result<Rows, Refusal>, answer: &mut Reply) -> Result<(), Memory>
    requires { answer.old ≡ reply.Did }
    ensures { told_in result answer.new ≡ listed done }
{
    match done {
        Ok(rows) => put(answer, Reply::Rows(rows)),
        Err(n) => put_refusal(answer, n),
    }
}

// The reply to an ask.
fn as_asked(done: Result<Option<InstNo>, Refusal>, answer: &mut Reply) -> Result<(), Memory>
    requires { answer.old ≡ reply.Did }
    ensures { told_in result answer.new ≡ answered had_or_asked done }
{
    match done {
        Ok(None) => put(answer, Reply::Have),
        Ok(Some(of)) => put(answer, Reply::Asked { of }),
        Err(n) => put_refusal(answer, n),
    }
}

// The reply to a give.
fn as_gave(done: Result<InstNo, Refusal>, answer: &mut Reply) -> Result<(), Memory>
    requires { answer.old ≡ reply.Did }
    ensures { told_in result answer.new ≡ gave done }
{
    match done {
        Ok(to) => put(answer, Reply::Gave { to }),
        Err(n) => put_refusal(answer, n),
    }
}

// The reply to a join.
fn as_joined(done: Result<u32, Refusal>, answer: &mut Reply) -> Result<(), Memory>
    requires { answer.old ≡ reply.Did }
    ensures { told_in result answer.new ≡ joined_reply done }
{
    match done {
        Ok(epoch) => put(answer, Reply::Joined { epoch }),
        Err(n) => put_refusal(answer, n),
    }
}

// The reply to a step, which tells whether it was the last.
fn as_step(done: Result<bool, Refusal>, answer: &mut Reply) -> Result<(), Memory>
    requires { answer.old ≡ reply.Did }
    ensures { told_in result answer.new ≡ answered step_or_finished done }
{
    match done {
        Ok(false) => put(answer, Reply::Step),
        Ok(true) => put(answer, Reply::Finished),
        Err(n) => put_refusal(answer, n),
    }
}

// The reply to a step of a recovery, which tells whether it was the last.
fn as_recovery(done: Result<Recovery, Refusal>, answer: &mut Reply) -> Result<(), Memory>
    requires { answer.old ≡ reply.Did }
    ensures { told_in result answer.new ≡ answered recovery done }
{
    match done {
        Ok(Recovery::Step) => put(answer, Reply::Step),
        Ok(Recovery::Done) => put(answer, Reply::Finished),
        Err(n) => put_refusal(answer, n),
    }
}

// The reply of a call without a value.
fn as_did(done: Result<(), Refusal>, answer: &mut Reply) -> Result<(), Memory>
    requires { answer.old ≡ reply.Did }
    ensures { told_in result answer.new ≡ did done }
{
    match done {
        Ok(()) => Ok(()),
        Err(n) => put_refusal(answer, n),
    }
}

// The reply put in its place. What stood there has nothing to give back, which saves a look at what it was.
fn put(answer: &mut Reply, given: Reply) -> Result<(), Memory>
    requires { answer.old ≡ reply.Did }
    ensures { told_in result answer.new ≡ Some given }
{
    match answer {
        Reply::Did => *answer = given,
        _ => unreachable!(),
    }
    Ok(())
}

/// Puts a reply that was told in its place.
pub fn put_told(answer: &mut Reply, done: Result<Reply, Memory>) -> Result<(), Memory>
    ensures { told_in result answer.new ≡ told done }
{
    match done {
        Ok(given) => {
            *answer = given;
            Ok(())
        }
        Err(Memory) => Err(Memory),
    }
}

// The reply of a call that is refused; want of memory has none.
fn put_refusal(answer: &mut Reply, n: Refusal) -> Result<(), Memory>
    requires { answer.old ≡ reply.Did }
    ensures { told_in result answer.new ≡ refused n }
{
    match n {
        Refusal::Memory => Err(Memory),
        n => put(answer, Reply::Refused(n)),
    }
}

/// What a complex that is open replies to a reopening: how instance 1 stands.
pub(crate) fn not_down<G>(c: &Complex<G>) -> Reply
    requires { IsShape (parts c.now) }
    ensures { result ≡ reply.Refused (R.NotDown (status_at (parts c.now) 1)) }
{
    let status = c.status(InstNo::new(1).unwrap());
    Reply::Refused(Refusal::NotDown { status })
}

/// The reply of a call that is refused; want of memory has none.
pub(crate) fn as_refused(n: Refusal) -> Result<Reply, Memory>
    ensures { told result ≡ refused n }
{
    match n {
        Refusal::Memory => Err(Memory),
        n => Ok(Reply::Refused(n)),
    }
}
