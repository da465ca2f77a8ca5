//! An instance is recovered, by itself or by another: its recovery begins, and goes on step by step, with the pulls of the pages that
//! its recoverer needs.

ghost use Rattle.std.specs.Prelude.{◌≡◌, IfOk, IfSome, OnErr, Some};
ghost use Rattle.sd_fits.specs.declared.body.Body.{Body};
ghost use Rattle.sd_hall.specs.Bodies.{fits_in};
ghost use Rattle.sd_model.specs.declared.event.Event.TheVariants as event;
ghost use Rattle.sd_state.specs.Complexes.{parts};
ghost use Rattle.sd_state.specs.Parts.{IsShape};
ghost use Rattle.sd_world.specs.Serving.{Core, telling};
ghost use Rattle.sd_drive.specs.Driving.{Cursor};
ghost use Rattle.sd_drive.specs.Recoveries.{DoesSome, DueOf, PulledAs, PulledSome, RecoversTo, StepsAs, StepsTo, Waits, WantsOf, behind_step, ending_as, refused_as};
ghost use Rattle.sd_drive.specs.Resting.{LacksNextIn, Lowers, UndoesNext, UndoesNextIn, rounds_in};

use crate::pull::pull;
use crate::replies::ends_failed;
use sd_base::{InstNo, Memory, Mode, PageNo, Status};
use sd_hall::Hall;
use sd_model::{Event, Reply};
use sd_recover::needed;
use sd_rig::Rig;
use sd_state::Complex;

/// Whose entries are noted: those of a line, under its session and number, or those of the opening, under 0 and 0.
#[derive(Clone, Copy)]
pub struct Owner {
    pub session: u8,
    pub line: u32,
    pub is_opening: bool,
}

/// How the recovery of an instance ended.
#[derive(Clone, Copy)]
pub enum Outcome {
    /// It came to its end.
    Ended,
    /// As many steps were done as it may have at most.
    Part,
    /// It was refused.
    Refused,
    /// A device failed in the opening, which ends with it.
    Broken,
}

/// How a try of a step leaves the recovery.
#[derive(Clone, Copy)]
pub(crate) enum Next {
    /// A step is due, of at most so many where there is a bound.
    Again(Option<u64>),
    /// The recovery ended so.
    Over(Outcome),
}

/// Instance `by` recovers an instance that is down: the recovery begins, and one step after another is done, up to the end, to a
/// refusal, or to the step that is the last of `most`. A try that wants a page isn't a step: the page is pulled for `by`, which needs
/// it alone. After `Memory` the book has what happened so far, each entry the one that was due.
pub fn recover<G: Rig>(
    hall: &mut Hall<G>,
    of: Owner,
    inst: InstNo,
    by: InstNo,
    most: Option<u64>,
) -> Result<Outcome, Memory>
    requires at { DueOf (telling G.seen G.leaves G.moment G.since G.faults)
        hall.old of (Cursor.Recovers inst by most) (event.RecoverBegin inst by) }
    ensures recovered { IfOk result (λ how. RecoversTo (telling G.seen G.leaves G.moment G.since G.faults)
        hall.old hall.new of inst by most how) }
    ensures memory { OnErr result (DoesSome (telling G.seen G.leaves G.moment G.since G.faults) hall.old hall.new of
        (Cursor.Recovers inst by most) (event.RecoverBegin inst by)) }
{
    hall.call(of.session, of.line, Event::RecoverBegin { inst, by })?;
    if !hall.last().is_did() {
        return Ok(refused(hall.last(), of.is_opening));
    }
    step_all(hall, of, inst, most)
}

// One step after another, up to the end of the recovery, or to the last of so many. Each round leaves less to do.
fn step_all<G: Rig>(
    hall: &mut Hall<G>,
    of: Owner,
    inst: InstNo,
    most: Option<u64>,
) -> Result<Outcome, Memory>
    requires at { DueOf (telling G.seen G.leaves G.moment G.since G.faults)
        hall.old of (Cursor.Steps inst most) (event.RecoverStep inst) }
    ensures recovered { IfOk result (λ how. StepsTo (telling G.seen G.leaves G.moment G.since G.faults)
        hall.old hall.new of inst most how) }
    ensures memory { OnErr result (DoesSome (telling G.seen G.leaves G.moment G.since G.faults) hall.old hall.new of
        (Cursor.Steps inst most) (event.RecoverStep inst)) }
{
    let mut left = most;
    loop {
        let next = step(hall, of, inst, left)?;
        match next {
            Next::Again(then) => left = then,
            Next::Over(how) => return Ok(how),
        }
    }
}

// A try of one of at most so many steps. How the recovery ended, where it ends with it; else a step is due again, as where the page
// came that this one wanted, and fewer rounds are left.
fn step<G: Rig>(
    hall: &mut Hall<G>,
    of: Owner,
    inst: InstNo,
    most: Option<u64>,
) -> Result<Next, Memory>
    requires at { DueOf (telling G.seen G.leaves G.moment G.since G.faults)
        hall.old of (Cursor.Steps inst most) (event.RecoverStep inst) }
    ensures stepped { IfOk result (λ next. StepsAs (telling G.seen G.leaves G.moment G.since G.faults)
        hall.old hall.new of inst most next) }
    ensures nearer { IfOk result (λ next. Lowers next (rounds_in G.seen hall.old.body inst) (rounds_in G.seen hall.new.body inst)) }
    ensures memory { OnErr result (DoesSome (telling G.seen G.leaves G.moment G.since G.faults) hall.old hall.new of
        (Cursor.Steps inst most) (event.RecoverStep inst)) }
{
    inst.keeps();
    let waits = awaited(hall, inst);
    hall.call(of.session, of.line, Event::RecoverStep { inst })?;
    if !hall.last().wants_page() {
        return Ok(ending(hall.last(), of.is_opening, most));
    }
    match waits {
        Some(wait) => step_pulled(hall, of, inst, most, wait.0, wait.1),
        None => unreachable!(),
    }
}

// The page that a step wanted is pulled. Where it came a step is due as before; where the pull was in vain the step is tried once
// more.
fn step_pulled<G: Rig>(
    hall: &mut Hall<G>,
    of: Owner,
    inst: InstNo,
    most: Option<u64>,
    by: InstNo,
    page: PageNo,
) -> Result<Next, Memory>
    requires at { WantsOf (telling G.seen G.leaves G.moment G.since G.faults) hall.old of inst most by page }
    requires lacks { LacksNextIn hall.old.body inst by page }
    ensures stepped { IfOk result (λ next. PulledAs (telling G.seen G.leaves G.moment G.since G.faults)
        hall.old hall.new of inst most by page next) }
    ensures nearer { IfOk result (λ next. Lowers next (rounds_in G.seen hall.old.body inst) (rounds_in G.seen hall.new.body inst)) }
    ensures memory { OnErr result (PulledSome (telling G.seen G.leaves G.moment G.since G.faults)
        hall.old hall.new of inst most by page) }
{
    inst.keeps();
    if pull(hall, by, page, Mode::Excl)? {
        return Ok(Next::Again(most));
    }
    if of.is_opening && ends_failed(hall) {
        return Ok(Next::Over(Outcome::Broken));
    }
    hall.call(of.session, of.line, Event::RecoverStep { inst })?;
    Ok(ending(hall.last(), of.is_opening, most))
}

// How the reply to one of at most so many steps leaves the recovery.
fn ending(reply: &Reply, is_opening: bool, most: Option<u64>) -> Next
    ensures { result ≡ ending_as reply.now is_opening most }
{
    match reply {
        Reply::Step => behind_step(most),
        Reply::Finished => Next::Over(Outcome::Ended),
        _ => Next::Over(refused(reply, is_opening)),
    }
}

// Of at most so many steps one was done.
fn behind_step(most: Option<u64>) -> Next
    ensures { result ≡ behind_step most }
{
    let Some(steps) = most else {
        return Next::Again(None);
    };
    if 1 < steps {
        Next::Again(Some(steps - 1))
    } else {
        Next::Over(Outcome::Part)
    }
}

// What a refusal makes of the recovery.
fn refused(reply: &Reply, is_opening: bool) -> Outcome
    ensures { result ≡ refused_as reply.now is_opening }
{
    if is_opening && reply.is_failed() {
        Outcome::Broken
    } else {
        Outcome::Refused
    }
}

// Who recovers the instance, and the page of the record that its recovery undoes next, where an undo is next.
fn awaited<G: Rig>(hall: &Hall<G>, inst: InstNo) -> Option<(InstNo, PageNo)>
    requires fits { (w : Core) × fits_in G.seen G.leaves hall.now.body w }
    ensures waits { Waits (telling G.seen G.leaves G.moment G.since G.faults) hall.now.body inst result }
    ensures next { IfSome result (λ x. UndoesNextIn hall.now.body inst x.0 x.1) }
{
    match hall.complex() {
        Some(c) => awaited_in(c, inst),
        None => None,
    }
}

// It, of an open complex.
fn awaited_in<G: Rig>(c: &Complex<G>, inst: InstNo) -> Option<(InstNo, PageNo)>
    requires shape { IsShape (parts c.now) }
    ensures waits { Waits (telling G.seen G.leaves G.moment G.since G.faults) (Some (Body.Open c.now)) inst result }
    ensures next { IfSome result (λ x. UndoesNext (parts c.now) inst x.0 x.1) }
{
    inst.keeps();
    match c.status(inst) {
        Status::Recovering { by } => match needed(c, inst) {
            Some(next) => Some((by, next.0)),
            None => None,
        },
        _ => None,
    }
}
