//! One event served on a complex that is open or closed.

ghost use Rattle.std.specs.Prelude.{◌≡◌, ◌≢◌, ◌≤◌, None, Some};
ghost use Rattle.sd_model.specs.Few.{Few};
ghost use Rattle.sd_model.specs.declared.event.Event.TheVariants as event;
ghost use Rattle.sd_model.specs.declared.event.Reply.TheVariants as reply;
ghost use Rattle.sd_world.specs.Serving.{Core, telling};
ghost use Rattle.sd_fits.specs.Bodies.{ServingHall, fits_body};
ghost use Rattle.sd_recover.specs.Closing.{NeitherClosesNorOpens};
ghost use Rattle.sd_hall.specs.Bodies.{IsAwaitedIn, IsDownIn, IsWorkedIn};
ghost use Rattle.sd_hall.specs.Closed.{ClosesIn};
ghost use Rattle.sd_hall.specs.Found.{IsFoundIn};
ghost use Rattle.sd_hall.specs.Owed.{IsOwed};
ghost use Rattle.sd_hall.specs.Served.{IsServed, told, told_in};

use crate::dispatch::{as_refused, not_down, serve};
use sd_base::Memory;
use sd_fits::Body;
use sd_model::{Event, Reply};
use sd_recover::{fail_all, on_closed};
use sd_restart::reopen;
use sd_rig::Rig;
use sd_state::Shape;
use std::alloc::Global;

/// Does a failure of all instances or a reopening, and tells its reply. Behind the one the complex is closed, and has this shape
/// where it was open, and what the devices read lasts unless a fault was counted; behind the other it may be open, and is then what
/// the devices tell.
pub fn turned<G: Rig>(
    alloc: Global,
    body: Body<G>,
    e: &Event,
    shape: Shape,
) -> (Result<Reply, Memory>, Body<G>)
    requires over { NeitherClosesNorOpens e.now → ⊥ }
    requires fits { (w : Core) × (fits_body G.seen G.leaves body w) × (w.pages.frames ≡ shape.frames) }
    requires least { 1 ≤ shape.frames }
    requires most { shape.frames ≤ 1024 }
    ensures served { ServingHall (telling G.seen G.leaves G.moment G.since G.faults) e.now (told result.0) body result.1 }
    ensures reopens { IsFoundIn G.seen G.leaves e.now (told result.0) (Some result.1) }
    ensures closes { ClosesIn (telling G.seen G.leaves G.moment G.since G.faults) e.now (Some body) (Some result.1) }
{
    match e {
        Event::FailAll { pick } => (Ok(Reply::Did), fail_all(body, *pick, shape)),
        Event::Reopen => open_again(alloc, body),
        _ => unreachable!(),
    }
}

/// Does an event that neither closes the complex nor opens it, and puts its reply where a Did stands. A closed one refuses it, but
/// to arm the devices. An instance that may begin a checkpoint has at most 64 unresolved transactions.
pub fn serve_body<G: Rig>(body: &mut Body<G>, e: &Event, answer: &mut Reply) -> Result<(), Memory>
    requires served { IsServed e.now }
    requires within { NeitherClosesNorOpens e.now }
    requires fits { (w : Core) × fits_body G.seen G.leaves body.old w }
    requires few { (w : Core) × fits_body G.seen G.leaves body.old w × Few w.scene.state }
    requires fresh { answer.old ≡ reply.Did }
    ensures served { ServingHall (telling G.seen G.leaves G.moment G.since G.faults) e.now (told_in result answer.new)
        body.old body.new }
    ensures there { (w : Core) → IsOwed w e.now → told_in result answer.new ≢ None }
    ensures down { IsDownIn e.now (told_in result answer.new) body.new }
    ensures awaits { IsAwaitedIn e.now (told_in result answer.new) (Some body.old) }
    ensures works { IsWorkedIn G.seen e.now (told_in result answer.new) (Some body.old) (Some body.new) }
{
    match body {
        Body::Open(complex) => serve(complex, e, answer),
        Body::Closed(rig, _) => {
            *answer = on_closed(rig, e);
            Ok(())
        }
    }
}

// Opens a closed complex again, in its own shape. An open one refuses that as `NotDown`, with how instance 1 stands. After
// `Failed`, and where there is no memory, it is closed still.
fn open_again<G: Rig>(alloc: Global, body: Body<G>) -> (Result<Reply, Memory>, Body<G>)
    requires fits { (w : Core) × (fits_body G.seen G.leaves body w) × (1 ≤ w.pages.frames) × (w.pages.frames ≤ 1024) }
    ensures served { ServingHall (telling G.seen G.leaves G.moment G.since G.faults) event.Reopen (told result.0) body result.1 }
    ensures reopens { IsFoundIn G.seen G.leaves event.Reopen (told result.0) (Some result.1) }
{
    match body {
        Body::Open(complex) => (Ok(not_down(&complex)), Body::Open(complex)),
        Body::Closed(rig, shape) => match reopen(alloc, rig, shape) {
            Ok(complex) => (Ok(Reply::Did), Body::Open(complex)),
            Err((refusal, rig)) => (as_refused(refusal), Body::Closed(rig, shape)),
        },
    }
}
