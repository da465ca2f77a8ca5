//! All instances fail, and what a closed complex answers.

ghost use Rattle.std.specs.Prelude.{◌≡◌, ◌≢◌, ◌⊎◌, ◌≤◌, ℕ, Some};
ghost use Rattle.sd_base.specs.Streams.{Rises};
ghost use Rattle.sd_base.specs.declared.place.Place.{Place};
ghost use Rattle.sd_base.specs.declared.refusal.Refusal.TheVariants as R;
ghost use Rattle.sd_model.specs.declared.event.Event.TheVariants as event;
ghost use Rattle.sd_model.specs.declared.event.Reply.TheVariants as reply;
ghost use Rattle.sd_rig.specs.Devices.{LeavesOnly};
ghost use Rattle.sd_state.specs.declared.complex.Shape.{Shape};
ghost use Rattle.sd_world.specs.Serving.{telling};
ghost use Rattle.sd_fits.specs.Bodies.{LeavesNoMore, ServingHall, rig_of};
ghost use Rattle.sd_fits.specs.declared.body.Body.TheVariants as bodies;
ghost use Rattle.sd_recover.specs.Closing.{HasFrames, NeitherClosesNorOpens};

use sd_base::{Pick, Refusal};
use sd_fits::Body;
use sd_model::{Event, Reply};
use sd_rig::Rig;
use sd_state::Shape;

/// All instances fail at once: the devices become as a crash leaves them, and the complex is no more. It takes no memory, and is
/// never refused: a device that fails meanwhile is counted, and no reply tells it; what a crash leaves is stable where none did. It
/// opens again with as many frames as this shape says, or, where it was closed before, its own.
pub fn fail_all<G: Rig>(body: Body<G>, pick: Pick, shape: Shape) -> Body<G>
    requires frames { HasFrames shape.frames body }
    ensures served { ServingHall (telling G.seen G.leaves G.moment G.since G.faults) (event.FailAll pick) (Some reply.Did) body result }
    ensures durable { Rises (G.faults (rig_of body)) (G.faults (rig_of result)) ⊎ ((d : ℕ) → d ≤ 8
        → LeavesOnly (G.seen (rig_of result) d) (G.leaves (rig_of result) d)) }
{
    match body {
        Body::Open(complex) => Body::Closed(crashed(complex.images(), pick), shape),
        Body::Closed(rig, own) => Body::Closed(crashed(rig, pick), own),
    }
}

// The devices as a crash leaves them.
fn crashed<G: Rig>(rig: G, pick: Pick) -> G
    ensures calm { LeavesNoMore (telling G.seen G.leaves G.moment G.since G.faults) rig result }
    ensures count { G.faults rig ≤ G.faults result }
    ensures durable { Rises (G.faults rig) (G.faults result) ⊎ ((d : ℕ) → d ≤ 8 → LeavesOnly (G.seen result d) (G.leaves result d)) }
{
    let mut rig = rig;
    rig.crash(pick);
    rig
}

/// Does an event on the devices of a closed complex: it arms them, or is refused as `Down`. A reopening and a failure of all
/// instances are no such events.
pub fn on_closed<G: Rig>(rig: &mut G, e: &Event) -> Reply
    requires done { NeitherClosesNorOpens e.now }
    ensures served { (shape : Shape) → ServingHall (telling G.seen G.leaves G.moment G.since G.faults) e.now (Some result)
        (bodies.Closed rig.old shape) (bodies.Closed rig.new shape) }
    ensures fails { result ≢ reply.Refused R.Failed }
    ensures needs { (place : Place) → result ≢ reply.Refused (R.NeedPage place) }
{
    match e {
        Event::Arm { trouble } => {
            rig.arm(*trouble);
            Reply::Did
        }
        _ => Reply::Refused(Refusal::Down),
    }
}
