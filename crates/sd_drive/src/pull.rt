//! A page pulled for an instance whose event needs it: asked for, given by who has it and taken, with another copy written and
//! evicted where no frame is left.

ghost use Rattle.std.specs.Prelude.{◌≡◌, ◌<◌, ◌&&◌, ℕ, true, false, [], IfOk, IfSome, IsNone, OnErr, OnOk, IsSome};
ghost use Rattle.sd_model.specs.declared.event.Reply.{Reply};
ghost use Rattle.sd_pagelock.specs.Directory.{entry_at};
ghost use Rattle.sd_pagelock.specs.Places.{changed, holds, receives, seen};
ghost use Rattle.sd_state.specs.Complexes.{parts};
ghost use Rattle.sd_state.specs.Parts.{pool_at, IsShape};
ghost use Rattle.sd_pool.specs.Buffers.{image_at, IsPool};
ghost use Rattle.sd_fits.specs.Fits.{Fits};
ghost use Rattle.sd_world.specs.Pages.{is_duty};
ghost use Rattle.sd_world.specs.Serving.{Core, telling};
ghost use Rattle.sd_hall.specs.Served.{IsServed};
ghost use Rattle.sd_hall.specs.Bodies.{fits_in};
ghost use Rattle.sd_drive.specs.Bodies.{entry_in};
ghost use Rattle.sd_drive.specs.Driven.{Helped, IsFull, IsGiven, IsSomewhere, IsTaken, MakesRoom, PulledIn, PullsAll, PullsOn, PullsSome, Rounds, StaysIn, answer_as, next_if};
ghost use Rattle.sd_model.specs.Replies.{is_did};
ghost use Rattle.sd_drive.specs.Pulls.{Pull, Puller};
ghost use Rattle.sd_drive.specs.Resting.{IsHelp, RestsOpen};

use sd_base::{InstNo, Memory, Mode, PageNo, Place, Refusal};
use sd_hall::Hall;
use sd_model::{Event, Reply};
use sd_pagelock::rows;
use sd_rig::Rig;
use sd_state::Complex;

/// What the reply to a helping event tells.
#[derive(Clone, Copy)]
pub(crate) enum Answer {
    /// The instance has the page as it asked.
    Had,
    /// This instance has the page, and was asked for it.
    Asked(InstNo),
    /// The page is on its way to this instance.
    MovingTo(InstNo),
    /// The page was given.
    Gave,
    /// It is done.
    Did,
    /// Each frame of the pool that the page comes into holds another.
    NoFrame,
    /// It is refused.
    Refused,
}

// What a round of a pull came to.
#[derive(Clone, Copy)]
enum Course {
    // The page came nearer, and is to be asked for again.
    Again,
    // The instance has it so.
    Came,
    // It can't have it.
    InVain,
}

/// Asks for the page until the instance has it so, or can't have it. Whether it came. Others that ask for it, and those to which
/// it moves, are served on the way. The complex stays open, and recoveries under way go on. After `Memory` the book has what happened
/// so far, each entry the one that was due.
pub(crate) fn pull<G: Rig>(
    hall: &mut Hall<G>,
    inst: InstNo,
    page: PageNo,
    mode: Mode,
) -> Result<bool, Memory>
    requires at { PulledIn (telling G.seen G.leaves G.moment G.since G.faults)
        hall.old (record { inst = inst; mode = mode }) (Pull.Asks page) }
    ensures pulled { IfOk result (λ came. PullsAll (telling G.seen G.leaves G.moment G.since G.faults) hall.old hall.new
        (record { inst = inst; mode = mode }) page came) }
    ensures rests { OnOk result (RestsOpen hall.old.body hall.new.body) }
    ensures memory { OnErr result (PullsSome (telling G.seen G.leaves G.moment G.since G.faults) hall.old hall.new
        (record { inst = inst; mode = mode }) (Pull.Asks page)) }
{
    loop {
        match round(hall, inst, page, mode)? {
            Course::Again => {}
            Course::Came => return Ok(true),
            Course::InVain => return Ok(false),
        }
    }
}

// Asks for the page once. Another who has it gives it to the oldest asker, and one to whom it moves takes it; where a pool has no
// frame for it, room is made there, and the page is asked for again.
fn round<G: Rig>(
    hall: &mut Hall<G>,
    inst: InstNo,
    page: PageNo,
    mode: Mode,
) -> Result<Course, Memory>
    requires at { PulledIn (telling G.seen G.leaves G.moment G.since G.faults)
        hall.old (record { inst = inst; mode = mode }) (Pull.Asks page) }
    ensures rounds { IfOk result (λ round. Rounds (telling G.seen G.leaves G.moment G.since G.faults) hall.old hall.new
        (record { inst = inst; mode = mode }) page round) }
    ensures rests { OnOk result (RestsOpen hall.old.body hall.new.body) }
    ensures memory { OnErr result (PullsSome (telling G.seen G.leaves G.moment G.since G.faults) hall.old hall.new
        (record { inst = inst; mode = mode }) (Pull.Asks page)) }
{
    let done = match help(hall, Event::Ask { inst, page, mode })? {
        Answer::Had => return Ok(Course::Came),
        Answer::Asked(of) => give(hall, of, page),
        Answer::MovingTo(to) => take(hall, to, page),
        Answer::NoFrame => make_room(hall, inst),
        _ => return Ok(Course::InVain),
    }?;
    Ok(if done { Course::Again } else { Course::InVain })
}

// The page is given to its oldest asker. Whether it was.
fn give<G: Rig>(hall: &mut Hall<G>, of: InstNo, page: PageNo) -> Result<bool, Memory>
    requires at { IsSomewhere (telling G.seen G.leaves G.moment G.since G.faults) hall.old }
    ensures given { IfOk result (λ given. (for : Puller) → PullsOn (telling G.seen G.leaves G.moment G.since G.faults)
        hall.old hall.new
        for (Pull.Gives page of) (next_if given page) (IsGiven given of page)) }
    ensures rests { OnOk result (RestsOpen hall.old.body hall.new.body) }
    ensures memory { OnErr result (StaysIn (telling G.seen G.leaves G.moment G.since G.faults) hall.old hall.new) }
{
    let answer = help(hall, Event::Give { inst: of, page })?;
    Ok(matches!(answer, Answer::Gave))
}

// The page is taken by the instance to which it moves. Whether it was, or that instance has room for it.
fn take<G: Rig>(hall: &mut Hall<G>, to: InstNo, page: PageNo) -> Result<bool, Memory>
    requires at { (for : Puller) × PulledIn (telling G.seen G.leaves G.moment G.since G.faults)
        hall.old for (Pull.Takes page to) }
    ensures taken { IfOk result (λ taken. (for : Puller) → PullsOn (telling G.seen G.leaves G.moment G.since G.faults)
        hall.old hall.new
        for (Pull.Takes page to) (next_if taken page) (IsTaken taken to page)) }
    ensures rests { OnOk result (RestsOpen hall.old.body hall.new.body) }
    ensures memory { OnErr result ((for : Puller) → PullsSome (telling G.seen G.leaves G.moment G.since G.faults)
        hall.old hall.new
        for (Pull.Takes page to)) }
{
    let answer = help(hall, Event::Take { inst: to, page })?;
    match answer {
        Answer::Did => Ok(true),
        Answer::NoFrame => make_room(hall, to),
        _ => Ok(false),
    }
}

// The page of the instance whose last use is longest ago leaves its pool, and is written before where that is its duty. Whether
// it did.
fn make_room<G: Rig>(hall: &mut Hall<G>, inst: InstNo) -> Result<bool, Memory>
    requires at { (for : Puller) × (p : ℕ) × (s : PulledIn (telling G.seen G.leaves G.moment G.since G.faults)
        hall.old for (Pull.Room p inst))
        × IsFull inst s.world.core }
    ensures room { IfOk result (λ room. (for : Puller) (p : ℕ) → PullsOn (telling G.seen G.leaves G.moment G.since G.faults)
        hall.old hall.new
        for (Pull.Room p inst) (next_if room p) (MakesRoom room inst)) }
    ensures rests { OnOk result (RestsOpen hall.old.body hall.new.body) }
    ensures memory { OnErr result ((for : Puller) (p : ℕ) → PullsSome (telling G.seen G.leaves G.moment G.since G.faults)
        hall.old hall.new
        for (Pull.Room p inst)) }
{
    let leaver = leaving(hall, inst);
    let page = leaver.page;
    if leaver.is_duty && !done(hall, Event::Flush { inst, page })? {
        return Ok(false);
    }
    done(hall, Event::Evict { inst, page })
}

// Does a helping event that is answered Did. Whether it was.
fn done<G: Rig>(hall: &mut Hall<G>, e: Event) -> Result<bool, Memory>
    requires served { IsServed e }
    requires helps { IsHelp e }
    requires at { IsSomewhere (telling G.seen G.leaves G.moment G.since G.faults) hall.old }
    ensures helped { IfOk result (λ done. (r : Reply) × (is_did r ≡ done)
        × Helped (telling G.seen G.leaves G.moment G.since G.faults) hall.old hall.new e r) }
    ensures rests { OnOk result (RestsOpen hall.old.body hall.new.body) }
    ensures memory { OnErr result (StaysIn (telling G.seen G.leaves G.moment G.since G.faults) hall.old hall.new) }
{
    let answer = help(hall, e)?;
    Ok(matches!(answer, Answer::Did))
}

// Does a helping event. What its reply tells.
fn help<G: Rig>(hall: &mut Hall<G>, e: Event) -> Result<Answer, Memory>
    requires served { IsServed e }
    requires helps { IsHelp e }
    requires at { IsSomewhere (telling G.seen G.leaves G.moment G.since G.faults) hall.old }
    ensures helped { IfOk result (λ answer. (r : Reply) × (answer_as r ≡ answer)
        × Helped (telling G.seen G.leaves G.moment G.since G.faults) hall.old hall.new e r) }
    ensures rests { OnOk result (RestsOpen hall.old.body hall.new.body) }
    ensures memory { OnErr result (StaysIn (telling G.seen G.leaves G.moment G.since G.faults) hall.old hall.new) }
{
    hall.call(0, 0, e)?;
    Ok(answer_of(hall.last()))
}

// What the reply tells.
fn answer_of(reply: &Reply) -> Answer
    ensures { result ≡ answer_as reply.now }
{
    match reply {
        Reply::Have => Answer::Had,
        Reply::Asked { of } => Answer::Asked(*of),
        Reply::Gave { .. } => Answer::Gave,
        Reply::Did => Answer::Did,
        Reply::Refused(Refusal::MovingTo { to }) => Answer::MovingTo(*to),
        Reply::Refused(Refusal::PoolFull) => Answer::NoFrame,
        _ => Answer::Refused,
    }
}

// A page that leaves the pool of an instance, and whether the instance has to write it before.
#[derive(Drop)]
struct Leaver {
    page: PageNo,
    is_duty: bool,
}

// The page of the instance whose last use is longest ago. It doesn't move to that instance.
fn leaving<G: Rig>(hall: &Hall<G>, inst: InstNo) -> Leaver
    requires full { (w : Core) × fits_in G.seen G.leaves hall.now.body w × IsFull inst w }
    ensures held { holds (entry_in hall.now.body result.page) inst ≡ true }
    ensures still { receives (entry_in hall.now.body result.page) inst ≡ false }
    ensures duty { result.is_duty ≡ (changed (entry_in hall.now.body result.page) && is_duty inst (entry_in hall.now.body result.page)) }
    ensures range { result.page < 1024 }
{
    match hall.complex() {
        Some(c) => leaver_of(c, inst),
        None => unreachable!(),
    }
}

// It, of an open complex.
fn leaver_of<G: Rig>(c: &Complex<G>, inst: InstNo) -> Leaver
    requires full { (w : Core) × Fits (G.seen c.now.rig) (G.leaves c.now.rig) (parts c.now) w × IsFull inst w }
    ensures held { holds (entry_at (parts c.now).directory result.page) inst ≡ true }
    ensures still { receives (entry_at (parts c.now).directory result.page) inst ≡ false }
    ensures duty { result.is_duty ≡ (changed (entry_at (parts c.now).directory result.page)
        && is_duty inst (entry_at (parts c.now).directory result.page)) }
    ensures range { result.page < 1024 }
{
    c.directory.keeps();
    let pool = &c.pools[inst.get() as usize - 1];
    pool.keeps();
    let page = pool.victim().unwrap();
    page.keeps();
    let is_duty = must_write(&c.entry(page), inst);
    Leaver { page, is_duty }
}

/// Whether the instance has to write the page before its copy goes.
pub fn must_write(place: &Place, inst: InstNo) -> bool
    ensures { result ≡ (changed (seen place.now) && is_duty inst (seen place.now)) }
{
    match *place {
        Place::Shared { writer, .. } => writer == Some(inst),
        Place::Excl { holder, dirty } => dirty && holder == inst,
        Place::Free | Place::Moving { .. } | Place::Lost => false,
    }
}
