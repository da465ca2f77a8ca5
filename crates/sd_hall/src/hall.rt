//! The hall: a complex, and the book of what happened in it.

ghost use Rattle.std.specs.Option.{option_copied};
ghost use Rattle.std.specs.Prelude.{◌≡◌, ◌≢◌, ◌⊎◌, ℕ, ◌≤◌, ◌+◌, ◌++◌, ◌∷◌, [], List, Some, None, IfErr, IfOk, OnErr, OnOk};
ghost use Rattle.sd_base.specs.Streams.{Rises};
ghost use Rattle.sd_base.specs.declared.refusal.Refusal.TheVariants as R;
ghost use Rattle.sd_model.specs.Few.{Few};
ghost use Rattle.sd_model.specs.declared.event.Entry.{Entry};
ghost use Rattle.sd_model.specs.declared.event.Event.TheVariants as event;
ghost use Rattle.sd_model.specs.declared.event.Reply.{Reply};
ghost use Rattle.sd_model.specs.declared.event.Reply.TheVariants as reply;
ghost use Rattle.sd_chain.specs.Checks.{DevicesAreSound};
ghost use Rattle.sd_chain.specs.Faults.{FailsFirstAt};
ghost use Rattle.sd_recovered.specs.Devices.{IsRecovered};
ghost use Rattle.sd_restart.specs.Devices.{Calms};
ghost use Rattle.sd_world.specs.Serving.{Core, telling};
ghost use Rattle.sd_fits.specs.Bodies.{rig_of};
ghost use Rattle.sd_fits.specs.Opened.{opening_core};
ghost use Rattle.sd_recover.specs.Closing.{NeitherClosesNorOpens};
ghost use Rattle.sd_hall.specs.Bodies.{IsAwaited, IsAwaitedIn, IsDownAt, IsRigIn, IsWorked, IsWorkedIn, ServesIn, fits_in, open_in};
ghost use Rattle.sd_hall.specs.Closed.{ClosesIn};
ghost use Rattle.sd_hall.specs.Found.{FindsIn, IsFoundIn, NotesFirst};
ghost use Rattle.sd_hall.specs.Owed.{IsOwed};
ghost use Rattle.sd_hall.specs.Served.{IsServed, told_in};
ghost use Rattle.sd_hall.specs.Keeping.{HasPlace, Keeps};

use crate::{is_owed_in, more, put_told, serve_body, turned};
use sd_base::{Memory, Refusal};
use sd_fits::Body;
use sd_model::{Book, Event, Reply};
use sd_restart::restart;
use sd_rig::Rig;
use sd_state::{Complex, Shape};
use std::alloc::Global;

/// A complex, open or closed, the book of what happened in it, and how many entries more the book has to have room for: those
/// for which no memory may be wanting, as the commit of a transaction that runs, or each step of one that rolls back.
#[derive(Drop)]
pub struct Hall<G> {
    alloc: Global,
    // There is none only while a call is under way.
    body: Option<Body<G>>,
    shape: Shape,
    book: Book,
    owed: usize,
}

impl<G: Rig> Hall<G> {
    /// A hall over the complex that opens from nine devices, whose book begins with the table that they stand for. Nobody is up
    /// in it: whoever the devices leave open stays as a loser, until its instance is recovered. A page that the data device lacks
    /// is lost, and its RecLSN is the LSN of the first record that the device lacks of it.
    ///
    /// `Failed` comes where a sync or a read fails, `Damaged` exactly where the devices aren't sound, with the first place that fails;
    /// `Memory` for want of memory. None of them changes what the devices read. Each hands the rig back.
    pub fn open(alloc: Global, rig: G, shape: Shape) -> Result<Hall<G>, (Refusal, G)>
        requires least { 1 ≤ shape.frames }
        requires most { shape.frames ≤ 1024 }

        ensures keeps { IfOk result (λ hall.
            Keeps (telling G.seen G.leaves G.moment G.since G.faults) (opening_core shape.frames (G.seen rig)) hall) }
        ensures entries { IfOk result (λ hall. hall.book.entries ≡ []) }
        ensures recovered { IfOk result (λ hall. IsRecovered (G.seen rig) hall.book.opening) }
        ensures first { IfOk result (λ hall. NotesFirst G.seen hall.body) }
        ensures sound { OnOk result (DevicesAreSound (G.seen rig)) }

        ensures calms { IfOk result (λ hall. (now : G) → IsRigIn now hall.body → Calms (G.seen rig) (G.seen now)
            (G.leaves rig) (G.leaves now) (G.moment rig) (G.moment now) (G.since rig) (G.since now)) }
        ensures quiet { IfOk result (λ hall. (now : G) → IsRigIn now hall.body → G.faults now ≡ G.faults rig) }
        ensures calms_err { IfErr result (λ e. Calms (G.seen rig) (G.seen e.1) (G.leaves rig) (G.leaves e.1)
            (G.moment rig) (G.moment e.1) (G.since rig) (G.since e.1)) }

        ensures unsound { IfErr result (λ e. (dev at : ℕ) → e.0 ≡ R.Damaged dev at → DevicesAreSound (G.seen rig) → ⊥) }
        ensures place { IfErr result (λ e. (dev at : ℕ) → e.0 ≡ R.Damaged dev at → FailsFirstAt (G.seen rig) dev at) }
        ensures refusals { IfErr result (λ e.
            (e.0 ≡ R.Failed) ⊎ (e.0 ≡ R.Memory) ⊎ ((dev : ℕ) × (at : ℕ) × (e.0 ≡ R.Damaged dev at))) }
        ensures cause { IfErr result (λ e. e.0 ≡ R.Failed → Rises (G.faults rig) (G.faults e.1)) }
        ensures quiet_err { IfErr result (λ e. e.0 ≢ R.Failed → G.faults e.1 ≡ G.faults rig) }
    {
        let (complex, table) = restart(alloc, rig, shape)?;
        Ok(Hall {
            alloc,
            body: Some(Body::Open(complex)),
            shape,
            book: Book::new(alloc, table),
            owed: 0,
        })
    }

    /// Does the event on the complex, open or closed, and notes it with its reply under this session and line. The failure of all
    /// instances closes the complex; until it opens again, in its own shape, it refuses each event but that, and to arm the devices.
    ///
    /// `Memory` comes where there is none: nothing is noted then, and the complex fits the world that it fitted. It never comes for
    /// the commit of a transaction that runs, nor for an undo of one that rolls back, where nothing is left to undo or the page of
    /// the next undo is its instance's alone, nor for the failure of an instance that is up. A step of a recovery that
    /// is replied to as one has done a task, and less is left to do; the last one is told where nothing is left, and one that wants
    /// a page changes nothing. An event by which a page is pulled leaves recoveries that are under way, whatever its reply. Behind a
    /// reopening that is done the losers, their claims, the statuses, the lost pages and their RecLSNs are those that the devices
    /// tell. Behind a failure of all what the devices read is all that a further crash may leave, unless a fault was counted. Each
    /// image that a crash leaves meanwhile stands for the state before or after.
    pub fn call(&mut self, session: u8, line: u32, e: Event) -> Result<(), Memory>
        requires served { IsServed e }
        requires kept { (start : Core) × Keeps (telling G.seen G.leaves G.moment G.since G.faults) start self.old }
        ensures noted { OnOk result ((r : Reply)
            × (self.new.book.entries ≡ self.old.book.entries ++ record { session = session; line = line; event = e; reply = r } ∷ [])
            × ServesIn (telling G.seen G.leaves G.moment G.since G.faults) e (Some r) self.old.body self.new.body) }
        ensures same { OnErr result (self.new.book.entries ≡ self.old.book.entries) }
        ensures spared { OnErr result (ServesIn (telling G.seen G.leaves G.moment G.since G.faults) e None self.old.body self.new.body) }
        ensures there { OnErr result ((w : Core) → fits_in G.seen G.leaves self.old.body w → IsOwed w e → ⊥) }
        ensures awaits { OnOk result ((r : Reply)
            → self.new.book.entries ≡ self.old.book.entries ++ record { session = session; line = line; event = e; reply = r } ∷ []
            → IsAwaited e r self.old.body) }
        ensures works { OnOk result ((r : Reply)
            → self.new.book.entries ≡ self.old.book.entries ++ record { session = session; line = line; event = e; reply = r } ∷ []
            → IsWorked G.seen e r self.old.body self.new.body) }
        ensures reopens { OnOk result
            (self.new.book.entries ≡ self.old.book.entries ++ record { session = session; line = line; event = e; reply = reply.Did } ∷ []
            → e ≡ event.Reopen → FindsIn G.seen G.leaves self.new.body) }
        ensures closes { OnOk result (ClosesIn (telling G.seen G.leaves G.moment G.since G.faults) e self.old.body self.new.body) }
        ensures opening { self.new.book.opening ≡ self.old.book.opening }
        ensures keeps { (start : Core) → Keeps (telling G.seen G.leaves G.moment G.since G.faults) start self.old
            → Keeps (telling G.seen G.leaves G.moment G.since G.faults) start self.new }
    {
        self.take_place(&e)?;
        let mut reply = Reply::Did;
        self.turn(&e, &mut reply)?;
        self.owed += more(&e, &reply);
        self.book.note(session, line, e, reply);
        Ok(())
    }

    // Does the event on the complex, open or closed, and puts its reply where a Did stands, so that no reply is moved about. It is
    // served where the complex lies: that is some kilobytes long, and only a failure of all instances and a reopening, which put
    // another there, move it.
    fn turn(&mut self, e: &Event, answer: &mut Reply) -> Result<(), Memory>
        requires served { IsServed e.now }
        requires fits { (w : Core) × (fits_in G.seen G.leaves self.old.body w) × (w.pages.frames ≡ self.old.shape.frames) }
        requires few { (w : Core) × fits_in G.seen G.leaves self.old.body w × Few w.scene.state }
        requires least { 1 ≤ self.old.shape.frames }
        requires most { self.old.shape.frames ≤ 1024 }
        requires fresh { answer.old ≡ reply.Did }
        ensures served { ServesIn (telling G.seen G.leaves G.moment G.since G.faults) e.now (told_in result answer.new)
            self.old.body self.new.body }
        ensures there { (w : Core) → IsOwed w e.now → told_in result answer.new ≢ None }
        ensures down { IsDownAt e.now (told_in result answer.new) self.new.body }
        ensures awaits { IsAwaitedIn e.now (told_in result answer.new) self.old.body }
        ensures works { IsWorkedIn G.seen e.now (told_in result answer.new) self.old.body self.new.body }
        ensures reopens { IsFoundIn G.seen G.leaves e.now (told_in result answer.new) self.new.body }
        ensures closes { ClosesIn (telling G.seen G.leaves G.moment G.since G.faults) e.now self.old.body self.new.body }
        ensures book { self.new.book ≡ self.old.book }
        ensures shape { self.new.shape ≡ self.old.shape }
        ensures owed { self.new.owed ≡ self.old.owed }
    {
        match e {
            Event::FailAll { .. } | Event::Reopen => self.turn_over(e, answer),
            _ => match &mut self.body {
                Some(body) => serve_body(body, e, answer),
                None => unreachable!(),
            },
        }
    }

    // The same of a failure of all instances and of a reopening: the complex is taken out, and what it turned to is put back.
    #[inline(never)]
    fn turn_over(&mut self, e: &Event, answer: &mut Reply) -> Result<(), Memory>
        requires over { NeitherClosesNorOpens e.now → ⊥ }
        requires fits { (w : Core) × (fits_in G.seen G.leaves self.old.body w) × (w.pages.frames ≡ self.old.shape.frames) }
        requires least { 1 ≤ self.old.shape.frames }
        requires most { self.old.shape.frames ≤ 1024 }
        ensures served { ServesIn (telling G.seen G.leaves G.moment G.since G.faults) e.now (told_in result answer.new)
            self.old.body self.new.body }
        ensures reopens { IsFoundIn G.seen G.leaves e.now (told_in result answer.new) self.new.body }
        ensures closes { ClosesIn (telling G.seen G.leaves G.moment G.since G.faults) e.now self.old.body self.new.body }
        ensures book { self.new.book ≡ self.old.book }
        ensures shape { self.new.shape ≡ self.old.shape }
        ensures owed { self.new.owed ≡ self.old.owed }
    {
        let Some(body) = self.body.take() else {
            unreachable!();
        };
        let (done, body) = turned(self.alloc, body, e, self.shape);
        match self.body.replace(body) {
            None => put_told(answer, done),
            Some(_before) => unreachable!(),
        }
    }

    // Takes the place in the book that is owed for the event; where none is, makes room for its entry, and for one that it may owe.
    fn take_place(&mut self, e: &Event) -> Result<(), Memory>
        requires kept { (start : Core) × Keeps (telling G.seen G.leaves G.moment G.since G.faults) start self.old }
        ensures place { OnOk result (HasPlace (telling G.seen G.leaves G.moment G.since G.faults) e.now self.old self.new) }
        ensures fits { OnOk result (self.new.owed + 1 ≤ usize.MAX) }
        ensures free { OnErr result ((w : Core) → fits_in G.seen G.leaves self.old.body w → IsOwed w e.now → ⊥) }
        ensures owed { OnErr result (self.new.owed ≡ self.old.owed) }
        ensures spare { self.old.book.spare ≤ self.new.book.spare }
        ensures entries { self.new.book.entries ≡ self.old.book.entries }
        ensures opening { self.new.book.opening ≡ self.old.book.opening }
        ensures body { self.new.body ≡ self.old.body }
        ensures shape { self.new.shape ≡ self.old.shape }
    {
        if is_owed_in(&self.body, e) {
            self.owed -= 1;
            return Ok(());
        }
        self.make_room()
    }

    // Makes room for an entry, and for one that it may owe.
    fn make_room(&mut self) -> Result<(), Memory>
        ensures room { OnOk result (self.new.owed + 2 ≤ self.new.book.spare) }
        ensures fits { OnOk result (self.new.owed + 2 ≤ usize.MAX) }
        ensures spare { self.old.book.spare ≤ self.new.book.spare }
        ensures entries { self.new.book.entries ≡ self.old.book.entries }
        ensures opening { self.new.book.opening ≡ self.old.book.opening }
        ensures owed { self.new.owed ≡ self.old.owed }
        ensures body { self.new.body ≡ self.old.body }
        ensures shape { self.new.shape ≡ self.old.shape }
    {
        let Some(room) = self.owed.checked_add(2) else {
            return Err(Memory);
        };
        self.book.reserve(room)?;
        Ok(())
    }

    /// Takes room in the book for so many entries more at once, where there is memory for it, so that the book grows less often.
    pub fn expect(&mut self, entries: usize)
        ensures entries { self.new.book.entries ≡ self.old.book.entries }
        ensures opening { self.new.book.opening ≡ self.old.book.opening }
        ensures body { self.new.body ≡ self.old.body }
        ensures shape { self.new.shape ≡ self.old.shape }
        ensures keeps { (start : Core) → Keeps (telling G.seen G.leaves G.moment G.since G.faults) start self.old
            → Keeps (telling G.seen G.leaves G.moment G.since G.faults) start self.new }
    {
        let _ = self.book.reserve(entries);
    }

    /// The reply of the last entry.
    pub fn last(&self) -> &Reply
        requires { self.now.book.entries ≢ [] }
        ensures { (before : List Entry) (last : Entry) → self.now.book.entries ≡ before ++ last ∷ [] → result.now ≡ last.reply }
    {
        self.book.last_reply().unwrap()
    }

    /// The book of what happened.
    pub fn book(&self) -> &Book
        ensures { result.now ≡ self.now.book }
    {
        &self.book
    }

    /// The complex as it is; none while it is closed.
    pub fn complex(&self) -> Option<&Complex<G>>
        ensures { option_copied result ≡ open_in self.now.body }
    {
        match &self.body {
            Some(Body::Open(complex)) => Some(complex),
            _ => None,
        }
    }

    /// The book of what happened, and the devices; the complex is no more.
    pub fn close(self) -> (Book, G)
        requires kept { (start : Core) × Keeps (telling G.seen G.leaves G.moment G.since G.faults) start self }
        ensures book { result.0 ≡ self.book }
        ensures rig { IsRigIn result.1 self.body }
    {
        let Hall { body, book, .. } = self;
        let Some(body) = body else {
            unreachable!();
        };
        (book, devices_of(body))
    }
}

// The devices of a complex, open or closed.
fn devices_of<G: Rig>(body: Body<G>) -> G
    ensures { result ≡ rig_of body }
{
    match body {
        Body::Open(complex) => complex.images(),
        Body::Closed(rig, _) => rig,
    }
}
