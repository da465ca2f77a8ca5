//! A hall before the first line of its script: who is down recovers, instances join, and pools are emptied.

ghost use Rattle.std.specs.Prelude.{◌≡◌, ◌+◌, ◌<◌, ◌≤◌, ◌⊎◌, List, [], IfErr, IfOk, IsErrAnd, OnOk};
ghost use Rattle.sd_base.specs.declared.refusal.Refusal.TheVariants as R;
ghost use Rattle.sd_model.specs.declared.event.Reply.{Reply};
ghost use Rattle.sd_script.specs.declared.line.Line.{Line};
ghost use Rattle.sd_world.specs.Serving.{Core, telling};
ghost use Rattle.sd_hall.specs.Bodies.{IsRigIn};
ghost use Rattle.sd_hall.specs.Served.{IsServed};
ghost use Rattle.sd_hall.specs.Keeping.{Keeps};
ghost use Rattle.sd_drive.specs.Driven.{IsIn, IsSomewhere, StaysIn};
ghost use Rattle.sd_model.specs.Replies.{is_did};
ghost use Rattle.sd_drive.specs.Behind.{HasRecovered, IsUnused};
ghost use Rattle.sd_drive.specs.Driving.{Cursor, IsUnderWay, Work, World, works_of};
ghost use Rattle.sd_drive.specs.Running.{Breaks};
ghost use Rattle.sd_drive.specs.Emptying.{BreaksBy, BreaksIn, IsAlone, OpensAt, OpensBy, OpensTo, StopsIn, copies_from, pools_from, stands_at};
ghost use Rattle.sd_drive.specs.Restarting.{IsRestarting, RestartBreaks, Restarts, RestartsSome};
ghost use Rattle.sd_drive.specs.Rising.{HasRisen, IsOpening, IsSame, JoinBreaks, Joins, JoinsAll, OpensSome, begin_of};

use crate::emptying::{Going, going_of};
use crate::standing::{inst_no, page_no, status_of};
use crate::{Outcome, Owner, recover};
use sd_base::{InstNo, PageNo, Refusal};
use sd_hall::Hall;
use sd_model::{Book, Event};
use sd_rig::Rig;

/// A hall that rises, and how many instances and pages its scripts have.
#[derive(Drop)]
pub struct Rise<G> {
    hall: Hall<G>,
    insts: u8,
    pages: u16,
}

impl<G: Rig> Rise<G> {
    /// A hall in which nothing has happened yet.
    pub fn new(hall: Hall<G>, insts: u8, pages: u16) -> Rise<G>
        ensures hall { result.hall ≡ hall }
        ensures insts { result.insts ≡ insts }
        ensures pages { result.pages ≡ pages }
    {
        Rise { hall, insts, pages }
    }

    /// The hall, and how many instances and pages its scripts have.
    pub fn into_parts(self) -> (Hall<G>, u8, u16)
        ensures hall { result.0 ≡ self.hall }
        ensures insts { result.1 ≡ self.insts }
        ensures pages { result.2 ≡ self.pages }
    {
        (self.hall, self.insts, self.pages)
    }

    /// The book of what happened, and the rig, where no line is to follow.
    pub fn close(self) -> (Book, G)
        requires kept { (start : Core) × Keeps (telling G.seen G.leaves G.moment G.since G.faults) start self.hall }
        ensures book { result.0 ≡ self.hall.book }
        ensures rig { IsRigIn result.1 self.hall.body }
    {
        self.hall.close()
    }

    /// Each instance that is down recovers itself, in rising order, with the pulls of the pages that this needs; then the
    /// instances join, one after another; then each instance of the complex that isn't up lets its pages go, and writes one
    /// before that it has changed. The entries have session 0 and line 0. A join that is refused is noted, as one for want of
    /// room or numbers, and the lines of its instance will be refused as Down.
    ///
    /// A recovery comes to its end, or a device fails in it, and so does a copy that is to go: behind the opening of a hall in
    /// which nobody is being recovered, with no page in a pool or asked for, no instance is down or being recovered, and only
    /// instances that are up have pages.
    ///
    /// `Failed` comes where a device failed: that event is noted, no other is made, and nothing is to be driven. After `Memory`,
    /// which comes only while the opening is under way, what happened so far is noted, each entry the one that was due.
    pub fn opening(&mut self) -> Result<(), Refusal>
        requires kept { (start : Core) × Keeps (telling G.seen G.leaves G.moment G.since G.faults) start self.old.hall }
        requires empty { self.old.hall.book.entries ≡ [] }
        requires some { 1 ≤ self.old.insts }
        requires most { self.old.insts ≤ 8 }
        ensures opened { OnOk result ((start : Core) (lines : List Line) (rig : G) → IsRigIn rig self.old.hall.body
            → Keeps (telling G.seen G.leaves G.moment G.since G.faults) start self.old.hall
            → (w : World) × HasRisen (telling G.seen G.leaves G.moment G.since G.faults) (begin_of self.old lines start rig) lines self.new w) }
        ensures recovered { OnOk result (IsUnused self.old.hall.body → HasRecovered self.new.hall.body) }
        ensures errors { IfErr result (λ n. (n ≡ R.Memory) ⊎ (n ≡ R.Failed)) }
        ensures memory { IsErrAnd result (λ n. n ≡ R.Memory) → (start : Core) (lines : List Line) (rig : G)
            → IsRigIn rig self.old.hall.body
            → Keeps (telling G.seen G.leaves G.moment G.since G.faults) start self.old.hall
            → (w : World) × IsIn (telling G.seen G.leaves G.moment G.since G.faults) (begin_of self.old lines start rig) self.new.hall w
            × IsUnderWay Work.Opening (works_of lines) w }
        ensures breaks { IsErrAnd result (λ n. n ≡ R.Failed) → (start : Core) (lines : List Line) (rig : G)
            → IsRigIn rig self.old.hall.body
            → Keeps (telling G.seen G.leaves G.moment G.since G.faults) start self.old.hall → (left : G) → IsRigIn left self.new.hall.body
            → Breaks (telling G.seen G.leaves G.moment G.since G.faults) (begin_of self.old lines start rig) left }
        ensures kept { (start : Core) → Keeps (telling G.seen G.leaves G.moment G.since G.faults) start self.old.hall
            → Keeps (telling G.seen G.leaves G.moment G.since G.faults) start self.new.hall }
        ensures insts { self.new.insts ≡ self.old.insts }
        ensures pages { self.new.pages ≡ self.old.pages }
    {
        self.restart_all()?;
        self.join_each()?;
        self.empty_pools()
    }

    // Each instance that is down recovers itself, in rising order.
    fn restart_all(&mut self) -> Result<(), Refusal>
        requires at { IsRestarting (telling G.seen G.leaves G.moment G.since G.faults) self.old 1 }
        ensures restarted { OnOk result (Restarts (telling G.seen G.leaves G.moment G.since G.faults) self.old self.new 1 9) }
        ensures errors { IfErr result (λ n. (n ≡ R.Memory) ⊎ (n ≡ R.Failed)) }
        ensures memory { IsErrAnd result (λ n. n ≡ R.Memory) → RestartsSome (telling G.seen G.leaves G.moment G.since G.faults)
            self.old self.new 1 }
        ensures breaks { IsErrAnd result (λ n. n ≡ R.Failed)
            → RestartBreaks (telling G.seen G.leaves G.moment G.since G.faults) self.old self.new 1 }
        ensures same { IsSame self.old self.new }
    {
        for number in 0..8u8 {
            self.restart(inst_no(number + 1))?;
        }
        Ok(())
    }

    // An instance recovers itself, where it is down. What refuses it is noted.
    fn restart(&mut self, inst: InstNo) -> Result<(), Refusal>
        requires at { IsRestarting (telling G.seen G.leaves G.moment G.since G.faults) self.old inst }
        requires low { 1 ≤ inst }
        requires high { inst ≤ 8 }
        ensures restarted { OnOk result (Restarts (telling G.seen G.leaves G.moment G.since G.faults)
            self.old self.new inst (inst + 1)) }
        ensures errors { IfErr result (λ n. (n ≡ R.Memory) ⊎ (n ≡ R.Failed)) }
        ensures memory { IsErrAnd result (λ n. n ≡ R.Memory) → RestartsSome (telling G.seen G.leaves G.moment G.since G.faults)
            self.old self.new inst }
        ensures breaks { IsErrAnd result (λ n. n ≡ R.Failed)
            → RestartBreaks (telling G.seen G.leaves G.moment G.since G.faults) self.old self.new inst }
        ensures same { IsSame self.old self.new }
    {
        if !status_of(&self.hall, inst).is_down() {
            return Ok(());
        }
        let of = Owner {
            session: 0,
            line: 0,
            is_opening: true,
        };
        match recover(&mut self.hall, of, inst, inst, None)? {
            Outcome::Broken => Err(Refusal::Failed),
            _ => Ok(()),
        }
    }

    // The instances join, one after another.
    fn join_each(&mut self) -> Result<(), Refusal>
        requires at { IsOpening (telling G.seen G.leaves G.moment G.since G.faults) self.old 1 }
        requires most { self.old.insts ≤ 8 }
        ensures joined { OnOk result (JoinsAll (telling G.seen G.leaves G.moment G.since G.faults) self.old self.new 1) }
        ensures errors { IfErr result (λ n. (n ≡ R.Memory) ⊎ (n ≡ R.Failed)) }
        ensures memory { IsErrAnd result (λ n. n ≡ R.Memory) → OpensSome (telling G.seen G.leaves G.moment G.since G.faults)
            self.old self.new 1 }
        ensures breaks { IsErrAnd result (λ n. n ≡ R.Failed) → JoinBreaks (telling G.seen G.leaves G.moment G.since G.faults)
            self.old self.new 1 }
        ensures same { IsSame self.old self.new }
    {
        let insts = self.insts;
        for number in 0..insts {
            self.join(inst_no(number + 1))?;
        }
        Ok(())
    }

    // An instance joins.
    fn join(&mut self, inst: InstNo) -> Result<(), Refusal>
        requires at { IsOpening (telling G.seen G.leaves G.moment G.since G.faults) self.old inst }
        ensures joined { OnOk result (Joins (telling G.seen G.leaves G.moment G.since G.faults) self.old self.new inst) }
        ensures errors { IfErr result (λ n. (n ≡ R.Memory) ⊎ (n ≡ R.Failed)) }
        ensures memory { IsErrAnd result (λ n. n ≡ R.Memory) → StaysIn (telling G.seen G.leaves G.moment G.since G.faults)
            self.old.hall self.new.hall }
        ensures breaks { IsErrAnd result (λ n. n ≡ R.Failed) → JoinBreaks (telling G.seen G.leaves G.moment G.since G.faults)
            self.old self.new inst }
        ensures same { IsSame self.old self.new }
    {
        self.open_by(Event::Join { inst })?;
        Ok(())
    }

    // Does an event of the opening. Whether it was answered Did.
    fn open_by(&mut self, e: Event) -> Result<bool, Refusal>
        requires served { IsServed e }
        requires at { IsSomewhere (telling G.seen G.leaves G.moment G.since G.faults) self.old.hall }
        requires alone { IsAlone e }
        ensures done { IfOk result (λ did. (r : Reply) × (is_did r ≡ did)
            × OpensBy (telling G.seen G.leaves G.moment G.since G.faults) self.old self.new e r) }
        ensures errors { IfErr result (λ n. (n ≡ R.Memory) ⊎ (n ≡ R.Failed)) }
        ensures memory { IsErrAnd result (λ n. n ≡ R.Memory) → StaysIn (telling G.seen G.leaves G.moment G.since G.faults)
            self.old.hall self.new.hall }
        ensures breaks { IsErrAnd result (λ n. n ≡ R.Failed) → BreaksBy (telling G.seen G.leaves G.moment G.since G.faults)
            self.old self.new e }
        ensures same { IsSame self.old self.new }
    {
        self.hall.call(0, 0, e)?;
        if self.hall.last().is_failed() {
            return Err(Refusal::Failed);
        }
        Ok(self.hall.last().is_did())
    }

    // The pool of each instance that isn't up is emptied, in rising order.
    fn empty_pools(&mut self) -> Result<(), Refusal>
        requires at { OpensAt (telling G.seen G.leaves G.moment G.since G.faults) self.old (pools_from 1) }
        ensures emptied { OnOk result (OpensTo (telling G.seen G.leaves G.moment G.since G.faults)
            self.old self.new (pools_from 1) (pools_from 9)) }
        ensures errors { IfErr result (λ n. (n ≡ R.Memory) ⊎ (n ≡ R.Failed)) }
        ensures memory { IsErrAnd result (λ n. n ≡ R.Memory)
            → StopsIn (telling G.seen G.leaves G.moment G.since G.faults) self.old self.new (pools_from 1) }
        ensures breaks { IsErrAnd result (λ n. n ≡ R.Failed)
            → BreaksIn (telling G.seen G.leaves G.moment G.since G.faults) self.old self.new (pools_from 1) }
        ensures same { IsSame self.old self.new }
    {
        for number in 0..8u8 {
            self.empty_pool(inst_no(number + 1))?;
        }
        Ok(())
    }

    // The pages of an instance that isn't up go from its pool, in rising order.
    fn empty_pool(&mut self, inst: InstNo) -> Result<(), Refusal>
        requires at { OpensAt (telling G.seen G.leaves G.moment G.since G.faults) self.old (pools_from inst) }
        requires low { 1 ≤ inst }
        requires high { inst ≤ 8 }
        ensures emptied { OnOk result (OpensTo (telling G.seen G.leaves G.moment G.since G.faults)
            self.old self.new (pools_from inst) (pools_from (inst + 1))) }
        ensures errors { IfErr result (λ n. (n ≡ R.Memory) ⊎ (n ≡ R.Failed)) }
        ensures memory { IsErrAnd result (λ n. n ≡ R.Memory)
            → StopsIn (telling G.seen G.leaves G.moment G.since G.faults) self.old self.new (pools_from inst) }
        ensures breaks { IsErrAnd result (λ n. n ≡ R.Failed)
            → BreaksIn (telling G.seen G.leaves G.moment G.since G.faults) self.old self.new (pools_from inst) }
        ensures same { IsSame self.old self.new }
    {
        let status = status_of(&self.hall, inst);
        if status.is_up() {
            return Ok(());
        }
        for number in 0..1024u16 {
            self.let_go(inst, page_no(number))?;
        }
        Ok(())
    }

    // The page goes from the instance's pool, where it is there and the instance isn't up.
    fn let_go(&mut self, inst: InstNo, page: PageNo) -> Result<(), Refusal>
        requires at { OpensAt (telling G.seen G.leaves G.moment G.since G.faults) self.old (copies_from inst page) }
        requires low { 1 ≤ inst }
        requires high { inst ≤ 8 }
        requires range { page < 1024 }
        ensures gone { OnOk result (OpensTo (telling G.seen G.leaves G.moment G.since G.faults)
            self.old self.new (copies_from inst page) (copies_from inst (page + 1))) }
        ensures errors { IfErr result (λ n. (n ≡ R.Memory) ⊎ (n ≡ R.Failed)) }
        ensures memory { IsErrAnd result (λ n. n ≡ R.Memory)
            → StopsIn (telling G.seen G.leaves G.moment G.since G.faults) self.old self.new (copies_from inst page) }
        ensures breaks { IsErrAnd result (λ n. n ≡ R.Failed)
            → BreaksIn (telling G.seen G.leaves G.moment G.since G.faults) self.old self.new (copies_from inst page) }
        ensures same { IsSame self.old self.new }
    {
        match going_of(&self.hall, inst, page) {
            Going::Stays => Ok(()),
            Going::Goes => self.evict(inst, page),
            Going::IsWritten => self.write_out(inst, page),
        }
    }

    // The page is written, and goes.
    fn write_out(&mut self, inst: InstNo, page: PageNo) -> Result<(), Refusal>
        requires at { OpensAt (telling G.seen G.leaves G.moment G.since G.faults) self.old (stands_at (Cursor.Flushes inst page)) }
        ensures gone { OnOk result (OpensTo (telling G.seen G.leaves G.moment G.since G.faults)
            self.old self.new (stands_at (Cursor.Flushes inst page)) (copies_from inst (page + 1))) }
        ensures errors { IfErr result (λ n. (n ≡ R.Memory) ⊎ (n ≡ R.Failed)) }
        ensures memory { IsErrAnd result (λ n. n ≡ R.Memory)
            → StopsIn (telling G.seen G.leaves G.moment G.since G.faults) self.old self.new (stands_at (Cursor.Flushes inst page)) }
        ensures breaks { IsErrAnd result (λ n. n ≡ R.Failed)
            → BreaksIn (telling G.seen G.leaves G.moment G.since G.faults) self.old self.new (stands_at (Cursor.Flushes inst page)) }
        ensures same { IsSame self.old self.new }
    {
        if !self.open_by(Event::Flush { inst, page })? {
            return Ok(());
        }
        self.evict(inst, page)
    }

    // The copy goes.
    fn evict(&mut self, inst: InstNo, page: PageNo) -> Result<(), Refusal>
        requires at { OpensAt (telling G.seen G.leaves G.moment G.since G.faults) self.old (stands_at (Cursor.Evicts inst page)) }
        ensures gone { OnOk result (OpensTo (telling G.seen G.leaves G.moment G.since G.faults)
            self.old self.new (stands_at (Cursor.Evicts inst page)) (copies_from inst (page + 1))) }
        ensures errors { IfErr result (λ n. (n ≡ R.Memory) ⊎ (n ≡ R.Failed)) }
        ensures memory { IsErrAnd result (λ n. n ≡ R.Memory)
            → StopsIn (telling G.seen G.leaves G.moment G.since G.faults) self.old self.new (stands_at (Cursor.Evicts inst page)) }
        ensures breaks { IsErrAnd result (λ n. n ≡ R.Failed)
            → BreaksIn (telling G.seen G.leaves G.moment G.since G.faults) self.old self.new (stands_at (Cursor.Evicts inst page)) }
        ensures same { IsSame self.old self.new }
    {
        self.open_by(Event::Evict { inst, page })?;
        Ok(())
    }
}
