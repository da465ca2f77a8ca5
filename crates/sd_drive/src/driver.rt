//! The lines of a script, one after another, on a hall.

ghost use Rattle.std.specs.Prelude.{◌≡◌, ◌+◌, ◌<◌, ◌≤◌, ℕ, true, List, [], IfOk, OnErr, OnOk, Some, length};
ghost use Rattle.sd_world.specs.Serving.{Core, telling};
ghost use Rattle.sd_hall.specs.Bodies.{IsRigIn, fits_in};
ghost use Rattle.sd_hall.specs.Keeping.{Keeps};
ghost use Rattle.sd_script.specs.declared.line.Line.{Line};
ghost use Rattle.sd_drive.specs.Bodies.{status_in};
ghost use Rattle.sd_drive.specs.Driven.{IsIn};
ghost use Rattle.sd_drive.specs.Running.{Start};
ghost use Rattle.sd_drive.specs.Driving.{IsTold, World, lister_by};
ghost use Rattle.sd_script.specs.declared.line.Form.TheVariants as form;
ghost use Rattle.sd_drive.specs.Lines.{Names, event_of, rolls_back};
ghost use Rattle.sd_drive.specs.Rising.{HasRisen};
ghost use Rattle.sd_drive.specs.Recovering.{LineRecovers, RecoversNow, RecoversSome, owner_of};
ghost use Rattle.sd_drive.specs.Reaching.{AreDriven, AtLine, DrivesLine, DrivesSome, IsJoining, IsPlain, IsRolledBack, IsSame, IsShort, JoinsNow, JoinsSome, Knows, Reached, Undoes, UndoesAll, UndoesSome, at_ordinal, ordinal_in};

use crate::forms::{event_by, lone_event, ordinal};
use crate::{Outcome, Owner, Rise, inst_no, operate, page_no, recover, status_of};
use sd_base::{InstNo, Memory, TxnId};
use sd_hall::Hall;
use sd_model::{Book, Event};
use sd_rig::Rig;
use sd_script::{Form, Line};
use std::alloc::Global;

/// A hall, how many instances and pages its scripts have, and the transaction of each begin line so far: none where the begin was
/// refused.
#[derive(Drop)]
pub struct Driver<G> {
    hall: Hall<G>,
    insts: u8,
    pages: u16,
    txns: Vec<Option<TxnId>>,
}

impl<G: Rig> Driver<G> {
    /// A driver of the hall that rose, before the first line. It takes no memory.
    pub fn new(alloc: Global, rise: Rise<G>) -> Driver<G>
        ensures hall { result.hall ≡ rise.hall }
        ensures insts { result.insts ≡ rise.insts }
        ensures pages { result.pages ≡ rise.pages }
        ensures txns { result.txns.items ≡ [] }
        ensures reached { (start : Start G) (lines : List Line) (w : World)
            → HasRisen (telling G.seen G.leaves G.moment G.since G.faults) start lines rise w
            → Reached (telling G.seen G.leaves G.moment G.since G.faults) start lines 0 result w }
    {
        let (hall, insts, pages) = rise.into_parts();
        Driver {
            hall,
            insts,
            pages,
            txns: Vec::new(alloc),
        }
    }

    /// The hall, with the book of what happened.
    pub fn hall(&self) -> &Hall<G>
        ensures { result.now ≡ self.now.hall }
    {
        &self.hall
    }

    /// The book of what happened, and the rig, when no more is to be driven.
    pub fn close(self) -> (Book, G)
        requires kept { (start : Core) × Keeps (telling G.seen G.leaves G.moment G.since G.faults) start self.hall }
        ensures book { result.0 ≡ self.hall.book }
        ensures rig { IsRigIn result.1 self.hall.body }
    {
        self.hall.close()
    }

    /// Does what the lines say, one after another. After `Memory` the book has what happened so far, each entry the one that was
    /// due.
    pub fn replay(&mut self, lines: &[Line]) -> Result<(), Memory>
        requires script { AreDriven lines.now self.old.insts self.old.pages }
        requires at { (start : Start G) × (w : World) × Reached (telling G.seen G.leaves G.moment G.since G.faults)
            start lines.now 0 self.old w }
        ensures told { OnOk result ((start : Start G) (w : World)
            → Reached (telling G.seen G.leaves G.moment G.since G.faults) start lines.now 0 self.old w
            → (w' : World) × IsIn (telling G.seen G.leaves G.moment G.since G.faults) start self.new.hall w' × IsTold w'.core.scene.state w'.told) }
        ensures memory { OnErr result ((start : Start G) (w : World)
            → Reached (telling G.seen G.leaves G.moment G.since G.faults) start lines.now 0 self.old w
            → (w' : World) × IsIn (telling G.seen G.leaves G.moment G.since G.faults) start self.new.hall w') }
    {
        for line in lines {
            self.line(line)?;
        }
        Ok(())
    }

    // Does what a line says.
    fn line(&mut self, line: &Line) -> Result<(), Memory>
        requires at { AtLine (telling G.seen G.leaves G.moment G.since G.faults) self.old line.now }
        ensures driven { OnOk result (DrivesLine (telling G.seen G.leaves G.moment G.since G.faults) self.old self.new line.now) }
        ensures memory { OnErr result (DrivesSome (telling G.seen G.leaves G.moment G.since G.faults)
            self.old self.new line.now) }
        ensures same { IsSame self.old self.new }
    {
        match &line.form {
            Form::Begin { inst, .. } => self.begin(line, *inst),
            Form::Table => self.table(line),
            Form::JoinAll => self.join_all(line),
            Form::Recover { inst, by, most } => self.recover_one(line, *inst, *by, *most),
            Form::RecoverAll => self.recover_all(line),
            Form::Back { .. } | Form::Rollback { .. } => self.roll_back(line),
            _ => self.event(line),
        }
    }

    // Begins a transaction, and keeps which one it is.
    fn begin(&mut self, line: &Line, inst: InstNo) -> Result<(), Memory>
        requires at { AtLine (telling G.seen G.leaves G.moment G.since G.faults) self.old line.now }
        requires begins { (name : List ℕ) × (line.now.form ≡ form.Begin inst name) }
        ensures driven { OnOk result (DrivesLine (telling G.seen G.leaves G.moment G.since G.faults) self.old self.new line.now) }
        ensures memory { OnErr result (DrivesSome (telling G.seen G.leaves G.moment G.since G.faults)
            self.old self.new line.now) }
        ensures same { IsSame self.old self.new }
    {
        operate(
            &mut self.hall,
            line.session,
            line.number,
            Event::Begin { inst },
        )?;
        let txn = self.hall.last().began();
        self.txns.push(txn)?;
        Ok(())
    }

    // An instance recovers another or itself, in at most so many steps where the line names a number.
    fn recover_one(
        &mut self,
        line: &Line,
        inst: InstNo,
        by: InstNo,
        most: Option<u64>,
    ) -> Result<(), Memory>
        requires at { AtLine (telling G.seen G.leaves G.moment G.since G.faults) self.old line.now }
        requires recovers { line.now.form ≡ form.Recover inst by most }
        ensures driven { OnOk result (DrivesLine (telling G.seen G.leaves G.moment G.since G.faults) self.old self.new line.now) }
        ensures memory { OnErr result (DrivesSome (telling G.seen G.leaves G.moment G.since G.faults)
            self.old self.new line.now) }
        ensures same { IsSame self.old self.new }
    {
        let _how = recover(&mut self.hall, owner_of(line), inst, by, most)?;
        Ok(())
    }

    // Each instance that is down recovers itself, in rising order, up to the first refusal.
    fn recover_all(&mut self, line: &Line) -> Result<(), Memory>
        requires at { AtLine (telling G.seen G.leaves G.moment G.since G.faults) self.old line.now }
        requires recovers { line.now.form ≡ form.RecoverAll }
        ensures driven { OnOk result (DrivesLine (telling G.seen G.leaves G.moment G.since G.faults) self.old self.new line.now) }
        ensures memory { OnErr result (DrivesSome (telling G.seen G.leaves G.moment G.since G.faults)
            self.old self.new line.now) }
        ensures same { IsSame self.old self.new }
    {
        for number in 0..8u8 {
            if !self.recover_down(line, inst_no(number + 1))? {
                return Ok(());
            }
        }
        Ok(())
    }

    // An instance recovers itself, where it is down. Whether the line goes on.
    fn recover_down(&mut self, line: &Line, inst: InstNo) -> Result<bool, Memory>
        requires at { LineRecovers (telling G.seen G.leaves G.moment G.since G.faults) self.old line.now inst }
        requires recovers { line.now.form ≡ form.RecoverAll }
        requires low { 1 ≤ inst }
        requires high { inst ≤ 8 }
        ensures recovered { IfOk result (λ more. RecoversNow (telling G.seen G.leaves G.moment G.since G.faults)
            self.old self.new line.now inst more) }
        ensures memory { OnErr result (RecoversSome (telling G.seen G.leaves G.moment G.since G.faults)
            self.old self.new line.now inst) }
        ensures same { IsSame self.old self.new }
        ensures txns { self.new.txns ≡ self.old.txns }
    {
        if !status_of(&self.hall, inst).is_down() {
            return Ok(true);
        }
        let of = owner_of(line);
        match recover(&mut self.hall, of, inst, inst, None)? {
            Outcome::Ended => Ok(true),
            _ => Ok(false),
        }
    }

    // Each instance that isn't up joins, in rising order, up to the first refusal.
    fn join_all(&mut self, line: &Line) -> Result<(), Memory>
        requires at { AtLine (telling G.seen G.leaves G.moment G.since G.faults) self.old line.now }
        requires joins { line.now.form ≡ form.JoinAll }
        ensures driven { OnOk result (DrivesLine (telling G.seen G.leaves G.moment G.since G.faults) self.old self.new line.now) }
        ensures memory { OnErr result (DrivesSome (telling G.seen G.leaves G.moment G.since G.faults)
            self.old self.new line.now) }
        ensures same { IsSame self.old self.new }
    {
        let insts = self.insts;
        for number in 0..insts {
            if !self.join_absent(line, inst_no(number + 1))? {
                return Ok(());
            }
        }
        Ok(())
    }

    // An instance joins, unless it is up. Whether the line goes on.
    fn join_absent(&mut self, line: &Line, inst: InstNo) -> Result<bool, Memory>
        requires at { IsJoining (telling G.seen G.leaves G.moment G.since G.faults) self.old line.now inst }
        requires joins { line.now.form ≡ form.JoinAll }
        requires low { 1 ≤ inst }
        requires high { inst ≤ 8 }
        requires within { inst ≤ self.old.insts }
        ensures joined { IfOk result (λ more. JoinsNow (telling G.seen G.leaves G.moment G.since G.faults)
            self.old self.new line.now inst more) }
        ensures memory { OnErr result (JoinsSome (telling G.seen G.leaves G.moment G.since G.faults)
            self.old self.new line.now inst) }
        ensures same { IsSame self.old self.new }
        ensures txns { self.new.txns ≡ self.old.txns }
    {
        if status_of(&self.hall, inst).is_up() {
            return Ok(true);
        }
        operate(
            &mut self.hall,
            line.session,
            line.number,
            Event::Join { inst },
        )?;
        Ok(self.hall.last().is_joined())
    }

    // Lists each page, by the lowest instance that is up, up to the first refusal.
    fn table(&mut self, line: &Line) -> Result<(), Memory>
        requires at { AtLine (telling G.seen G.leaves G.moment G.since G.faults) self.old line.now }
        requires table { line.now.form ≡ form.Table }
        ensures driven { OnOk result (DrivesLine (telling G.seen G.leaves G.moment G.since G.faults) self.old self.new line.now) }
        ensures memory { OnErr result (DrivesSome (telling G.seen G.leaves G.moment G.since G.faults)
            self.old self.new line.now) }
        ensures same { IsSame self.old self.new }
    {
        let inst = lister(&self.hall, self.insts);
        let pages = self.pages;
        for number in 0..pages {
            let page = page_no(number);
            operate(
                &mut self.hall,
                line.session,
                line.number,
                Event::List { inst, page },
            )?;
            if !self.hall.last().is_rows() {
                return Ok(());
            }
        }
        Ok(())
    }

    // Rolls a transaction back, to a mark or wholly, up to the first refusal.
    fn roll_back(&mut self, line: &Line) -> Result<(), Memory>
        requires at { AtLine (telling G.seen G.leaves G.moment G.since G.faults) self.old line.now }
        requires rolls { rolls_back line.now.form ≡ true }
        ensures driven { OnOk result (DrivesLine (telling G.seen G.leaves G.moment G.since G.faults) self.old self.new line.now) }
        ensures memory { OnErr result (DrivesSome (telling G.seen G.leaves G.moment G.since G.faults)
            self.old self.new line.now) }
        ensures same { IsSame self.old self.new }
    {
        let Some(txn) = self.txn_of(&line.form) else {
            return Ok(());
        };
        let back = event_by(&line.form, txn)?;
        operate(&mut self.hall, line.session, line.number, back)?;
        if !self.hall.last().is_did() {
            return Ok(());
        }
        self.undo_all(line, &txn)
    }

    // Undoes one change after another, until none is left that the rollback takes back, or to the first refusal.
    fn undo_all(&mut self, line: &Line, txn: &TxnId) -> Result<(), Memory>
        requires at { IsRolledBack (telling G.seen G.leaves G.moment G.since G.faults) self.old line.now txn.now }
        ensures driven { OnOk result (UndoesAll (telling G.seen G.leaves G.moment G.since G.faults)
            self.old self.new line.now txn.now) }
        ensures memory { OnErr result (UndoesSome (telling G.seen G.leaves G.moment G.since G.faults)
            self.old self.new line.now txn.now) }
        ensures same { IsSame self.old self.new }
    {
        while self.undo(line, txn)? {}
        Ok(())
    }

    // Undoes a change, or ends the rollback. Whether more is to be undone.
    fn undo(&mut self, line: &Line, txn: &TxnId) -> Result<bool, Memory>
        requires at { IsRolledBack (telling G.seen G.leaves G.moment G.since G.faults) self.old line.now txn.now }
        ensures undone { IfOk result (λ more. Undoes (telling G.seen G.leaves G.moment G.since G.faults)
            self.old self.new line.now txn.now more) }
        ensures memory { OnErr result (UndoesSome (telling G.seen G.leaves G.moment G.since G.faults)
            self.old self.new line.now txn.now) }
        ensures same { IsSame self.old self.new }
    {
        txn.inst.keeps();
        operate(
            &mut self.hall,
            line.session,
            line.number,
            Event::Undo { txn: *txn },
        )?;
        Ok(self.hall.last().is_step())
    }

    // Does the event of a line that has one at most, and begins no transaction.
    fn event(&mut self, line: &Line) -> Result<(), Memory>
        requires at { AtLine (telling G.seen G.leaves G.moment G.since G.faults) self.old line.now }
        requires plain { IsPlain line.now.form }
        ensures driven { OnOk result (DrivesLine (telling G.seen G.leaves G.moment G.since G.faults) self.old self.new line.now) }
        ensures memory { OnErr result (DrivesSome (telling G.seen G.leaves G.moment G.since G.faults)
            self.old self.new line.now) }
        ensures same { IsSame self.old self.new }
    {
        match self.event_of(&line.form)? {
            Some(e) => operate(&mut self.hall, line.session, line.number, e),
            None => Ok(()),
        }
    }

    // The event of a line, or its first one; none where it has none, as where the begin of its transaction was refused.
    fn event_of(&self, form: &Form) -> Result<Option<Event>, Memory>
        requires known { (o : ℕ) → ordinal_in form.now ≡ Some o → o < length self.now.txns.items }
        requires short { IsShort form.now }
        ensures event { IfOk result (λ e. (names : Names) → Knows self.now.txns.items names form.now
            → e ≡ event_of names form.now) }
    {
        if ordinal(form).is_none() {
            return Ok(lone_event(form));
        }
        match self.txn_of(form) {
            Some(txn) => Ok(Some(event_by(form, txn)?)),
            None => Ok(None),
        }
    }

    // The transaction of a line of one that began before.
    fn txn_of(&self, form: &Form) -> Option<TxnId>
        requires known { (o : ℕ) → ordinal_in form.now ≡ Some o → o < length self.now.txns.items }
        ensures { result ≡ at_ordinal self.now.txns.items (ordinal_in form.now) }
    {
        let ordinal = ordinal(form)?;
        self.txns[ordinal as usize]
    }
}

// Under whom the entries of a recovery are noted that a line asks for.
fn owner_of(line: &Line) -> Owner
    ensures { result ≡ owner_of line.now }
{
    Owner {
        session: line.session,
        line: line.number,
        is_opening: false,
    }
}

// The lowest of so many instances that is up; instance 1 where none is.
fn lister<G: Rig>(hall: &Hall<G>, insts: u8) -> InstNo
    requires fits { (w : Core) × fits_in G.seen G.leaves hall.now.body w }
    requires most { insts ≤ 8 }
    ensures { result ≡ lister_by (status_in hall.now.body) insts }
{
    for number in 0..insts {
        let inst = inst_no(number + 1);
        if status_of(hall, inst).is_up() {
            return inst;
        }
    }
    inst_no(1)
}
