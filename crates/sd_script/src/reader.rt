//! The reader: the lines so far, and what is needed of them to judge the next.

ghost use Rattle.std.specs.Prelude.{◌≡◌, ℕ, ◌<◌, ◌≤◌, ◌↔◌, ◌∷◌, List, Option, [], codes, length, true, Ok, IsTrue, IfOk, IfErr, OnOk, OnErr};
ghost use Rattle.std.specs.Vec.{vec_len, vec_capacity};
ghost use Rattle.std.specs.Fmt.{decimal};
ghost use Rattle.sd_base.specs.declared.refusal.Refusal.TheVariants as refusal;
ghost use Rattle.sd_script.specs.Causes.{ArePrinted};
ghost use Rattle.sd_script.specs.Forms.{IsForm, IsFormOf, IsInst, IsName};
ghost use Rattle.sd_script.specs.Known.{known};
ghost use Rattle.sd_script.specs.Order.{begun, ordinal_of, is_table, insts_of, pages_of, table_count, Follows};
ghost use Rattle.sd_script.specs.Remembered.{FormFits, GoesOn, IsFresh, IsLineRefusedWith, IsTakenIf, IsTakenOf, IsUnknown, begins_after, insts_after, known_after, pages_after, tables_after};
ghost use Rattle.sd_script.specs.Text.{line_at};
ghost use Rattle.sd_script.specs.Words.{plain_number};

use crate::causes::{cause_of, cause_unprinted};
use crate::form::take_line;
use crate::text::is_idle;
use crate::{Form, Line, Names, add_of, begin_of, commit_of, insert_of, read_of, write_of};
use sd_base::{InstNo, LineError, Memory, PageNo, Refusal};
use std::alloc::Global;
use std::marker::Model;

const LINE_BYTES: usize = 1_024;

pub(crate) const LINES: u32 = 100_000;

const TEXT_BYTES: usize = 4_194_304;

const TABLES: u8 = 64;

/// The lines so far, the ordinals of the names that they began, and how many.
#[derive(Drop)]
pub(crate) struct Reader {
    lines: Vec<Line>,
    begun: Names,
    begins: u32,
    insts: u8,
    pages: u16,
    tables: u8,
}

impl Model for Reader {
    ghost use Rattle.std.specs.Prelude.{List};
    ghost use Rattle.sd_script.specs.declared.line.Line.{Line};
    ghost use Rattle.sd_script.specs.Known.{known};
    ghost use Rattle.sd_script.specs.Remembered.{Remembers};

    ghost Value = { List Line };

    ghost view = { λ r. r.lines.items };

    ghost invariant = { λ r. Remembers r.lines.items (known r.begun) r.begins r.insts r.pages r.tables };
}

impl Reader {
    /// No lines, with room for so many, where there is memory for it.
    pub(crate) fn new(alloc: Global, room: usize) -> Reader
        ensures { result ≡ [] }
    {
        let lines = match Vec::with_capacity(alloc, room) {
            Ok(lines) => lines,
            Err(_) => Vec::new(alloc),
        };
        Reader {
            lines,
            begun: Names::new(alloc),
            begins: 0,
            insts: 0,
            pages: 0,
            tables: 0,
        }
    }

    pub(crate) fn into_lines(self) -> Vec<Line>
        ensures { result.items ≡ self }
    {
        self.lines
    }

    /// Reads the line of these bytes and this number, which ends at this byte of the text. A blank line or a comment is passed over.
    pub(crate) fn read_line(
        &mut self,
        alloc: Global,
        bytes: &[u8],
        printed: bool,
        number: u32,
        end: usize,
    ) -> Result<(), Refusal>
        requires few { length self.old < number }
        requires printed { IsTrue printed ↔ ArePrinted bytes.now }
        ensures read { OnOk result (GoesOn self.old (line_at bytes.now number end) self.new) }
        ensures refused { IfErr result (IsLineRefusedWith self.old (line_at bytes.now number end)) }
    {
        if !has_room_for(bytes, number, end) {
            return Err(bad_line(number, LineError::Size));
        }
        if !printed {
            return Err(bad_line(number, cause_unprinted(bytes, self)));
        }
        if is_idle(bytes) {
            return Ok(());
        }
        if !take_line(alloc, number, bytes, self)? {
            return Err(bad_line(number, cause_of(bytes, self)));
        }
        Ok(())
    }

    /// Whether a table line may come next.
    pub(crate) fn has_room_for_table(&self) -> bool
        ensures { IsTrue result ↔ (table_count self.now < 64) }
    {
        self.tables < TABLES
    }

    /// Whether there are no lines.
    pub(crate) fn is_empty(&self) -> bool
        ensures { IsTrue result ↔ (self.now ≡ []) }
    {
        self.lines.is_empty()
    }

    // Of each line that scripts mostly have, what it takes is put together in a function of its own: so nothing of the other forms
    // is moved along.

    /// Takes a begin line.
    #[inline(never)]
    pub(crate) fn take_begin(
        &mut self,
        alloc: Global,
        number: u32,
        inst: InstNo,
        name: &[u8],
    ) -> Result<bool, Memory>
        requires few { length self.old < 100000 }
        requires inst { IsInst inst }
        ensures { IfOk result (IsTakenOf self.old number (decimal inst ∷ codes "begin" ∷ name.now ∷ []) self.new) }
    {
        let form = begin_of(alloc, inst, name)?;
        self.take_form(number, form)
    }

    /// Takes a read line.
    #[inline(never)]
    pub(crate) fn take_read(
        &mut self,
        alloc: Global,
        number: u32,
        name: &[u8],
        rid: &[u8],
    ) -> Result<bool, Memory>
        requires few { length self.old < 100000 }
        ensures { IfOk result (IsTakenOf self.old number (codes "read" ∷ name.now ∷ rid.now ∷ []) self.new) }
    {
        let form = read_of(alloc, name, rid, &self.begun)?;
        self.take_form(number, form)
    }

    /// Takes a write line.
    #[inline(never)]
    pub(crate) fn take_write(
        &mut self,
        alloc: Global,
        number: u32,
        name: &[u8],
        rid: &[u8],
        value: &[u8],
    ) -> Result<bool, Memory>
        requires few { length self.old < 100000 }
        ensures { IfOk result (IsTakenOf self.old number (codes "write" ∷ name.now ∷ rid.now ∷ value.now ∷ []) self.new) }
    {
        let form = write_of(alloc, name, rid, value, &self.begun)?;
        self.take_form(number, form)
    }

    /// Takes an add line.
    #[inline(never)]
    pub(crate) fn take_add(
        &mut self,
        alloc: Global,
        number: u32,
        name: &[u8],
        rid: &[u8],
        by: &[u8],
    ) -> Result<bool, Memory>
        requires few { length self.old < 100000 }
        ensures { IfOk result (IsTakenOf self.old number (codes "add" ∷ name.now ∷ rid.now ∷ plain_number by.now ∷ []) self.new) }
    {
        let form = add_of(alloc, name, rid, by, &self.begun)?;
        self.take_form(number, form)
    }

    /// Takes an insert line that gives no capacity.
    #[inline(never)]
    pub(crate) fn take_insert(
        &mut self,
        alloc: Global,
        number: u32,
        name: &[u8],
        page: &[u8],
        value: &[u8],
    ) -> Result<bool, Memory>
        requires few { length self.old < 100000 }
        ensures { IfOk result (IsTakenOf self.old number (codes "insert" ∷ name.now ∷ page.now ∷ value.now ∷ []) self.new) }
    {
        let form = insert_of(alloc, name, page, value, None, &self.begun)?;
        self.take_form(number, form)
    }

    /// Takes a commit line.
    #[inline(never)]
    pub(crate) fn take_commit(
        &mut self,
        alloc: Global,
        number: u32,
        name: &[u8],
    ) -> Result<bool, Memory>
        requires few { length self.old < 100000 }
        ensures { IfOk result (IsTakenOf self.old number (codes "commit" ∷ name.now ∷ []) self.new) }
    {
        let form = commit_of(alloc, name, &self.begun)?;
        self.take_form(number, form)
    }

    /// Takes a line of some form, which the names that were begun gave, if it may come next, and tells whether it did.
    #[inline(never)]
    pub(crate) fn take_other(&mut self, number: u32, form: Option<Form>) -> Result<bool, Memory>
        requires few { length self.old < 100000 }
        requires form { (words : List (List ℕ)) × IsFormOf (ordinal_of (begun self.old)) words form }
        ensures { (words : List (List ℕ)) → IsFormOf (ordinal_of (begun self.old)) words form →
            IfOk result (IsTakenOf self.old number words self.new) }
    {
        self.take_form(number, form)
    }

    #[inline(always)]
    fn take_form(&mut self, number: u32, form: Option<Form>) -> Result<bool, Memory>
        requires few { length self.old < 100000 }
        requires form { (words : List (List ℕ)) × IsFormOf (ordinal_of (begun self.old)) words form }
        ensures { (words : List (List ℕ)) → IsFormOf (ordinal_of (begun self.old)) words form →
            IfOk result (IsTakenOf self.old number words self.new) }
    {
        let Some(form) = form else {
            return Ok(false);
        };
        if !self.admits(&form) {
            return Ok(false);
        }
        self.take(Line {
            number,
            session: 0,
            form,
        })
    }

    /// The names that were begun.
    pub(crate) fn names(&self) -> &Names
        ensures { (name : List ℕ) → IsName name → known result.now name ≡ ordinal_of (begun self.now) name }
    {
        &self.begun
    }

    // Whether a line of this form may come next, if it begins no name again.
    #[inline(always)]
    fn admits(&self, form: &Form) -> bool
        ensures { IsTrue result ↔ FormFits self.now form.now }
    {
        match form {
            Form::Complex { .. } => self.lines.is_empty(),
            Form::Begin { inst, .. } => self.has_inst(*inst),
            Form::Read { rid, .. }
            | Form::Write { rid, .. }
            | Form::Add { rid, .. }
            | Form::Delete { rid, .. } => self.has_page(rid.page),
            Form::Insert { page, .. } | Form::Where { page } => self.has_page(*page),
            Form::Save { .. } | Form::Back { .. } | Form::Rollback { .. } | Form::Commit { .. } =>
                true,
            Form::Ask { inst, page, .. }
            | Form::Give { inst, page }
            | Form::Take { inst, page }
            | Form::Evict { inst, page }
            | Form::Flush { inst, page } => self.has_inst(*inst) && self.has_page(*page),
            Form::Force { inst }
            | Form::CheckBegin { inst }
            | Form::CheckEnd { inst }
            | Form::Fail { inst }
            | Form::Join { inst } => self.has_inst(*inst),
            Form::Recover { by, .. } => self.has_inst(*by),
            Form::Fuse { .. }
            | Form::Fault { .. }
            | Form::FailAll { .. }
            | Form::Reopen
            | Form::RecoverAll
            | Form::JoinAll => !self.lines.is_empty(),
            Form::Table => !self.lines.is_empty() && self.tables < TABLES,
        }
    }

    pub(crate) fn has_inst(&self, inst: InstNo) -> bool
        ensures { IsTrue result ↔ (inst ≤ insts_of self.now) }
    {
        inst.get() <= self.insts
    }

    pub(crate) fn has_page(&self, page: PageNo) -> bool
        ensures { IsTrue result ↔ (page < pages_of self.now) }
    {
        page.get() < self.pages
    }

    // Takes the line behind the others, unless it begins a name again, and tells whether it did.
    #[inline(always)]
    fn take(&mut self, line: Line) -> Result<bool, Memory>
        requires form { IsForm line.form }
        requires follows { IsFresh self.old line.form → Follows self.old line.form }
        requires few { length self.old ≤ 100000 }
        ensures { IfOk result (IsTakenIf self.old line self.new) }
    {
        let ready = make_ready(&mut self.lines, &mut self.begun, self.begins, &line.form);
        if !is_ready(&ready) {
            return ready;
        }
        self.begins = begins_behind(self.begins, &line.form);
        self.insts = insts_behind(self.insts, &line.form);
        self.pages = pages_behind(self.pages, &line.form);
        self.tables = tables_behind(self.tables, &line.form);
        self.lines.push_reserved(line);
        Ok(true)
    }
}

#[inline(always)]
fn is_ready(ready: &Result<bool, Memory>) -> bool
    ensures { IsTrue result ↔ (ready.now ≡ Ok true) }
{
    matches!(ready, Ok(true))
}

// Makes room for one more line of this form, and gives the name that it begins, if it begins one, this ordinal. It tells whether
// the name had none. Else, and after `Memory`, the lines and the names are as before.
#[inline(always)]
fn make_ready(
    lines: &mut Vec<Line>,
    names: &mut Names,
    begins: u32,
    form: &Form,
) -> Result<bool, Memory>
    requires { IsForm form.now }
    ensures lines { lines.new.items ≡ lines.old.items }
    ensures room { result ≡ Ok true → vec_len lines.new < vec_capacity lines.new }
    ensures new { IfOk result (λ new. IsTrue new ↔ IsUnknown (known names.old) form.now) }
    ensures names { result ≡ Ok true → (name : List ℕ) → IsName name →
        known names.new name ≡ known_after (known names.old) begins form.now name }
    ensures same { (result ≡ Ok true → ⊥) → (name : List ℕ) → known names.new name ≡ known names.old name }
{
    lines.reserve(1)?;
    begin(names, begins, form)
}

// Whether a line of these bytes and this number, which ends at this byte of the text, is within the limits, be it no table line.
fn has_room_for(bytes: &[u8], number: u32, end: usize) -> bool
    ensures { IsTrue result ↔ ((length bytes.now ≤ 1024) × (number ≤ 100000) × (end ≤ 4194304)) }
{
    bytes.len() <= LINE_BYTES && number <= LINES && end <= TEXT_BYTES
}

fn bad_line(line: u32, cause: LineError) -> Refusal
    ensures { result ≡ refusal.BadLine line cause }
{
    Refusal::BadLine { line, cause }
}

// Gives the name that the form begins, if it begins one, this ordinal, and tells whether it had none. Else, and after `Memory`, all
// is as before.
#[inline(always)]
fn begin(names: &mut Names, begins: u32, form: &Form) -> Result<bool, Memory>
    requires { IsForm form.now }
    ensures new { IfOk result (λ new. IsTrue new ↔ IsUnknown (known names.old) form.now) }
    ensures names { IfOk result (λ new. IsTrue new → (name : List ℕ) → IsName name →
        known names.new name ≡ known_after (known names.old) begins form.now name) }
    ensures same { IfOk result (λ new. ¬ IsTrue new → (name : List ℕ) → known names.new name ≡ known names.old name) }
    ensures stays { OnErr result ((name : List ℕ) → known names.new name ≡ known names.old name) }
{
    if let Form::Begin { name, .. } = form {
        return names.add(name.items(), begins);
    }
    Ok(true)
}

fn begins_behind(before: u32, form: &Form) -> u32
    requires { before ≤ 100000 }
    ensures { result ≡ begins_after before form.now }
{
    match form {
        Form::Begin { .. } => before + 1,
        _ => before,
    }
}

fn insts_behind(before: u8, form: &Form) -> u8
    ensures { result ≡ insts_after before form.now }
{
    match form {
        Form::Complex { insts, .. } => insts.get(),
        _ => before,
    }
}

fn pages_behind(before: u16, form: &Form) -> u16
    ensures { result ≡ pages_after before form.now }
{
    match form {
        Form::Complex { pages, .. } => *pages,
        _ => before,
    }
}

fn tables_behind(before: u8, form: &Form) -> u8
    requires { IsTrue (is_table form.now) → before < 64 }
    ensures { result ≡ tables_after before form.now }
{
    match form {
        Form::Table => before + 1,
        _ => before,
    }
}
