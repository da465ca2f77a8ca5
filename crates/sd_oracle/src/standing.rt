//! What a transaction is at one moment, and look-ups in lists of changes.

ghost use Rattle.std.specs.Prelude.{◌≡◌, ◌++◌, ◌∷◌, [], IfOk, OnOk, option_copied, filter, leb, ℕ, List};
ghost use Rattle.sd_model.specs.State.{gone, begun_part, took_part, with_life, lost_part};
ghost use Rattle.sd_model.specs.Claims.{raised_claim};
ghost use Rattle.sd_model.specs.Changes.{mark_of, with_mark, swept_part, undid_part};
ghost use Rattle.sd_oracle.specs.Lists.{part_of, part_at, part_in, claims_in, inst_in};

use crate::values::count_live;
use crate::wholes::{is_swept, lost};
use sd_base::{Duplicate, InstNo, Memory, Rid, Sequence, Status, TxnId, Word};
use sd_model::{Act, Claim, Inst, Life};
use std::alloc::Global;

/// What a transaction is at one moment: claims are in the order in which they were asked for.
#[derive(Drop)]
pub struct Standing {
    pub life: Life,
    pub acts: Sequence<Act>,
    pub marks: Sequence<(Word, usize)>,
    pub claims: Sequence<(Rid, Claim)>,
}

impl Standing {
    /// One that has just begun.
    pub fn started(alloc: Global) -> Standing
        ensures { part_of result ≡ begun_part }
    {
        Standing::bare(alloc, Life::Running)
    }

    /// One that isn't there.
    pub fn gone(alloc: Global) -> Standing
        ensures { part_of result ≡ gone }
    {
        Standing::bare(alloc, Life::Gone)
    }

    fn bare(alloc: Global, life: Life) -> Standing
        ensures { part_of result ≡ with_life life gone }
    {
        Standing {
            life,
            acts: Sequence::of(Vec::new(alloc)),
            marks: Sequence::of(Vec::new(alloc)),
            claims: Sequence::of(Vec::new(alloc)),
        }
    }

    /// An equal one.
    pub fn copied(&self, alloc: Global) -> Result<Standing, Memory>
        ensures { IfOk result (λ s. part_of s ≡ part_of self.now) }
    {
        Ok(Standing {
            life: self.life,
            acts: self.acts.copy()?,
            marks: copy_marks(alloc, self.marks.items())?,
            claims: copy_claims(alloc, self.claims.items())?,
        })
    }

    /// The same where its instance fails.
    pub fn lost(&self, alloc: Global) -> Result<Standing, Memory>
        ensures { IfOk result (λ s. part_of s ≡ lost_part (part_of self.now)) }
    {
        let claims = copy_claims(alloc, self.claims.items())?;
        Ok(Standing {
            life: lost(self.life),
            acts: self.acts.copy()?,
            marks: Sequence::of(Vec::new(alloc)),
            claims,
        })
    }

    /// What is left of it once its instance is recovered.
    pub fn swept(&self, alloc: Global) -> Result<Standing, Memory>
        ensures { IfOk result (λ s. part_of s ≡ swept_part (part_of self.now)) }
    {
        if is_swept(self.life) {
            return Ok(Standing::gone(alloc));
        }
        self.copied(alloc)
    }

    /// The same with its last live put undone.
    pub fn undid(&self, alloc: Global) -> Result<Standing, Memory>
        ensures { IfOk result (λ s. part_of s ≡ undid_part (part_of self.now)) }
    {
        let left = count_live(self.acts.items()).saturating_sub(1);
        Ok(Standing {
            life: self.life,
            acts: longer(alloc, self.acts.items(), &[Act::Undo])?,
            marks: lasting(alloc, self.marks.items(), left)?,
            claims: copy_claims(alloc, self.claims.items())?,
        })
    }

    /// The same with a claim and acts more.
    pub fn took(
        &self,
        alloc: Global,
        rid: Rid,
        mode: Claim,
        acts: &[Act],
    ) -> Result<Standing, Memory>
        ensures { IfOk result (λ s. part_of s ≡ took_part rid mode acts.now (part_of self.now)) }
    {
        Ok(Standing {
            life: self.life,
            acts: longer(alloc, self.acts.items(), acts)?,
            marks: copy_marks(alloc, self.marks.items())?,
            claims: claimed(alloc, self.claims.items(), rid, mode)?,
        })
    }
}

// The acts, and more of them.
fn longer(alloc: Global, acts: &[Act], more: &[Act]) -> Result<Sequence<Act>, Memory>
    ensures { IfOk result (λ s. s ≡ acts.now ++ more.now) }
{
    let mut all = Vec::with_capacity(alloc, acts.len())?;
    add_acts(&mut all, acts)?;
    add_acts(&mut all, more)?;
    Ok(Sequence::of(all))
}

fn add_acts(all: &mut Vec<Act>, acts: &[Act]) -> Result<(), Memory>
    ensures { OnOk result (all.new.items ≡ all.old.items ++ acts.now) }
{
    for act in acts {
        all.push(act.copy()?)?;
    }
    Ok(())
}

fn copy_marks(alloc: Global, marks: &[(Word, usize)]) -> Result<Sequence<(Word, usize)>, Memory>
    ensures { IfOk result (λ s. s ≡ marks.now) }
{
    let mut all = Vec::with_capacity(alloc, marks.len())?;
    for mark in marks {
        add_mark(&mut all, &mark.0, mark.1)?;
    }
    Ok(Sequence::of(all))
}

fn add_mark(marks: &mut Vec<(Word, usize)>, name: &Word, count: usize) -> Result<(), Memory>
    ensures { OnOk result (marks.new.items ≡ marks.old.items ++ (name.now, count) ∷ []) }
{
    let copied = name.copy()?;
    marks.push((copied, count))?;
    Ok(())
}

/// The marks with one more, in place of the first of its name.
pub fn with_mark(
    alloc: Global,
    marks: &[(Word, usize)],
    name: &Word,
    count: usize,
) -> Result<Sequence<(Word, usize)>, Memory>
    ensures { IfOk result (λ s. s ≡ with_mark name.now count marks.now) }
{
    let mut all = Vec::with_capacity(alloc, marks.len())?;
    let mut found = false;
    for mark in marks {
        if !found && name.items() == mark.0.items() {
            add_mark(&mut all, name, count)?;
            found = true;
        } else {
            add_mark(&mut all, &mark.0, mark.1)?;
        }
    }
    if !found {
        add_mark(&mut all, name, count)?;
    }
    Ok(Sequence::of(all))
}

// The marks with at most so many live puts.
fn lasting(
    alloc: Global,
    marks: &[(Word, usize)],
    count: usize,
) -> Result<Sequence<(Word, usize)>, Memory>
    ensures { IfOk result (λ s. s ≡ filter (λ (x : List ℕ × ℕ). leb x.1 count) marks.now) }
{
    let mut all = Vec::with_capacity(alloc, marks.len())?;
    for mark in marks {
        if mark.1 <= count {
            add_mark(&mut all, &mark.0, mark.1)?;
        }
    }
    Ok(Sequence::of(all))
}

fn copy_claims(alloc: Global, claims: &[(Rid, Claim)]) -> Result<Sequence<(Rid, Claim)>, Memory>
    ensures { IfOk result (λ s. s ≡ claims.now) }
{
    Ok(Sequence::of(claims.to_vec(alloc)?))
}

// The claims, and one more.
fn claimed(
    alloc: Global,
    claims: &[(Rid, Claim)],
    rid: Rid,
    mode: Claim,
) -> Result<Sequence<(Rid, Claim)>, Memory>
    ensures { IfOk result (λ s. s ≡ claims.now ++ (rid, mode) ∷ []) }
{
    let mut all = claims.to_vec(alloc)?;
    all.push((rid, mode))?;
    Ok(Sequence::of(all))
}

/// The last standing of the transaction; `None` where it never had one.
pub fn last_standing<'a>(parts: &'a [(TxnId, Standing)], txn: &TxnId) -> Option<&'a Standing>
    ensures { part_at (option_copied result) ≡ part_in parts.now txn.now }
{
    let mut found = None;
    for (owner, standing) in parts {
        if *owner == *txn {
            found = Some(standing);
        }
    }
    found
}

/// The strongest of the claims on the record.
pub fn claim(claims: &[(Rid, Claim)], rid: &Rid) -> Claim
    ensures { result ≡ claims_in claims.now rid.now }
{
    let mut found = Claim::Free;
    for (at, mode) in claims {
        if *at == *rid {
            found = raise(*mode, found);
        }
    }
    found
}

/// The last of the changes of the instance; `rest` is the status of those without a change.
pub fn instance(rest: &Status, insts: &[(InstNo, Inst)], inst: InstNo) -> Inst
    ensures { result ≡ inst_in rest.now insts.now inst }
{
    let mut found = Inst {
        status: *rest,
        epoch: 0,
        begins: 0,
        failed: 0,
    };
    for (number, state) in insts {
        if *number == inst {
            found = *state;
        }
    }
    found
}

/// The number of live puts at the first mark of that name.
pub fn find_mark(marks: &[(Word, usize)], name: &[u8]) -> Option<usize>
    ensures { result ≡ mark_of name.now marks.now }
{
    for (mark, count) in marks {
        if name == mark.items() {
            return Some(*count);
        }
    }
    None
}

fn raise(mode: Claim, old: Claim) -> Claim
    ensures { result ≡ raised_claim mode old }
{
    match (mode, old) {
        (Claim::Free, old) => old,
        (Claim::Shared, Claim::Free) => Claim::Shared,
        (Claim::Shared, old) => old,
        (Claim::Excl, _) => Claim::Excl,
    }
}
